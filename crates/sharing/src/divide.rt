// The shares.
ghost use Rattle.std.specs.Prelude.{◌≡◌, ◌++◌, ◌≤◌, ◌<◌, ◌^◌, length, drop};
ghost use Rattle.model.specs.Limits.{most_amount};
ghost use Rattle.model.specs.Listed.{listed};
ghost use Rattle.sharing.specs.Share.{share_at, shares};

use crate::demands::Demands;
use crate::level;
use crate::level::Level;

// Gives each service its share at a level, and the units left to the first whose demand is above it.
fn fill(demands: &[u64], level: Level, out: &mut [u64])
    requires { (length demands.now ≤ length out.old) × (level.at < 2 ^ 63) }
    ensures { out.new ≡ listed (length demands.now) (share_at demands.now level.at level.left) ++ drop (length demands.now) out.old }
{
    let t = level.at;
    let mut left = level.left;
    // An index, since each demand's share has the same place in `out`.
    for i in 0..demands.len() {
        let demand = demands[i];
        let one = level::is_above(demand, t).min(left);
        out[i] = demand.min(t) + one;
        left -= one;
    }
}

// Shares a rate, where all is in range and there is room. Where each demand is met, none is above the rate, and it serves as the level.
pub(crate) fn give(rate: u64, demands: &Demands<'_>, out: &mut [u64])
    requires { (rate ≤ most_amount) × (length demands.now ≤ length out.old) }
    ensures { out.new ≡ shares rate demands.now ++ drop (length demands.now) out.old }
{
    // Two calls, so that the compiler knows in the first that no unit is left.
    if demands.sum() <= rate {
        fill(demands.list(), Level { at: rate, left: 0 }, out);
    } else {
        fill(demands.list(), level::find(rate, demands), out);
    }
}
