// The level that a rate reaches.
ghost use Rattle.std.specs.Prelude.{◌≡◌, cond, ◌-◌, ◌≤◌, ◌<◌, leb, ltb, length};
ghost use Rattle.model.specs.Limits.{most_amount};
ghost use Rattle.sharing.specs.Share as share;
ghost use Rattle.sharing.specs.Inner.{met_by};

use crate::demands::Demands;

// A level, and the units left over at it.
#[derive(Clone, Copy)]
pub(crate) struct Level {
    pub at: u64,
    pub left: u64,
}

// What a level makes of the demands: those that it meets, added up, and how many are above it.
#[derive(Clone, Copy)]
struct Parts {
    met: u64,
    above: u64,
}

// A demand that a level meets, else 0.
fn met(demand: u64, level: u64) -> u64
    ensures value { result ≡ cond (leb demand level) demand 0 }
    ensures upper_bound { result ≤ demand }
{
    if demand <= level { demand } else { 0 }
}

// One for a demand above a level.
pub(crate) fn is_above(demand: u64, level: u64) -> u64
    ensures value { result ≡ cond (ltb level demand) 1 0 }
    ensures upper_bound { result ≤ 1 }
{
    if level < demand { 1 } else { 0 }
}

// What a level makes of the demands, in one pass.
fn split(demands: &Demands<'_>, level: u64) -> Parts
    ensures { (result.met ≡ met_by demands.now level (length demands.now)) × (result.above ≡ share.above demands.now level (length demands.now)) }
{
    let mut sum: u64 = 0;
    let mut above: u64 = 0;
    for &demand in demands.list() {
        sum += met(demand, level);
        above += is_above(demand, level);
    }
    Parts { met: sum, above }
}

// The largest level that the rate reaches. What the met demands leave of the rate, divided among the others, is a level that it reaches. If it
// meets no other demand, no higher level is reached; if it does, these go to the met ones. So each round but the last meets one more: there
// are at most 16.
pub(crate) fn find(rate: u64, demands: &Demands<'_>) -> Level
    requires { (rate ≤ most_amount) × (rate < share.total demands.now) }
    ensures { (result.at ≡ share.level rate demands.now) × (result.left ≡ rate - share.up_to demands.now result.at) }
{
    let mut met: u64 = 0;
    let mut above = demands.list().len() as u64;
    loop {
        let free = rate - met;
        let at = free / above;
        let parts = split(demands, at);
        if parts.above == above {
            let used = above * at;
            let left = free - used;
            return Level { at, left };
        }
        met = parts.met;
        above = parts.above;
    }
}
