// A network and a plan, judged together.
ghost use Rattle.std.specs.Prelude.{◌≡◌};
ghost use Rattle.checker.specs.Check.{judge_rows, judge_pair};
ghost use Rattle.checker.specs.Inner.{paired};

use crate::sums;
use amounts::pair::Pair;
use judges::judge;
use lists::judged::{NetworkList, PlanList};
use lists::refusal::{Cause, Refusal};

// The tunnels of a plan, then its rows, for lists that are judged good each.
fn judge_rows<'a>(network: NetworkList<'a>, plan: PlanList<'a>) -> Result<Pair<'a>, Refusal>
    ensures { result ≡ paired network.entry (judge_rows network.entry plan.entry) }
{
    if plan.sizes().tunnels != network.tunnels() {
        return Err(Refusal {
            cause: Cause::OtherTunnels,
            place: 4,
            second: 1,
        });
    }
    let pair = Pair::new(network, plan);
    match sums::missed_row(&pair) {
        None => Ok(pair),
        Some(missed) => Err(Refusal {
            cause: Cause::MissedRow,
            place: missed.row as u64,
            second: missed.flow as u64,
        }),
    }
}

// Judges anybody's network and plan: 2 to 4 of the network, 2 and 3 of the plan, 5 and 6.
pub fn judge_pair<'a>(network: &'a [u64], plan: &'a [u64]) -> Result<Pair<'a>, Refusal>
    ensures { result ≡ paired network.now (judge_pair network.now plan.now) }
{
    let network = judge::judge_network(network)?;
    let plan = judge::judge_plan(plan)?;
    judge_rows(network, plan)
}
