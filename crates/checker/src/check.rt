// The check of a plan against a network.
ghost use Rattle.std.specs.Prelude.{◌≡◌, ◌≤◌, length};
ghost use Rattle.model.specs.Limits.{most_lag};
ghost use Rattle.model.specs.Outcome.{Outcome};
ghost use Rattle.model.specs.Rule.{first_overload};
ghost use Rattle.lists.specs.Lists.{network_sizes, network_of, plan_of};
ghost use Rattle.checker.specs.Check.{verdict, checked_count, marks_after};

use crate::marks::Window;
use crate::{marks, pair};
use amounts::pair::Pair;
use lists::Network;
use lists::refusal::{Cause, Refusal};
use overloads::steps;

// The steps, and the marks that go with what is found.
fn check_steps(lag: u64, pair: &Pair<'_>, marks: &mut [u8]) -> Result<usize, Refusal>
    requires { (1 ≤ lag) × (lag ≤ most_lag) × ((network_sizes pair.now.network).tunnels ≤ length marks.old) }
    ensures value { result ≡ checked_count pair.now.network (Outcome.good (first_overload lag (network_of pair.now.network) (plan_of pair.now.plan))) }
    ensures marks_after { marks.new ≡ marks_after lag pair.now.network pair.now.plan (Outcome.good (first_overload lag (network_of pair.now.network) (plan_of pair.now.plan))) marks.old }
{
    let n = pair.network().tunnels();
    let Some(overload) = steps::first_overload(lag, pair) else {
        marks::clear(n, marks);
        return Ok(n);
    };
    let window = Window {
        pair,
        lag,
        row: overload.row,
        link: overload.link,
    };
    window.mark(marks);
    let step = overload.row + 1;
    Err(Refusal {
        cause: overload.cause,
        place: step as u64,
        second: overload.link as u64,
    })
}

// Checks anybody's plan, at a lag of 1 to 4. Gives the number of tunnels, whose marks are then 0.
pub fn check_plan(
    lag: u64,
    network: &[u64],
    plan: &[u64],
    marks: &mut [u8],
) -> Result<usize, Refusal>
    ensures value { result ≡ checked_count network.now (verdict lag network.now plan.now (length marks.old)) }
    ensures marks_after { marks.new ≡ marks_after lag network.now plan.now (verdict lag network.now plan.now (length marks.old)) marks.old }
{
    if !Network::is_lag(lag) {
        return Err(Refusal {
            cause: Cause::LagOutside,
            place: lag,
            second: 0,
        });
    }
    let pair = pair::judge_pair(network, plan)?;
    let n = pair.network().tunnels();
    if marks.len() < n {
        return Err(Refusal::no_room(n));
    }
    check_steps(lag, &pair, marks)
}
