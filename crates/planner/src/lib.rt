//! The planner: the even plan of fewest steps that is accepted.
#![tactic(auto)]

ghost use Rattle.std.specs.Prelude.{◌≡◌, ◌≤◌, length};
ghost use Rattle.model.specs.Limits.{most_lag};
ghost use Rattle.lists.specs.Answers.{with_room, lent};
ghost use Rattle.lists.specs.Refusals.{counted};
ghost use Rattle.lists.specs.Lists.{network_of};
ghost use Rattle.planner.specs.Planned.{even_plan, planned};

use judges::judge;
use link_sums::sums::NetworkSums;
use link_sums::table::Tables;
use lists::Network;
use lists::judged::NetworkList;
use lists::refusal::{Cause, Refusal};

mod rows;
mod steps;

// Plans for a network.
fn plan_good(lag: u64, network: &NetworkList<'_>, out: &mut [u64]) -> Result<usize, Refusal>
    requires { lag ≤ most_lag }
    ensures value { result ≡ counted (with_room (length out.old) (even_plan lag (network_of network.now))) }
    ensures out_after { out.new ≡ lent (with_room (length out.old) (even_plan lag (network_of network.now))) out.old }
{
    let mut tables = Tables::new();
    let sums = NetworkSums::of(network, &mut tables);
    let Some(q) = steps::fewest_steps(lag, &sums) else {
        return Err(steps::first_overload(lag, &sums));
    };
    let sizes = rows::plan_sizes(network, q);
    let size = sizes.row_at(sizes.steps);
    if out.len() < size {
        return Err(Refusal::no_room(size));
    }
    rows::write_plan(network, q, out);
    Ok(size)
}

// Makes the even plan of fewest steps for agents that may be as many rows behind as the lag says. Refuses a number that is no lag, a list that is no network, a
// network that no even plan of 1 to 50 steps suits, and an output without room; a refusal leaves the output as it was.
pub fn make_plan(lag: u64, network: &[u64], out: &mut [u64]) -> Result<usize, Refusal>
    ensures value { result ≡ counted (with_room (length out.old) (planned lag network.now)) }
    ensures out_after { out.new ≡ lent (with_room (length out.old) (planned lag network.now)) out.old }
{
    if !Network::is_lag(lag) {
        return Err(Refusal {
            cause: Cause::LagOutside,
            place: lag,
            second: 0,
        });
    }
    let network = judge::judge_network(network)?;
    plan_good(lag, &network, out)
}
