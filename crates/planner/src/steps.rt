// The fewest even steps, and where the plan of 50 steps overloads first, by the three sums. No plan is built for it: with O, N and M the sums of the old
// amounts, the new ones and the larger of the two, and m rows after the first in each window, the worst load of a link in the window from row i of q steps is
// (q - i - m) * O + i * N + m * M. It goes up or down with i, so its largest stands in the first window or in the last.
ghost use Rattle.std.specs.Prelude.{◌≡◌, ◌+◌, ◌*◌, ◌≤◌, ◌<◌, ◌^◌, Err};
ghost use Rattle.model.specs.Limits.{most_steps, most_lag, most_amount};
ghost use Rattle.model.specs.Rule.{first_overload};
ghost use Rattle.model.specs.Even.{even, fewest};
ghost use Rattle.lists.specs.Refusals.{counted};
ghost use Rattle.lists.specs.Lists.{network_sizes, network_of};
ghost use Rattle.link_sums.specs.Tables.{Few};
ghost use Rattle.planner.specs.Sums.{step_sum, end_sum};
ghost use Rattle.planner.specs.Planned.{stuck};
ghost use Rattle.planner.specs.Search.{answered, is_over, is_short, is_over_in, FewestOn};

use link_sums::sums::NetworkSums;
use link_sums::table::LinkSums;
use lists::Network;
use lists::judged::NetworkList;
use lists::refusal::{Cause, Refusal};

// What is left of a link's capacity.
fn capacity(network: &NetworkList<'_>, link: usize) -> u64
    requires { link < (network_sizes network.now).links }
    ensures value { result ≡ (network_of network.now).cap link }
    ensures most { result ≤ most_amount }
{
    let sizes = network.sizes();
    let list = network.numbers();
    list[sizes.link_at(link)] - sizes.held(list, link)
}

// The worst load of a link in the window from the given row, of the plan of 50 steps.
fn step_load(lag: u64, sums: LinkSums, row: u64) -> u64
    requires { Few sums × (row + lag ≤ most_steps) }
    ensures { result ≡ step_sum sums lag most_steps row }
{
    (Network::STEPS - (row + lag)) * sums.old + row * sums.new + lag * sums.peak
}

// The larger of a link's worst loads in the first window and in the last, of the plan of q steps with the given number of rows after the first in each window:
// no window's load is larger.
fn end_load(more: u64, sums: LinkSums, q: u64) -> u64
    requires { Few sums × (more ≤ q) × (q ≤ most_steps) }
    ensures { result ≡ end_sum sums more q }
{
    let most = sums.old.max(sums.new);
    (q - more) * most + more * sums.peak
}

// Do the loads of a link, of the protected classes and of all, break a bound in a plan of the given number of parts?
fn is_over(network: &NetworkList<'_>, parts: u64, link: usize, protected: u64, all: u64) -> bool
    requires { (parts ≤ most_steps) × (link < (network_sizes network.now).links) × (1000 * all < 2 ^ 64) }
    ensures { result ≡ is_over (network_of network.now) parts link protected all }
{
    let room = parts * capacity(network, link);
    room < protected || (1000 + network.overrun()) * room < 1000 * all
}

// Does the even plan of q steps break a bound on the link? Its windows have as many rows after the first as the lag says, or all that there are.
fn is_short(lag: u64, sums: &NetworkSums, q: u64, link: usize) -> bool
    requires { (q ≤ most_steps) × (link < (network_sizes sums.now).links) }
    ensures { result ≡ is_short lag (network_of sums.now) q link }
{
    let network = sums.network();
    let more = lag.min(q);
    let worst = end_load(more, sums.protected(link), q);
    let worst_of_all = end_load(more, sums.all(link), q);
    is_over(network, q, link, worst, worst_of_all)
}

// The fewest steps, at least so many, whose even plan breaks no bound on the link.
fn fewest_on(lag: u64, sums: &NetworkSums, least: u64, link: usize) -> Option<u64>
    requires { (1 ≤ least) × (least ≤ most_steps) × (link < (network_sizes sums.now).links) }
    ensures { FewestOn lag (network_of sums.now) least link result }
{
    for q in least..Network::STEPS + 1 {
        if !is_short(lag, sums, q, link) {
            return Some(q);
        }
    }
    None
}

// More steps never do worse on a link. So where a plan breaks a bound on one, the next larger is tried from that link on.
pub fn fewest_steps(lag: u64, sums: &NetworkSums) -> Option<u64>
    ensures { result ≡ answered (fewest lag (network_of sums.now)) }
{
    let mut q = 1;
    for link in 0..sums.network().links() {
        q = fewest_on(lag, sums, q, link)?;
    }
    Some(q)
}

// Does the plan of 50 steps break a bound on the link in the window from the given row?
fn is_over_in(lag: u64, sums: &NetworkSums, row: u64, link: usize) -> bool
    requires { (row + lag ≤ most_steps) × (link < (network_sizes sums.now).links) }
    ensures { result ≡ is_over_in lag (network_of sums.now) row link }
{
    let network = sums.network();
    let worst = step_load(lag, sums.protected(link), row);
    let worst_of_all = step_load(lag, sums.all(link), row);
    is_over(network, Network::STEPS, link, worst, worst_of_all)
}

// Where the plan of 50 steps first overloads: windows ascending, within a window links ascending. A window is named by the step that leads from its first row.
pub fn first_overload(lag: u64, sums: &NetworkSums) -> Refusal
    requires { lag ≤ most_lag }
    ensures { Err result ≡ counted (stuck (first_overload lag (network_of sums.now) (even (network_of sums.now) most_steps))) }
{
    let links = sums.network().links();
    let windows = Network::STEPS + 1 - lag;
    let mut place: u64 = 0;
    let mut second: u64 = 0;
    'steps: for row in 0..windows {
        for link in 0..links {
            if is_over_in(lag, sums, row, link) {
                place = row + 1;
                second = link as u64;
                break 'steps;
            }
        }
    }
    Refusal {
        cause: Cause::NoEvenPlan,
        place,
        second,
    }
}
