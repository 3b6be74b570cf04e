// The sums of a plan's rows: whether each flow's lies between parts × the lesser and parts × the greater of its rate and its next.
ghost use Rattle.std.specs.Prelude.{◌≡◌, ◌*◌, ◌≤◌, min, max, ◌&&◌, leb, length};
ghost use Rattle.model.specs.Limits.{most_flows, most_steps, most_amount};
ghost use Rattle.model.specs.Net;
ghost use Rattle.model.specs.Rule.{missed_row};
ghost use Rattle.judges.specs.Sums.{Gathered};
ghost use Rattle.lists.specs.Lists.{network_sizes, network_of, plan_sizes, plan_of};
ghost use Rattle.checker.specs.Inner.{FirstMissed, missed_of};

use amounts::pair::Pair;
use lists::Network;
use lists::judged::NetworkList;

const FLOWS: usize = Network::FLOWS as usize;

// The first row that does not add up, and its first flow that does not.
#[derive(Clone, Copy)]
pub(crate) struct Missed {
    pub(crate) row: usize,
    pub(crate) flow: usize,
}

// The sum of each flow's amounts in row a, in one pass over the tunnels. Beside `flow_sums` of the marks, since what is added is the whole contract.
fn row_sums(pair: &Pair<'_>, a: usize) -> [u64; FLOWS]
    requires { a ≤ (plan_sizes pair.now.plan).steps }
    ensures { Gathered (network_of pair.now.network) (Net.row (network_of pair.now.network) (plan_of pair.now.plan) a) (network_of pair.now.network).tunnels result }
{
    let network = pair.network();
    let mut sums = [0; FLOWS];
    for t in 0..network.tunnels() {
        sums[network.flow(t)] += pair.amount(a, t);
    }
    sums
}

// Whether a flow's sum lies between parts × the lesser and parts × the greater of its rate and its next. In edition 1 the first
// comparison settles it.
fn lies_between(sum: u64, parts: u64, rate: u64, next: u64) -> bool
    requires { (parts ≤ most_steps) × (rate ≤ most_amount) × (next ≤ most_amount) }
    ensures { result ≡ (leb (parts * min rate next) sum && leb sum (parts * max rate next)) }
{
    let by_rate = parts * rate;
    if sum == by_rate {
        return true;
    }
    let by_next = parts * next;
    if by_rate < by_next {
        by_rate <= sum && sum <= by_next
    } else {
        by_next <= sum && sum <= by_rate
    }
}

// The first flow whose sum does not lie between. The flow's number is the answer.
fn missed_flow(network: &NetworkList<'_>, parts: u64, sums: &[u64; FLOWS]) -> Option<usize>
    requires { parts ≤ most_steps }
    ensures { FirstMissed (network_of network.now) parts sums.now result }
{
    for f in 0..network.flows() {
        if !lies_between(sums[f], parts, network.rate(f), network.next(f)) {
            return Some(f);
        }
    }
    None
}

// The lowest row in which a flow's sum does not lie between, and the lowest such flow there. The first and the last row are the
// network's own amounts, whose sums do.
pub(crate) fn missed_row(pair: &Pair<'_>) -> Option<Missed>
    ensures { result ≡ missed_of (missed_row (network_of pair.now.network) (plan_of pair.now.plan)) }
{
    let plan = pair.plan();
    for row in 1..plan.steps() {
        let sums = row_sums(pair, row);
        if let Some(flow) = missed_flow(pair.network(), plan.parts(), &sums) {
            return Some(Missed { row, flow });
        }
    }
    None
}
