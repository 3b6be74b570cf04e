// With `unit=1` the loads are gathered flow by flow: of a flow's sums on a link in the rows of a window, the largest counts. The
// tunnels of a flow are chained, a linked list from the last down, so that none is looked at for another flow.
ghost use Rattle.std.specs.Prelude.{◌≡◌, ◌*◌, ◌^◌, ◌≤◌, ◌<◌, length};
ghost use Rattle.model.specs.Limits.{most_links, most_flows, most_tunnels};
ghost use Rattle.model.specs.Sets.{in_set};
ghost use Rattle.lists.specs.Lists.{at, network_of};
ghost use Rattle.loads.specs.Parts.{number_of};
ghost use Rattle.loads.specs.Tables.{number_at, LoadsWithin, AddedOn};
ghost use Rattle.loads.specs.Windows.{WidenedOn};
ghost use Rattle.loads.specs.Flows.{chain_end, Chains, Downward, ChainSums, SumsWithin, FlowLoads};

use crate::amounts::Amounts;
use crate::gather::{LOADS, Part, ROWS};
use crate::{gather, windows};
use lists::Network;
use lists::judged::NetworkList;

const FLOWS: usize = Network::FLOWS as usize;

const TUNNELS: usize = Network::TUNNELS as usize;

// The numbers of a table of sums, which has a vector for each link.
const SUMS: usize = ROWS * Network::LINKS as usize;

// The chains: the last tunnel of each flow, and the one of the same flow before each tunnel. In arrays, since there is no heap.
#[derive(Drop)]
struct FlowChains {
    last: [Option<usize>; FLOWS],
    prior: [Option<usize>; TUNNELS],
}

impl FlowChains {
    fn of(network: &NetworkList<'_>) -> FlowChains
        ensures { Chains (network_of network.now).flow (network_of network.now).tunnels result.last result.prior }
    {
        let mut last = [None; FLOWS];
        let mut prior = [None; TUNNELS];
        for t in 0..network.tunnels() {
            let f = network.flow(t);
            prior[t] = last[f];
            last[f] = Some(t);
        }
        FlowChains { last, prior }
    }
}

// The sums, row by row, of the tunnels of the chain that ends with tunnel `last`, and a set of links that has all that they cross.
fn chain_sums(
    network: &NetworkList<'_>,
    prior: &[Option<usize>; TUNNELS],
    last: Option<usize>,
    amounts: &Amounts,
    sums: &mut [u64; SUMS],
) -> u64
    requires { (chain_end last ≤ (network_of network.now).tunnels) × Downward prior.now (chain_end last) }
    ensures { ChainSums (network_of network.now).links (network_of network.now).via prior.now (chain_end last) amounts.now.numbers result sums.new }
{
    let links = network.links();
    gather::clear(links, sums);
    let mut set = 0u64;
    let mut from = last;
    while let Some(t) = from {
        let via = network.via(t);
        gather::add_tunnel(links, &amounts.numbers, t, via, sums, 1, 0);
        set = set | via;
        from = prior[t];
    }
    set
}

// Adds the largest sums of the windows to the loads of the links of a set. They take the place of the sums.
fn add_largest(
    links: usize,
    set: u64,
    part: Part,
    times: usize,
    sums: &mut [u64; SUMS],
    loads: &mut [u64; LOADS],
)
    requires { (links ≤ most_links) × (set < 2 ^ links) × SumsWithin links sums.old × LoadsWithin links (most_flows * most_tunnels) loads.old }
    ensures widened_on { WidenedOn times (in_set set) sums.old sums.new }
    ensures added_on { AddedOn links (in_set set) (λ l k. at sums.new (number_at l k)) 2 (number_of part) loads.old loads.new }
{
    let mut left = set;
    while left != 0 {
        let link = u64::trailing_zeros(left) as usize;
        windows::widen_by(times, sums, link);
        gather::add_vector(sums, link, loads, 2 * link + part.number());
        left = left & (left - 1);
    }
}

// The loads of the links, whatever is in the table before: each flow adds, on each link, the largest of its sums in a window.
pub fn gather_flows(
    network: &NetworkList<'_>,
    times: usize,
    amounts: &Amounts,
    loads: &mut [u64; LOADS],
)
    ensures loads_within { LoadsWithin (network_of network.now).links (most_flows * most_tunnels) loads.new }
    ensures flow_loads { FlowLoads (network_of network.now).links (network_of network.now).via (network_of network.now).flow (network_of network.now).tunnels (network_of network.now).class (network_of network.now).flows times amounts.now.numbers loads.new }
{
    let links = network.links();
    let chains = FlowChains::of(network);
    let mut sums = [0u64; SUMS];
    gather::clear(2 * links, loads);
    for f in 0..network.flows() {
        let set = chain_sums(network, &chains.prior, chains.last[f], amounts, &mut sums);
        let part = Part::of(network.class(f));
        add_largest(links, set, part, times, &mut sums, loads);
    }
}
