// The tables where a flow moves as a whole: of the sums of its old and of its new amounts on a link the larger counts.
ghost use Rattle.std.specs.Prelude.{◌≡◌, true, ◌≤◌, ◌<◌, replicate};
ghost use Rattle.model.specs.Limits.{most_links, most_amount};
ghost use Rattle.model.specs.Rule.{by_flow, movers};
ghost use Rattle.model.specs.Sets.{in_set};
ghost use Rattle.lists.specs.Lists.{network_sizes, network_of};
ghost use Rattle.lists.specs.Good.{GoodNetwork};
ghost use Rattle.link_sums.specs.Tables.{none, most_sums, Room, Split, FlowRoom, FlowAdded, FlowSums, NoneOutside, SumsAdded, WithFlow};

use crate::chains::Chains;
use crate::table::{LinkSums, Tables};
use crate::{LINKS, table};

// The amounts of a flow on a link, those of its tunnels together.
#[derive(Clone, Copy)]
struct Amounts {
    old: u64,
    new: u64,
}

// Adds a tunnel's amounts to its flow's on each link that it crosses. The loop over the set is written out, as in `add_tunnel`.
fn add_across(sums: &mut [Amounts; LINKS], via: u64, old: u64, new: u64)
    requires { FlowRoom sums.old × (old ≤ most_amount) × (new ≤ most_amount) }
    ensures { FlowAdded (in_set via) old new sums.old sums.new }
{
    let mut set = via;
    while set != 0 {
        let link = u64::trailing_zeros(set) as usize;
        let flow = sums[link];
        sums[link] = Amounts {
            old: flow.old + old,
            new: flow.new + new,
        };
        set = set & (set - 1);
    }
}

// The sums of a flow's tunnels, from sums that are 0, and a set of links that has all that they cross.
fn sum_flow(chains: &Chains<'_>, flow: usize, sums: &mut [Amounts; LINKS]) -> u64
    requires flow { flow < (network_sizes chains.now).flows }
    requires none { sums.old ≡ replicate most_links none }
    ensures sums { FlowSums (network_of chains.now) flow sums.new }
    ensures room { FlowRoom sums.new }
    ensures outside { NoneOutside result sums.new }
{
    let network = chains.network();
    let mut crossed: u64 = 0;
    let mut entry = chains.last(flow);
    while let Some(t) = entry {
        let via = network.via(t);
        let old = network.old(t);
        let new = network.new_amount(t);
        add_across(sums, via, old, new);
        crossed = crossed | via;
        entry = chains.prior(t);
    }
    crossed
}

// Adds a flow's sums to those of the links of a set: on a link its old amounts together are one amount, and so are its new ones.
fn add_sums(table: &mut [LinkSums; LINKS], sums: &[Amounts; LINKS], crossed: u64)
    requires { Room most_sums table.old × FlowRoom sums.now }
    ensures { SumsAdded (in_set crossed) sums.now table.old table.new }
{
    let mut set = crossed;
    while set != 0 {
        let link = u64::trailing_zeros(set) as usize;
        let flow = sums[link];
        table::add_link(table, link, flow.old, flow.new);
        set = set & (set - 1);
    }
}

// Adds a flow to a table.
fn add_flow(chains: &Chains<'_>, flow: usize, table: &mut [LinkSums; LINKS])
    requires by_flow { by_flow (network_of chains.now) ≡ true }
    requires flow { flow < (network_sizes chains.now).flows }
    requires room { Room most_sums table.old }
    ensures { WithFlow (network_of chains.now) flow table.old table.new }
{
    let mut sums = [Amounts { old: 0, new: 0 }; LINKS];
    let crossed = sum_flow(chains, flow, &mut sums);
    add_sums(table, &sums, crossed);
}

// One pass over the flows: the protected ones are added to the first table, the others to the second.
pub fn split_flows(chains: &Chains<'_>, tables: &mut Tables)
    requires by_flow { by_flow (network_of chains.now) ≡ true }
    requires none { Split (network_of chains.now) 0 tables.old }
    ensures split { Split (network_of chains.now) (movers (network_of chains.now)) tables.new }
    ensures good { GoodNetwork chains.now }
{
    let network = chains.network();
    for flow in 0..network.flows() {
        if crate::is_protected(network, flow) {
            add_flow(chains, flow, &mut tables.protected);
        } else {
            add_flow(chains, flow, &mut tables.all);
        }
    }
}
