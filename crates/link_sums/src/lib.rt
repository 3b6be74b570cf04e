//! The three sums of each link, over the movers across it: of their old amounts, of their new ones, and of the larger of the two. A mover is a tunnel, or where
//! the switches change a whole flow in one operation a flow, whose amounts on a link are the sums of its tunnels'.
//! A table has them for every link that a network can have.
//! Inner functions of the planner; they know nothing of steps.
#![tactic(auto)]

ghost use Rattle.std.specs.Prelude.{◌≡◌, ◌<◌, leb};
ghost use Rattle.model.specs.Rule.{movers};
ghost use Rattle.lists.specs.Lists.{network_sizes, network_of};
ghost use Rattle.lists.specs.Good.{GoodNetwork};
ghost use Rattle.link_sums.specs.Tables.{Split};

use crate::chains::Chains;
use crate::table::Tables;
use lists::Network;
use lists::judged::NetworkList;

mod by_flow;
mod by_tunnel;
mod chains;
pub mod sums;
pub mod table;

const LINKS: usize = Network::LINKS as usize;

// Is a flow of one of the protected classes?
fn is_protected(network: &NetworkList<'_>, flow: usize) -> bool
    requires { flow < (network_sizes network.now).flows }
    ensures { result ≡ leb ((network_of network.now).class flow) 1 }
{
    network.class(flow) <= 1
}

// The sums of the protected movers and those of the others, tunnel by tunnel or flow by flow, from tables that are 0.
fn split(network: &NetworkList<'_>, tables: &mut Tables)
    requires { Split (network_of network.now) 0 tables.old }
    ensures split { Split (network_of network.now) (movers (network_of network.now)) tables.new }
    ensures good { GoodNetwork network.now }
{
    if network.by_flow() {
        by_flow::split_flows(&Chains::of(network), tables)
    } else {
        by_tunnel::split_tunnels(network, tables)
    }
}
