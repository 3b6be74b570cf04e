// The tables where each tunnel moves for itself.
ghost use Rattle.std.specs.Prelude.{◌≡◌, false};
ghost use Rattle.model.specs.Rule.{by_flow, movers};
ghost use Rattle.lists.specs.Lists.{network_of};
ghost use Rattle.lists.specs.Good.{GoodNetwork};
ghost use Rattle.link_sums.specs.Tables.{Split};

use crate::table;
use crate::table::Tables;
use lists::judged::NetworkList;

// One pass over the tunnels: the protected ones are added to the first table, the others to the second.
pub fn split_tunnels(network: &NetworkList<'_>, tables: &mut Tables)
    requires by_tunnel { by_flow (network_of network.now) ≡ false }
    requires none { Split (network_of network.now) 0 tables.old }
    ensures split { Split (network_of network.now) (movers (network_of network.now)) tables.new }
    ensures good { GoodNetwork network.now }
{
    for t in 0..network.tunnels() {
        let via = network.via(t);
        let old = network.old(t);
        let new = network.new_amount(t);
        if crate::is_protected(network, network.flow(t)) {
            table::add_tunnel(&mut tables.protected, via, old, new);
        } else {
            table::add_tunnel(&mut tables.all, via, old, new);
        }
    }
}
