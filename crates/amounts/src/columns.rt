// What the links can carry, for each link.
ghost use Rattle.std.specs.Prelude.{◌≡◌, ◌≤◌, ◌<◌, length};
ghost use Rattle.model.specs.Limits.{most_links, most_steps};
ghost use Rattle.lists.specs.Lists.{network_sizes, network_of, plan_of};
ghost use Rattle.lists.specs.Good.{GoodNetwork};
ghost use Rattle.amounts.specs.Columns.{Holds, capacity, raised, bounds_of, AllBounds};

use crate::pair::Pair;
use lists::Network;
use lists::judged::NetworkList;

// The most tunnels and links, for which every column has room.
pub const TUNNELS: usize = Network::TUNNELS as usize;

pub const LINKS: usize = Network::LINKS as usize;

// What a link can carry of what is not held, in parts: of protected traffic, and with the overrun, rounded down.
#[derive(Clone, Copy, Drop)]
pub struct Bounds {
    pub protected: u64,
    pub all: u64,
}

impl Bounds {
    pub const NONE: Bounds = Bounds {
        protected: 0,
        all: 0,
    };

    // Those of link l in a plan of so many parts.
    fn in_parts(network: &NetworkList<'_>, parts: u64, l: usize) -> Bounds
        requires { (parts ≤ most_steps) × (l < (network_sizes network.now).links) }
        ensures { result ≡ bounds_of (network_of network.now) parts l }
    {
        let sizes = network.sizes();
        let list = network.numbers();
        let cap = list[sizes.link_at(l)];
        let left = cap - sizes.held(list, l);
        let protected = parts * left;
        let times = 1000 + network.overrun();
        Bounds {
            protected,
            all: times * protected / 1000,
        }
    }

    pub fn of(pair: &Pair<'_>, l: usize) -> Bounds
        requires { l < (network_sizes pair.now.network).links }
        ensures { result ≡ bounds_of (network_of pair.now.network) (plan_of pair.now.plan).parts l }
    {
        Bounds::in_parts(pair.network(), pair.plan().parts(), l)
    }

    // Those of all links.
    pub fn of_all(pair: &Pair<'_>) -> [Bounds; LINKS]
        ensures { AllBounds (network_of pair.now.network) (plan_of pair.now.plan).parts (network_of pair.now.network).links result }
    {
        let mut bounds = [Bounds::NONE; LINKS];
        for l in 0..pair.network().links() {
            bounds[l] = Bounds::of(pair, l);
        }
        bounds
    }
}

// Those of all links in two columns, in any number of parts up to the most.
pub fn links(network: &[u64], parts: u64, capacities: &mut [u64], all: &mut [u64])
    requires { GoodNetwork network.now × (parts ≤ most_steps) × (most_links ≤ length capacities.old) × (most_links ≤ length all.old) }
    ensures holds { Holds capacities.new (network_sizes network.now).links (capacity (network_of network.now) parts) }
    ensures holds_2 { Holds all.new (network_sizes network.now).links (raised (network_of network.now) parts) }
{
    let judged = NetworkList::new(network);
    for l in 0..judged.links() {
        let bounds = Bounds::in_parts(&judged, parts, l);
        capacities[l] = bounds.protected;
        all[l] = bounds.all;
    }
}
