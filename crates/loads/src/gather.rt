// One pass over the tunnels gathers the loads of all links for a block of steps: a tunnel's amounts in these steps, side by
// side, are a vector, and so are a link's loads. Those of protected tunnels and those of the others are kept apart.
ghost use Rattle.std.specs.Prelude.{◌≡◌, ◌+◌, ◌*◌, ◌≤◌, ◌<◌, length};
ghost use Rattle.model.specs.Limits.{most_links, most_tunnels};
ghost use Rattle.model.specs.Sets.{in_set};
ghost use Rattle.lists.specs.Lists.{at, network_of};
ghost use Rattle.loads.specs.Parts.{number_of};
ghost use Rattle.loads.specs.Tables.{block_rows, number_at, load_at, loads_size, part_of, class_of, AmountTable, SetsWithin, Addable, VectorAdded, AddableOn, AddedOn, Cleared, Loads};

use crate::amounts::Amounts;
use lists::Network;
use lists::judged::NetworkList;

// The numbers of a vector: the rows of a block.
pub const ROWS: usize = 11;

// The numbers of a table of amounts, which has a vector for each tunnel, and of a table of loads, which has two for each link.
pub const AMOUNTS: usize = ROWS * Network::TUNNELS as usize;

pub const LOADS: usize = ROWS * 2 * Network::LINKS as usize;

// Whose load a vector has: that of protected tunnels, or that of the others.
#[derive(Clone, Copy, PartialEq, Eq, Drop)]
pub enum Part {
    Protected,
    Others,
}

impl Part {
    // The part of a class.
    pub(crate) fn of(class: u64) -> Part
        ensures { number_of result ≡ part_of class }
    {
        if class <= 1 {
            Part::Protected
        } else {
            Part::Others
        }
    }

    pub(crate) fn number(self) -> usize
        ensures number { result ≡ number_of self }
        ensures few { result < 2 }
    {
        self as usize
    }
}

// Where the load of link l in step k of the block stands.
pub fn load_at(l: usize, part: Part, k: usize) -> usize
    requires { (l < most_links) × (k < block_rows) }
    ensures { result ≡ load_at l (number_of part) k }
{
    ROWS * (2 * l + part.number()) + k
}

// Adds vector i of one table to vector j of another. An index with a constant end, which the compiler unrolls.
pub(crate) fn add_vector(from: &[u64], i: usize, to: &mut [u64], j: usize)
    requires { Addable from.now i to.old j }
    ensures { VectorAdded j (λ k. at from.now (number_at i k)) to.old to.new }
{
    let source = ROWS * i;
    let target = ROWS * j;
    for k in 0..ROWS {
        to[target + k] += from[source + k];
    }
}

// Adds a tunnel's amounts to those of each link of its set, whose vector is so many times its number, and so many, on: of the
// link of the set's lowest bit, which is then cleared, until none is left.
pub(crate) fn add_tunnel(
    links: usize,
    amounts: &[u64],
    t: usize,
    via: u64,
    to: &mut [u64],
    times: usize,
    on: usize,
)
    requires { AddableOn links amounts.now t via to.old times on }
    ensures { AddedOn links (in_set via) (λ _ k. at amounts.now (number_at t k)) times on to.old to.new }
{
    let mut set = via;
    while set != 0 {
        let link = u64::trailing_zeros(set) as usize;
        add_vector(amounts, t, to, times * link + on);
        set = set & (set - 1);
    }
}

// Clears the first so many vectors of a table.
pub(crate) fn clear(vectors: usize, table: &mut [u64])
    requires { (vectors ≤ 2 * most_links) × (block_rows * vectors ≤ length table.old) }
    ensures { Cleared vectors table.old table.new }
{
    let end = ROWS * vectors;
    table[..end].fill(0);
}

// The loads of the links, whatever is in the table before: each of n tunnels adds its amounts on each link of its set.
pub fn gather(
    links: usize,
    vias: &[u64],
    classes: &[u64],
    n: usize,
    amounts: &[u64],
    loads: &mut [u64],
)
    requires { (links ≤ most_links) × (n ≤ most_tunnels) × (n ≤ length vias.now) × (n ≤ length classes.now) × SetsWithin links vias.now n × AmountTable n amounts.now × (length loads.old ≡ loads_size) }
    ensures { Loads links (at vias.now) (at classes.now) n amounts.now loads.new }
{
    clear(2 * links, loads);
    for t in 0..n {
        let part = Part::of(classes[t]);
        add_tunnel(links, amounts, t, vias[t], loads, 2, part.number());
    }
}

// Those of a network's own tunnels, by their sets and the classes of their flows.
pub fn gather_network(network: &NetworkList<'_>, amounts: &Amounts, loads: &mut [u64; LOADS])
    ensures { Loads (network_of network.now).links (network_of network.now).via (class_of (network_of network.now)) (network_of network.now).tunnels amounts.now.numbers loads.new }
{
    let links = network.links();
    clear(2 * links, loads);
    for t in 0..network.tunnels() {
        let part = Part::of(network.class(network.flow(t)));
        add_tunnel(
            links,
            &amounts.numbers,
            t,
            network.via(t),
            loads,
            2,
            part.number(),
        );
    }
}
