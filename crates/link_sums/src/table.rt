// The sums of one link, and what is added to a table of them.
ghost use Rattle.std.specs.Prelude.{◌≡◌, ◌+◌, ◌*◌, ◌≤◌, ◌<◌, ◌^◌, eqb};
ghost use Rattle.model.specs.Limits.{most_amount, most_links, most_tunnels};
ghost use Rattle.model.specs.Net.{Net};
ghost use Rattle.model.specs.Sets.{in_set};
ghost use Rattle.link_sums.specs.Tables.{most_sums, Room, Added, Joined, Split, of_mover, plus};

use crate::LINKS;

#[derive(Clone, Copy)]
pub struct LinkSums {
    pub old: u64,
    pub new: u64,
    pub peak: u64,
}

impl LinkSums {
    // Of no mover.
    pub const NOTHING: LinkSums = LinkSums {
        old: 0,
        new: 0,
        peak: 0,
    };

    // Of one.
    pub fn of(old: u64, new: u64) -> LinkSums
        ensures { result ≡ of_mover old new }
    {
        LinkSums {
            old,
            new,
            peak: old.max(new),
        }
    }

    // Of those of both.
    pub fn plus(self, more: LinkSums) -> LinkSums
        requires old { self.old + more.old < 2 ^ 64 }
        requires new { self.new + more.new < 2 ^ 64 }
        requires peak { self.peak + more.peak < 2 ^ 64 }
        ensures { result ≡ plus self more }
    {
        LinkSums {
            old: self.old + more.old,
            new: self.new + more.new,
            peak: self.peak + more.peak,
        }
    }
}

// The table of the protected movers, and that of all; until the two are added up, the second is of the others alone.
#[derive(Drop)]
pub struct Tables {
    pub protected: [LinkSums; LINKS],
    pub all: [LinkSums; LINKS],
}

impl Tables {
    // Of no mover.
    pub fn new() -> Tables
        ensures { (N : Net) → Split N 0 result }
    {
        Tables {
            protected: [LinkSums::NOTHING; LINKS],
            all: [LinkSums::NOTHING; LINKS],
        }
    }
}

// Adds a mover's amounts to the sums of one link.
pub fn add_link(table: &mut [LinkSums; LINKS], link: usize, old: u64, new: u64)
    requires room { Room (most_sums + most_tunnels) table.old }
    requires link { link < most_links }
    requires amounts { (old ≤ most_tunnels * most_amount) × (new ≤ most_tunnels * most_amount) }
    ensures { Added (λ l. eqb l link) old new table.old table.new }
{
    table[link] = table[link].plus(LinkSums::of(old, new));
}

// Adds a tunnel's amounts to the sums of each link that it crosses: the link of the set's lowest bit, which is then cleared, until none is left.
// Each loop over a set is written out, since a proof does not see what a closure changes.
pub fn add_tunnel(table: &mut [LinkSums; LINKS], via: u64, old: u64, new: u64)
    requires { Room most_sums table.old × (old ≤ most_amount) × (new ≤ most_amount) }
    ensures { Added (in_set via) old new table.old table.new }
{
    let mut set = via;
    while set != 0 {
        let link = u64::trailing_zeros(set) as usize;
        add_link(table, link, old, new);
        set = set & (set - 1);
    }
}

// Adds the numbers of one table to those of another.
pub fn add_table(more: &[LinkSums; LINKS], table: &mut [LinkSums; LINKS])
    requires { Room most_sums more.now × Room most_sums table.old }
    ensures { Joined table.old more.now table.new }
{
    for (link, sums) in table.iter_mut().enumerate() {
        *sums = sums.plus(more[link]);
    }
}
