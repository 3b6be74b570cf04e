// A network with the sums of its links.
ghost use Rattle.std.specs.Prelude.{◌≡◌, ◌<◌};
ghost use Rattle.model.specs.Limits.{most_links};
ghost use Rattle.model.specs.Scan.{Bound};
ghost use Rattle.lists.specs.Lists.{network_of};
ghost use Rattle.lists.specs.Good.{GoodNetwork};
ghost use Rattle.link_sums.specs.Tables.{Few, Split, sums_of};

use crate::table;
use crate::table::{LinkSums, Tables};
use lists::judged::NetworkList;
use std::marker::Model;

// Over the movers of the protected classes, and over those of all classes. In a clause it is the network's list.
#[derive(Drop)]
pub struct NetworkSums<'n, 't> {
    network: &'n NetworkList<'n>,
    tables: &'t Tables,
}

impl<'n, 't> Model for NetworkSums<'n, 't> {
    ghost use Rattle.std.specs.Prelude.{ℕ, List};
    ghost use Rattle.model.specs.Scan.{Bound};
    ghost use Rattle.lists.specs.Lists.{network_of};
    ghost use Rattle.lists.specs.Good.{GoodNetwork};
    ghost use Rattle.link_sums.specs.Tables.{Loads};

    ghost Value = { List ℕ };

    ghost view = { λ s. s.network.now };

    ghost invariant = { λ s. GoodNetwork s.network.now × Loads (network_of s.network.now) Bound.protected s.tables.now.protected × Loads (network_of s.network.now) Bound.total s.tables.now.all };
}

impl<'n, 't> NetworkSums<'n, 't> {
    // Gathers them in tables that are 0.
    pub fn of(network: &'n NetworkList<'n>, tables: &'t mut Tables) -> NetworkSums<'n, 't>
        requires { Split (network_of network.now) 0 tables.now }
        ensures { result ≡ network.entry.now }
    {
        crate::split(network, tables);
        table::add_table(&tables.protected, &mut tables.all);
        NetworkSums { network, tables }
    }

    pub fn network(&self) -> &'n NetworkList<'n>
        ensures value { result.now ≡ self.now }
        ensures good { GoodNetwork self.now }
    {
        self.network
    }

    // Those of a link, over the protected classes, and over all.
    pub fn protected(&self, link: usize) -> LinkSums
        requires { link < most_links }
        ensures value { result ≡ sums_of (network_of self.now) Bound.protected link }
        ensures most { Few result }
    {
        self.tables.protected[link]
    }

    pub fn all(&self, link: usize) -> LinkSums
        requires { link < most_links }
        ensures value { result ≡ sums_of (network_of self.now) Bound.total link }
        ensures most { Few result }
    {
        self.tables.all[link]
    }
}
