// Lists that are judged good, with the sizes that their heads give. What holds of every such list stands in its type; in a clause
// a value of the type is its list.
ghost use Rattle.std.specs.Prelude.{◌≡◌, ◌*◌, ◌^◌, ◌≤◌, ◌<◌};
ghost use Rattle.model.specs.Rule.{by_flow};
ghost use Rattle.model.specs.Limits.{most_links, most_flows, most_tunnels, most_steps, most_amount, most_share};
ghost use Rattle.lists.specs.Lists.{network_of, network_sizes, plan_of, plan_sizes};
ghost use Rattle.lists.specs.Good.{GoodNetwork, GoodPlan};

use crate::{Network, PlanSizes};
use std::marker::Model;

// A network's list.
#[derive(Drop)]
pub struct NetworkList<'a> {
    list: &'a [u64],
    sizes: Network,
}

impl<'a> Model for NetworkList<'a> {
    ghost use Rattle.std.specs.Prelude.{ℕ, List};
    ghost use Rattle.lists.specs.Judged.{IsNetwork};

    ghost Value = { List ℕ };

    ghost view = { λ n. n.list.now };

    ghost invariant = { IsNetwork };
}

impl<'a> NetworkList<'a> {
    pub fn new(list: &'a [u64]) -> NetworkList<'a>
        requires { GoodNetwork list.now }
        ensures { result ≡ list.now }
    {
        NetworkList {
            list,
            sizes: Network::of(list),
        }
    }

    // The same where the sizes are at hand: they are not taken out of the list again.
    pub fn with_sizes(list: &'a [u64], sizes: Network) -> NetworkList<'a>
        requires good { GoodNetwork list.now }
        requires sizes { sizes ≡ network_sizes list.now }
        ensures { result ≡ list.now }
    {
        NetworkList { list, sizes }
    }

    // Its numbers.
    pub fn numbers(&self) -> &'a [u64]
        ensures numbers { result.now ≡ self.now }
        ensures good { GoodNetwork self.now }
    {
        self.list // with the head
    }

    pub fn sizes(&self) -> Network
        ensures sizes { result ≡ network_sizes self.now }
        ensures good { GoodNetwork self.now }
    {
        self.sizes // as the head gives them
    }

    // How many links, flows and tunnels it has.
    pub fn links(&self) -> usize
        ensures count { result ≡ (network_sizes self.now).links }
        ensures value { result ≡ (network_of self.now).links }
        ensures some { (1 ≤ result) × (result ≤ most_links) }
        ensures good { GoodNetwork self.now }
    {
        self.sizes.links
    }

    pub fn flows(&self) -> usize
        ensures count { result ≡ (network_sizes self.now).flows }
        ensures value { result ≡ (network_of self.now).flows }
        ensures most { result ≤ most_flows }
        ensures good { GoodNetwork self.now }
    {
        self.sizes.flows
    }

    pub fn tunnels(&self) -> usize
        ensures count { result ≡ (network_sizes self.now).tunnels }
        ensures value { result ≡ (network_of self.now).tunnels }
        ensures most { result ≤ most_tunnels }
        ensures good { GoodNetwork self.now }
    {
        self.sizes.tunnels
    }

    // The overrun, in thousandths.
    pub fn overrun(&self) -> u64
        ensures value { result ≡ (network_of self.now).overrun }
        ensures most { result ≤ most_share }
    {
        self.list[Network::OVERRUN]
    }

    // Do the switches change a whole flow in one operation?
    pub fn by_flow(&self) -> bool
        ensures { result ≡ by_flow (network_of self.now) }
    {
        Network::by_flow(self.list)
    }

    // What is left of the capacity of link l, beside what is held of it.
    pub fn cap(&self, l: usize) -> u64
        requires { l < (network_sizes self.now).links }
        ensures value { result ≡ (network_of self.now).cap l }
        ensures most { result ≤ most_amount }
    {
        self.list[self.sizes.link_at(l)] - self.sizes.held(self.list, l)
    }

    // The class of flow f, its rate and its next.
    pub fn class(&self, f: usize) -> u64
        requires { f < (network_sizes self.now).flows }
        ensures value { result ≡ (network_of self.now).class f }
        ensures most { result ≤ 2 }
    {
        self.list[self.sizes.flow_at(f)]
    }

    pub fn rate(&self, f: usize) -> u64
        requires { f < (network_sizes self.now).flows }
        ensures value { result ≡ (network_of self.now).rate f }
        ensures most { result ≤ most_amount }
    {
        self.list[self.sizes.flow_at(f) + Network::RATE]
    }

    pub fn next(&self, f: usize) -> u64
        requires { f < (network_sizes self.now).flows }
        ensures value { result ≡ (network_of self.now).next f }
        ensures most { result ≤ most_amount }
    {
        self.list[self.sizes.flow_at(f) + self.sizes.next()]
    }

    // The flow of tunnel t, its links, and its old and its new amount.
    pub fn flow(&self, t: usize) -> usize
        requires { t < (network_sizes self.now).tunnels }
        ensures value { result ≡ (network_of self.now).flow t }
        ensures bound { (result < (network_sizes self.now).flows) × (result < most_flows) }
    {
        self.list[self.sizes.tunnel_at(t)] as usize
    }

    pub fn via(&self, t: usize) -> u64
        requires { t < (network_sizes self.now).tunnels }
        ensures value { result ≡ (network_of self.now).via t }
        ensures within { (1 ≤ result) × (result < 2 ^ (network_sizes self.now).links) }
    {
        self.list[self.sizes.tunnel_at(t) + Network::VIA]
    }

    pub fn old(&self, t: usize) -> u64
        requires { t < (network_sizes self.now).tunnels }
        ensures value { result ≡ (network_of self.now).old t }
        ensures most { result ≤ most_amount }
    {
        self.list[self.sizes.tunnel_at(t) + Network::OLD]
    }

    pub fn new_amount(&self, t: usize) -> u64
        requires { t < (network_sizes self.now).tunnels }
        ensures value { result ≡ (network_of self.now).new t }
        ensures most { result ≤ most_amount }
    {
        self.list[self.sizes.tunnel_at(t) + Network::NEW]
    }
}

// A plan's list.
#[derive(Drop)]
pub struct PlanList<'a> {
    numbers: &'a [u64],
    head: PlanSizes,
}

impl<'a> Model for PlanList<'a> {
    ghost use Rattle.std.specs.Prelude.{ℕ, List};
    ghost use Rattle.lists.specs.Judged.{IsPlan};

    ghost Value = { List ℕ };

    ghost view = { λ p. p.numbers.now };

    ghost invariant = { IsPlan };
}

impl<'a> PlanList<'a> {
    pub fn new(list: &'a [u64]) -> PlanList<'a>
        requires { GoodPlan list.now }
        ensures { result ≡ list.now }
    {
        PlanList {
            numbers: list,
            head: PlanSizes::of(list),
        }
    }

    // Its numbers.
    pub fn numbers(&self) -> &'a [u64]
        ensures numbers { result.now ≡ self.now }
        ensures good { GoodPlan self.now }
    {
        self.numbers // with the head
    }

    pub fn sizes(&self) -> PlanSizes
        ensures sizes { result ≡ plan_sizes self.now }
        ensures good { GoodPlan self.now }
    {
        self.head // as the list gives it
    }

    // In how many parts its amounts are counted, and how many steps it has.
    pub fn parts(&self) -> u64
        ensures count { result ≡ (plan_sizes self.now).parts }
        ensures value { result ≡ (plan_of self.now).parts }
        ensures some { (1 ≤ result) × (result ≤ most_steps) }
        ensures good { GoodPlan self.now }
    {
        self.head.parts
    }

    pub fn steps(&self) -> usize
        ensures count { result ≡ (plan_sizes self.now).steps }
        ensures value { result ≡ (plan_of self.now).steps }
        ensures some { (1 ≤ result) × (result ≤ most_steps) }
        ensures good { GoodPlan self.now }
    {
        self.head.steps
    }

    // The amount of tunnel t in row a, which is listed.
    pub fn listed(&self, a: usize, t: usize) -> u64
        requires row { (1 ≤ a) × (a < (plan_sizes self.now).steps) }
        requires tunnel { t < (plan_sizes self.now).tunnels }
        ensures value { result ≡ (plan_of self.now).at a t }
        ensures most { result ≤ most_amount * (plan_sizes self.now).parts }
    {
        self.numbers[self.head.row_at(a) + t]
    }
}
