// A network and a plan that are judged good each, and the amounts of the tunnels in the plan's rows. In a clause the two are their lists.
ghost use Rattle.std.specs.Prelude.{◌≡◌, suc, ◌*◌, ◌≤◌, ◌<◌, min};
ghost use Rattle.model.specs.Limits.{most_lag, most_steps, most_amount};
ghost use Rattle.model.specs.Net;
ghost use Rattle.lists.specs.Lists.{network_sizes, network_of, plan_sizes, plan_of};
ghost use Rattle.amounts.specs.Rows.{Checkable, larger_row};

use lists::judged::{NetworkList, PlanList};
use std::marker::Model;

// Both have the same number of tunnels.
#[derive(Drop)]
pub struct Pair<'a> {
    network: NetworkList<'a>,
    plan: PlanList<'a>,
}

impl<'a> Model for Pair<'a> {
    ghost use Rattle.amounts.specs.Lists.{Lists};
    ghost use Rattle.amounts.specs.Rows.{Checkable};

    ghost Value = { Lists };

    ghost view = { λ p. record { network = p.network; plan = p.plan } };

    ghost invariant = { λ p. Checkable p.network p.plan };
}

impl<'a> Pair<'a> {
    pub fn new(network: NetworkList<'a>, plan: PlanList<'a>) -> Pair<'a>
        requires { Checkable network plan }
        ensures { result ≡ record { network = network.entry; plan = plan.entry } }
    {
        Pair { network, plan }
    }

    pub fn network(&self) -> &NetworkList<'a>
        ensures value { result.now ≡ self.now.network }
        ensures checkable { Checkable self.now.network self.now.plan }
    {
        &self.network
    }

    pub fn plan(&self) -> &PlanList<'a>
        ensures value { result.now ≡ self.now.plan }
        ensures checkable { Checkable self.now.network self.now.plan }
    {
        &self.plan
    }

    // How many rows follow the first in each window: the lag, or all rows where they are fewer.
    pub fn reach(&self, lag: u64) -> usize
        requires { lag ≤ most_lag }
        ensures { result ≡ min lag (plan_sizes self.now.plan).steps }
    {
        self.plan.steps().min(lag as usize)
    }

    // The amount of tunnel t before the step from row i: the first row is the network's, in parts.
    pub fn before(&self, i: usize, t: usize) -> u64
        requires row { i < (plan_sizes self.now.plan).steps }
        requires tunnel { t < (network_sizes self.now.network).tunnels }
        ensures value { result ≡ Net.row (network_of self.now.network) (plan_of self.now.plan) i t }
        ensures most { result ≤ most_amount * most_steps }
    {
        if i == 0 {
            return self.plan.parts() * self.network.old(t);
        }
        self.plan.listed(i, t)
    }

    // And after it: the last row is the network's, in parts.
    pub fn after(&self, i: usize, t: usize) -> u64
        requires row { i < (plan_sizes self.now.plan).steps }
        requires tunnel { t < (network_sizes self.now.network).tunnels }
        ensures value { result ≡ Net.row (network_of self.now.network) (plan_of self.now.plan) (suc i) t }
        ensures most { result ≤ most_amount * most_steps }
    {
        if self.plan.steps() == i + 1 {
            return self.plan.parts() * self.network.new_amount(t);
        }
        self.plan.listed(i + 1, t)
    }

    // The amount of tunnel t in any row.
    pub fn amount(&self, a: usize, t: usize) -> u64
        requires row { a ≤ (plan_sizes self.now.plan).steps }
        requires tunnel { t < (network_sizes self.now.network).tunnels }
        ensures value { result ≡ Net.row (network_of self.now.network) (plan_of self.now.plan) a t }
        ensures most { result ≤ most_amount * most_steps }
    {
        if a < self.plan.steps() {
            return self.before(a, t);
        }
        self.after(a - 1, t)
    }

    // The larger of the amounts of tunnel t before and after the step from row i.
    pub fn larger(&self, i: usize, t: usize) -> u64
        requires row { i < (plan_sizes self.now.plan).steps }
        requires tunnel { t < (network_sizes self.now.network).tunnels }
        ensures value { result ≡ larger_row (network_of self.now.network) (plan_of self.now.plan) i t }
        ensures most { result ≤ most_amount * most_steps }
    {
        self.before(i, t).max(self.after(i, t))
    }
}
