//! The worst loads of a link in one step: inner functions of the page. The checker gathers those of all links for a block of
//! steps; that pass has its place within the check alone, and is not called from here.
#![tactic(auto)]

ghost use Rattle.std.specs.Prelude.{◌≡◌, cond, true, false, ◌*◌, ◌≤◌, ◌<◌, leb};
ghost use Rattle.model.specs.Limits.{most_amount, most_steps};
ghost use Rattle.model.specs.Rule.{across, by_flow};
ghost use Rattle.model.specs.Scan.{Bound};
ghost use Rattle.lists.specs.Lists.{network_sizes, network_of, plan_sizes, plan_of};
ghost use Rattle.amounts.specs.Rows.{larger_row};
ghost use Rattle.step_loads.specs.Worst.{worst_load};

use amounts::pair::Pair;
use checker::marks;
use lists::judged::NetworkList;

// What is put on a link at worst: by the protected classes, and by all.
#[derive(Clone, Copy)]
pub struct Worst {
    pub protected: u64,
    pub all: u64,
}

// What tunnel t puts on link l at worst, where it moves for itself: the larger of its amounts before and after the step from row
// i, if it crosses the link.
fn worst_across(pair: &Pair<'_>, i: usize, l: usize, t: usize) -> u64
    requires { (i < (plan_sizes pair.now.plan).steps) × (l < (network_sizes pair.now.network).links) × (t < (network_sizes pair.now.network).tunnels) }
    ensures { (result ≡ across (network_of pair.now.network) l (larger_row (network_of pair.now.network) (plan_of pair.now.plan) i) t) × (result ≤ most_amount * most_steps) }
{
    if marks::crosses(pair.network().via(t), l as u64) {
        pair.larger(i, t)
    } else {
        0
    }
}

// An amount, if flow f is of one of the protected classes.
fn if_protected(network: &NetworkList<'_>, f: usize, amount: u64) -> u64
    requires { f < (network_sizes network.now).flows }
    ensures { result ≡ cond (leb ((network_of network.now).class f) 1) amount 0 }
{
    if network.class(f) <= 1 { amount } else { 0 }
}

// The worst loads of link l where each tunnel moves for itself.
fn by_tunnel(pair: &Pair<'_>, i: usize, l: usize) -> Worst
    requires { (by_flow (network_of pair.now.network) ≡ false) × (i < (plan_sizes pair.now.plan).steps) × (l < (network_sizes pair.now.network).links) }
    ensures { (result.protected ≡ worst_load (network_of pair.now.network) (plan_of pair.now.plan) i l Bound.protected) × (result.all ≡ worst_load (network_of pair.now.network) (plan_of pair.now.plan) i l Bound.total) }
{
    let network = pair.network();
    let mut protected: u64 = 0;
    let mut all: u64 = 0;
    for t in 0..network.tunnels() {
        let worst = worst_across(pair, i, l, t);
        all += worst;
        protected += if_protected(network, network.flow(t), worst);
    }
    Worst { protected, all }
}

// And where the switches change a whole flow: of its sums on the link in the two rows, the larger counts. The loop is over flows, and so is its law.
fn by_flow(pair: &Pair<'_>, i: usize, l: usize) -> Worst
    requires { (by_flow (network_of pair.now.network) ≡ true) × (i < (plan_sizes pair.now.plan).steps) × (l < (network_sizes pair.now.network).links) }
    ensures { (result.protected ≡ worst_load (network_of pair.now.network) (plan_of pair.now.plan) i l Bound.protected) × (result.all ≡ worst_load (network_of pair.now.network) (plan_of pair.now.plan) i l Bound.total) }
{
    let network = pair.network();
    let befores = marks::flow_sums(pair, i, l);
    let afters = marks::flow_sums(pair, i + 1, l);
    let mut protected: u64 = 0;
    let mut all: u64 = 0;
    for f in 0..network.flows() {
        let worst = befores[f].max(afters[f]);
        all += worst;
        protected += if_protected(network, f, worst);
    }
    Worst { protected, all }
}

// The worst loads of link l in the step from row i.
pub fn on_link(pair: &Pair<'_>, i: usize, l: usize) -> Worst
    requires { (i < (plan_sizes pair.now.plan).steps) × (l < (network_sizes pair.now.network).links) }
    ensures { (result.protected ≡ worst_load (network_of pair.now.network) (plan_of pair.now.plan) i l Bound.protected) × (result.all ≡ worst_load (network_of pair.now.network) (plan_of pair.now.plan) i l Bound.total) }
{
    if pair.network().by_flow() {
        by_flow(pair, i, l)
    } else {
        by_tunnel(pair, i, l)
    }
}
