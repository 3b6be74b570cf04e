// The marks: one byte for each tunnel.
ghost use Rattle.std.specs.Prelude.{◌≡◌, ◌&&◌, cond, true, false, ◌++◌, ◌+◌, ◌≤◌, ◌<◌, ltb, min, length, drop};
ghost use Rattle.model.specs.Limits.{most_links, most_flows};
ghost use Rattle.model.specs.Net;
ghost use Rattle.model.specs.Largest.{largest};
ghost use Rattle.model.specs.Rule.{across, by_flow};
ghost use Rattle.model.specs.Sets.{in_set};
ghost use Rattle.judges.specs.Sums.{Gathered};
ghost use Rattle.lists.specs.Lists.{network_sizes, network_of, plan_sizes, plan_of};
ghost use Rattle.checker.specs.Inner.{marks_of, marks_at, InPlan, Markable, Raised, LargestSums};

use amounts::pair::Pair;
use lists::Network;
use lists::judged::{NetworkList, PlanList};

const FLOWS: usize = Network::FLOWS as usize;

// Whether a tunnel crosses link l.
pub fn crosses(via: u64, l: u64) -> bool
    requires { l < most_links }
    ensures { result ≡ in_set via l }
{
    (via >> l) & 1 == 1
}

// A tunnel's mark: 1 if it crosses link l and the largest amount, its own or its flow's, exceeds the first.
fn rises(via: u64, l: u64, first: u64, largest: u64) -> u8
    requires { l < most_links }
    ensures { result ≡ cond (in_set via l && ltb first largest) 1 0 }
{
    u8::from(crosses(via, l) && first < largest)
}

// What a tunnel puts on link l: its amount if it crosses it.
fn on_link(via: u64, l: u64, amount: u64) -> u64
    requires { l < most_links }
    ensures { result ≡ cond (in_set via l) amount 0 }
{
    if crosses(via, l) { amount } else { 0 }
}

// What each flow puts on link l in row a, in one pass over the tunnels.
pub fn flow_sums(pair: &Pair<'_>, a: usize, l: usize) -> [u64; FLOWS]
    requires { (a ≤ (plan_sizes pair.now.plan).steps) × (l < (network_sizes pair.now.network).links) }
    ensures { Gathered (network_of pair.now.network) (across (network_of pair.now.network) l (Net.row (network_of pair.now.network) (plan_of pair.now.plan) a)) (network_of pair.now.network).tunnels result }
{
    let network = pair.network();
    let mut sums = [0; FLOWS];
    for t in 0..network.tunnels() {
        sums[network.flow(t)] += on_link(network.via(t), l as u64, pair.amount(a, t));
    }
    sums
}

// Each of the largest sums becomes the larger of it and that of another row. An index, since both have a number at it.
fn raise(sums: &[u64; FLOWS], largest: &mut [u64; FLOWS])
    ensures { Raised sums.now largest.old largest.new }
{
    for f in 0..FLOWS {
        largest[f] = largest[f].max(sums[f]);
    }
}

// The window of rows that begins with a row, and a link that is looked at in it.
#[derive(Drop)]
pub(crate) struct Window<'a, 'b> {
    pub(crate) pair: &'a Pair<'b>,
    pub(crate) lag: u64,
    pub(crate) row: usize,
    pub(crate) link: usize,
    ghost there: { InPlan lag pair.now.network pair.now.plan row link },
}

impl<'a, 'b> Window<'a, 'b> {
    // The largest amount of tunnel t.
    fn largest_amount(&self, t: usize) -> u64
        requires { t < (network_sizes self.now.pair.now.network).tunnels }
        ensures { result ≡ largest (min self.now.lag (plan_sizes self.now.pair.now.plan).steps) (λ k. Net.row (network_of self.now.pair.now.network) (plan_of self.now.pair.now.plan) (self.now.row + k) t) }
    {
        let last = self.row + self.pair.reach(self.lag);
        let mut largest = self.pair.amount(self.row, t);
        for a in self.row..last {
            largest = largest.max(self.pair.amount(a + 1, t));
        }
        largest
    }

    // Marks the tunnels that cross the link and rise, each for itself. Only the loop is that of `mark_flows`: what is compared differs.
    fn mark_tunnels(&self, marks: &mut [u8])
        requires { (by_flow (network_of self.now.pair.now.network) ≡ false) × ((network_sizes self.now.pair.now.network).tunnels ≤ length marks.old) }
        ensures { marks.new ≡ marks_at self.now.lag (network_of self.now.pair.now.network) (plan_of self.now.pair.now.plan) self.now.row self.now.link (network_sizes self.now.pair.now.network).tunnels ++ drop (network_sizes self.now.pair.now.network).tunnels marks.old }
    {
        let network = self.pair.network();
        for t in 0..network.tunnels() {
            let first = self.pair.amount(self.row, t);
            let largest = self.largest_amount(t);
            marks[t] = rises(network.via(t), self.link as u64, first, largest);
        }
    }

    // The largest of what each flow puts on the link, where its sums in the first row are given.
    fn largest_sums(&self, first: [u64; FLOWS]) -> [u64; FLOWS]
        requires { LargestSums (network_of self.now.pair.now.network) (plan_of self.now.pair.now.plan) self.now.row self.now.link 0 first }
        ensures { LargestSums (network_of self.now.pair.now.network) (plan_of self.now.pair.now.plan) self.now.row self.now.link (min self.now.lag (plan_sizes self.now.pair.now.plan).steps) result }
    {
        let last = self.row + self.pair.reach(self.lag);
        let mut largest = first;
        for a in self.row..last {
            raise(&flow_sums(self.pair, a + 1, self.link), &mut largest);
        }
        largest
    }

    // Marks the tunnels that cross the link and whose flow's sum on it rises.
    fn mark_flows(&self, marks: &mut [u8])
        requires { (by_flow (network_of self.now.pair.now.network) ≡ true) × ((network_sizes self.now.pair.now.network).tunnels ≤ length marks.old) }
        ensures { marks.new ≡ marks_at self.now.lag (network_of self.now.pair.now.network) (plan_of self.now.pair.now.plan) self.now.row self.now.link (network_sizes self.now.pair.now.network).tunnels ++ drop (network_sizes self.now.pair.now.network).tunnels marks.old }
    {
        let network = self.pair.network();
        let first = flow_sums(self.pair, self.row, self.link);
        let largest = self.largest_sums(first);
        for t in 0..network.tunnels() {
            let flow = network.flow(t);
            marks[t] = rises(network.via(t), self.link as u64, first[flow], largest[flow]);
        }
    }

    // Marks the tunnels that cross the link and whose largest amount exceeds that of the first row, or whose flow's sum does where
    // the switches change a whole flow.
    pub(crate) fn mark(&self, marks: &mut [u8])
        requires { (network_sizes self.now.pair.now.network).tunnels ≤ length marks.old }
        ensures { marks.new ≡ marks_at self.now.lag (network_of self.now.pair.now.network) (plan_of self.now.pair.now.plan) self.now.row self.now.link (network_sizes self.now.pair.now.network).tunnels ++ drop (network_sizes self.now.pair.now.network).tunnels marks.old }
    {
        if self.pair.network().by_flow() {
            self.mark_flows(marks)
        } else {
            self.mark_tunnels(marks)
        }
    }
}

// The same for lists that are judged good together, on link l in the window from row i.
pub fn mark(lag: u64, network: &[u64], plan: &[u64], i: usize, l: usize, marks: &mut [u8])
    requires { Markable lag network.now plan.now i l marks.old }
    ensures { marks.new ≡ marks_at lag (network_of network.now) (plan_of plan.now) i l (network_sizes network.now).tunnels ++ drop (network_sizes network.now).tunnels marks.old }
{
    let pair = Pair::new(NetworkList::new(network), PlanList::new(plan));
    let window = Window {
        pair: &pair,
        lag,
        row: i,
        link: l,
    };
    window.mark(marks)
}

// Clears the marks of n tunnels.
pub fn clear(n: usize, marks: &mut [u8])
    requires { n ≤ length marks.old }
    ensures { marks.new ≡ marks_of (λ t. false) n ++ drop n marks.old }
{
    marks[..n].fill(0)
}
