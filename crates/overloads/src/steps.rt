// The worst-load rule: the loads of a block of steps are gathered at once, then looked at step by step and link by link.
ghost use Rattle.std.specs.Prelude.{◌≡◌, true, false, suc, ◌+◌, ◌-◌, ◌*◌, ◌≤◌, ◌<◌, ltb};
ghost use Rattle.model.specs.Limits.{most_links, most_flows, most_tunnels, most_lag};
ghost use Rattle.model.specs.Rule.{by_flow, first_overload};
ghost use Rattle.lists.specs.Lists.{at, network_of, plan_sizes, plan_of};
ghost use Rattle.loads.specs.Tables.{block_rows, load_at, LoadsWithin};
ghost use Rattle.overloads.specs.Inner.{over_cause, overload_of};
ghost use Rattle.overloads.specs.Blocks.{NextInBlock};

use crate::search::Search;
use amounts::columns::Bounds;
use amounts::pair::Pair;
use lists::refusal::Cause;
use loads::amounts::Amounts;
use loads::gather;
use loads::gather::{LOADS, Part};

// An overload: the cause of its refusal, the row that its step leads from, and its link.
#[derive(Clone, Copy, PartialEq, Eq, Drop)]
pub struct Overload {
    pub cause: Cause,
    pub row: usize,
    pub link: usize,
}

// The cause of the refusal that a link's loads meet.
fn cause(bounds: Bounds, protected: u64, all: u64) -> Option<Cause>
    ensures { result ≡ over_cause (ltb bounds.protected protected) (ltb bounds.all all) }
{
    if bounds.protected < protected {
        return Some(Cause::OverProtected);
    }
    if bounds.all < all {
        return Some(Cause::OverTotal);
    }
    None
}

// The cause of the refusal that link l meets in step k of the block.
fn over(bounds: Bounds, loads: &[u64; LOADS], l: usize, k: usize) -> Option<Cause>
    requires { (l < most_links) × (k < block_rows) × LoadsWithin (l + 1) (most_flows * most_tunnels) loads.now }
    ensures { result ≡ over_cause (ltb bounds.protected (at loads.now (load_at l 0 k))) (ltb bounds.all (at loads.now (load_at l 0 k) + at loads.now (load_at l 1 k))) }
{
    let protected = loads[gather::load_at(l, Part::Protected, k)];
    let all = protected + loads[gather::load_at(l, Part::Others, k)];
    cause(bounds, protected, all)
}

// The step of a block after step k: the first of the next block, where the block has no more. A comparison, and no division for every step.
fn next_in_block(k: usize, steps: usize) -> usize
    requires { (k < steps) × (steps ≤ block_rows) }
    ensures { NextInBlock k steps result }
{
    let next = k + 1;
    if next < steps { next } else { 0 }
}

// Steps ascending, links ascending; the first overload ends the check.
pub fn first_overload(lag: u64, pair: &Pair<'_>) -> Option<Overload>
    requires { (1 ≤ lag) × (lag ≤ most_lag) }
    ensures { result ≡ overload_of (first_overload lag (network_of pair.now.network) (plan_of pair.now.plan)) }
{
    let search = Search { lag, pair };
    let links = pair.network().links();
    let bounds = Bounds::of_all(pair);
    let in_block = search.block_steps();
    let mut amounts = Amounts::new();
    let mut loads = [0; LOADS];
    let mut found = None;
    let mut k = 0;
    'steps: for i in 0..search.steps() {
        search.block_loads(i, k, &mut amounts, &mut loads);
        for l in 0..links {
            if let Some(cause) = over(bounds[l], &loads, l, k) {
                found = Some(Overload {
                    cause,
                    row: i,
                    link: l,
                });
                break 'steps;
            }
        }
        k = next_in_block(k, in_block);
    }
    found
}
