//! A page for the change board: one step of an accepted plan, laid out in columns.
#![tactic(auto)]

ghost use Rattle.std.specs.Prelude.{◌≡◌, length};
ghost use Rattle.lists.specs.Answers.{with_room, done, lent};
ghost use Rattle.lists.specs.Refusals.{counted};
ghost use Rattle.lists.specs.Lists.{network_of, plan_of};
ghost use Rattle.page.specs.Page.{step_page, page_of};
ghost use Rattle.page.specs.Inner.{Accepted};

use amounts::pair::Pair;
use checker::check;
use fields::LINE;
use lists::judged::{NetworkList, PlanList};
use lists::refusal::{Cause, Refusal};
use lists::{Answer, Network};

mod blocks;

// The rule is that of agents that do not fall behind.
const LAG: u64 = 1;

// The headings of the two blocks.
const HEADINGS: usize = 2;

const TUNNELS: usize = Network::TUNNELS as usize;

// The most bytes that a page has.
pub const BYTES: usize = LINE * (HEADINGS + Network::LINKS as usize + TUNNELS);

// Lays out a step of a plan that is accepted: 11 for a step that it does not have, then 10.
fn lay_out(pair: &Pair<'_>, step: u64, out: &mut [u8]) -> Result<usize, Refusal>
    requires { Accepted pair.now.network pair.now.plan }
    ensures value { result ≡ counted (with_room (length out.old) (step_page (network_of pair.now.network) (plan_of pair.now.plan) step)) }
    ensures out_after { out.new ≡ lent (with_room (length out.old) (step_page (network_of pair.now.network) (plan_of pair.now.plan) step)) out.old }
{
    let steps = pair.plan().steps() as u64;
    if step < 1 || steps < step {
        return Err(Refusal {
            cause: Cause::NoSuchStep,
            place: step,
            second: 0,
        });
    }
    let network = pair.network();
    let needed = LINE * (HEADINGS + network.links() + network.tunnels());
    if out.len() < needed {
        return Err(Refusal::no_room(needed));
    }
    let i = (step - 1) as usize;
    Ok(blocks::put_page(out, pair, i))
}

// The page of one step of a plan that is checked here.
fn checked_page(network: &[u64], plan: &[u64], step: u64, out: &mut [u8]) -> Result<usize, Refusal>
    ensures value { result ≡ counted (with_room (length out.old) (page_of network.now plan.now step)) }
    ensures out_after { out.new ≡ lent (with_room (length out.old) (page_of network.now plan.now step)) out.old }
{
    let mut marks = [0; TUNNELS];
    check::check_plan(LAG, network, plan, &mut marks)?;
    let pair = Pair::new(NetworkList::new(network), PlanList::new(plan));
    lay_out(&pair, step, out)
}

// The page of one step. Refuses as the checker does, then a step that the plan does not have, then an output without room; a
// refusal leaves the output as it was.
pub fn page(network: &[u64], plan: &[u64], step: u64, out: &mut [u8]) -> Answer
    ensures value { result ≡ done (with_room (length out.old) (page_of network.now plan.now step)) }
    ensures out_after { out.new ≡ lent (with_room (length out.old) (page_of network.now plan.now step)) out.old }
{
    Answer::done(checked_page(network, plan, step, out))
}
