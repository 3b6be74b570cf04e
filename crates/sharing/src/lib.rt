//! Sharing a flow's rate among services. Whoever is short of its demand has no more than one unit less than another.
#![tactic(auto)]

ghost use Rattle.std.specs.Prelude.{◌≡◌, length};
ghost use Rattle.model.specs.declared.Cause.TheVariants.{Unshareable as unshareable};
ghost use Rattle.lists.specs.Answers.{with_room, done, lent};
ghost use Rattle.lists.specs.Refusals.{refusal, counted};
ghost use Rattle.sharing.specs.Share.{shared};

use demands::Demands;
use lists::refusal::{Cause, Refusal};
use lists::{Answer, Network};

mod demands;
mod divide;
mod level;

pub const SERVICES: usize = 16;

fn unshareable(place: u64, second: u64) -> Refusal
    ensures { result ≡ refusal unshareable place second }
{
    Refusal {
        cause: Cause::Unshareable,
        place,
        second,
    }
}

// Divides a flow's rate among services. Refuses a count, a rate and a demand out of range, in this order, then an output without room; a
// refusal leaves the output as it was.
pub fn share(rate: u64, demands: &[u64], out: &mut [u64]) -> Answer
    ensures value { result ≡ done (with_room (length out.old) (shared rate demands.now)) }
    ensures out_after { out.new ≡ lent (with_room (length out.old) (shared rate demands.now)) out.old }
{
    Answer::done(divided(rate, demands, out))
}

fn divided(rate: u64, demands: &[u64], out: &mut [u64]) -> Result<usize, Refusal>
    ensures value { result ≡ counted (with_room (length out.old) (shared rate demands.now)) }
    ensures out_after { out.new ≡ lent (with_room (length out.old) (shared rate demands.now)) out.old }
{
    let count = demands.len();
    if count == 0 || SERVICES < count {
        return Err(unshareable(0, 0));
    }
    if Network::AMOUNT < rate {
        return Err(unshareable(0, 1));
    }
    let demands = Demands::judge(demands)?;
    if out.len() < count {
        return Err(Refusal::no_room(count));
    }
    divide::give(rate, &demands, out);
    Ok(count)
}
