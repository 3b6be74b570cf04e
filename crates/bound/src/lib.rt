//! The step bound: how many even steps suffice for a network that keeps its scratch.
#![tactic(auto)]

ghost use Rattle.std.specs.Prelude.{◌≡◌, true, ◌-◌};
ghost use Rattle.model.specs.Even.{ceil_div};
ghost use Rattle.model.specs.declared.Cause.TheVariants.{OutOfRange as out_of_range};
ghost use Rattle.lists.specs.Refusals.{refusal};
ghost use Rattle.bound.specs.Bound.{is_share, bound_of, told};
ghost use Rattle.bound.specs.Card.{IsCard};

use card::CARD;
use lists::Network;
use lists::refusal::{Cause, Refusal};

mod card;

// A share is a scratch or an overrun.
fn is_share(x: u64) -> bool
    ensures { result ≡ is_share x }
{
    (Network::SHARE_LOW..=Network::SHARE_HIGH).contains(&x)
}

// The card's entry for a share.
fn entry(card: &[u8], share: u64) -> u8
    requires { IsCard card.now × (is_share share ≡ true) }
    ensures { result ≡ ceil_div 1000 share - 1 }
{
    card[(share - Network::SHARE_LOW) as usize]
}

// The refusal of the share in this line.
fn outside(line: u64) -> Refusal
    ensures { result ≡ refusal out_of_range line 0 }
{
    Refusal {
        cause: Cause::OutOfRange,
        place: line,
        second: 0,
    }
}

// The step bound, looked up in a card.
fn by_card(card: &[u8], scratch: u64, overrun: u64) -> Result<u64, Refusal>
    requires { IsCard card.now }
    ensures { result ≡ told (bound_of scratch overrun) }
{
    if !is_share(scratch) {
        return Err(outside(2));
    }
    let steps = entry(card, scratch) as u64;
    if overrun == 0 {
        return Ok(steps);
    }
    if !is_share(overrun) {
        return Err(outside(3));
    }
    // 1000 / overrun, rounded up, is one more than the overrun's entry.
    Ok(steps.max(entry(card, overrun) as u64 + 1))
}

// A constant is copied where it is used: once a call.
pub fn step_bound(scratch: u64, overrun: u64) -> Result<u64, Refusal>
    ensures { result ≡ told (bound_of scratch overrun) }
{
    by_card(&CARD, scratch, overrun)
}

// The step bound of a scratch with no overrun; of a slack, the number of stages.
pub fn last_step(share: u64) -> u64
    requires { is_share share ≡ true }
    ensures { result ≡ ceil_div 1000 share - 1 }
{
    entry(&CARD, share) as u64
}
