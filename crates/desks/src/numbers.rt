// The answers as four numbers: the kind, 0 or for a refusal 2, then the values, 0 where there is none.
ghost use Rattle.std.specs.Prelude.{◌≡◌};
ghost use Rattle.desks.specs.Four.{four_of_refusal, numbers_of, four_of_submission, four_of_hand_out};

use crate::{Accepted, Job};
use lists::refusal::Refusal;

// A refusal by its three numbers, whichever they are: an answer is handed over as it is, with the number of a cause or with another.
#[derive(Clone, Copy, Debug, PartialEq, Eq, Drop)]
pub struct Refused {
    pub number: u64,
    pub place: u64,
    pub second: u64,
}

impl From<Refusal> for Refused {
    ghost from_gives = { λ e r. r ≡ numbers_of e };

    fn from(refusal: Refusal) -> Refused {
        Refused {
            number: refusal.cause.number(),
            place: refusal.place,
            second: refusal.second,
        }
    }
}

pub fn of_refusal(refusal: Refusal) -> [u64; 4]
    ensures { result ≡ four_of_refusal refusal }
{
    [2, refusal.cause.number(), refusal.place, refusal.second]
}

// The answer to a submission as four numbers; a function for each kind of answer, since they share but the refusal.
pub fn of_submission(a: Result<Accepted, Refused>) -> [u64; 4]
    ensures { result ≡ four_of_submission a }
{
    match a {
        Ok(Accepted { number, before }) => [0, number as u64, before, 0],
        Err(refused) => [2, refused.number, refused.place, refused.second],
    }
}

// The answer to a hand-out as four numbers.
pub fn of_hand_out(a: Result<Job, Refused>) -> [u64; 4]
    ensures { result ≡ four_of_hand_out a }
{
    match a {
        Ok(Job { desk, number, tag }) => [0, desk, number as u64, tag as u64],
        Err(nothing) => [2, nothing.number, nothing.place, nothing.second],
    }
}
