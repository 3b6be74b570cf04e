//! A fair hand-out for eight desks. Desks 0 to 7 submit jobs, at most four wait for each, and a hand-out takes the oldest
//! job of the first desk with work, going round from the desk after the last one served. Each desk has job numbers of its
//! own. Every value of the state's type is a state (`seen`), so that no operation has a precondition.
#![tactic(auto)]

ghost use Rattle.std.specs.Prelude.{◌≡◌};
ghost use Rattle.desks.specs.State.{empty, submitted, handed_out};
ghost use Rattle.desks.specs.Seen.{seen, Untouched, told_acceptance, told_job};

use lists::refusal::{Cause, Refusal};

mod desk;
pub mod numbers;
mod rings;
mod turns;

use desk::Desk;

// Six fields, since C lends a state in six parts.
#[derive(Clone, Copy)]
pub struct Desks {
    // The jobs that wait: each desk has a ring of four places.
    pub numbers: [u32; Desks::PLACES],
    pub tags: [u32; Desks::PLACES],
    // Where in its ring a desk's oldest job stands.
    pub oldest: [u8; Desks::DESKS],
    // How many jobs of a desk wait.
    pub waiting: [u8; Desks::DESKS],
    // The last number that a desk was given.
    pub counters: [u32; Desks::DESKS],
    // The last desk served.
    pub last: u8,
}

// What a submission is answered that is accepted.
#[derive(Clone, Copy, Debug, PartialEq, Eq, Drop)]
pub struct Accepted {
    pub number: u32,
    // The jobs to be handed out before this one if nobody submits again.
    pub before: u64,
}

// A job that is handed out.
#[derive(Clone, Copy, Debug, PartialEq, Eq, Drop)]
pub struct Job {
    pub desk: u64,
    pub number: u32,
    pub tag: u32,
}

impl Desks {
    pub const DESKS: usize = 8;

    pub const WAITING: u8 = 4;

    // The places of all rings.
    pub const PLACES: usize = Self::DESKS * Self::WAITING as usize;

    pub const LAST_NUMBER: u32 = 4_294_967_295;

    // The empty state. The desk after 7 is desk 0, and the number after 0 is 1.
    pub fn none_waiting() -> Desks
        ensures { seen result ≡ empty }
    {
        Desks {
            numbers: [0; Self::PLACES],
            tags: [0; Self::PLACES],
            oldest: [0; Self::DESKS],
            waiting: [0; Self::DESKS],
            counters: [0; Self::DESKS],
            last: 7,
        }
    }

    // A desk submits a job: its number and how many go before it, or why it is refused.
    pub fn submit(&mut self, desk: u64, tag: u32) -> Result<Accepted, Refusal>
        ensures answer_value { result ≡ told_acceptance (submitted desk tag (seen self.old)).answer }
        ensures desks_value { seen self.new ≡ (submitted desk tag (seen self.old)).state }
        ensures untouched { Untouched (submitted desk tag (seen self.old)).answer self.old self.new }
    {
        if Self::DESKS as u64 <= desk {
            return Err(refuse(Cause::NoSuchDesk, desk));
        }
        let d = Desk { at: desk as usize };
        if Self::WAITING <= self.waiting[d.at] {
            return Err(refuse(Cause::FourWait, desk));
        }
        let number = rings::next_number(self.counters[d.at]);
        let before = self.jobs_before(d);
        self.put(d, number, tag);
        Ok(Accepted { number, before })
    }

    // The next job in turn, or why there is none.
    pub fn hand_out(&mut self) -> Result<Job, Refusal>
        ensures answer_value { result ≡ told_job (handed_out (seen self.old)).answer }
        ensures desks_value { seen self.new ≡ (handed_out (seen self.old)).state }
        ensures untouched { Untouched (handed_out (seen self.old)).answer self.old self.new }
    {
        let Some(desk) = self.whose_turn() else {
            return Err(refuse(Cause::NothingWaits, 0));
        };
        Ok(self.serve(desk))
    }
}

// The refusal at a desk.
fn refuse(cause: Cause, desk: u64) -> Refusal
    ensures { result ≡ record { cause = cause; place = desk; second = 0 } }
{
    Refusal {
        cause,
        place: desk,
        second: 0,
    }
}
