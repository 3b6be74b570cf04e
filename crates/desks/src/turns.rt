// How many jobs go before one that is submitted.
ghost use Rattle.std.specs.Prelude.{◌≡◌, ◌≤◌, min, cond, get_or};
ghost use Rattle.desks.specs.Round.{place_in_round, turns, other_than, jobs_before};

use crate::Desks;
use crate::desk::Desk;

impl Desks {
    // Where a desk comes in the round, counted from 0.
    fn place_in_round(&self, desk: Desk) -> usize
        ensures { result ≡ place_in_round self.now.last desk.at }
    {
        (desk.at + Self::DESKS - (self.last as usize + 1) % Self::DESKS) % Self::DESKS
    }

    // How often another desk has its turn before the next job of a desk.
    fn turns(&self, desk: Desk, other: Desk) -> u8
        ensures { result ≡ turns self.now.last desk.at (min (get_or self.now.waiting desk.at 0) 4) other.at }
    {
        let p = self.counted(desk);
        if self.place_in_round(other) < self.place_in_round(desk) {
            p + 1
        } else {
            p
        }
    }

    // The jobs of another desk that go before that job; 0 where it is the desk itself.
    fn from_other(&self, desk: Desk, other: Desk) -> u64
        ensures value { result ≡ cond (other_than desk.at other.at) (min (min (get_or self.now.waiting other.at 0) 4) (turns self.now.last desk.at (min (get_or self.now.waiting desk.at 0) 4) other.at)) 0 }
        ensures upper_bound { result ≤ 4 }
    {
        if other.at == desk.at {
            return 0;
        }
        self.counted(other).min(self.turns(desk, other)) as u64
    }

    // The jobs to be handed out before the next one of a desk if nobody submits again. The loop goes over the desks' numbers.
    pub fn jobs_before(&self, desk: Desk) -> u64
        ensures { result ≡ jobs_before (λ d. min (get_or self.now.waiting d 0) 4) self.now.last desk.at (min (get_or self.now.waiting desk.at 0) 4) }
    {
        let mut sum = self.counted(desk) as u64;
        for at in 0..Self::DESKS {
            sum += self.from_other(desk, Desk { at });
        }
        sum
    }
}
