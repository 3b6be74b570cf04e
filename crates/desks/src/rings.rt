// The inner functions: the round, and a desk's ring of four places.
ghost use Rattle.std.specs.Prelude.{◌≡◌, ◌+◌, ◌*◌, ◌%◌, ◌<◌, min, get_or, Ok};
ghost use Rattle.desks.specs.State.{next_number, first_work, work, joined, hand_of};
ghost use Rattle.desks.specs.Seen.{seen, told_job};
ghost use Rattle.desks.specs.Inner.{turn_work, HasWork};

use crate::desk::Desk;
use crate::{Desks, Job};

// The number after n.
pub fn next_number(n: u32) -> u32
    ensures { result ≡ next_number n }
{
    if n < Desks::LAST_NUMBER { n + 1 } else { 1 }
}

impl Desks {
    // How many jobs of a desk wait, where a count above four is read as four.
    pub fn counted(&self, desk: Desk) -> u8
        ensures { result ≡ min (get_or self.now.waiting desk.at 0) 4 }
    {
        self.waiting[desk.at].min(Self::WAITING)
    }

    // The place of the job of a desk before which i others wait.
    fn place(&self, desk: Desk, i: u8) -> usize
        requires { i < 4 }
        ensures { result ≡ 4 * desk.at + (get_or self.now.oldest desk.at 0 + i) % 4 }
    {
        let ring = Self::WAITING as usize;
        ring * desk.at + (self.oldest[desk.at] as usize + i as usize) % ring
    }

    // The first desk with work, going round from the desk after the last one served: the loop counts how far it is gone round.
    pub fn whose_turn(&self) -> Option<Desk>
        ensures s_value { first_work (seen self.now) ≡ turn_work result (seen self.now) }
        ensures desk { HasWork self.now result }
    {
        let start = self.last as usize + 1;
        for k in 0..Self::DESKS {
            let at = (start + k) % Self::DESKS;
            if 0 < self.waiting[at] {
                return Some(Desk { at });
            }
        }
        None
    }

    // A job joins its desk's queue, and its number is the last that this desk was given.
    pub fn put(&mut self, desk: Desk, number: u32, tag: u32)
        requires { get_or self.old.waiting desk.at 0 < 4 }
        ensures { seen self.new ≡ joined desk.at (record { number = number; tag = tag }) (seen self.old) }
    {
        let d = desk.at;
        let at = self.place(desk, self.waiting[d]);
        self.numbers[at] = number;
        self.tags[at] = tag;
        self.waiting[d] += 1;
        self.counters[d] = number;
    }

    // A desk is served: its oldest job leaves its queue.
    pub fn serve(&mut self, desk: Desk) -> Job
        requires { 0 < get_or self.old.waiting desk.at 0 }
        ensures answer_value { Ok result ≡ told_job (hand_of (seen self.old) (work desk.at ((seen self.old).queue desk.at))).answer }
        ensures desks_value { seen self.new ≡ (hand_of (seen self.old) (work desk.at ((seen self.old).queue desk.at))).state }
    {
        let d = desk.at;
        let at = self.place(desk, 0);
        let waiting = self.counted(desk);
        self.oldest[d] = self.oldest[d] % Self::WAITING + 1;
        self.waiting[d] = waiting - 1;
        self.last = d as u8;
        Job {
            desk: d as u64,
            number: self.numbers[at],
            tag: self.tags[at],
        }
    }
}
