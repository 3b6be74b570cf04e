// Runs: any calls one after the other, from the empty state.
ghost use Rattle.std.specs.Prelude.{◌≡◌, ◌++◌, map, take, drop};
ghost use Rattle.desks.specs.State.{empty};
ghost use Rattle.desks.specs.Run.{event, next, log};
ghost use Rattle.desks.specs.Seen.{seen};
ghost use Rattle.desk_calls.specs.Calls.{call_of, told, room_for};
ghost use Rattle.desk_calls.specs.Numbers.{answers_of, in_numbers};

use desks::{Accepted, Desks, Job};
use lists::refusal::Refusal;

#[derive(Clone, Copy)]
pub enum Call {
    Submit { desk: u64, tag: u32 },
    HandOut,
}

#[derive(Clone, Copy)]
pub enum Answer {
    Submission(Result<Accepted, Refusal>),
    HandOut(Result<Job, Refusal>),
}

impl Call {
    // Makes the call.
    fn make(self, desks: &mut Desks) -> Answer
        ensures answer_value { result ≡ told (event (call_of self) (seen desks.old)) }
        ensures desks_value { seen desks.new ≡ next (call_of self) (seen desks.old) }
    {
        match self {
            Call::Submit { desk, tag } => Answer::Submission(desks.submit(desk, tag)),
            Call::HandOut => Answer::HandOut(desks.hand_out()),
        }
    }
}

// Makes the calls, and gives the answers: as many as there is room for.
pub fn run(calls: &[Call], answers: &mut [Answer])
    ensures value { answers.new ≡ map told (log empty (map call_of (take (room_for calls.now answers.old) calls.now))) ++ drop (room_for calls.now answers.old) answers.old }
    ensures numbers { in_numbers (take (room_for calls.now answers.old) answers.new) ≡ answers_of (log empty (map call_of (take (room_for calls.now answers.old) calls.now))) }
{
    let mut desks = Desks::none_waiting();
    // An index, since each call's answer has the same place in `answers`.
    for i in 0..calls.len().min(answers.len()) {
        answers[i] = calls[i].make(&mut desks);
    }
}
