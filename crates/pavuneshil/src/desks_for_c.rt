// The hand-out for eight desks, for C and Rust. The state is lent in six parts, the fields of `desks::Desks`.
ghost use Rattle.std.specs.Prelude.{◌≡◌};
ghost use Rattle.desks.specs.State.{empty, submitted, handed_out};
ghost use Rattle.desks.specs.Seen.{seen, Untouched, told_acceptance, told_job};
ghost use Rattle.desks.specs.Four.{four_of_acceptance, four_of_job};

use desks::numbers::Refused;
use desks::{Desks, numbers};

// The state in the parts that are lent.
fn lent(
    numbers: &[u32; 32],
    tags: &[u32; 32],
    oldest: &[u8; 8],
    waiting: &[u8; 8],
    counters: &[u32; 8],
    last: u8,
) -> Desks
    ensures { result ≡ record { numbers = numbers.now; tags = tags.now; oldest = oldest.now; waiting = waiting.now; counters = counters.now; last = last } }
{
    Desks {
        numbers: *numbers,
        tags: *tags,
        oldest: *oldest,
        waiting: *waiting,
        counters: *counters,
        last,
    }
}

// Leaves a state in the parts that are lent.
fn leave(
    s: Desks,
    numbers: &mut [u32; 32],
    tags: &mut [u32; 32],
    oldest: &mut [u8; 8],
    waiting: &mut [u8; 8],
    counters: &mut [u32; 8],
    last: &mut u8,
)
    ensures { record { numbers = numbers.new; tags = tags.new; oldest = oldest.new; waiting = waiting.new; counters = counters.new; last = last.new } ≡ s }
{
    // Each array has a name before it is stored: straight from a field there is no proof.
    let n = s.numbers;
    let t = s.tags;
    let o = s.oldest;
    let w = s.waiting;
    let c = s.counters;
    *numbers = n;
    *tags = t;
    *oldest = o;
    *waiting = w;
    *counters = c;
    *last = s.last;
}

// The empty state.
#[unsafe(no_mangle)]
pub extern "C" fn pavuneshil_none_waiting(
    numbers: &mut [u32; 32],
    tags: &mut [u32; 32],
    oldest: &mut [u8; 8],
    waiting: &mut [u8; 8],
    counters: &mut [u32; 8],
    last: &mut u8,
)
    ensures { seen (record { numbers = numbers.new; tags = tags.new; oldest = oldest.new; waiting = waiting.new; counters = counters.new; last = last.new }) ≡ empty }
{
    leave(
        Desks::none_waiting(),
        numbers,
        tags,
        oldest,
        waiting,
        counters,
        last,
    );
}

// A desk submits a job.
#[unsafe(no_mangle)]
pub extern "C" fn pavuneshil_submit(
    numbers: &mut [u32; 32],
    tags: &mut [u32; 32],
    oldest: &mut [u8; 8],
    waiting: &mut [u8; 8],
    counters: &mut [u32; 8],
    last: &mut u8,
    desk: u64,
    tag: u32,
    answer: &mut [u64; 4],
)
    ensures answer_after { answer.new ≡ four_of_acceptance (told_acceptance (submitted desk tag (seen (record { numbers = numbers.old; tags = tags.old; oldest = oldest.old; waiting = waiting.old; counters = counters.old; last = last.old }))).answer) }
    ensures last_after { seen (record { numbers = numbers.new; tags = tags.new; oldest = oldest.new; waiting = waiting.new; counters = counters.new; last = last.new }) ≡ (submitted desk tag (seen (record { numbers = numbers.old; tags = tags.old; oldest = oldest.old; waiting = waiting.old; counters = counters.old; last = last.old }))).state }
    ensures untouched { Untouched (submitted desk tag (seen (record { numbers = numbers.old; tags = tags.old; oldest = oldest.old; waiting = waiting.old; counters = counters.old; last = last.old }))).answer (record { numbers = numbers.old; tags = tags.old; oldest = oldest.old; waiting = waiting.old; counters = counters.old; last = last.old }) (record { numbers = numbers.new; tags = tags.new; oldest = oldest.new; waiting = waiting.new; counters = counters.new; last = last.new }) }
{
    let mut desks = lent(numbers, tags, oldest, waiting, counters, *last);
    let submission = desks.submit(desk, tag);
    leave(desks, numbers, tags, oldest, waiting, counters, last);
    *answer = numbers::of_submission(submission.map_err(Refused::from));
}

// The next job in turn.
#[unsafe(no_mangle)]
pub extern "C" fn pavuneshil_hand_out(
    numbers: &mut [u32; 32],
    tags: &mut [u32; 32],
    oldest: &mut [u8; 8],
    waiting: &mut [u8; 8],
    counters: &mut [u32; 8],
    last: &mut u8,
    answer: &mut [u64; 4],
)
    ensures answer_after { answer.new ≡ four_of_job (told_job (handed_out (seen (record { numbers = numbers.old; tags = tags.old; oldest = oldest.old; waiting = waiting.old; counters = counters.old; last = last.old }))).answer) }
    ensures last_after { seen (record { numbers = numbers.new; tags = tags.new; oldest = oldest.new; waiting = waiting.new; counters = counters.new; last = last.new }) ≡ (handed_out (seen (record { numbers = numbers.old; tags = tags.old; oldest = oldest.old; waiting = waiting.old; counters = counters.old; last = last.old }))).state }
    ensures untouched { Untouched (handed_out (seen (record { numbers = numbers.old; tags = tags.old; oldest = oldest.old; waiting = waiting.old; counters = counters.old; last = last.old }))).answer (record { numbers = numbers.old; tags = tags.old; oldest = oldest.old; waiting = waiting.old; counters = counters.old; last = last.old }) (record { numbers = numbers.new; tags = tags.new; oldest = oldest.new; waiting = waiting.new; counters = counters.new; last = last.new }) }
{
    let mut desks = lent(numbers, tags, oldest, waiting, counters, *last);
    let job = desks.hand_out();
    leave(desks, numbers, tags, oldest, waiting, counters, last);
    *answer = numbers::of_hand_out(job.map_err(Refused::from));
}
