//! The seven operations, the page and sharing for C and Rust, and in modules of their own the desks and the operations on rule tables:
//! `rt lib` in this folder makes libpavuneshil.a of them. Each has no precondition.
//! A slice passes as a pointer and a length, `answer` as a pointer to four numbers: the kind, then the values, as `four`
//! gives them. What is lent is left as the operations leave it.
#![tactic(auto)]

ghost use Rattle.std.specs.Prelude.{◌≡◌, length};
ghost use Rattle.lists.specs.Answers.{with_room, done, plan, lent};
ghost use Rattle.planner.specs.Planned.{planned};
ghost use Rattle.checker.specs.Check.{verdict, checked, marks_after};
ghost use Rattle.bound.specs.Bound.{bound_of, told};
ghost use Rattle.page.specs.Page.{page_of};
ghost use Rattle.sharing.specs.Share.{shared};
ghost use Rattle.pavuneshil.specs.Four.{four, four_of_bound};
ghost use Rattle.forms.specs.declared.form.Form.TheVariants as forms;
ghost use Rattle.forms.specs.Read.{read_text};
ghost use Rattle.forms.specs.Write.{write_text};

mod desks_for_c;
mod rules_for_c;

use lists::Answer;
use lists::refusal::Refusal;

// An answer as four numbers. A function, and no `From`: neither the answer's type nor an array is of this crate.
pub(crate) fn numbers(a: Answer) -> [u64; 4]
    ensures { result ≡ four a }
{
    match a {
        Answer::Done(length) => [0, length as u64, 0, 0],
        Answer::Plan(length) => [1, length as u64, 0, 0],
        Answer::Refused {
            number,
            place,
            second,
        } => [2, number, place, second],
    }
}

// The step bound's answer as four numbers.
fn bound_numbers(a: Result<u64, Refusal>) -> [u64; 4]
    ensures { result ≡ four_of_bound a }
{
    match a {
        Ok(steps) => [0, steps, 0, 0],
        Err(refusal) => numbers(Answer::from(refusal)),
    }
}

// Reads a network text into a list of numbers, one for each line.
#[unsafe(no_mangle)]
pub extern "C" fn pavuneshil_read_network(text: &[u8], out: &mut [u64], answer: &mut [u64; 4])
    ensures answer_after { answer.new ≡ four (done (with_room (length out.old) (read_text forms.Network text.now))) }
    ensures out_after { out.new ≡ lent (with_room (length out.old) (read_text forms.Network text.now)) out.old }
{
    *answer = numbers(product::read_network(text, out));
}

// Reads a plan text into a list of numbers, one for each line.
#[unsafe(no_mangle)]
pub extern "C" fn pavuneshil_read_plan(text: &[u8], out: &mut [u64], answer: &mut [u64; 4])
    ensures answer_after { answer.new ≡ four (done (with_room (length out.old) (read_text forms.Plan text.now))) }
    ensures out_after { out.new ≡ lent (with_room (length out.old) (read_text forms.Plan text.now)) out.old }
{
    *answer = numbers(product::read_plan(text, out));
}

// Writes the text of a network's list.
#[unsafe(no_mangle)]
pub extern "C" fn pavuneshil_write_network(list: &[u64], out: &mut [u8], answer: &mut [u64; 4])
    ensures answer_after { answer.new ≡ four (done (with_room (length out.old) (write_text forms.Network list.now))) }
    ensures out_after { out.new ≡ lent (with_room (length out.old) (write_text forms.Network list.now)) out.old }
{
    *answer = numbers(product::write_network(list, out));
}

// Writes the text of a plan's list.
#[unsafe(no_mangle)]
pub extern "C" fn pavuneshil_write_plan(list: &[u64], out: &mut [u8], answer: &mut [u64; 4])
    ensures answer_after { answer.new ≡ four (done (with_room (length out.old) (write_text forms.Plan list.now))) }
    ensures out_after { out.new ≡ lent (with_room (length out.old) (write_text forms.Plan list.now)) out.old }
{
    *answer = numbers(product::write_plan(list, out));
}

// Makes the even plan of fewest steps for a network's list, at a lag. The name says that there is one: what was compiled without it does not link.
#[unsafe(no_mangle)]
pub extern "C" fn pavuneshil_make_plan_at_lag(
    lag: u64,
    network: &[u64],
    out: &mut [u64],
    answer: &mut [u64; 4],
)
    ensures answer_after { answer.new ≡ four (plan (with_room (length out.old) (planned lag network.now))) }
    ensures out_after { out.new ≡ lent (with_room (length out.old) (planned lag network.now)) out.old }
{
    *answer = numbers(product::make_plan(lag, network, out));
}

// Checks anybody's plan against a network, at a lag, and marks the tunnels that show an overload.
#[unsafe(no_mangle)]
pub extern "C" fn pavuneshil_check_plan_at_lag(
    lag: u64,
    network: &[u64],
    plan: &[u64],
    marks: &mut [u8],
    answer: &mut [u64; 4],
)
    ensures answer_after { answer.new ≡ four (checked network.now (verdict lag network.now plan.now (length marks.old))) }
    ensures marks_after { marks.new ≡ marks_after lag network.now plan.now (verdict lag network.now plan.now (length marks.old)) marks.old }
{
    *answer = numbers(product::check_plan(lag, network, plan, marks));
}

// The step bound of a network that keeps its scratch.
#[unsafe(no_mangle)]
pub extern "C" fn pavuneshil_step_bound(scratch: u64, overrun: u64, answer: &mut [u64; 4])
    ensures { answer.new ≡ four_of_bound (told (bound_of scratch overrun)) }
{
    *answer = bound_numbers(product::step_bound(scratch, overrun));
}

// The page of one step of an accepted plan.
#[unsafe(no_mangle)]
pub extern "C" fn pavuneshil_page(
    network: &[u64],
    plan: &[u64],
    step: u64,
    out: &mut [u8],
    answer: &mut [u64; 4],
)
    ensures answer_after { answer.new ≡ four (done (with_room (length out.old) (page_of network.now plan.now step))) }
    ensures out_after { out.new ≡ lent (with_room (length out.old) (page_of network.now plan.now step)) out.old }
{
    *answer = numbers(page::page(network, plan, step, out));
}

// Divides a flow's rate among services.
#[unsafe(no_mangle)]
pub extern "C" fn pavuneshil_share(
    rate: u64,
    demands: &[u64],
    out: &mut [u64],
    answer: &mut [u64; 4],
)
    ensures answer_after { answer.new ≡ four (done (with_room (length out.old) (shared rate demands.now))) }
    ensures out_after { out.new ≡ lent (with_room (length out.old) (shared rate demands.now)) out.old }
{
    *answer = numbers(sharing::share(rate, demands, out));
}
