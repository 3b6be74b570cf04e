// The readers: a text's lines, one after the other, each a remark or judged for 3, then 1, then 2; then, for a network, the sums.
ghost use Rattle.std.specs.Prelude.{◌≡◌, ◌≤◌, length, take};
ghost use Rattle.model.specs.Outcome.{Outcome};
ghost use Rattle.lists.specs.Answers.{with_room, lent};
ghost use Rattle.lists.specs.Refusals.{counted};
ghost use Rattle.forms.specs.Form.{second_of, most_of, Sound};
ghost use Rattle.forms.specs.Read.{read_lines, read_text};
ghost use Rattle.forms.specs.Named.{read_network, read_plan, read_rules};
ghost use Rattle.readers.specs.Read.{taken_of, next_of, body_of, head_read, field_by, Fits, Begun, ReadOn, Holds};

use crate::line;
use forms::form;
use forms::form::{Form, Line};
use judges::sums;
use lists::refusal::{Cause, Refusal};
use lists::{Network, PlanSizes, RuleTables};

// What the next line gives: its number and how many bytes it has, or the cause of its refusal; or the text ends where the form
// does.
#[derive(Clone, Copy)]
pub(crate) enum Taken {
    Number(u64, usize),
    Stop(Cause),
    Ended,
}

// The first line of what is left of the text: judged for 3, then 1, then 2.
fn take_line(text: &[u8], line: Line) -> Taken
    ensures { result ≡ taken_of line text.now }
{
    if text.is_empty() {
        return Taken::Stop(Cause::Missing);
    }
    let key = line.key.text();
    let Some(value) = line::digits(text, key, line.range.is_hex()) else {
        return Taken::Stop(Cause::Malformed);
    };
    if line.range.admits(value.number) {
        Taken::Number(value.number, key.len() + value.digits.len() + 1)
    } else {
        Taken::Stop(Cause::OutOfRange)
    }
}

// The same by what the form has there.
fn next_line(text: &[u8], field: Option<Line>) -> Taken
    ensures { result ≡ next_of field text.now }
{
    match field {
        Some(line) => take_line(text, line),
        None if text.is_empty() => Taken::Ended,
        None => Taken::Stop(Cause::Missing),
    }
}

fn refusal(cause: Cause, line: u64, form: Form) -> Refusal
    ensures { result ≡ record { cause = cause; place = line; second = second_of form } }
{
    Refusal {
        cause,
        place: line,
        second: form.second(),
    }
}

// What is known of the lines after a network's head, after some numbers: nothing while the head is read, then the sizes, which are taken
// out of the list once.
fn body_after(form: Form, done: &[u64]) -> Option<Network>
    requires { Sound form done.now }
    ensures { result ≡ body_of form done.now }
{
    match form {
        Form::Network if !form::in_network_head(done) => Some(Network::of(done)),
        _ => None,
    }
}

// Whether a network's head has been read since nothing was known of what comes after it.
fn head_read(form: Form, body: Option<Network>, done: &[u64]) -> bool
    ensures { result ≡ head_read form body done.now }
{
    match (form, body) {
        (Form::Network, None) => !form::in_network_head(done),
        _ => false,
    }
}

// What a network has after some numbers, each of which its own field allows; nothing after its head as long as its body is not known.
fn network_field(body: Option<Network>, done: &[u64]) -> Option<Line>
    requires { Sound Form.Network done.now × Fits Form.Network body done.now }
    ensures { result ≡ field_by Form.Network body done.now }
{
    match body {
        Some(sizes) => form::network_body_field(sizes, done),
        None if form::in_network_head(done) => form::network_head_field(done),
        None => None,
    }
}

// The same of any form. A function of the readers, which the compiler puts into their loop: one that is called elsewhere too would stay
// a call for each line.
fn field_after(form: Form, body: Option<Network>, done: &[u64]) -> Option<Line>
    requires { Sound form done.now × Fits form body done.now }
    ensures { result ≡ field_by form body done.now }
{
    match form {
        Form::Network => network_field(body, done),
        Form::Plan => form::plan_field(done),
        Form::Rules => form::rules_field(done),
    }
}

// Where the reading stops: how many numbers are read, where the line after them begins, and what that gives.
#[derive(Clone, Copy)]
struct Stopped {
    count: usize,
    at: usize,
    taken: Taken,
}

// Reads lines into a list, after `count` numbers and from `from` on, up to the first line that gives no number, or to the end of a
// network's head. A remark has no number, so that no other line is asked whether it is one.
fn read_on(
    form: Form,
    body: Option<Network>,
    text: &[u8],
    count: usize,
    from: usize,
    vals: &mut [u64],
) -> Stopped
    requires vals_len { length vals.old ≡ most_of form }
    requires begun { Begun form text.now vals.old count from × Fits form body (take count vals.old) }
    ensures { ReadOn form body text.now vals.old count from vals.new result }
{
    let mut at = from;
    let mut i = count;
    loop {
        let field = field_after(form, body, &vals[..i]);
        let taken = next_line(&text[at..], field);
        let Taken::Number(v, length) = taken else {
            return Stopped {
                count: i,
                at,
                taken,
            };
        };
        vals[i] = v;
        i += 1;
        at += length;
    }
}

// Reads the real lines of a text into a list, and passes over its remarks. Gives how many numbers that is.
fn read(form: Form, text: &[u8], vals: &mut [u64]) -> Result<usize, Refusal>
    requires { length vals.old ≡ most_of form }
    ensures value { result ≡ counted (read_lines form text.now) }
    ensures holds { Holds (read_lines form text.now) vals.new }
{
    let mut remarks: usize = 0;
    let mut at: usize = 0;
    let mut count: usize = 0;
    loop {
        let body = body_after(form, &vals[..count]);
        let stopped = read_on(form, body, text, count, at, vals);
        at = stopped.at;
        count = stopped.count;
        if head_read(form, body, &vals[..count]) {
            continue;
        }
        let line = (count + remarks + 1) as u64;
        let rest = &text[at..];
        if !line::is_remark(form, rest) {
            let Taken::Stop(cause) = stopped.taken else {
                return Ok(count);
            };
            return Err(refusal(cause, line, form));
        }
        let Some(length) = line::remark_len(rest, remarks) else {
            return Err(refusal(Cause::Malformed, line, form));
        };
        remarks += 1;
        at += length;
    }
}

// Hands a list over to the caller's, where that has room for it.
fn give(list: &[u64], out: &mut [u64]) -> Result<usize, Refusal>
    ensures value { result ≡ counted (with_room (length out.old) (Outcome.good list.now)) }
    ensures out_after { out.new ≡ lent (with_room (length out.old) (Outcome.good list.now)) out.old }
{
    let n = list.len();
    if out.len() < n {
        return Err(Refusal::no_room(n));
    }
    out[..n].copy_from_slice(list);
    Ok(n)
}

// Reads a text into a list of numbers, one for each line, and gives how many they are.
#[tactic(auto, using(crate::proofs::Sums::value_summed, crate::proofs::Sums::holds_summed, crate::proofs::Sums::value_unsummed, crate::proofs::Sums::holds_unsummed))]
fn read_text(form: Form, text: &[u8], vals: &mut [u64]) -> Result<usize, Refusal>
    requires { length vals.old ≡ most_of form }
    ensures value { result ≡ counted (read_text form text.now) }
    ensures holds { Holds (read_text form text.now) vals.new }
{
    let n = read(form, text, vals)?;
    if let Form::Network = form {
        let list = &vals[..n];
        sums::add_up(list, Network::of(list))?;
    }
    Ok(n)
}

// Reads a network text into a list of numbers, one for each line. Here and below the numbers are put into an array of the reader's own
// first, and handed over by the reader itself: the compiler then knows that the two do not overlap, and needs no `memmove`.
pub fn read_network(text: &[u8], out: &mut [u64]) -> Result<usize, Refusal>
    ensures value { result ≡ counted (with_room (length out.old) (read_network text.now)) }
    ensures out_after { out.new ≡ lent (with_room (length out.old) (read_network text.now)) out.old }
{
    let mut vals = [0u64; Network::NUMBERS];
    let n = read_text(Form::Network, text, &mut vals)?;
    give(&vals[..n], out)
}

// The same for a plan text.
pub fn read_plan(text: &[u8], out: &mut [u64]) -> Result<usize, Refusal>
    ensures value { result ≡ counted (with_room (length out.old) (read_plan text.now)) }
    ensures out_after { out.new ≡ lent (with_room (length out.old) (read_plan text.now)) out.old }
{
    let mut vals = [0u64; PlanSizes::NUMBERS];
    let n = read_text(Form::Plan, text, &mut vals)?;
    give(&vals[..n], out)
}

// And for a text of rule tables.
pub fn read_rules(text: &[u8], out: &mut [u64]) -> Result<usize, Refusal>
    ensures value { result ≡ counted (with_room (length out.old) (read_rules text.now)) }
    ensures out_after { out.new ≡ lent (with_room (length out.old) (read_rules text.now)) out.old }
{
    let mut vals = [0u64; RuleTables::NUMBERS];
    let n = read_text(Form::Rules, text, &mut vals)?;
    give(&vals[..n], out)
}
