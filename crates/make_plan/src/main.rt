//! Reads a network text on standard input and prints the text of the even plan of fewest steps, or why there is none.
#![tactic(auto)]

ghost use Rattle.std.specs.Prelude.{◌≡◌, ◌≤◌, length, take};
ghost use Rattle.lists.specs.Answers.{with_room, lent};
ghost use Rattle.lists.specs.Refusals.{counted};
ghost use Rattle.report.specs.Counts.{IsPrefixLen};
ghost use Rattle.report.specs.Printed.{plan_text, printed_plan};

use lists::refusal::Refusal;
use lists::{Network, PlanSizes};
use readers::read;
use std::io::Write;
use writers::write;

// Writes the plan text for a network text, and gives its length; a refusal is that of the first operation that refuses.
fn plan_text(text: &[u8], out: &mut [u8]) -> Result<usize, Refusal>
    ensures value { result ≡ counted (with_room (length out.old) (plan_text text.now)) }
    ensures out_after { out.new ≡ lent (with_room (length out.old) (plan_text text.now)) out.old }
{
    let mut network = [0u64; Network::NUMBERS];
    let length = read::read_network(text, &mut network)?;
    let mut plan = [0u64; PlanSizes::NUMBERS];
    let size = planner::make_plan(report::LAG, &network[..length], &mut plan)?;
    write::write_plan(&plan[..size], out)
}

// Puts what is printed: the plan text, or the lines of a refusal. Answers how many bytes that is.
fn put_answer(text: &[u8], out: &mut [u8]) -> usize
    requires { 84 ≤ length out.old }
    ensures prefix_len { IsPrefixLen result out.new }
    ensures out_after { take result out.new ≡ printed_plan (with_room (length out.old) (plan_text text.now)) }
{
    match plan_text(text, out) {
        Ok(length) => length,
        Err(refusal) => {
            report::put_refusal(out, refusal.cause.number(), refusal.place, refusal.second)
        }
    }
}

fn main(rt: HostRuntime) {
    let mut text = [0u8; report::TEXT];
    let read = report::read_full(&mut rt.stdin(), &mut text);
    let mut out = [0u8; report::TEXT];
    let length = put_answer(&text[..read], &mut out);
    if rt.stdout().write_all(&out[..length]).is_err() {
        let _ = rt
            .stderr()
            .write_all(b"make_plan: the answer could not be written\n");
    }
}
