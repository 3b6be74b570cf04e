//! Reads `network.txt` and `plan.txt` in the current folder and prints whether the plan is accepted, or why it is not.
#![tactic(auto)]

ghost use Rattle.std.specs.Prelude.{◌≤◌, ◌≡◌, length, take};
ghost use Rattle.report.specs.Counts.{IsPrefixLen};
ghost use Rattle.lists.specs.Refusals.{done_with};
ghost use Rattle.report.specs.Printed.{check_texts, printed_check};

use checker::check;
use lists::refusal::Refusal;
use lists::{Network, PlanSizes};
use readers::read;
use std::fs::File;
use std::io::Write;
use std::rt::Files;

// The marks are lent since the check asks for them; only the answer is printed.
const MARKS: usize = Network::TUNNELS as usize;

// Fills buf from the start of a file and answers how many bytes it has. A file that cannot be opened, or cannot be read, has none.
fn read_file<R: Files>(rt: &R, path: &str, buf: &mut [u8]) -> usize
    ensures { IsPrefixLen result buf.new }
{
    match File::open(rt, path) {
        Ok(mut file) => report::read_full(&mut file, buf),
        Err(_) => 0,
    }
}

// "The checker reads the whole network first, then the whole plan".
fn check_texts(network: &[u8], plan: &[u8]) -> Result<usize, Refusal>
    ensures { done_with result ≡ check_texts network.now plan.now }
{
    let mut network_list = [0u64; Network::NUMBERS];
    let length = read::read_network(network, &mut network_list)?;
    let mut plan_list = [0u64; PlanSizes::NUMBERS];
    let size = read::read_plan(plan, &mut plan_list)?;
    let mut marks = [0u8; MARKS];
    check::check_plan(
        report::LAG,
        &network_list[..length],
        &plan_list[..size],
        &mut marks,
    )
}

// Puts what is printed: that the plan is accepted, or the lines of a refusal. Answers how many bytes that is.
fn put_answer(network: &[u8], plan: &[u8], out: &mut [u8]) -> usize
    requires { 84 ≤ length out.old }
    ensures prefix_len { IsPrefixLen result out.new }
    ensures out_after { take result out.new ≡ printed_check (check_texts network.now plan.now) }
{
    match check_texts(network, plan) {
        Ok(_) => lines::put(out, 0, b"accepted=1\n"),
        Err(refusal) => {
            report::put_refusal(out, refusal.cause.number(), refusal.place, refusal.second)
        }
    }
}

fn main(rt: HostRuntime) {
    let mut network = [0u8; report::TEXT];
    let network_length = read_file(&rt, "network.txt", &mut network);
    let mut plan = [0u8; report::TEXT];
    let plan_length = read_file(&rt, "plan.txt", &mut plan);
    let mut out = [0u8; 4096];
    let length = put_answer(&network[..network_length], &plan[..plan_length], &mut out);
    if rt.stdout().write_all(&out[..length]).is_err() {
        let _ = rt
            .stderr()
            .write_all(b"check_plan: the answer could not be written\n");
    }
}
