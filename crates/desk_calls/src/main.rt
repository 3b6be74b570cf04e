//! Runs a long fixed sequence of calls at the desks, from the empty state, and prints each call with its answer, a line
//! each. What is printed is held to a stored output, and that to the second implementation.
#![tactic(auto)]

ghost use Rattle.std.specs.Prelude.{◌<◌, ◌++◌, OnOk, decimal};
ghost use Rattle.std.specs.Io.KnownBytes.{Appends};

mod calls;

use calls::{Answer, Call};
use desks::{Accepted, Job};
use lists::refusal::{Cause, Refusal};
use std::io;
use std::io::Write;

const CALLS: usize = 1000;

// The next number of the sequence, below 2 ^ 31.
fn draw(x: u64) -> u64
    requires { x < 2147483648 }
    ensures { result < 2147483648 }
{
    (x * 1_103_515_245 + 12_345) % 2_147_483_648
}

// Three of four calls are submissions for a hundred calls, then three of four hand-outs.
fn submits(x: u64, i: usize) -> bool {
    let rare = x / 1024 % 4 == 0;
    if i / 100 % 2 == 0 { !rare } else { rare }
}

// Often the same desk, so that four wait there; now and then no such desk.
fn desk_of(x: u64, i: usize) -> u64 {
    let v = x / 65_536 % 20;
    if v < 8 {
        v
    } else if v < 17 {
        (i / 40 % 8) as u64
    } else if v < 19 {
        8
    } else {
        18_446_744_073_709_551_615
    }
}

fn sequence() -> [Call; CALLS] {
    let mut calls = [Call::HandOut; CALLS];
    let mut x = 20_130_812;
    for i in 0..CALLS {
        x = draw(x);
        let desk = desk_of(x, i);
        let submission = submits(x, i);
        x = draw(x);
        if submission {
            let tag = (2 * x) as u32;
            calls[i] = Call::Submit { desk, tag };
        }
    }
    calls
}

// Writes a name and a number.
fn print_number<W: Write>(out: &mut W, name: &str, number: u64) -> io::Result<()>
    ensures { OnOk result (Appends (W.contents out.old) (W.contents out.new) (name.now ++ decimal number)) }
{
    write!(out, "{name}{number}")
}

fn print_call<W: Write>(out: &mut W, call: Call) -> io::Result<()> {
    match call {
        Call::Submit { desk, tag } => {
            print_number(out, "submit desk=", desk)?;
            print_number(out, " tag=", tag as u64)?;
            out.write_all(b":")
        }
        Call::HandOut => out.write_all(b"hand_out:"),
    }
}

fn print_refusal<W: Write>(out: &mut W, refusal: Refusal) -> io::Result<()> {
    print_number(out, " refused=", refusal.cause.number())?;
    print_number(out, " place=", refusal.place)?;
    print_number(out, " second=", refusal.second)
}

fn print_answer<W: Write>(out: &mut W, answer: Answer) -> io::Result<()> {
    match answer {
        Answer::Submission(Ok(Accepted { number, before })) => {
            print_number(out, " number=", number as u64)?;
            print_number(out, " before=", before)?;
        }
        Answer::HandOut(Ok(Job { desk, number, tag })) => {
            print_number(out, " desk=", desk)?;
            print_number(out, " number=", number as u64)?;
            print_number(out, " tag=", tag as u64)?;
        }
        Answer::Submission(Err(refusal)) | Answer::HandOut(Err(refusal)) => {
            print_refusal(out, refusal)?;
        }
    }
    out.write_all(b"\n")
}

fn main(rt: HostRuntime) -> io::Result<()> {
    let calls = sequence();
    let none = Refusal {
        cause: Cause::NothingWaits,
        place: 0,
        second: 0,
    };
    let mut answers = [Answer::HandOut(Err(none)); CALLS];
    calls::run(&calls, &mut answers);
    let mut out = rt.stdout();
    for i in 0..CALLS {
        print_call(&mut out, calls[i])?;
        print_answer(&mut out, answers[i])?;
    }
    out.flush()
}
