//! What the two programs share: the lag, the lines of a refusal, and how a text is read.
#![tactic(auto)]

ghost use Rattle.std.specs.Prelude.{◌≡◌, ◌+◌, ◌≤◌, length};
ghost use Rattle.forms.specs.Write.{width_from};
ghost use Rattle.lines.specs.Puts.{Puts};
ghost use Rattle.report.specs.Printed.{decimal, printed_line, refusal_lines};

mod input;

pub use input::read_full;

// The lag that the programs use.
pub const LAG: u64 = 1;

// The most bytes that the programs read of a text.
pub const TEXT: usize = 65_536;

// How many decimal digits a number has: of any 64-bit number, where that of `lines` is for 10 digits and fast.
fn digit_count(v: u64) -> usize
    ensures value { result ≡ width_from 19 1 v }
    ensures most { result ≤ 20 }
{
    let mut count = 1usize;
    let mut rest = v / 10;
    while rest > 0 {
        rest /= 10;
        count += 1;
    }
    count
}

// Puts a number in decimal at a place. This and the functions below answer the place past what they put.
fn put_decimal(out: &mut [u8], at: usize, v: u64) -> usize
    requires { at + 20 ≤ length out.old }
    ensures { Puts (decimal v) at out.old out.new result }
{
    let count = digit_count(v);
    let mut rest = v;
    for i in (0..count).rev() {
        out[at + i] = b'0' + (rest % 10) as u8;
        rest /= 10;
    }
    at + count
}

// Puts a line: a key and a number.
fn put_line(out: &mut [u8], at: usize, key: &[u8], v: u64) -> usize
    requires { at + length key.now + 21 ≤ length out.old }
    ensures { Puts (printed_line key.now v) at out.old out.new result }
{
    let from = lines::put(out, at, key);
    let feed = put_decimal(out, from, v);
    out[feed] = b'\n';
    feed + 1
}

// Puts the lines of a refusal at the front. They have at most 84 bytes: the keys, three numbers of at most 20 digits and the line feeds.
pub fn put_refusal(out: &mut [u8], number: u64, place: u64, second: u64) -> usize
    requires { 84 ≤ length out.old }
    ensures { Puts (refusal_lines number place second) 0 out.old out.new result }
{
    let place_at = put_line(out, 0, b"refused=", number);
    let second_at = put_line(out, place_at, b"place=", place);
    put_line(out, second_at, b"second=", second)
}
