//! Lines of five numbers, right-aligned in columns, put at a place.
#![tactic(auto)]

ghost use Rattle.std.specs.Prelude.{◌+◌, ◌^◌, ◌≤◌, ◌<◌, length, replicate};
ghost use Rattle.forms.specs.Write.{digits_in};
ghost use Rattle.lines.specs.Puts.{Puts};
ghost use Rattle.fields.specs.Columns.{right_in, line_size, line, digits};
ghost use Rattle.fields.specs.Inner.{Fit, in_row};

// The widths of the columns, and of a line with its line feed.
const NARROW: usize = 6;

const WIDE: usize = 10;

pub const LINE: usize = 2 * NARROW + 3 * WIDE + 1;

// Puts n spaces at a place. This and the functions below answer the place past what they put.
fn put_spaces(out: &mut [u8], from: usize, n: usize) -> usize
    requires { from + n ≤ length out.old }
    ensures { Puts (replicate n 32) from out.old out.new result }
{
    out[from..from + n].fill(b' ');
    from + n
}

// Puts the last n decimal digits of a number, from the last to the first.
fn put_digits(out: &mut [u8], from: usize, n: usize, v: u64) -> usize
    requires { from + n ≤ length out.old }
    ensures { Puts (digits_in 10 n v) from out.old out.new result }
{
    let mut left = v;
    for i in (0..n).rev() {
        out[from + i] = b'0' + (left % 10) as u8;
        left /= 10;
    }
    from + n
}

// Puts a number at the right of a column.
fn put_number(out: &mut [u8], from: usize, width: usize, v: u64) -> usize
    requires { (1 ≤ width) × (width ≤ 10) × (v < 10 ^ width) × (from + width ≤ length out.old) }
    ensures { Puts (right_in width (digits v)) from out.old out.new result }
{
    let n = lines::width(v);
    let first = put_spaces(out, from, width - n);
    put_digits(out, first, n, v)
}

// Puts a line of five numbers.
pub fn put_line(out: &mut [u8], from: usize, numbers: [u64; 5]) -> usize
    requires { Fit numbers × (from + line_size ≤ length out.old) }
    ensures { Puts (line (in_row numbers)) from out.old out.new result }
{
    let [a, b, c, d, e] = numbers;
    let second = put_number(out, from, NARROW, a);
    let third = put_number(out, second, NARROW, b);
    let fourth = put_number(out, third, WIDE, c);
    let fifth = put_number(out, fourth, WIDE, d);
    let feed = put_number(out, fifth, WIDE, e);
    out[feed] = b'\n';
    feed + 1
}
