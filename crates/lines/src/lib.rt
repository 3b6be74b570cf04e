//! Lines, put at a place: bytes, digits, a key with its value.
#![tactic(auto)]

ghost use Rattle.std.specs.Prelude.{◌≡◌, ◌+◌, ◌≤◌, ◌<◌, length};
ghost use Rattle.forms.specs.Write.{digit_char, digits_in, width_of};
ghost use Rattle.lines.specs.Puts.{Puts, decimal_value, decimal_line, hex_line};

// How many decimal digits a number has.
pub fn width(v: u64) -> usize
    requires { v < 10000000000 }
    ensures { (result ≡ width_of v) × (result ≤ 10) }
{
    if v < 10_000 {
        return short_width(v);
    }
    if v < 100_000_000 {
        return 4 + short_width(v / 10_000);
    }
    8 + short_width(v / 100_000_000)
}

fn short_width(v: u64) -> usize
    requires { v < 10000 }
    ensures { (result ≡ width_of v) × (result ≤ 4) }
{
    if v < 100 {
        return if v < 10 { 1 } else { 2 };
    }
    if v < 1_000 { 3 } else { 4 }
}

// Puts some bytes at a place. This and the functions below answer the place past what they put; a cursor that holds the output would make
// each contract say besides that it still holds the same one.
pub fn put(out: &mut [u8], at: usize, s: &[u8]) -> usize
    requires { at + length s.now ≤ length out.old }
    ensures { Puts s.now at out.old out.new result }
{
    // A loop, and no `copy_from_slice`: the keys are short, and a call for each costs a tenth of a plan's writing.
    for i in 0..s.len() {
        out[at + i] = s[i];
    }
    at + s.len()
}

// Puts a decimal digit.
fn put_digit(out: &mut [u8], at: usize, x: u64) -> usize
    requires x_bound { x < 10 }
    requires at_in_bounds { at + 1 ≤ length out.old }
    ensures { Puts (digits_in 10 1 x) at out.old out.new result }
{
    out[at] = 48 + x as u8;
    at + 1
}

fn put_two(out: &mut [u8], at: usize, x: u64) -> usize
    requires x_bound { x < 100 }
    requires at_in_bounds { at + 2 ≤ length out.old }
    ensures { Puts (digits_in 10 2 x) at out.old out.new result }
{
    let next = put_digit(out, at, x / 10);
    put_digit(out, next, x % 10)
}

fn put_four(out: &mut [u8], at: usize, x: u64) -> usize
    requires x_bound { x < 10000 }
    requires at_in_bounds { at + 4 ≤ length out.old }
    ensures { Puts (digits_in 10 4 x) at out.old out.new result }
{
    let next = put_two(out, at, x / 100);
    put_two(out, next, x % 100)
}

// Puts a number of at most 4 decimal digits.
fn put_short(out: &mut [u8], at: usize, x: u64) -> usize
    requires x_bound { x < 10000 }
    requires x_in_bounds { at + width_of x ≤ length out.old }
    ensures { Puts (digits_in 10 (width_of x) x) at out.old out.new result }
{
    if x < 10 {
        return put_digit(out, at, x);
    }
    if x < 100 {
        return put_two(out, at, x);
    }
    if x < 1_000 {
        let next = put_digit(out, at, x / 100);
        return put_two(out, next, x % 100);
    }
    put_four(out, at, x)
}

// Puts a number of at most 8 decimal digits: the last 4 do not wait for the division that gives the others. So each width has a function.
fn put_medium(out: &mut [u8], at: usize, x: u64) -> usize
    requires x_bound { x < 100000000 }
    requires x_in_bounds { at + width_of x ≤ length out.old }
    ensures { Puts (digits_in 10 (width_of x) x) at out.old out.new result }
{
    if x < 10_000 {
        return put_short(out, at, x);
    }
    let next = put_short(out, at, x / 10_000);
    put_four(out, next, x % 10_000)
}

// Puts a number of at most 10 decimal digits.
fn put_decimal(out: &mut [u8], at: usize, v: u64) -> usize
    requires v_bound { v < 10000000000 }
    requires v_in_bounds { at + width_of v ≤ length out.old }
    ensures { Puts (digits_in 10 (width_of v) v) at out.old out.new result }
{
    if v < 10_000 {
        return put_short(out, at, v);
    }
    let next = put_medium(out, at, v / 10_000);
    put_four(out, next, v % 10_000)
}

// The byte of a hexadecimal digit, looked up: the compiler makes poor code of sixteen choices between two sums.
fn digit_char(x: u64) -> u8
    requires { x < 16 }
    ensures { result ≡ digit_char x }
{
    let digits = *b"0123456789abcdef";
    digits[x as usize]
}

// Puts the 16 hexadecimal digits of a number, from the last to the first.
fn put_hex(out: &mut [u8], at: usize, v: u64) -> usize
    requires { at + 16 ≤ length out.old }
    ensures { Puts (digits_in 16 16 v) at out.old out.new result }
{
    let mut left = v;
    for i in (0..16).rev() {
        out[at + i] = digit_char(left % 16);
        left /= 16;
    }
    at + 16
}

// Puts a number of at most 10 decimal digits, and the line feed.
pub fn put_value(out: &mut [u8], at: usize, v: u64) -> usize
    requires v_bound { v < 10000000000 }
    requires v_in_bounds { at + length (decimal_value v) ≤ length out.old }
    ensures { Puts (decimal_value v) at out.old out.new result }
{
    let end = put_decimal(out, at, v);
    out[end] = b'\n';
    end + 1
}

// Puts a line whose number is decimal.
pub fn put_line(out: &mut [u8], at: usize, key: &[u8], v: u64) -> usize
    requires v_bound { v < 10000000000 }
    requires v_in_bounds { at + length (decimal_line key.now v) ≤ length out.old }
    ensures { Puts (decimal_line key.now v) at out.old out.new result }
{
    let from = put(out, at, key);
    put_value(out, from, v)
}

// Puts a line whose number is a set.
pub fn put_set_line(out: &mut [u8], at: usize, key: &[u8], v: u64) -> usize
    requires { at + length (hex_line key.now v) ≤ length out.old }
    ensures { Puts (hex_line key.now v) at out.old out.new result }
{
    let from = put(out, at, key);
    let feed = put_hex(out, from, v);
    out[feed] = b'\n';
    feed + 1
}
