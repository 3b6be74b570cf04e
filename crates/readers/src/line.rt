// The line reader: the part of a line that is its value, and the number that the part is, in one pass over the digits; and
// where a remark ends. Each function is given what is left of the text.
ghost use Rattle.std.specs.Prelude.{◌≡◌, T, true, false};
ghost use Rattle.forms.specs.Line.{is_remark, value_part, digit_of};
ghost use Rattle.forms.specs.Turns.{hashed, no_feeds};
ghost use Rattle.readers.specs.Line.{AfterKey, first_line, value_first, Leading, Parsed, remark_len};

use forms::form::Form;

// The most remarks in a text, and the most bytes of one before its line feed.
const REMARKS: usize = 32;

const IN_REMARK: usize = 80;

// A value: the digits as they stand in the text, and the number that they are.
#[derive(Clone, Copy)]
pub(crate) struct Value<'a> {
    pub(crate) digits: &'a [u8],
    pub(crate) number: u64,
}

// What stands after a key that stands first. A loop of the readers' own, which the compiler puts into theirs: `strip_prefix` would
// stay a call for each line.
fn after_key<'a>(text: &'a [u8], key: &[u8]) -> Option<&'a [u8]>
    ensures { AfterKey key.now text.now result }
{
    if text.len() < key.len() {
        return None;
    }
    for i in 0..key.len() {
        if text[i] != key[i] {
            return None;
        }
    }
    Some(&text[key.len()..])
}

// The decimal digits that stand first, at most 10. Loops over digits go by a count with a constant end, so that the compiler
// unrolls them.
fn leading_digits(text: &[u8]) -> Value<'_>
    ensures { Leading text.now result.number result.digits.now }
{
    let mut number: u64 = 0;
    for i in 0..10 {
        if i == text.len() || !text[i].is_ascii_digit() {
            return Value {
                digits: &text[..i],
                number,
            };
        }
        number = number * 10 + (text[i] - b'0') as u64;
    }
    Value {
        digits: &text[..10],
        number,
    }
}

fn decimal(text: &[u8]) -> Option<Value<'_>>
    ensures { Parsed false (value_first text.now) result }
{
    let run = leading_digits(text);
    let n = run.digits.len();
    if n == 0 || n == text.len() || text[n] != b'\n' {
        return None;
    }
    if n != 1 && text[0] == b'0' {
        return None;
    }
    Some(run)
}

// The values of the bytes from `0` to `f` as digits, in lower case; 16 for a byte that is none. A table, since tests would be
// mispredicted on random digits.
static DIGITS: [u8; 55] =
    *b"\x00\x01\x02\x03\x04\x05\x06\x07\x08\x09\x10\x10\x10\x10\x10\x10\x10\x10\x10\x10\x10\x10\x10\x10\x10\x10\x10\x10\x10\x10\x10\x10\x10\x10\x10\x10\x10\x10\x10\x10\x10\x10\x10\x10\x10\x10\x10\x10\x10\x0a\x0b\x0c\x0d\x0e\x0f";

// The value of a digit; 16 for a byte that is none.
fn digit(b: u8) -> u64
    ensures { result ≡ digit_of b }
{
    let x = b.wrapping_sub(b'0') as usize;
    if x < DIGITS.len() {
        DIGITS[x] as u64
    } else {
        16
    }
}

fn hexadecimal(text: &[u8]) -> Option<Value<'_>>
    ensures { Parsed true (value_first text.now) result }
{
    if text.len() < 17 {
        return None;
    }
    let mut number: u64 = 0;
    for i in 0..16 {
        let x = digit(text[i]);
        if 16 <= x {
            return None;
        }
        number = number * 16 + x;
    }
    if text[16] != b'\n' {
        return None;
    }
    Some(Value {
        digits: &text[..16],
        number,
    })
}

// The digits of the first line, which are what stands between the key and the line feed. None where the line is not in its
// form, or the text stops inside it.
pub(crate) fn digits<'a>(text: &'a [u8], key: &[u8], hex: bool) -> Option<Value<'a>>
    requires { T (no_feeds key.now) }
    ensures { Parsed hex (value_part key.now (first_line text.now)) result }
{
    let value = after_key(text, key)?;
    if hex {
        hexadecimal(value)
    } else {
        decimal(value)
    }
}

// Whether the first line is a remark, a comment line.
pub(crate) fn is_remark(form: Form, text: &[u8]) -> bool
    ensures { result ≡ is_remark form (first_line text.now) }
{
    form.has_remarks() && text.starts_with(b"#")
}

// How many bytes the remark has that stands first, with its line feed, after `before` others. None where these are too many, it is
// too long, or the text stops inside it.
pub(crate) fn remark_len(text: &[u8], before: usize) -> Option<usize>
    requires { T (hashed (first_line text.now)) }
    ensures { result ≡ remark_len text.now before }
{
    if REMARKS <= before {
        return None;
    }
    for n in 1..IN_REMARK + 1 {
        match text.get(n) {
            None => return None,
            Some(b'\n') => return Some(n + 1),
            Some(_) => {}
        }
    }
    None
}
