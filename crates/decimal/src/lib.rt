//! Decimal numbers and fixed words in text: read at a place of a slice, written at a place of a buffer.
#![tactic(auto)]

ghost use Rattle.std.specs.Prelude.{◌≡◌, ◌+◌, ◌≤◌, length, get_or, drop};
ghost use Rattle.decimal.specs.Text.{put, decimal, last_digits};
ghost use Rattle.decimal.specs.Word.{starts};
ghost use Rattle.decimal.specs.Number.{number_cap, digit_b, capped, scan_of, number_at, short_of};

// Kept, here and in the crates of forms: a text and an index into it, and no slice of its rest, since where a form ends is told as an index into the line, in the theorems too.
/// The byte at `at`, or 0 past the end.
pub fn byte_at(s: &[u8], at: usize) -> u8
    ensures { result ≡ get_or s.now at 0 }
{
    s.get(at).copied().unwrap_or(0)
}

/// Whether the word `w` stands in `s` from `at` on.
pub fn has(s: &[u8], at: usize, w: &[u8]) -> bool
    ensures { result ≡ starts w.now (drop at s.now) }
{
    match s.get(at..) {
        Some(rest) => rest.starts_with(w),
        None => w.is_empty(),
    }
}

// The largest number of five digits: `number_limit` of specs/Number.
const NUMBER_LIMIT: usize = 99999;

// What stands for every number above it: `number_cap` of specs/Number.
const NUMBER_CAP: usize = NUMBER_LIMIT + 1;

// Whether the byte is a digit, from 0 to 9.
fn is_digit(byte: u8) -> bool
    ensures { result ≡ digit_b byte }
{
    matches!(byte, b'0'..=b'9')
}

// The value with one more digit, held at NUMBER_CAP.
fn next_value(value: usize, digit: u8) -> usize
    requires { (value ≤ number_cap) × (48 ≤ digit) }
    ensures { (result ≡ capped value digit) × (result ≤ number_cap) }
{
    let next = value * 10 + usize::from(digit - b'0');
    next.min(NUMBER_CAP)
}

// A run of digits from `at` on: its value, NUMBER_CAP for all above NUMBER_LIMIT, and the index past it.
fn scan_digits(s: &[u8], at: usize) -> (usize, usize)
    ensures { result ≡ scan_of (drop at s.now) 0 at }
{
    let mut value = 0;
    for i in at..s.len() {
        let byte = s[i];
        if !is_digit(byte) {
            return (value, i);
        }
        value = next_value(value, byte);
    }
    (value, at.max(s.len()))
}

/// A number of any length without leading zero: its value, 100,000 for every value above 99,999, and the index past its last digit.
#[tactic(auto, unfolding(crate::specs::Number::number_at, crate::specs::Number::checked))]
pub fn number(s: &[u8], at: usize) -> Option<(usize, usize)>
    ensures { result ≡ number_at s.now at }
{
    let run = scan_digits(s, at);
    if run.1 <= at {
        return None;
    }
    if byte_at(s, at) == b'0' && at + 1 < run.1 {
        return None;
    }
    Some(run)
}

/// A number of one to five digits without leading zero: its value, and the index past its last digit.
#[tactic(auto, unfolding(crate::specs::Number::kept_of))]
pub fn short_number(s: &[u8], at: usize) -> Option<(usize, usize)>
    ensures { result ≡ short_of s.now at }
{
    let (value, end) = number(s, at)?;
    if NUMBER_LIMIT < value {
        None
    } else {
        Some((value, end))
    }
}

// Kept, here and in what writes answers and texts: a lent buffer and an index, and no `Vec`, since fixed memory is a rule of the project.
/// Puts the bytes of `w` into the buffer at `at`; where they end.
pub fn put_word(buf: &mut [u8], at: usize, w: &[u8]) -> usize
    requires { at + length w.now ≤ length buf.old }
    ensures { (result ≡ at + length w.now) × (buf.new ≡ put buf.old at w.now) }
{
    buf[at..at + w.len()].copy_from_slice(w);
    at + w.len()
}

/// How many digits the decimal text of `n` has: 1 to 20.
pub fn width(n: u64) -> usize
    ensures { result ≡ length (decimal n) }
{
    let mut rest = n;
    for count in 1..20 {
        if rest < 10 {
            return count;
        }
        rest /= 10;
    }
    20
}

// The last `count` digits of n, the last of them first.
fn put_digits(buf: &mut [u8], at: usize, count: usize, n: u64) -> usize
    requires { at + count ≤ length buf.old }
    ensures { (result ≡ at + count) × (buf.new ≡ put buf.old at (last_digits count n)) }
{
    let mut rest = n;
    for place in (at..at + count).rev() {
        buf[place] = b'0' + (rest % 10) as u8;
        rest /= 10;
    }
    at + count
}

/// Puts the decimal text of `n` into the buffer at `at`; where it ends.
pub fn put_decimal(buf: &mut [u8], at: usize, n: u64) -> usize
    requires { at + length (decimal n) ≤ length buf.old }
    ensures { (result ≡ at + length (decimal n)) × (buf.new ≡ put buf.old at (decimal n)) }
{
    let count = width(n);
    put_digits(buf, at, count, n)
}
