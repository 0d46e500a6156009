//! What the steps of a log are, and their numbers, read where they stand in a line.
#![tactic(auto)]

ghost use Rattle.std.specs.Prelude.{◌≡◌};
ghost use Rattle.forms.specs.Read.{one, two, one_or_two, spaced_of, closed_at, args_of, ends_line, lined, of_one, of_either};

use decimal::{byte_at, has, short_number};

/// The most bytes of a line, byte 10 with them.
pub const LINE_BYTES: usize = 700; // `line_bytes` of specs/Form

/// A step of the ring, as it is written: `TakeOne(i)` is `(take i)`, `Take(i, n)` is `(take i n)`.
#[derive(Clone, Copy, Debug, PartialEq, Eq)]
pub enum RingStep {
    Send(usize, usize),
    TakeOne(usize),
    Take(usize, usize),
    Idle(usize),
    Probe,
    Pass(usize),
    Announce,
}

/// A step of the tree, as it is written.
#[derive(Clone, Copy, Debug, PartialEq, Eq)]
pub enum TreeStep {
    Send(usize, usize),
    Take(usize, usize),
    Idle(usize),
    Ack(usize),
    Leave(usize),
    Announce,
}

/// A space and a number of one to five digits: its value, and the index past it.
#[tactic(auto, unfolding(crate::specs::Read::spaced_of))]
pub fn spaced(s: &[u8], at: usize) -> Option<(usize, usize)>
    ensures { result ≡ spaced_of s.now at }
{
    if byte_at(s, at) != b' ' {
        return None;
    }
    short_number(s, at + 1)
}

/// The closing parenthesis of a form: the index past it.
#[tactic(auto, using(crate::proofs::Arguments::byte_word), unfolding(crate::specs::Read::closed_at))]
pub fn closed(s: &[u8], at: usize) -> Option<usize>
    ensures { result ≡ closed_at s.now at }
{
    if byte_at(s, at) != b')' {
        return None;
    }
    Some(at + 1)
}

/// One number, and the end of the form: the number, and the index past the form.
#[tactic(auto, unfolding(crate::specs::Read::one_of, crate::specs::Read::closed_of))]
pub fn one_number(s: &[u8], at: usize) -> Option<(usize, usize)>
    ensures { of_one result ≡ args_of one s.now at }
{
    let (i, at) = spaced(s, at)?;
    let end = closed(s, at)?;
    Some((i, end))
}

/// Two numbers, and the end of the form: the numbers, and the index past the form.
#[tactic(auto, unfolding(crate::specs::Read::two_of, crate::specs::Read::second_of, crate::specs::Read::closed_of))]
pub fn two_numbers(s: &[u8], at: usize) -> Option<(usize, usize, usize)>
    ensures { result ≡ args_of two s.now at }
{
    let (i, at) = spaced(s, at)?;
    let (j, at) = spaced(s, at)?;
    let end = closed(s, at)?;
    Some((i, j, end))
}

/// One number or two, and the end of the form: the first, the second where it is written, and the index past the form.
#[tactic(auto, unfolding(crate::specs::Read::one_of, crate::specs::Read::two_of, crate::specs::Read::second_of, crate::specs::Read::closed_of))]
pub fn one_or_two(s: &[u8], at: usize) -> Option<(usize, Option<usize>, usize)>
    ensures { of_either result ≡ args_of one_or_two s.now at }
{
    let (i, at) = spaced(s, at)?;
    if let Some(end) = closed(s, at) {
        return Some((i, None, end));
    }
    let (j, at) = spaced(s, at)?;
    let end = closed(s, at)?;
    Some((i, Some(j), end))
}

/// Whether the line that begins at `at` ends at index `end`: its byte 10 stands there, and it has at most 700 bytes with it.
#[tactic(auto, unfolding(crate::specs::Read::ends_line))]
pub fn ends_line(s: &[u8], at: usize, end: usize) -> bool
    ensures { result ≡ ends_line s.now at end }
{
    has(s, end, b"\n") && (end < LINE_BYTES || end - LINE_BYTES < at)
}

/// The form that was read at `at`, if it is a line, with its byte 10 and at most 700 bytes long; and the index past that line.
#[tactic(auto, using(crate::proofs::Reading::ends_sound), unfolding(crate::specs::Read::lined))]
pub fn lined<S: Copy>(s: &[u8], at: usize, form: Option<(S, usize)>) -> Option<(S, usize)>
    ensures { result ≡ lined s.now at form }
{
    let (said, end) = form?;
    if !ends_line(s, at, end) {
        return None;
    }
    Some((said, end + 1))
}
