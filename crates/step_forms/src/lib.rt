//! The steps of a log, each recognised where it begins: those of a ring and those of a tree.
#![tactic(auto)]

ghost use Rattle.std.specs.Prelude.{◌≡◌};
ghost use Rattle.forms.specs.Exact.{RingRead, TreeRead};
ghost use Rattle.forms.specs.Read.{read_by, ring_shapes, tree_shapes, ended, ring_at, tree_at};

use decimal::{byte_at, has};
use forms::{RingStep, TreeStep, closed, one_number, one_or_two, two_numbers};

// The form that was read, if its byte 10 follows, and the index past that: a step with its byte 10 is no longer than a line may be.
#[tactic(auto, using(decimal::proofs::Cases::in_text, forms::proofs::Arguments::byte_word), unfolding(forms::specs::Read::ended))]
fn ended<S: Copy>(s: &[u8], form: Option<(S, usize)>) -> Option<(S, usize)>
    ensures { result ≡ ended s.now form }
{
    let (step, end) = form?;
    if byte_at(s, end) != b'\n' {
        return None;
    }
    Some((step, end + 1))
}

/// The step of the ring whose form stands at `at`, and the index past the form. It is taken into each of its two callers' loops.
// Kept: the words of a log's steps are matched against fixed byte strings, a rule of the project; likewise in `tree_form`.
#[inline(always)]
#[tactic(auto, using(decimal::proofs::Words::word_in), unfolding(forms::specs::Read::read_by, forms::specs::Read::made_of, forms::specs::Read::closed_of))]
pub fn ring_form(s: &[u8], at: usize) -> Option<(RingStep, usize)>
    ensures { result ≡ read_by ring_shapes s.now at }
{
    if has(s, at, b"(send") {
        let (from, to, end) = two_numbers(s, at + 5)?;
        return Some((RingStep::Send(from, to), end));
    }
    if has(s, at, b"(take") {
        return match one_or_two(s, at + 5)? {
            (node, None, end) => Some((RingStep::TakeOne(node), end)),
            (node, Some(count), end) => Some((RingStep::Take(node, count), end)),
        };
    }
    if has(s, at, b"(idle") {
        let (node, end) = one_number(s, at + 5)?;
        return Some((RingStep::Idle(node), end));
    }
    if has(s, at, b"(probe") {
        let end = closed(s, at + 6)?;
        return Some((RingStep::Probe, end));
    }
    if has(s, at, b"(pass") {
        let (node, end) = one_number(s, at + 5)?;
        return Some((RingStep::Pass(node), end));
    }
    if has(s, at, b"(announce") {
        let end = closed(s, at + 9)?;
        return Some((RingStep::Announce, end));
    }
    None
}

/// The step of the ring that the line at `at` says, and the index past that line.
pub fn ring_step(s: &[u8], at: usize) -> Option<(RingStep, usize)>
    ensures { (result ≡ ring_at s.now at) × RingRead s.now at result }
{
    ended(s, ring_form(s, at))
}

// The step of the tree whose form stands at `at`, and the index past the form.
#[tactic(auto, using(decimal::proofs::Words::word_in), unfolding(forms::specs::Read::read_by, forms::specs::Read::made_of, forms::specs::Read::closed_of))]
fn tree_form(s: &[u8], at: usize) -> Option<(TreeStep, usize)>
    ensures { result ≡ read_by tree_shapes s.now at }
{
    if has(s, at, b"(send") {
        let (from, to, end) = two_numbers(s, at + 5)?;
        return Some((TreeStep::Send(from, to), end));
    }
    if has(s, at, b"(take") {
        let (node, sender, end) = two_numbers(s, at + 5)?;
        return Some((TreeStep::Take(node, sender), end));
    }
    if has(s, at, b"(idle") {
        let (node, end) = one_number(s, at + 5)?;
        return Some((TreeStep::Idle(node), end));
    }
    if has(s, at, b"(ack") {
        let (node, end) = one_number(s, at + 4)?;
        return Some((TreeStep::Ack(node), end));
    }
    if has(s, at, b"(leave") {
        let (node, end) = one_number(s, at + 6)?;
        return Some((TreeStep::Leave(node), end));
    }
    if has(s, at, b"(announce") {
        let end = closed(s, at + 9)?;
        return Some((TreeStep::Announce, end));
    }
    None
}

/// The step of the tree that the line at `at` says, and the index past that line.
pub fn tree_step(s: &[u8], at: usize) -> Option<(TreeStep, usize)>
    ensures { (result ≡ tree_at s.now at) × TreeRead s.now at result }
{
    ended(s, tree_form(s, at))
}
