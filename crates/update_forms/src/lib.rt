//! The wrapped lines of a log: a step or a start of the ring, inside the number of its update.
#![tactic(auto)]

ghost use Rattle.std.specs.Prelude.{◌≡◌};
ghost use Rattle.update_forms.specs.Read.{opened_of, step_in, update_line_of, start_in, wrapped_seen, wrapped_at};
ghost use Rattle.update_forms.specs.Exact.{UpdateRead};

use decimal::{byte_at, has};
use first_line::{First, RingStart, start_at};
use forms::{RingStep, closed, ends_line, spaced};
use step_forms::ring_form;

// The number of the update whose form begins at `at`, and the index of the form inside.
#[tactic(auto, using(decimal::proofs::Words::word_in, decimal::proofs::Cases::in_text, forms::proofs::Arguments::byte_word), unfolding(crate::specs::Read::opened_of, crate::specs::Read::space_after))]
fn opened(s: &[u8], at: usize) -> Option<(usize, usize)>
    ensures { result ≡ opened_of s.now at }
{
    if !has(s, at, b"(update") {
        return None;
    }
    let (update, at) = spaced(s, at + 7)?;
    if byte_at(s, at) != b' ' {
        return None;
    }
    Some((update, at + 1))
}

// The step of an update whose form was read, up to the end of the line.
#[tactic(auto, using(decimal::proofs::Cases::in_text, forms::proofs::Arguments::byte_word), unfolding(crate::specs::Read::step_in, forms::specs::Read::closed_at))]
fn step_in(
    s: &[u8],
    update: usize,
    form: Option<(RingStep, usize)>,
) -> Option<(usize, RingStep, usize)>
    ensures { result ≡ step_in s.now update form }
{
    let (step, end) = form?;
    let end = closed(s, end)?;
    if byte_at(s, end) != b'\n' {
        return None;
    }
    Some((update, step, end + 1))
}

/// The update, the step of the ring that the line at `at` says inside it, and the index past that line.
pub fn update_step(s: &[u8], at: usize) -> Option<(usize, RingStep, usize)>
    ensures { (result ≡ update_line_of (wrapped_at s.now at)) × UpdateRead s.now at result }
{
    let (update, inner) = opened(s, at)?;
    step_in(s, update, ring_form(s, inner))
}

// The start of an update whose form was read, up to the end of the line that begins at `at`: trees are not wrapped.
#[tactic(auto, using(forms::proofs::Reading::ends_sound), unfolding(crate::specs::Read::start_in, forms::specs::Read::closed_at))]
fn start_in(
    s: &[u8],
    at: usize,
    update: usize,
    form: Option<(First, usize)>,
) -> Option<(usize, RingStart, usize)>
    ensures { result ≡ start_in s.now at update form }
{
    let (First::Ring(ring), end) = form? else {
        return None;
    };
    let last = closed(s, end)?;
    if !ends_line(s, at, last) {
        return None;
    }
    Some((update, ring, last + 1))
}

/// The update, the ring that the line at `at` starts in it, and the index past that line.
#[tactic(auto, using(crate::proofs::Held::start_held, crate::proofs::Held::no_start_held))]
pub fn update_start(s: &[u8], at: usize) -> Option<(usize, RingStart, usize)>
    ensures { result ≡ wrapped_seen (wrapped_at s.now at) }
{
    let (update, inner) = opened(s, at)?;
    start_in(s, at, update, start_at(s, inner))
}
