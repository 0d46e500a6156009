//! The first line of a log: a ring with its start flags, or a tree with its root.
#![tactic(auto)]

ghost use Rattle.std.specs.Prelude.{◌≡◌};
ghost use Rattle.first_line.specs.Start.{flagged, seen_of};
ghost use Rattle.forms.specs.Read.{spaced_of};
ghost use Rattle.first_line.specs.Read.{past, marks_of, entries_at, lists_at, ring_after, tree_after, start_at, first_at};
ghost use Rattle.first_line.specs.Exact.{Opened};

use decimal::{byte_at, has};
use forms::{lined, spaced};
use refusal::RING_NODES;

/// A ring as a line starts it: its n nodes, a start flag for each of the first 96 (1 active, 2 black, 3 both), and one more than the largest node
/// that the line names. Without lists it names all n nodes active, and none black: every flag is 1, and a start takes the first n.
#[derive(Clone, Copy, Debug, PartialEq, Eq)]
pub struct RingStart {
    pub n: usize,
    pub flags: [u8; RING_NODES],
    pub top: usize,
}

/// What a first line says: a ring, or a tree of n nodes with its root.
#[derive(Clone, Copy, Debug, PartialEq, Eq)]
pub enum First {
    Ring(RingStart),
    Tree { n: usize, root: usize },
}

/// The nodes that lists have named so far: their flags, and one more than the largest of them.
#[derive(Clone, Copy, Debug, PartialEq, Eq)]
pub struct Marks {
    pub flags: [u8; RING_NODES],
    pub top: usize,
}

// The index past the word, if it stands at `at`.
#[tactic(auto, using(decimal::proofs::Words::word_in), unfolding(crate::specs::Read::past))]
fn past(s: &[u8], at: usize, word: &[u8]) -> Option<usize>
    ensures { result ≡ past s.now at word.now }
{
    if !has(s, at, word) {
        return None;
    }
    Some(at + word.len())
}

// Node k is named: a node past the first 96 has no flag.
fn mark(flags: &mut [u8; RING_NODES], k: usize, bit: u8)
    ensures { flags.new ≡ flagged bit k flags.old }
{
    if k < RING_NODES {
        flags[k] |= bit;
    }
}

// The nodes of a list, ascending, each after one space: each sets `bit` of its flag. What they name, and the index past them.
fn entries(s: &[u8], from: usize, bit: u8, named: Marks) -> Option<(Marks, usize)>
    ensures { result ≡ marks_of bit named (entries_at s.now from) }
{
    let mut flags = named.flags;
    let mut top = named.top;
    let mut low = 0;
    let mut at = from;
    // Kept: each turn goes on where the last number ended; no range and no iterator is plainer.
    while byte_at(s, at) == b' ' {
        let (node, end) = spaced(s, at)?;
        if node < low {
            return None;
        }
        mark(&mut flags, node, bit);
        top = top.max(node + 1);
        low = node + 1;
        at = end;
    }
    Some((Marks { flags, top }, at))
}

// Both lists of a ring of n nodes.
#[tactic(auto, using(crate::proofs::Seen::lists_seen), unfolding(crate::specs::Read::lists_held, crate::specs::Read::after_active, crate::specs::Read::after_black, crate::specs::Read::past))]
fn lists(s: &[u8], n: usize, at: usize) -> Option<(First, usize)>
    ensures { result ≡ seen_of (lists_at s.now n at) }
{
    let none = Marks {
        flags: [0; RING_NODES],
        top: 0,
    };
    let at = past(s, at, b" (active")?;
    let (active, at) = entries(s, at, 1, none)?;
    let at = past(s, at, b") (black")?;
    let (Marks { flags, top }, at) = entries(s, at, 2, active)?;
    let end = past(s, at, b"))")?;
    Some((First::Ring(RingStart { n, flags, top }), end))
}

// After a ring's word.
#[tactic(auto, unfolding(crate::specs::Read::ring_after, crate::specs::Read::past))]
fn ring_after(s: &[u8], at: usize) -> Option<(First, usize)>
    ensures { result ≡ seen_of (ring_after s.now (spaced_of s.now at)) }
{
    let (n, at) = spaced(s, at)?;
    let Some(end) = past(s, at, b")") else {
        return lists(s, n, at);
    };
    let flags = [1; RING_NODES];
    Some((First::Ring(RingStart { n, flags, top: n }), end))
}

// After a tree's word.
#[tactic(auto, unfolding(crate::specs::Read::tree_after, crate::specs::Read::root_after, crate::specs::Read::past))]
fn tree_after(s: &[u8], at: usize) -> Option<(First, usize)>
    ensures { result ≡ seen_of (tree_after s.now (spaced_of s.now at)) }
{
    let (n, at) = spaced(s, at)?;
    let at = past(s, at, b" (root")?;
    let (root, at) = spaced(s, at)?;
    let end = past(s, at, b"))")?;
    Some((First::Tree { n, root }, end))
}

/// The form of a first line that stands at `at`, and the index past it.
#[tactic(auto, unfolding(crate::specs::Read::start_at, crate::specs::Read::past))]
pub fn start_at(s: &[u8], at: usize) -> Option<(First, usize)>
    ensures { result ≡ seen_of (start_at s.now at) }
{
    if let Some(at) = past(s, at, b"(ring") {
        return ring_after(s, at);
    }
    if let Some(at) = past(s, at, b"(tree") {
        return tree_after(s, at);
    }
    None
}

/// What the line at `at` says as a first line, and the index past that line.
pub fn read_first(s: &[u8], at: usize) -> Option<(First, usize)>
    ensures { (result ≡ seen_of (first_at s.now at)) × Opened s.now at result }
{
    lined(s, at, start_at(s, at))
}
