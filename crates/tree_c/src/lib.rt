// What other languages call of a tree: its fields are lent one by one, with a byte for each truth, and each answer is a number. Bytes and numbers alone cross.
#![tactic(auto)]

ghost use Rattle.std.specs.Prelude.{◌≡◌};
ghost use Rattle.lent.specs.Tree.{lent_tree, ReadAs, TreeStartedTo, TreeSteppedTo, WrittenAs, tree_sound_number};

use refusal::{Refusal, TREE_NODES, TREE_PAIRS};
use tree::Tree;
use tree_fields::LentTree;

/// A start with the root `at`: the number of its answer, 0 where it is accepted, and then the first state in the lent fields, which are not read.
// Kept: the C interface lends the fields one by one, here and below.
#[unsafe(no_mangle)]
pub extern "C" fn muzserlik_tree_start_fields(
    nodes: usize,
    at: usize,
    n: &mut usize,
    root: &mut usize,
    active: &mut [u8; TREE_NODES],
    engager: &mut [u8; TREE_NODES],
    unacked: &mut [u32; TREE_NODES],
    transit: &mut [u32; TREE_PAIRS],
    acks: &mut [u32; TREE_NODES],
    sends: &mut u32,
    closed: &mut u8,
) -> u8
    ensures { TreeStartedTo nodes at result
        (lent_tree n.old root.old active.old engager.old unacked.old transit.old acks.old sends.old closed.old)
        (lent_tree n.new root.new active.new engager.new unacked.new transit.new acks.new sends.new closed.new) }
{
    match Tree::start(nodes, at) {
        Ok(tree) => {
            let next = LentTree::from(tree);
            *n = next.n;
            *root = next.root;
            // Kept: tried, and the proof of `*active = next.active` did not close, straight from a call's result: the arrays are named first.
            let (bytes, engagers) = (next.active, next.engager);
            let (waited, sent, answered) = (next.unacked, next.transit, next.acks);
            *active = bytes;
            *engager = engagers;
            *unacked = waited;
            *transit = sent;
            *acks = answered;
            *sends = next.sends;
            *closed = next.closed;
            0
        }
        Err(refusal) => refusal.number(),
    }
}

/// Is the tree sound? 1 where it is, else 0.
#[unsafe(no_mangle)]
pub extern "C" fn muzserlik_tree_is_sound_fields(
    n: usize,
    root: usize,
    active: &[u8; TREE_NODES],
    engager: &[u8; TREE_NODES],
    unacked: &[u32; TREE_NODES],
    transit: &[u32; TREE_PAIRS],
    acks: &[u32; TREE_NODES],
    sends: u32,
    closed: u8,
) -> u8
    ensures { result ≡ tree_sound_number (lent_tree n root active.now engager.now unacked.now transit.now acks.now sends closed) }
{
    let tree = LentTree {
        n,
        root,
        active: *active,
        engager: *engager,
        unacked: *unacked,
        transit: *transit,
        acks: *acks,
        sends,
        closed,
    };
    u8::from(tree.is_sound())
}

/// A step in place: the number of its answer, 0 where it is accepted. A refusal writes nothing.
#[unsafe(no_mangle)]
pub extern "C" fn muzserlik_tree_step_fields(
    n: usize,
    root: usize,
    active: &mut [u8; TREE_NODES],
    engager: &mut [u8; TREE_NODES],
    unacked: &mut [u32; TREE_NODES],
    transit: &mut [u32; TREE_PAIRS],
    acks: &mut [u32; TREE_NODES],
    sends: &mut u32,
    closed: &mut u8,
    kind: usize,
    i: usize,
    j: usize,
) -> u8
    ensures { TreeSteppedTo (lent_tree n root active.old engager.old unacked.old transit.old acks.old sends.old closed.old) kind i j result
        (lent_tree n root active.new engager.new unacked.new transit.new acks.new sends.new closed.new) }
{
    let mut tree = LentTree {
        n,
        root,
        active: *active,
        engager: *engager,
        unacked: *unacked,
        transit: *transit,
        acks: *acks,
        sends: *sends,
        closed: *closed,
    };
    if let Err(refusal) = tree.step(kind, i, j) {
        return refusal.number();
    }
    *active = tree.active;
    *engager = tree.engager;
    *unacked = tree.unacked;
    *transit = tree.transit;
    *acks = tree.acks;
    *sends = tree.sends;
    *closed = tree.closed;
    0
}

/// The text of a tree in the buffer: the number of the answer, 0 where it is written, and then its length in `length`.
#[unsafe(no_mangle)]
pub extern "C" fn muzserlik_tree_write_fields(
    n: usize,
    root: usize,
    active: &[u8; TREE_NODES],
    engager: &[u8; TREE_NODES],
    unacked: &[u32; TREE_NODES],
    transit: &[u32; TREE_PAIRS],
    acks: &[u32; TREE_NODES],
    sends: u32,
    closed: u8,
    buf: &mut [u8],
    length: &mut usize,
) -> u8
    ensures { WrittenAs (lent_tree n root active.now engager.now unacked.now transit.now acks.now sends closed)
        buf.old result length.old length.new buf.new }
{
    let lent = LentTree {
        n,
        root,
        active: *active,
        engager: *engager,
        unacked: *unacked,
        transit: *transit,
        acks: *acks,
        sends,
        closed,
    };
    if !lent.has_truths() {
        return Refusal::Unsound.number();
    }
    match tree_writer::write(&lent.gathered(), buf) {
        Ok(written) => {
            *length = written;
            0
        }
        Err(refusal) => refusal.number(),
    }
}

/// A tree's text read, of a tree of n nodes: the number of the answer, 0 where it is one, and then the engagers and the root.
#[unsafe(no_mangle)]
pub extern "C" fn muzserlik_tree_read_fields(
    n: usize,
    s: &[u8],
    engager: &mut [u8; TREE_NODES],
    root: &mut usize,
) -> u8
    ensures { ReadAs n s.now result engager.old root.old engager.new root.new }
{
    match tree_reader::read(n, s) {
        Ok(found) => {
            // Kept: as in the start above.
            let engagers = found.engager;
            *engager = engagers;
            *root = found.root;
            0
        }
        Err(refusal) => refusal.number(),
    }
}
