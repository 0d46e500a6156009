// The writer of the text of the engagement tree.
#![tactic(auto)]

ghost use Rattle.std.specs.Prelude.{◌≡◌, ◌+◌, ◌≤◌, ◌<◌, length, true};
ghost use Rattle.decimal.specs.Text.{put};
ghost use Rattle.tree_rules.specs.Soundness.{sound_test};
ghost use Rattle.tree_text.specs.Text.{is_under, node_text, list_text, text_of, share, length_of};
ghost use Rattle.tree_text.specs.View.{written};
ghost use Rattle.tree_text.specs.Write.{written_of, buffer_of};

use refusal::{Refusal, TREE_NODES};
use tree::Tree;
use tree_rules::NO_ENGAGER;

// Is the node `child` a child of the node?
fn is_under(engager: &[u8; TREE_NODES], node: usize, child: usize) -> bool
    requires { (length engager.now ≡ 16) × (child < 16) }
    ensures { result ≡ is_under engager.now node child }
{
    usize::from(engager[child]) == node && child != node
}

// The text of a node at `at`; where it ends. `left` bounds the depth.
// Kept: the writers of a node and of a list call each other, as the text is built of nodes and lists (a named form of the project).
#[cycle(write_list_write_node)]
fn write_node(
    buf: &mut [u8],
    at: usize,
    engager: &[u8; TREE_NODES],
    node: usize,
    left: usize,
) -> usize
    requires { (length engager.now ≡ 16) × (node < 16) × (at + length (node_text left engager.now node) ≤ length buf.old) }
    ensures { (result ≡ at + length (node_text left engager.now node)) × (buf.new ≡ put buf.old at (node_text left engager.now node)) }
{
    if left == 0 {
        return at;
    }
    buf[at] = b'(';
    let p = decimal::put_decimal(buf, at + 1, node as u64);
    let q = write_list(buf, p, engager, node, 0, left - 1);
    buf[q] = b')';
    q + 1
}

// The children of a node from node `from` on, each after a space; where they end.
#[cycle(write_list_write_node)]
fn write_list(
    buf: &mut [u8],
    at: usize,
    engager: &[u8; TREE_NODES],
    node: usize,
    from: usize,
    left: usize,
) -> usize
    requires { (length engager.now ≡ 16) × (node < 16) × (from ≤ 16) × (at + length (list_text left engager.now node from) ≤ length buf.old) }
    ensures { (result ≡ at + length (list_text left engager.now node from)) × (buf.new ≡ put buf.old at (list_text left engager.now node from)) }
{
    if 15 < from {
        return at;
    }
    if is_under(engager, node, from) {
        buf[at] = b' ';
        let p = write_node(buf, at + 1, engager, from, left);
        return write_list(buf, p, engager, node, from + 1, left);
    }
    write_list(buf, at, engager, node, from + 1, left)
}

/// The text of a tree at `at`, where there is room for it; where it ends.
pub fn put_tree(buf: &mut [u8], at: usize, engager: &[u8; TREE_NODES], root: usize) -> usize
    requires { (length engager.now ≡ 16) × (root < 16) × (at + length (text_of engager.now root) ≤ length buf.old) }
    ensures { (result ≡ at + length (text_of engager.now root)) × (buf.new ≡ put buf.old at (text_of engager.now root)) }
{
    write_node(buf, at, engager, root, TREE_NODES)
}

// What a node adds to the length: two brackets, its digits, and the space before it; nothing where it is not engaged.
fn share_of(engager: &[u8; TREE_NODES], node: usize) -> usize
    requires { (length engager.now ≡ 16) × (node < 16) }
    ensures share { result ≡ share engager.now node }
    ensures small { result ≤ 5 }
{
    if engager[node] == NO_ENGAGER {
        return 0;
    }
    3 + decimal::width(node as u64)
}

/// How long the text of a tree is, in bytes.
pub fn text_length(engager: &[u8; TREE_NODES]) -> usize
    requires { length engager.now ≡ 16 }
    ensures { result ≡ length_of engager.now }
{
    let shares: usize = (0..TREE_NODES).map(|node| share_of(engager, node)).sum();
    shares.saturating_sub(1)
}

// The text of a sound tree in the buffer, where it is long enough.
fn write_sound(tree: &Tree, buf: &mut [u8]) -> Result<usize, Refusal>
    requires { sound_test tree.now ≡ true }
    ensures told { written result ≡ written_of tree.now buf.old }
    ensures left { buf.new ≡ buffer_of tree.now buf.old }
{
    if buf.len() < text_length(&tree.engager) {
        return Err(Refusal::ShortBuffer);
    }
    Ok(put_tree(buf, 0, &tree.engager, tree.root))
}

/// Writes the text of the tree into the buffer, from its first byte on, and tells its length. Refused, and the buffer left as it was, with 3
/// where the tree is not sound, and then with 12 where the buffer is shorter than the text.
#[tactic(auto, using(crate::proofs::Shares::unsound_told, crate::proofs::Shares::unsound_left))]
pub fn write(tree: &Tree, buf: &mut [u8]) -> Result<usize, Refusal>
    ensures told { written result ≡ written_of tree.now buf.old }
    ensures left { buf.new ≡ buffer_of tree.now buf.old }
{
    if !tree.is_sound() {
        return Err(Refusal::Unsound);
    }
    write_sound(tree, buf)
}
