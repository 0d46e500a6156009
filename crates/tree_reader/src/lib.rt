// The reader of the text of the engagement tree: the first fault from the left decides.
#![tactic(auto)]

ghost use Rattle.std.specs.Prelude.{◌≡◌, ◌≤◌, ◌<◌, IfSome, IfOk};
ghost use Rattle.tree_text.specs.Read.{entered, closed, list_of, node_of, read_of};
ghost use Rattle.tree_text.specs.View.{found};
ghost use Rattle.tree_reader.specs.View.{going, told, engager_number};

use refusal::{Refusal, TREE_NODES};
use tree_rules::NO_ENGAGER;
use tree_text::Found;

// A reading under way: the engagers so far, the index of the next byte, and the node entered or closed last.
#[derive(Clone, Copy, Debug, PartialEq, Eq)]
struct Reading {
    engager: [u8; TREE_NODES],
    at: usize,
    node: usize,
}

// A number that was read, and the index past it, as a node that comes into the tree: if there is such a node, it stands in order and is not in
// the tree yet. The outermost node, which has no engager, is its own.
#[tactic(auto, unfolding(tree_text::specs::Read::entered))]
fn enter(
    n: usize,
    mut r: Reading,
    engager: Option<usize>,
    low: usize,
    number: Option<(usize, usize)>,
) -> Result<Reading, Refusal>
    requires { (n ≤ 16) × IfSome engager (λ k. k < 16) }
    ensures told { result ≡ told (entered n (going r) (engager_number engager) low number) }
    ensures below { IfOk result (λ m. m.node < n) }
{
    let (node, at) = number.ok_or(Refusal::NotAForm)?;
    if n <= node {
        return Err(Refusal::UnknownNode);
    }
    if node < low || r.engager[node] != NO_ENGAGER {
        return Err(Refusal::NotAForm);
    }
    r.engager[node] = engager.unwrap_or(node) as u8;
    r.at = at;
    r.node = node;
    Ok(r)
}

// The bracket that closes a node.
#[tactic(auto, unfolding(tree_text::specs::Read::closed))]
fn close(s: &[u8], node: usize, mut r: Reading) -> Result<Reading, Refusal>
    ensures told { result ≡ told (closed s.now node (going r)) }
    ensures same { IfOk result (λ m. m.node ≡ node) }
{
    if decimal::byte_at(s, r.at) != b')' {
        return Err(Refusal::NotAForm);
    }
    r.at += 1;
    r.node = node;
    Ok(r)
}

// A node with this engager, no lower than `low`. `left` bounds the depth.
// Kept: the readers of a node and of a list call each other, as the text is built of nodes and lists (a named form of the project).
#[cycle(read_list_read_node)]
fn read_node(
    s: &[u8],
    n: usize,
    r: Reading,
    engager: Option<usize>,
    low: usize,
    left: usize,
) -> Result<Reading, Refusal>
    requires { (n ≤ 16) × IfSome engager (λ k. k < 16) }
    ensures told { result ≡ told (node_of left s.now n (going r) (engager_number engager) low) }
    ensures below { IfOk result (λ m. m.node < n) }
{
    if decimal::byte_at(s, r.at) != b'(' {
        return Err(Refusal::NotAForm);
    }
    let entered = enter(n, r, engager, low, decimal::number(s, r.at + 1))?;
    let list = read_list(s, n, entered, entered.node, 0, left)?;
    close(s, entered.node, list)
}

// The children of a node from `low` on.
#[cycle(read_list_read_node)]
fn read_list(
    s: &[u8],
    n: usize,
    mut r: Reading,
    node: usize,
    low: usize,
    left: usize,
) -> Result<Reading, Refusal>
    requires { (n ≤ 16) × (node < 16) }
    ensures { result ≡ told (list_of left s.now n (going r) node low) }
{
    if left == 0 {
        return Err(Refusal::NotAForm);
    }
    if decimal::byte_at(s, r.at) != b' ' {
        return Ok(r);
    }
    r.at += 1;
    let child = read_node(s, n, r, Some(node), low, left - 1)?;
    read_list(s, n, child, node, child.node + 1, left - 1)
}

/// The engagers and the root that a text of at most n nodes gives. A number of nodes outside 1 to 16 is refused first, with 1.
#[tactic(auto, unfolding(tree_text::specs::Read::read_of))]
pub fn read(n: usize, s: &[u8]) -> Result<Found, Refusal>
    ensures { found result ≡ read_of n s.now }
{
    if n == 0 || TREE_NODES < n {
        return Err(Refusal::NodeCount);
    }
    let fresh = Reading {
        engager: [NO_ENGAGER; TREE_NODES],
        at: 0,
        node: 0,
    };
    let tree = read_node(s, n, fresh, None, 0, TREE_NODES)?;
    if tree.at != s.len() {
        return Err(Refusal::NotAForm);
    }
    let engager = tree.engager;
    Ok(Found {
        engager,
        root: tree.node,
    })
}
