// The end line of a tree.
ghost use Rattle.std.specs.Prelude.{◌+◌, ◌≤◌, length};
ghost use Rattle.log_answers.specs.Ends.{Short};
ghost use Rattle.log_rules.specs.Answers.{tree_end};
ghost use Rattle.tree_rules.specs.Soundness.{Sound};

use crate::answer::put_item;
use decimal::put_word;
use refusal::TREE_NODES;
use tree::Tree;
use tree_writer::put_tree;

/// Puts the end line of a sound tree, `(end (boards 3) (engaged (0)) (acks 0))`. Returns the index past it.
#[tactic(auto, using(crate::proofs::Items::decimal_short, crate::proofs::Items::tree_short))]
pub fn put_tree_end(out: &mut [u8], at: usize, tree: &Tree) -> usize
    requires { (at + 256 ≤ length out.old) × Sound tree.now }
    ensures { Short out.old at (tree_end tree.now) result out.new }
{
    let acks = columns::sum_to(&tree.acks, TREE_NODES);
    let end = put_item(out, at, b"(end (boards ", tree.n as u64);
    let end = put_word(out, end, b") (engaged ");
    let end = put_tree(out, end, &tree.engager, tree.root);
    let end = put_item(out, end, b") (acks ", acks);
    put_word(out, end, b"))\n")
}
