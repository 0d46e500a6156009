// A tree as other languages lend it: its fields, with a byte for each truth.
#![tactic(auto)]

ghost use Rattle.std.specs.Prelude.{◌≡◌, OnErr};
ghost use Rattle.lent.specs.Tree.{TreeSteppedTo, tree_of, tree_truths_test};
ghost use Rattle.refusal.specs.Answers.{verdict_from};
ghost use Rattle.refusal.specs.Table.{code_of};
ghost use Rattle.tree_fields.specs.Fields.{found_sound, tree_in};

use refusal::{Refusal, TREE_NODES, TREE_PAIRS};
use std::marker::Model;
use tree::Tree;

/// The fields of a tree, as `Tree` has them, with a byte for each truth: 1 for true, 0 for false. A byte above 1 makes a tree that is not sound.
#[derive(Clone, Copy, Debug, PartialEq, Eq)]
pub struct LentTree {
    pub n: usize,
    pub root: usize,
    pub active: [u8; TREE_NODES],
    pub engager: [u8; TREE_NODES],
    pub unacked: [u32; TREE_NODES],
    pub transit: [u32; TREE_PAIRS],
    pub acks: [u32; TREE_NODES],
    pub sends: u32,
    pub closed: u8,
}

impl Model for LentTree {
    ghost use Rattle.lent.specs.Tree.{LentTree as Lent};

    ghost Value = { Lent };

    ghost view = { λ a. record { n = a.n; root = a.root; active = a.active; engager = a.engager; unacked = a.unacked; transit = a.transit; acks = a.acks; sends = a.sends; closed = a.closed } };

    ghost inverse = { λ d. record { n = d.n; root = d.root; active = d.active; engager = d.engager; unacked = d.unacked; transit = d.transit; acks = d.acks; sends = d.sends; closed = d.closed } };
}

impl From<Tree> for LentTree {
    ghost use Rattle.tree_fields.specs.Fields.{IsLentOf};

    ghost from_gives = { IsLentOf };

    fn from(tree: Tree) -> LentTree {
        LentTree {
            n: tree.n,
            root: tree.root,
            active: flag_bytes::bytes_of(&tree.active),
            engager: tree.engager,
            unacked: tree.unacked,
            transit: tree.transit,
            acks: tree.acks,
            sends: tree.sends,
            closed: u8::from(tree.closed),
        }
    }
}

impl LentTree {
    /// Is each byte of a truth 0 or 1?
    #[tactic(auto, unfolding(lent::specs::Tree::tree_truths_test))]
    pub fn has_truths(&self) -> bool
        ensures { result ≡ tree_truths_test self.now }
    {
        flag_bytes::are_flags(&self.active) && self.closed <= 1
    }

    /// The tree that the fields say, whatever their bytes: 1 alone is true.
    pub fn gathered(&self) -> Tree
        ensures { result ≡ tree_of self.now }
    {
        Tree {
            n: self.n,
            root: self.root,
            active: flag_bytes::truths(&self.active),
            engager: self.engager,
            unacked: self.unacked,
            transit: self.transit,
            acks: self.acks,
            sends: self.sends,
            closed: self.closed == 1,
        }
    }

    /// The tree that lies in the fields. A byte of a truth that is above 1 is refused with 3.
    pub fn tree(&self) -> Result<Tree, Refusal>
        ensures { result ≡ tree_in self.now }
    {
        if !self.has_truths() {
            return Err(Refusal::Unsound);
        }
        Ok(self.gathered())
    }

    /// Is each byte of a truth 0 or 1, and the tree sound?
    pub fn is_sound(&self) -> bool
        ensures { result ≡ found_sound self.now }
    {
        self.has_truths() && self.gathered().is_sound()
    }

    /// A step by its kind number, 1 to 6, in place; whatever is refused leaves the fields as they were.
    pub fn step(&mut self, kind: usize, i: usize, j: usize) -> Result<(), Refusal>
        ensures told { TreeSteppedTo self.old kind i j (code_of (verdict_from result)) self.new }
        ensures nodes { self.new.n ≡ self.old.n }
        ensures root { self.new.root ≡ self.old.root }
        ensures same { OnErr result (self.new ≡ self.old) }
    {
        if !self.has_truths() {
            return Err(Refusal::Unsound);
        }
        let mut tree = self.gathered();
        tree.step_checked(flag_bytes::kind_byte(kind), i, j)?;
        *self = LentTree::from(tree);
        Ok(())
    }
}
