// The state of a tree.
ghost use Rattle.std.specs.Prelude.{◌≡◌, ◌<◌, ◌^◌, IfSome};
ghost use Rattle.tree.specs.View.{engager_told};

use refusal::{TREE_NODES, TREE_PAIRS};
use std::marker::Model;
use tree_rules::NO_ENGAGER;

/// A tree: what each node has, and for each pair of nodes the messages in transit from i to k, at i * 16 + k.
#[derive(Clone, Copy, Debug, PartialEq, Eq)]
pub struct Tree {
    /// The nodes, 1 to 16.
    pub n: usize,
    /// The root, below n.
    pub root: usize,
    /// Is the node active?
    pub active: [bool; TREE_NODES],
    /// The node that engaged it, and 16 where none did; the root's is the root.
    pub engager: [u8; TREE_NODES],
    /// The messages that it sent and that are not acknowledged yet.
    pub unacked: [u32; TREE_NODES],
    pub transit: [u32; TREE_PAIRS],
    /// The acknowledgements on their way to it.
    pub acks: [u32; TREE_NODES],
    /// The accepted sends, at most 1,000,000.
    pub sends: u32,
    /// Is the termination announced?
    pub closed: bool,
}

impl Model for Tree {
    ghost use Rattle.tree_rules.specs.State.{State};

    ghost Value = { State };

    ghost view = { λ a. record { n = a.n; root = a.root; active = a.active; engager = a.engager; unacked = a.unacked; transit = a.transit; acks = a.acks; sends = a.sends; closed = a.closed } };

    ghost inverse = { λ d. record { n = d.n; root = d.root; active = d.active; engager = d.engager; unacked = d.unacked; transit = d.transit; acks = d.acks; sends = d.sends; closed = d.closed } };
}

impl Tree {
    /// The node that engaged this one; none where it is not engaged, or is no node. In a state that is not sound it may be no node either.
    pub fn engager_of(&self, node: usize) -> Option<usize>
        ensures told { result ≡ engager_told self.now node }
        ensures small { IfSome result (λ k. k < 2 ^ 8) }
    {
        match self.engager.get(node) {
            Some(engager) if *engager != NO_ENGAGER => Some(usize::from(*engager)),
            _ => None,
        }
    }
}
