// Is a tree sound, however wild its numbers?
ghost use Rattle.std.specs.Prelude.{◌≡◌, ◌<◌, ◌≤◌, IsTrue};
ghost use Rattle.laws.specs.Places.{all_to};
ghost use Rattle.tree_rules.specs.State.{children, climb, is_child, messages_from};
ghost use Rattle.tree_rules.specs.Soundness.{balance_test, limit_test, pair_test, place_test, range_test, sound_test};
ghost use Rattle.tree_rules.specs.Answers.{acks_answer};
ghost use Rattle.refusal.specs.Answers.{counted};
ghost use Rattle.tree.specs.Settled.{settled_test};

use crate::state::Tree;
use columns::{sum_of, sum_to};
use refusal::{Refusal, SEND_LIMIT, TREE_NODES};
use tree_rules::NO_NODE;

impl Tree {
    // The messages in transit from a node, over all receivers.
    #[tactic(auto, using(crate::proofs::Laws::messages_is))]
    fn messages_from(&self, node: usize) -> u64
        requires { node < 16 }
        ensures { result ≡ messages_from self.now.transit node }
    {
        let first = node * TREE_NODES;
        sum_of(&self.transit[first..first + TREE_NODES])
    }

    // Has the node this engager? The root is not counted under itself.
    fn is_child(&self, node: usize, engager: usize) -> bool
        requires { node < 16 }
        ensures { result ≡ is_child self.now.root self.now.engager engager node }
    {
        (node != self.root) & (usize::from(self.engager[node]) == engager)
    }

    // How many nodes have this engager, the root not counted.
    fn children_of(&self, engager: usize) -> u64
        ensures total { result ≡ children self.now.root self.now.engager engager }
        ensures small { result ≤ 16 }
    {
        // Kept: a loop without a branch in place of `filter`, and below in place of `all`, so that several places are tested at once.
        let mut children = 0;
        for node in 0..TREE_NODES {
            children += u64::from(self.is_child(node, engager));
        }
        children
    }

    // Where 16 links of engagers lead from a node: to the root, where any number of them does.
    fn chain_end(&self, node: usize) -> usize
        ensures { result ≡ climb self.now.engager 16 node }
    {
        let mut end = node;
        for _ in 0..TREE_NODES {
            end = self.engager_of(end).unwrap_or(NO_NODE);
        }
        end
    }

    // Are the messages of a place that are not acknowledged those in transit, the acknowledgements in transit and the nodes engaged under it?
    #[tactic(auto, unfolding(tree_rules::specs::Soundness::balance_test))]
    fn is_balanced(&self, place: usize) -> bool
        requires { place < 16 }
        ensures { result ≡ balance_test self.now place }
    {
        let unacked = u64::from(self.unacked[place]);
        let messages = self.messages_from(place);
        messages <= unacked
            && unacked - messages == u64::from(self.acks[place]) + self.children_of(place)
    }

    // Are the messages from a place to another in transit from a node to a node, itself or another?
    #[tactic(auto, unfolding(tree_rules::specs::Soundness::pair_test))]
    fn is_pair_sound(&self, from: usize, to: usize) -> bool
        requires { (from < 16) × (to < 16) }
        ensures { result ≡ pair_test self.now from to }
    {
        (self.transit[from * TREE_NODES + to] == 0) | ((from < self.n) & (to < self.n))
    }

    // Are the messages from a place only from a node to a node, itself or another?
    fn are_pairs_sound(&self, from: usize) -> bool
        requires { from < 16 }
        ensures { result ≡ all_to 16 (pair_test self.now from) }
    {
        // Kept: as in the count above.
        let mut sound = true;
        for to in 0..TREE_NODES {
            sound &= self.is_pair_sound(from, to);
        }
        sound
    }

    // Is an engaged place a node under a node, its chain of engagers ending at the root, and any other place passive with nothing unacknowledged?
    #[tactic(auto, unfolding(crate::specs::Settled::settled_test))]
    fn is_settled(&self, place: usize) -> bool
        requires { place < 16 }
        ensures { result ≡ settled_test self.now place }
    {
        match self.engager_of(place) {
            Some(engager) => place < self.n
                && engager < self.n
                && self.chain_end(place) == self.root,
            None => !self.active[place] && self.unacked[place] == 0,
        }
    }

    // Does a place pass the tests of a place?
    fn is_place_sound(&self, place: usize) -> bool
        requires { place < 16 }
        ensures { result ≡ place_test self.now place }
    {
        self.is_settled(place) && self.is_balanced(place) && self.are_pairs_sound(place)
    }

    // Do all places pass?
    fn are_places_sound(&self) -> bool
        ensures { result ≡ all_to 16 (place_test self.now) }
    {
        (0..TREE_NODES).all(|place| self.is_place_sound(place))
    }

    // Is the root a node, and its own engager?
    #[tactic(auto, unfolding(tree_rules::specs::Soundness::range_test))]
    fn is_root_sound(&self) -> bool
        ensures test { result ≡ range_test self.now }
        ensures within { IsTrue result → self.now.root < 16 }
    {
        self.n <= TREE_NODES
            && self.root < self.n
            && usize::from(self.engager[self.root]) == self.root
    }

    // Are there no fewer sends than messages unacknowledged, and no more than the limit?
    #[tactic(auto, unfolding(tree_rules::specs::Soundness::limit_test))]
    fn is_within_limit(&self) -> bool
        ensures { result ≡ limit_test self.now }
    {
        sum_to(&self.unacked, TREE_NODES) <= u64::from(self.sends) && self.sends <= SEND_LIMIT
    }

    /// Is the state sound, whatever its numbers? Every state that a start and accepted steps lead to is.
    #[tactic(auto, unfolding(tree_rules::specs::Soundness::closed_test, tree_rules::specs::Soundness::shape_test, tree_rules::specs::Soundness::sound_test))]
    pub fn is_sound(&self) -> bool
        ensures { result ≡ sound_test self.now }
    {
        self.is_root_sound()
            && self.are_places_sound()
            && self.is_within_limit()
            && (!self.closed || self.is_conclusive())
    }

    /// How many acknowledgements are in transit. A state that is not sound is refused with 3.
    #[tactic(auto, unfolding(tree_rules::specs::Termination::acks_total))]
    pub fn acks_in_transit(&self) -> Result<u64, Refusal>
        ensures { counted result ≡ acks_answer self.now }
    {
        if !self.is_sound() {
            return Err(Refusal::Unsound);
        }
        Ok(sum_to(&self.acks, TREE_NODES))
    }
}
