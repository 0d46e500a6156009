// The steps of acknowledgements, of an open state: ack, leave and announce.
#![tactic(auto, using(tree_rules::proofs::Soundness::true_sound), unfolding(tree_rules::specs::Answers::answer_of, tree_rules::specs::Answers::verdict_of))]

ghost use Rattle.std.specs.Prelude.{◌≡◌, ◌<◌};
ghost use Rattle.tree_rules.specs.Rules.{Ack, Leave, Announce, conclusive};
ghost use Rattle.tree_rules.specs.Soundness.{Open};
ghost use Rattle.tree_rules.specs.Answers.{answer_of};
ghost use Rattle.refusal.specs.Answers.{handed};

use crate::state::Tree;
use refusal::Refusal;
use tree_rules::NO_ENGAGER;

impl Tree {
    /// The test of announce: the root is passive and has nothing unacknowledged.
    #[tactic(auto, unfolding(tree_rules::specs::Rules::conclusive))]
    pub fn is_conclusive(&self) -> bool
        requires { self.now.root < 16 }
        ensures { result ≡ conclusive self.now }
    {
        !self.active[self.root] && self.unacked[self.root] == 0
    }

    /// A node receives an acknowledgement: one less is on its way to it, and one less of its messages unacknowledged. A node number of n or more is refused
    /// with 6; with 8, where no acknowledgement is on its way.
    pub fn apply_ack(&mut self, node: usize) -> Result<(), Refusal>
        requires { Open self.old }
        ensures { handed result self.new ≡ answer_of self.old Ack node 0 }
    {
        if self.n <= node {
            return Err(Refusal::UnknownNode);
        }
        if self.acks[node] == 0 {
            return Err(Refusal::RuleFails);
        }
        self.acks[node] -= 1;
        self.unacked[node] -= 1;
        Ok(())
    }

    /// An engaged node other than the root, passive and with nothing unacknowledged, leaves the tree: an acknowledgement of the message that engaged it sets out to
    /// its engager, and it has none then. A node number of n or more is refused with 6, any other node with 8.
    #[tactic(auto, using(tree_rules::proofs::Soundness::true_sound, tree_rules::proofs::Bounds::acks_small), unfolding(tree_rules::specs::Answers::answer_of, tree_rules::specs::Answers::verdict_of, tree_rules::specs::Rules::may_leave))]
    pub fn apply_leave(&mut self, node: usize) -> Result<(), Refusal>
        requires { Open self.old }
        ensures { handed result self.new ≡ answer_of self.old Leave node 0 }
    {
        if self.n <= node {
            return Err(Refusal::UnknownNode);
        }
        if node == self.root || self.active[node] || self.unacked[node] != 0 {
            return Err(Refusal::RuleFails);
        }
        let Some(engager) = self.engager_of(node) else {
            return Err(Refusal::RuleFails);
        };
        self.engager[node] = NO_ENGAGER;
        self.acks[engager] += 1;
        Ok(())
    }

    /// The root announces the termination, as Dijkstra and Scholten's does: the run is closed. Refused with 8 while the test of announce fails.
    pub fn apply_announce(&mut self) -> Result<(), Refusal>
        requires { Open self.old }
        ensures { handed result self.new ≡ answer_of self.old Announce 0 0 }
    {
        if !self.is_conclusive() {
            return Err(Refusal::RuleFails);
        }
        self.closed = true;
        Ok(())
    }
}
