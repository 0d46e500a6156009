// The steps of messages, of an open state: send, take and idle.
#![tactic(auto, using(tree_rules::proofs::Soundness::true_sound), unfolding(tree_rules::specs::Answers::answer_of, tree_rules::specs::Answers::verdict_of))]

ghost use Rattle.std.specs.Prelude.{◌≡◌};
ghost use Rattle.tree_rules.specs.Rules.{Send, Take, Idle};
ghost use Rattle.tree_rules.specs.Soundness.{Open};
ghost use Rattle.tree_rules.specs.Answers.{answer_of};
ghost use Rattle.refusal.specs.Answers.{handed};

use crate::state::Tree;
use refusal::{Refusal, SEND_LIMIT, TREE_NODES};

impl Tree {
    /// An active node sends a message to a node, itself or another: one more of its messages is unacknowledged, and one more in transit between the two.
    /// A node number of n or more is refused with 6, a passive sender with 8, a send after 1,000,000 with 9.
    #[tactic(auto, using(tree_rules::proofs::Soundness::true_sound, tree_rules::proofs::Bounds::unacked_small, tree_rules::proofs::Bounds::transit_small), unfolding(tree_rules::specs::Answers::answer_of, tree_rules::specs::Answers::verdict_of))]
    pub fn apply_send(&mut self, from: usize, to: usize) -> Result<(), Refusal>
        requires { Open self.old }
        ensures { handed result self.new ≡ answer_of self.old Send from to }
    {
        if self.n <= from || self.n <= to {
            return Err(Refusal::UnknownNode);
        }
        if !self.active[from] {
            return Err(Refusal::RuleFails);
        }
        if SEND_LIMIT <= self.sends {
            return Err(Refusal::SendLimit);
        }
        self.unacked[from] += 1;
        self.transit[from * TREE_NODES + to] += 1;
        self.sends += 1;
        Ok(())
    }

    /// A node takes a message from the sender, and becomes active. The sender becomes its engager where it has none; where it has one, an acknowledgement
    /// sets out to the sender. A node number of n or more is refused with 6; with 8, where no such message is in transit.
    #[tactic(auto, using(tree_rules::proofs::Soundness::true_sound, tree_rules::proofs::Bounds::acks_small), unfolding(tree_rules::specs::Answers::answer_of, tree_rules::specs::Answers::verdict_of))]
    pub fn apply_take(&mut self, node: usize, sender: usize) -> Result<(), Refusal>
        requires { Open self.old }
        ensures { handed result self.new ≡ answer_of self.old Take node sender }
    {
        if self.n <= node || self.n <= sender {
            return Err(Refusal::UnknownNode);
        }
        if self.transit[sender * TREE_NODES + node] == 0 {
            return Err(Refusal::RuleFails);
        }
        self.transit[sender * TREE_NODES + node] -= 1;
        self.active[node] = true;
        if self.engager_of(node).is_none() {
            self.engager[node] = sender as u8;
            return Ok(());
        }
        self.acks[sender] += 1;
        Ok(())
    }

    /// An active node becomes passive. A node number of n or more is refused with 6, a passive node with 8.
    pub fn apply_idle(&mut self, node: usize) -> Result<(), Refusal>
        requires { Open self.old }
        ensures { handed result self.new ≡ answer_of self.old Idle node 0 }
    {
        if self.n <= node {
            return Err(Refusal::UnknownNode);
        }
        if !self.active[node] {
            return Err(Refusal::RuleFails);
        }
        self.active[node] = false;
        Ok(())
    }
}
