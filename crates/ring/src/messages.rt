// The steps of messages, of an open state: send, take and idle.
#![tactic(auto, using(ring_rules::proofs::Soundness::true_sound), unfolding(ring_rules::specs::Answers::answer_of, ring_rules::specs::Answers::verdict_of))]

ghost use Rattle.std.specs.Prelude.{◌≡◌};
ghost use Rattle.ring_rules.specs.Rules.{Send, Take, Idle, can_take};
ghost use Rattle.ring_rules.specs.Soundness.{Open};
ghost use Rattle.ring_rules.specs.Answers.{answer_of};
ghost use Rattle.refusal.specs.Answers.{handed};

use crate::state::Ring;
use columns::sum_to;
use refusal::{Refusal, SEND_LIMIT};
use ring_rules::TAKE_LIMIT;

// Can `count` of `waiting` messages be taken at once? At least 1, and at most 1,000 and as many as wait.
fn can_take(waiting: u32, count: usize) -> bool
    ensures { result ≡ can_take waiting count }
{
    0 < count && count <= TAKE_LIMIT && count <= waiting as usize
}

impl Ring {
    /// An active node sends a message, to another or to itself: it counts one more as sent, and one more is pending to the receiver. No color changes.
    /// A node number of n or more is refused with 6, a passive sender with 8, a send after 1,000,000 with 9.
    pub fn apply_send(&mut self, from: usize, to: usize) -> Result<(), Refusal>
        requires { Open self.old }
        ensures { handed result self.new ≡ answer_of self.old Send from to }
    {
        if self.n <= from || self.n <= to {
            return Err(Refusal::UnknownNode);
        }
        if !self.active[from] {
            return Err(Refusal::RuleFails);
        }
        if u64::from(SEND_LIMIT) <= sum_to(&self.sent, self.n) {
            return Err(Refusal::SendLimit);
        }
        self.sent[from] += 1;
        self.pending[to] += 1;
        Ok(())
    }

    /// A node takes `count` of the messages that are pending to it, 1 to 1,000: it counts them as received, and becomes active and black, as EWD998 blackens a
    /// machine that receives a message. A node number of n or more is refused with 6, a count that cannot be taken with 8.
    pub fn apply_take(&mut self, node: usize, count: usize) -> Result<(), Refusal>
        requires { Open self.old }
        ensures { handed result self.new ≡ answer_of self.old Take node count }
    {
        if self.n <= node {
            return Err(Refusal::UnknownNode);
        }
        if !can_take(self.pending[node], count) {
            return Err(Refusal::RuleFails);
        }
        let taken = count as u32;
        self.pending[node] -= taken;
        self.received[node] += taken;
        self.active[node] = true;
        color::blacken(&mut self.color, node);
        Ok(())
    }

    /// An active node becomes passive. A node number of n or more is refused with 6, a passive node with 8.
    pub fn apply_idle(&mut self, node: usize) -> Result<(), Refusal>
        requires { Open self.old }
        ensures { handed result self.new ≡ answer_of self.old Idle node 0 }
    {
        if self.n <= node {
            return Err(Refusal::UnknownNode);
        }
        if !self.active[node] {
            return Err(Refusal::RuleFails);
        }
        self.active[node] = false;
        Ok(())
    }
}
