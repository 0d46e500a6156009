// The steps of the token, of an open state: probe, pass and announce.
#![tactic(auto, using(ring_rules::proofs::Soundness::true_sound), unfolding(ring_rules::specs::Answers::answer_of, ring_rules::specs::Answers::verdict_of))]

ghost use Rattle.std.specs.Prelude.{◌≡◌, ◌<◌, ◌^◌};
ghost use Rattle.std.specs.Int.Signed.{mag};
ghost use Rattle.ring_rules.specs.Rules.{Probe, Pass, Announce, conclusive, may_probe};
ghost use Rattle.ring_rules.specs.Soundness.{Open};
ghost use Rattle.ring_rules.specs.Answers.{answer_of};
ghost use Rattle.refusal.specs.Answers.{handed};

use crate::state::Ring;
use refusal::Refusal;

impl Ring {
    /// Has the token come back to node 0 from a conclusive round? Node 0 is passive with no message pending to it, it and the token are white, and the token's
    /// sum and node 0's own counter, sent less received, make 0.
    #[tactic(auto, unfolding(ring_rules::specs::Rules::conclusive))]
    pub fn is_conclusive(&self) -> bool
        requires { mag self.now.q < 2 ^ 62 }
        ensures { result ≡ conclusive self.now }
    {
        self.pos == 0
            && !self.black
            && !color::is_black(&self.color, 0)
            && signed::is_zero_with(self.q, u64::from(self.sent[0]), u64::from(self.received[0]))
            && !self.active[0]
            && self.pending[0] == 0
    }

    /// May node 0 send the token out? It has the token, and the last round shows no end: it or the token is black, or the sum with node 0's own counter is above 0.
    #[tactic(auto, unfolding(ring_rules::specs::Rules::may_probe))]
    pub fn may_probe(&self) -> bool
        requires { mag self.now.q < 2 ^ 62 }
        ensures { result ≡ may_probe self.now }
    {
        self.pos == 0
            && (self.black
                || color::is_black(&self.color, 0)
                || signed::is_positive_with(
                    self.q,
                    u64::from(self.sent[0]),
                    u64::from(self.received[0]),
                ))
    }

    /// Node 0 sends the token to node n - 1 for a round, with sum 0 and white, and becomes white. Refused with 8 where it may not.
    pub fn apply_probe(&mut self) -> Result<(), Refusal>
        requires { Open self.old }
        ensures { handed result self.new ≡ answer_of self.old Probe 0 0 }
    {
        if !self.may_probe() {
            return Err(Refusal::RuleFails);
        }
        color::whiten(&mut self.color, 0);
        self.pos = self.n - 1;
        self.q = 0;
        self.black = false;
        Ok(())
    }

    /// A passive node other than node 0 hands the token to the node below it: the node's counter, sent less received, is added to the sum, a black node makes the
    /// token black, and the node becomes white. A node number of n or more is refused with 6, a node that may not hand it on with 8.
    #[tactic(auto, using(ring_rules::proofs::Soundness::true_sound), unfolding(ring_rules::specs::Answers::answer_of, ring_rules::specs::Answers::verdict_of, ring_rules::specs::Rules::may_pass))]
    pub fn apply_pass(&mut self, node: usize) -> Result<(), Refusal>
        requires { Open self.old }
        ensures { handed result self.new ≡ answer_of self.old Pass node 0 }
    {
        if self.n <= node {
            return Err(Refusal::UnknownNode);
        }
        if node == 0 || node != self.pos || self.active[node] {
            return Err(Refusal::RuleFails);
        }
        // Kept: `|`; tried: with `||` the proof of what is left at the end, which two ways then lead to, did not close.
        self.black = color::is_black(&self.color, node) | self.black;
        // Kept: one call; tried: with the sum written out the same proof stopped at its limit of cases.
        self.q = signed::plus_counter(
            self.q,
            u64::from(self.sent[node]),
            u64::from(self.received[node]),
        );
        color::whiten(&mut self.color, node);
        self.pos = node - 1;
        Ok(())
    }

    /// Node 0 announces the end of the computation, and the run is closed. Refused with 8 where the round was not conclusive.
    pub fn apply_announce(&mut self) -> Result<(), Refusal>
        requires { Open self.old }
        ensures { handed result self.new ≡ answer_of self.old Announce 0 0 }
    {
        if !self.is_conclusive() {
            return Err(Refusal::RuleFails);
        }
        self.closed = true;
        Ok(())
    }
}
