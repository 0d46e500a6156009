// Is a ring sound, whatever its numbers? And what is told of a sound one.
ghost use Rattle.std.specs.Prelude.{◌≡◌, ◌≤◌, ◌<◌, ◌^◌, ◌↔◌, ℕ, true, IsTrue};
ghost use Rattle.ring.specs.Empty.{empty_at};
ghost use Rattle.std.specs.Int.Signed.{mag};
ghost use Rattle.ring_rules.specs.Soundness.{range_test, sum_test, unused_test, sound_test};
ghost use Rattle.ring_rules.specs.Answers.{transit_answer, black_answer};
ghost use Rattle.refusal.specs.Answers.{counted};

use crate::state::Ring;
use refusal::{RING_NODES, Refusal};

// The most that a node's counter, sent less received, adds to the token's sum, on either side of 0: `counter_limit` of ring_rules.
const COUNTER_LIMIT: u64 = 1_000_000;

impl Ring {
    // Are there 1 to 96 nodes, one of which has the token?
    #[tactic(auto, unfolding(ring_rules::specs::Soundness::range_test))]
    fn is_in_range(&self) -> bool
        ensures test { result ≡ range_test self.now }
        ensures within { IsTrue result → (self.now.n ≤ 96) × (self.now.pos < self.now.n) }
    {
        0 < self.n && self.n <= RING_NODES && self.pos < self.n
    }

    // Does the token's sum lie within what the nodes above it can add?
    #[tactic(auto, unfolding(ring_rules::specs::Soundness::sum_test))]
    fn is_near(&self) -> bool
        requires { (self.now.n ≤ 96) × (self.now.pos < self.now.n) }
        ensures test { result ≡ sum_test self.now }
        ensures small { IsTrue result → mag self.now.q < 2 ^ 62 }
    {
        signed::is_within(self.q, (self.n - 1 - self.pos) as u64 * COUNTER_LIMIT)
    }

    // Are the places from n on, which no node uses, passive and without counts?
    fn is_empty_from_n(&self) -> bool
        requires { self.now.n ≤ 96 }
        ensures { IsTrue result ↔ ((i : ℕ) → self.now.n ≤ i → i < 96 → empty_at self.now.active self.now.sent self.now.received self.now.pending i ≡ true) }
    {
        // Kept: a loop to the end and no `all`, which stops early, so that the compiler takes several places at a time; every call of C makes this test.
        let mut empty = true;
        for node in self.n..RING_NODES {
            let counts = (self.sent[node] == 0)
                & ((self.received[node] == 0) & (self.pending[node] == 0));
            empty &= !self.active[node] & counts;
        }
        empty
    }

    // Are these places white too?
    fn is_unused(&self) -> bool
        requires { self.now.n ≤ 96 }
        ensures { result ≡ unused_test self.now }
    {
        self.is_empty_from_n() && color::white_from(&self.color, self.n)
    }

    /// Is the state sound? That is what every start makes and every step keeps: a state that is not is refused with 3 by whoever is asked for more than this.
    pub fn is_sound(&self) -> bool
        ensures { result ≡ sound_test self.now }
    {
        if !self.is_in_range() {
            return false;
        }
        if !self.is_near() {
            return false;
        }
        let seen = self.walk();
        if !seen.flows() {
            return false;
        }
        if !seen.is_safra(self.q, self.black) {
            return false;
        }
        if !self.is_unused() {
            return false;
        }
        if self.closed {
            return self.is_conclusive();
        }
        true
    }

    /// How many messages are in transit, 0 to 1,000,000; an unsound state is refused with 3.
    #[tactic(auto, unfolding(ring_rules::specs::State::in_transit))]
    pub fn in_transit(&self) -> Result<u64, Refusal>
        ensures { counted result ≡ transit_answer self.now }
    {
        refusal::counted(self.is_sound(), columns::sum_to(&self.pending, RING_NODES))
    }

    /// How many nodes are black, 0 to 96; an unsound state is refused with 3.
    #[tactic(auto, unfolding(ring_rules::specs::State::black_nodes))]
    pub fn black_nodes(&self) -> Result<u64, Refusal>
        ensures { counted result ≡ black_answer self.now }
    {
        if !self.is_sound() {
            return Err(Refusal::Unsound);
        }
        Ok(u64::from(color::count_black(&self.color)))
    }
}
