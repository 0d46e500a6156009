// A step of any ring, in place and by value.
ghost use Rattle.std.specs.Prelude.{◌≡◌};
ghost use Rattle.ring_rules.specs.Rules.{Send, Take, Idle, Probe, Pass, Announce};
ghost use Rattle.ring_rules.specs.Soundness.{Open, Sound};
ghost use Rattle.ring_rules.specs.Answers.{answer_of, step_of};
ghost use Rattle.ring_rules.specs.Request.{answer_to};
ghost use Rattle.refusal.specs.Answers.{answer, handed};

use crate::state::Ring;
use detector::{returned, step};
use refusal::{Refusal, Refused};
use ring_rules::Request;

impl Ring {
    // Rules apply to an open state, by the request's name.
    fn apply_open(&mut self, request: Request) -> Result<(), Refusal>
        requires { Open self.old }
        ensures { handed result self.new ≡ answer_to self.old request }
    {
        match request {
            Request::Send { from, to } => self.apply_send(from, to),
            Request::Take { node, count } => self.apply_take(node, count),
            Request::Idle { node } => self.apply_idle(node),
            Request::Probe => self.apply_probe(),
            Request::Pass { node } => self.apply_pass(node),
            Request::Announce => self.apply_announce(),
        }
    }

    // Kept, here and in the other detectors: what a rule asks of its state is a `requires`, and no type around the state, since the state is any that a caller hands in, and that type's methods
    // would be these once more.
    /// A request of a sound state, in place: a closed run is refused with 4, and whatever is refused leaves the state as it was.
    #[tactic(auto, using(ring_rules::proofs::Soundness::true_sound), unfolding(ring_rules::specs::Answers::answer_of, ring_rules::specs::Answers::verdict_of))]
    pub fn apply_sound(&mut self, request: Request) -> Result<(), Refusal>
        requires { Sound self.old }
        ensures { handed result self.new ≡ answer_to self.old request }
    {
        if self.closed {
            Err(Refusal::Closed)
        } else {
            self.apply_open(request)
        }
    }

    /// A step of a sound state by its kind number, in place: 1 send, 2 take, 3 idle, 4 probe, 5 pass, 6 announce; any other is refused with 5, after a closed run with 4.
    /// Node i is the one that steps, and j a send's receiver or how many messages a take takes. Whatever is refused leaves the state as it was.
    #[tactic(auto, using(ring_rules::proofs::Soundness::true_sound), unfolding(ring_rules::specs::Answers::answer_of, ring_rules::specs::Answers::verdict_of))]
    pub fn step_in_place(&mut self, kind: u8, i: usize, j: usize) -> Result<(), Refusal>
        requires { Sound self.old }
        ensures { handed result self.new ≡ step_of self.old kind i j }
    {
        if self.closed {
            return Err(Refusal::Closed);
        }
        let request = Request::try_from((kind, i, j))?;
        self.apply_open(request)
    }

    /// A step of any state by its kind number, in place: an unsound state is refused with 3 before all else.
    #[tactic(auto, using(ring_rules::proofs::Soundness::sound_true), unfolding(ring_rules::specs::Answers::answer_of, ring_rules::specs::Answers::verdict_of))]
    pub fn step_checked(&mut self, kind: u8, i: usize, j: usize) -> Result<(), Refusal>
        ensures { handed result self.new ≡ step_of self.old kind i j }
    {
        if !self.is_sound() {
            return Err(Refusal::Unsound);
        }
        self.step_in_place(kind, i, j)
    }

    /// A step of any state by its kind number, 1 to 6: the next state, or the refusal and the very state handed in. An unsound state is refused with 3 before all else.
    pub fn step(mut self, kind: u8, i: usize, j: usize) -> Result<Ring, Refused<Ring>>
        ensures { answer result ≡ step_of self kind i j }
    {
        let answer = self.step_checked(kind, i, j);
        returned(self, answer)
    }

    /// Node `from`, which is active, sends a message to node `to`.
    pub fn send(self, from: usize, to: usize) -> Result<Ring, Refused<Ring>>
        ensures { answer result ≡ answer_of self Send from to }
    {
        step(self, Request::Send { from, to })
    }

    /// The node takes so many of the messages that are pending to it, 1 to 1,000.
    pub fn take(self, node: usize, count: usize) -> Result<Ring, Refused<Ring>>
        ensures { answer result ≡ answer_of self Take node count }
    {
        step(self, Request::Take { node, count })
    }

    /// The node, which is active, becomes passive.
    pub fn idle(self, node: usize) -> Result<Ring, Refused<Ring>>
        ensures { answer result ≡ answer_of self Idle node 0 }
    {
        step(self, Request::Idle { node })
    }

    /// Node 0 sends the token round.
    pub fn probe(self) -> Result<Ring, Refused<Ring>>
        ensures { answer result ≡ answer_of self Probe 0 0 }
    {
        step(self, Request::Probe)
    }

    /// The node, which is passive and has the token, hands it to the node below.
    pub fn pass(self, node: usize) -> Result<Ring, Refused<Ring>>
        ensures { answer result ≡ answer_of self Pass node 0 }
    {
        step(self, Request::Pass { node })
    }

    /// Node 0 announces that the computation has ended.
    pub fn announce(self) -> Result<Ring, Refused<Ring>>
        ensures { answer result ≡ answer_of self Announce 0 0 }
    {
        step(self, Request::Announce)
    }
}
