// A step of any tree, in place and by value.
ghost use Rattle.std.specs.Prelude.{◌≡◌};
ghost use Rattle.tree_rules.specs.Rules.{Send, Take, Idle, Ack, Leave, Announce};
ghost use Rattle.tree_rules.specs.Soundness.{Open, Sound};
ghost use Rattle.tree_rules.specs.Answers.{answer_of, step_of};
ghost use Rattle.tree_rules.specs.Request.{answer_to};
ghost use Rattle.refusal.specs.Answers.{answer, handed};

use crate::state::Tree;
use detector::{returned, step};
use refusal::{Refusal, Refused};
use tree_rules::Request;

impl Tree {
    // Rules apply to an open state, by the request's name.
    fn apply_open(&mut self, request: Request) -> Result<(), Refusal>
        requires { Open self.old }
        ensures { handed result self.new ≡ answer_to self.old request }
    {
        match request {
            Request::Send { from, to } => self.apply_send(from, to),
            Request::Take { node, sender } => self.apply_take(node, sender),
            Request::Idle { node } => self.apply_idle(node),
            Request::Ack { node } => self.apply_ack(node),
            Request::Leave { node } => self.apply_leave(node),
            Request::Announce => self.apply_announce(),
        }
    }

    /// A request of a sound state, in place: a closed run is refused with 4, and whatever is refused leaves the state as it was.
    #[tactic(auto, using(tree_rules::proofs::Soundness::true_sound), unfolding(tree_rules::specs::Answers::answer_of, tree_rules::specs::Answers::verdict_of))]
    pub fn apply_sound(&mut self, request: Request) -> Result<(), Refusal>
        requires { Sound self.old }
        ensures { handed result self.new ≡ answer_to self.old request }
    {
        if self.closed {
            return Err(Refusal::Closed);
        }
        self.apply_open(request)
    }

    /// A step of a sound state by its kind number, in place: 1 send, 2 take, 3 idle, 4 ack, 5 leave, 6 announce; any other is refused with 5, after a closed run with 4.
    /// Node i is the one that steps, and j a send's receiver or the sender of the message that is taken. Whatever is refused leaves the state as it was.
    #[tactic(auto, using(tree_rules::proofs::Soundness::true_sound), unfolding(tree_rules::specs::Answers::answer_of, tree_rules::specs::Answers::verdict_of))]
    pub fn step_in_place(&mut self, kind: u8, i: usize, j: usize) -> Result<(), Refusal>
        requires { Sound self.old }
        ensures { handed result self.new ≡ step_of self.old kind i j }
    {
        if self.closed {
            return Err(Refusal::Closed);
        }
        self.apply_open(Request::try_from((kind, i, j))?)
    }

    /// A step of any state by its kind number, in place: an unsound state is refused with 3 before all else.
    #[tactic(auto, unfolding(tree_rules::specs::Answers::answer_of, tree_rules::specs::Answers::verdict_of))]
    pub fn step_checked(&mut self, kind: u8, i: usize, j: usize) -> Result<(), Refusal>
        ensures { handed result self.new ≡ step_of self.old kind i j }
    {
        if !self.is_sound() {
            return Err(Refusal::Unsound);
        }
        self.step_in_place(kind, i, j)
    }

    /// A step of any state by its kind number, 1 to 6: the next state, or the refusal and the very state handed in.
    pub fn step(mut self, kind: u8, i: usize, j: usize) -> Result<Tree, Refused<Tree>>
        ensures { answer result ≡ step_of self kind i j }
    {
        let answer = self.step_checked(kind, i, j);
        returned(self, answer)
    }

    /// Node `from`, which is active, sends a message to node `to`, itself or another.
    pub fn send(self, from: usize, to: usize) -> Result<Tree, Refused<Tree>>
        ensures { answer result ≡ answer_of self Send from to }
    {
        step(self, Request::Send { from, to })
    }

    /// The node takes a message from the sender.
    pub fn take(self, node: usize, sender: usize) -> Result<Tree, Refused<Tree>>
        ensures { answer result ≡ answer_of self Take node sender }
    {
        step(self, Request::Take { node, sender })
    }

    /// The node, which is active, becomes passive.
    pub fn idle(self, node: usize) -> Result<Tree, Refused<Tree>>
        ensures { answer result ≡ answer_of self Idle node 0 }
    {
        step(self, Request::Idle { node })
    }

    /// The node receives an acknowledgement.
    pub fn ack(self, node: usize) -> Result<Tree, Refused<Tree>>
        ensures { answer result ≡ answer_of self Ack node 0 }
    {
        step(self, Request::Ack { node })
    }

    /// The node, which is engaged, passive and not the root, and has nothing unacknowledged, acknowledges the message that engaged it.
    pub fn leave(self, node: usize) -> Result<Tree, Refused<Tree>>
        ensures { answer result ≡ answer_of self Leave node 0 }
    {
        step(self, Request::Leave { node })
    }

    /// The root, which is passive and has nothing unacknowledged, announces the termination, which closes the run.
    pub fn announce(self) -> Result<Tree, Refused<Tree>>
        ensures { answer result ≡ answer_of self Announce 0 0 }
    {
        step(self, Request::Announce)
    }
}
