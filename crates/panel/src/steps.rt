// A step of any panel, in place and by value.
#![tactic(auto, using(panel_rules::proofs::Soundness::true_sound, ring_rules::proofs::Soundness::true_sound), unfolding(panel_rules::specs::Answers::answer_of, panel_rules::specs::Answers::verdict_of, panel_rules::specs::State::agreed, ring_rules::specs::Answers::answer_of, ring_rules::specs::Answers::verdict_of))]

ghost use Rattle.std.specs.Prelude.{◌≡◌, false};
ghost use Rattle.panel_rules.specs.Answers.{answer_of};
ghost use Rattle.panel_rules.specs.Asks.{answer_on, step_ask};
ghost use Rattle.panel_rules.specs.Request.{answer_to};
ghost use Rattle.panel_rules.specs.Soundness.{Sound};
ghost use Rattle.refusal.specs.Answers.{answer, handed};
ghost use Rattle.ring_rules.specs.Rules.{Announce, Take, kind_of};

use crate::state::Panel;
use detector::returned;
use panel_rules::JobWord;
use refusal::{Refusal, Refused};
use ring_rules::Request;

impl Panel {
    // A take of an open panel: one message, and the marks of its node as the job word says.
    fn apply_take(&mut self, node: usize, word: usize) -> Result<(), Refusal>
        requires { Sound self.old × (self.old.ring.closed ≡ false) }
        ensures { handed result self.new ≡ answer_of self.old Take node word }
    {
        if self.ring.n <= node {
            return Err(Refusal::UnknownNode);
        }
        let job = JobWord::try_from(word)?;
        self.ring.apply_take(node, 1)?;
        self.firmware[node] = job.firmware(self.firmware[node]);
        self.map[node] = job.map(self.map[node]);
        Ok(())
    }

    // A close of an open panel: the test of announce, and then whether all marks agree; the record is the word that they say.
    fn apply_close(&mut self) -> Result<(), Refusal>
        requires { Sound self.old × (self.old.ring.closed ≡ false) }
        ensures { handed result self.new ≡ answer_of self.old Announce 0 0 }
    {
        if !self.ring.is_conclusive() {
            return Err(Refusal::RuleFails);
        }
        let Some(word) = self.word_of_all() else {
            return Err(Refusal::UnequalMarks);
        };
        self.recorded = word;
        self.ring.closed = true;
        Ok(())
    }

    // A request of an open panel, in place.
    fn apply_open(&mut self, request: Request) -> Result<(), Refusal>
        requires { Sound self.old × (self.old.ring.closed ≡ false) }
        ensures { handed result self.new ≡ answer_to self.old request }
    {
        match request {
            Request::Take { node, count: word } => self.apply_take(node, word),
            Request::Announce => self.apply_close(),
            _ => self.ring.apply_sound(request),
        }
    }

    /// A request of a sound panel, in place. Of a take one message is fetched, and its count is the job word; an announcement closes the panel. A closed
    /// run is refused with 4, and what the request's own rule refuses as the ring refuses it; besides a word outside 1 to 4 with 14, before the rule's own
    /// condition, and a close of marks that do not all say one word with 15.
    pub fn apply_sound(&mut self, request: Request) -> Result<(), Refusal>
        requires { Sound self.old }
        ensures { handed result self.new ≡ answer_to self.old request }
    {
        if self.ring.closed {
            return Err(Refusal::Closed);
        }
        self.apply_open(request)
    }

    /// A step of a sound panel by its kind number, in place: 1 send, 2 take, 3 idle, 4 probe, 5 pass, 6 close, and any other is refused with 5. j is a
    /// send's receiver, or a take's job word.
    pub fn step_in_place(&mut self, kind: u8, i: usize, j: usize) -> Result<(), Refusal>
        requires { Sound self.old }
        ensures { handed result self.new ≡ answer_of self.old (kind_of kind) i j }
    {
        if self.ring.closed {
            return Err(Refusal::Closed);
        }
        self.apply_open(Request::try_from((kind, i, j))?)
    }

    /// A step of any panel by its kind number, in place: an unsound panel is refused with 3 before all else.
    #[tactic(auto, unfolding(panel_rules::specs::Answers::answer_of, panel_rules::specs::Answers::verdict_of))]
    pub fn step_checked(&mut self, kind: u8, i: usize, j: usize) -> Result<(), Refusal>
        ensures { handed result self.new ≡ answer_on self.old (step_ask kind i j) }
    {
        if !self.is_sound() {
            return Err(Refusal::Unsound);
        }
        self.step_in_place(kind, i, j)
    }

    /// A step of any panel by its kind number: the next panel, or the refusal and the very panel handed in, 3 where it is not sound.
    pub fn step(mut self, kind: u8, i: usize, j: usize) -> Result<Panel, Refused<Panel>>
        ensures { answer result ≡ answer_on self (step_ask kind i j) }
    {
        let answer = self.step_checked(kind, i, j);
        returned(self, answer)
    }
}
