// Entering a panel, and starts on it.
ghost use Rattle.std.specs.Prelude.{◌≡◌};
ghost use Rattle.panel_rules.specs.Answers.{enter_of, start_of};
ghost use Rattle.panel_rules.specs.Asks.{Start, answer_on};
ghost use Rattle.panel_rules.specs.Soundness.{Sound};
ghost use Rattle.panel_rules.specs.State.{entered};
ghost use Rattle.refusal.specs.Answers.{answer, handed, started};
ghost use Rattle.ring_rules.specs.Start.{blank};

use crate::state::Panel;
use detector::returned;
use panel_rules::Record;
use refusal::{RING_NODES, Refusal, Refused};
use ring::Ring;

impl Panel {
    /// A panel that is first entered: the ring started, all marks old, the record empty. Refused as the ring's start: a number of nodes outside 1 to 96
    /// with 1, flags that are not n values from 0 to 3 with 2.
    #[tactic(auto, unfolding(panel_rules::specs::Answers::enter_of))]
    pub fn enter(n: usize, flags: &[u8]) -> Result<Panel, Refusal>
        ensures { started (entered blank) result ≡ enter_of n flags.now }
    {
        let ring = Ring::start(n, flags)?;
        Ok(Panel {
            ring,
            firmware: [false; RING_NODES],
            map: [false; RING_NODES],
            recorded: Record::Empty,
        })
    }

    // A start on a sound panel, in place: the ring afresh, every mark kept, the record empty.
    #[tactic(auto, using(panel_rules::proofs::Soundness::true_sound), unfolding(panel_rules::specs::Answers::start_of, panel_rules::specs::Answers::start_verdict, ring_rules::specs::Start::start_of, ring_rules::specs::Start::start_verdict))]
    fn restart(&mut self, n: usize, flags: &[u8]) -> Result<(), Refusal>
        requires { Sound self.old }
        ensures { handed result self.new ≡ start_of self.old n flags.now }
    {
        if n != self.ring.n {
            return Err(Refusal::NodeCount);
        }
        self.ring.start_in_place(n, flags)?;
        self.recorded = Record::Empty;
        Ok(())
    }

    /// A start on any panel, in place: an unsound panel is refused with 3 before all else, another number of nodes than its own with 1, flags that are
    /// not n values from 0 to 3 with 2.
    #[tactic(auto, unfolding(panel_rules::specs::Answers::start_of, panel_rules::specs::Answers::start_verdict))]
    pub fn start_checked(&mut self, n: usize, flags: &[u8]) -> Result<(), Refusal>
        ensures { handed result self.new ≡ answer_on self.old (Start n flags.now) }
    {
        if !self.is_sound() {
            return Err(Refusal::Unsound);
        }
        self.restart(n, flags)
    }

    /// A start on the panel: the next panel, or the refusal and the very panel handed in. A panel that is not sound is refused with 3, another number of
    /// nodes than its own with 1, flags that are not n values from 0 to 3 with 2.
    pub fn start(mut self, n: usize, flags: &[u8]) -> Result<Panel, Refused<Panel>>
        ensures { answer result ≡ answer_on self (Start n flags.now) }
    {
        let answer = self.start_checked(n, flags);
        returned(self, answer)
    }
}
