// What is read of a panel.
ghost use Rattle.std.specs.Prelude.{◌≡◌, ◌<◌, false, get_or};
ghost use Rattle.panel_rules.specs.Answers.{marks_answer, record_answer};
ghost use Rattle.panel_rules.specs.State.{marks_number};
ghost use Rattle.refusal.specs.Answers.{counted};

use crate::state::Panel;
use refusal::{RING_NODES, Refusal};

// A node's marks as a number: 1 for new firmware plus 2 for a new map.
fn marks_at(firmware: &[bool; RING_NODES], map: &[bool; RING_NODES], node: usize) -> u64
    requires { node < 96 }
    ensures { result ≡ marks_number (get_or firmware.now node false) (get_or map.now node false) }
{
    u64::from(firmware[node]) + 2 * u64::from(map[node])
}

impl Panel {
    /// The record of a sound panel: 0 empty, 1 old, 2 new. A panel that is not sound is refused with 3.
    pub fn record_word(&self) -> Result<u64, Refusal>
        ensures { counted result ≡ record_answer self.now }
    {
        refusal::counted(self.is_sound(), u64::from(u8::from(self.recorded)))
    }

    /// The marks of a node of a sound panel: 1 for new firmware plus 2 for a new map. A panel that is not sound is refused with 3, a node that it does
    /// not have with 6.
    #[tactic(auto, using(panel_rules::proofs::Soundness::sound_true))]
    pub fn marks(&self, node: usize) -> Result<u64, Refusal>
        ensures { counted result ≡ marks_answer self.now node }
    {
        if !self.is_sound() {
            return Err(Refusal::Unsound);
        }
        if self.ring.n <= node {
            return Err(Refusal::UnknownNode);
        }
        Ok(marks_at(&self.firmware, &self.map, node))
    }
}
