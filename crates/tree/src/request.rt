// A tree answers requests, as every detector.

use crate::state::Tree;
use detector::Detector;
use refusal::Refusal;
use tree_rules::Request;

impl Detector for Tree {
    type Request = Request;

    ghost use Rattle.tree_rules.specs.Soundness.{sound_test};
    ghost use Rattle.tree_rules.specs.Request.{answer_to};
    ghost use Rattle.tree_rules.proofs.Kept.{keeps_sound, turns_back};

    ghost sound_test = { sound_test };

    ghost answers = { answer_to };

    ghost keeps = { keeps_sound };

    ghost turns = { turns_back };

    fn is_sound(&self) -> bool {
        Tree::is_sound(self)
    }

    fn apply(&mut self, request: Request) -> Result<(), Refusal> {
        self.apply_sound(request)
    }
}
