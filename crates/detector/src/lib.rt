// What every detector has in common: a test of soundness, and an answer to each request.
#![tactic(auto)]

ghost use Rattle.std.specs.Prelude.{◌≡◌, Bool, true};
ghost use Rattle.refusal.specs.Answers.{Answer, handed, answer as by_value, Keeps, Turns};

use refusal::{Refusal, Refused};

/// A state that answers requests.
pub trait Detector: Copy {
    /// What can be asked of it.
    type Request: Copy;

    ghost sound_test: { Self → Bool };

    ghost answers: { Self → Self.Request → Answer Self };

    /// Is the state sound, however wild its numbers?
    fn is_sound(&self) -> bool
        ensures { result ≡ sound_test self.now };

    /// A request of a sound state, in place. Whatever is refused leaves the state as it was.
    fn apply(&mut self, request: Self::Request) -> Result<(), Refusal>
        requires { sound_test self.old ≡ true }
        ensures { handed result self.new ≡ answers self.old request };

    ghost keeps: { Keeps sound_test answers };

    ghost turns: { Turns sound_test answers };
}

/// An answer in place, handed back by value: the state that it left, beside the refusal where there is one.
pub fn returned<S>(state: S, answer: Result<(), Refusal>) -> Result<S, Refused<S>>
    ensures { by_value result ≡ handed answer state }
{
    match answer {
        Ok(()) => Ok(state),
        Err(refusal) => Err(Refused { refusal, state }),
    }
}

/// A request by value, of any state: the next state, or the refusal and the very state handed in.
pub fn step<D: Detector>(mut state: D, request: D::Request) -> Result<D, Refused<D>>
    ensures { by_value result ≡ D.answers state request }
{
    if !state.is_sound() {
        return returned(state, Err(Refusal::Unsound));
    }
    let answer = state.apply(request);
    returned(state, answer)
}
