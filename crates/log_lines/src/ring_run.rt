// A line of a ring's run.
ghost use Rattle.std.specs.Prelude.{◌≡◌, ◌&&◌, cond, ◌+◌, ◌<◌};
ghost use Rattle.log_rules.specs.Answers.{on_ring};
ghost use Rattle.log_rules.specs.Lines.{line_limit};
ghost use Rattle.refusal.specs.Answers.{verdict_from};
ghost use Rattle.refusal.specs.Table.{is_accepted};
ghost use Rattle.log_lines.specs.Stages.{LineTold, SoundStage};
ghost use Rattle.log_lines.specs.Requests.{Asks, moves_token};

use crate::line::{Line, formless};
use forms::RingStep;
use refusal::Refusal;
use ring::Ring;
use ring_rules::Request;
use step_forms::ring_step;

// What a step's form asks of a ring. `(take 2)` takes one message. Kept: a function and no `From`, since neither type is this crate's.
pub(crate) fn request_of(step: RingStep) -> Request
    ensures { Asks step result }
{
    match step {
        RingStep::Send(from, to) => Request::Send { from, to },
        RingStep::TakeOne(node) => Request::Take { node, count: 1 },
        RingStep::Take(node, count) => Request::Take { node, count },
        RingStep::Idle(node) => Request::Idle { node },
        RingStep::Probe => Request::Probe,
        RingStep::Pass(node) => Request::Pass { node },
        RingStep::Announce => Request::Announce,
    }
}

// Is it a move of the token?
pub(crate) fn is_move(request: Request) -> bool
    ensures { result ≡ moves_token request }
{
    matches!(request, Request::Probe | Request::Pass { .. })
}

/// An accepted probe or pass is one token move more.
pub(crate) fn moved(request: Request, answer: Result<(), Refusal>) -> u64
    ensures { result ≡ cond (moves_token request && is_accepted (verdict_from answer)) 1 0 }
{
    u64::from(is_move(request) && answer.is_ok())
}

/// A ring's run: the ring, and its accepted token moves.
#[derive(Clone, Copy, Debug, PartialEq, Eq)]
pub struct RingRun {
    pub ring: Ring,
    pub moves: u64,
}

impl RingRun {
    /// The line that begins at `at`, where it is whole, `lines` being answered before. Accepted probes and passes are counted.
    pub(crate) fn tell(&mut self, lines: u64, piece: &[u8], at: usize) -> Option<Line>
        requires { SoundStage (on_ring self.old.ring self.old.moves) lines × (lines < line_limit) }
        ensures { LineTold (on_ring self.old.ring self.old.moves) (on_ring self.new.ring self.new.moves) (lines + 1) piece.now at result }
    {
        let Some((step, next)) = ring_step(piece, at) else {
            return formless(lines + 1, piece, at);
        };
        let request = request_of(step);
        let answer = self.ring.apply_sound(request);
        self.moves += moved(request, answer);
        Some(Line {
            number: lines + 1,
            answer,
            next,
        })
    }
}
