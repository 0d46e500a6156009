// The lines of a piece, answered one after the other.
ghost use Rattle.std.specs.Prelude.{◌≡◌, ◌<◌};
ghost use Rattle.log_rules.specs.Lines.{line_limit};
ghost use Rattle.log_lines.specs.Stages.{Fits, LinesAnswered, TurnTold, past_the_end, stage_of};

use crate::stage::Stage;
use log_answers::put_answer;
use log_rules::LINE_LIMIT;

/// How far a log is answered: its lines, the index of the next line in the piece, and of the next answer in the buffer.
#[derive(Clone, Copy, Debug, PartialEq, Eq)]
pub struct Answered {
    pub lines: u64,
    pub next: usize,
    pub at: usize,
}

impl Answered {
    // Where the first line was refused, the rest of the piece is passed over.
    fn past_the_end(self, stage: &Stage, piece: &[u8]) -> Answered
        ensures { result ≡ past_the_end (stage_of stage.now) self piece.now }
    {
        match stage {
            Stage::Over => Answered {
                next: piece.len(),
                ..self
            },
            _ => self,
        }
    }
}

// The next line, where it is whole.
fn answer_line(
    stage: &mut Stage,
    so_far: Answered,
    piece: &[u8],
    out: &mut [u8],
) -> Option<Answered>
    requires { Fits (stage_of stage.old) so_far.lines piece.now so_far.next out.old so_far.at × (so_far.lines < line_limit) }
    ensures { TurnTold (stage_of stage.old) (stage_of stage.new) so_far piece.now out.old out.new result }
{
    let line = stage.tell(so_far.lines, piece, so_far.next)?;
    let at = put_answer(out, so_far.at, line.number, line.answer);
    Some(Answered {
        lines: so_far.lines + 1,
        next: line.next,
        at,
    })
}

/// The whole lines of the piece from index `from` on, `lines` being answered before: each is carried out on the stage, and its answer
/// is written into `out`, from index `at` on. Where the first line is refused, the rest of the piece is passed over.
pub fn answer_lines(
    stage: &mut Stage,
    lines: u64,
    piece: &[u8],
    from: usize,
    out: &mut [u8],
    at: usize,
) -> Answered
    requires { Fits (stage_of stage.old) lines piece.now from out.old at }
    ensures { LinesAnswered (stage_of stage.old) (stage_of stage.new) lines piece.now from out.old at result out.new }
{
    let mut so_far = Answered {
        lines,
        next: from,
        at,
    };
    // Kept: no range and no iterator is plainer, since the lines end where the piece does, or the log, or at the limit.
    while so_far.lines < LINE_LIMIT {
        let Some(answered) = answer_line(stage, so_far, piece, out) else {
            return so_far.past_the_end(stage, piece);
        };
        so_far = answered;
    }
    so_far
}
