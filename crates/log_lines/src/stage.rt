// What a log has come to.
ghost use Rattle.std.specs.Prelude.{◌+◌, ◌≤◌, ◌<◌, length};
ghost use Rattle.log_rules.specs.Lines.{line_limit};
ghost use Rattle.log_rules.specs.Answers.{fresh, line_told};
ghost use Rattle.log_lines.specs.Stages.{LineTold, SoundStage, stage_of};
ghost use Rattle.log_lines.specs.Openings.{Begun, FirstTold};

use crate::line::{Line, line_end};
use crate::opening::open;
use crate::ring_run::RingRun;
use crate::table_run::TableRun;
use crate::tree_run::tree_line;
use refusal::Refusal;
use tree::Tree;

/// What a log has come to: nothing is read yet; a ring's run, a tree's, a table's; or the first line was refused, and nothing more is answered.
#[derive(Clone, Copy, Debug, PartialEq, Eq)]
pub enum Stage {
    Fresh,
    Ring(RingRun),
    Tree(Tree),
    Table(TableRun),
    Over,
}

impl Stage {
    // The first line: what it says begins, or the log is over.
    fn begin(&mut self, line: &[u8]) -> Result<(), Refusal>
        ensures { Begun (line_told fresh 1 line.now) result (stage_of self.new) }
    {
        match open(line) {
            Ok(stage) => {
                *self = stage;
                Ok(())
            }
            Err(refusal) => {
                *self = Stage::Over;
                Err(refusal)
            }
        }
    }

    // The first line, which begins at `at`, where it is whole.
    fn first_line(&mut self, piece: &[u8], at: usize) -> Option<Line>
        requires { at ≤ length piece.now }
        ensures { FirstTold (stage_of self.old) (stage_of self.new) piece.now at result }
    {
        let next = line_end(piece, at)?;
        let answer = self.begin(&piece[at..next]);
        Some(Line {
            number: 1,
            answer,
            next,
        })
    }

    /// The line that begins at `at`, where it is whole, `lines` being answered before: it is carried out in place.
    pub(crate) fn tell(&mut self, lines: u64, piece: &[u8], at: usize) -> Option<Line>
        requires { SoundStage (stage_of self.old) lines × (lines < line_limit) × (at ≤ length piece.now) }
        ensures { LineTold (stage_of self.old) (stage_of self.new) (lines + 1) piece.now at result }
    {
        match self {
            Stage::Fresh => self.first_line(piece, at),
            Stage::Ring(run) => run.tell(lines, piece, at),
            Stage::Tree(tree) => tree_line(tree, lines, piece, at),
            Stage::Table(run) => run.tell(lines, piece, at),
            Stage::Over => None,
        }
    }
}
