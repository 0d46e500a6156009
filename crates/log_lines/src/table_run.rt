// A line of a table's run.
ghost use Rattle.std.specs.Prelude.{◌≡◌, ◌+◌, ◌<◌, ◌^◌, get_or, set};
ghost use Rattle.first_line.specs.Meaning.{Flags};
ghost use Rattle.log_rules.specs.Answers.{add_at, on_table};
ghost use Rattle.log_rules.specs.Lines.{line_limit};
ghost use Rattle.refusal.specs.Answers.{verdict_from};
ghost use Rattle.refusal.specs.Table.{settle};
ghost use Rattle.table.specs.View as view;
ghost use Rattle.table_rules.specs.Soundness.{SoundTable};
ghost use Rattle.log_lines.specs.Stages.{LineTold, SoundStage};
ghost use Rattle.log_lines.specs.Starts.{Judged, NoStep, StartTold};

use crate::line::{Line, formless};
use crate::ring_run::{moved, request_of};
use first_line::RingStart;
use refusal::{RING_NODES, Refusal, UPDATES};
use table::Table;
use update_forms::{update_start, update_step};

// So many token moves more of update u.
fn add_moves(moves: &mut [u64; UPDATES], u: usize, more: u64)
    requires { get_or moves.old u 0 + more < 2 ^ 64 }
    ensures { moves.new ≡ add_at moves.old u more }
{
    if u < UPDATES {
        moves[u] += more;
    }
}

// After an accepted start the moves of update u are counted afresh.
fn clear_moves(moves: &mut [u64; UPDATES], u: usize, answer: Result<(), Refusal>)
    ensures { moves.new ≡ settle (verdict_from answer) (set moves.old u 0) moves.old }
{
    if answer.is_ok() && u < UPDATES {
        moves[u] = 0;
    }
}

/// Has a start a number of nodes that a ring may have, and do its lists name no other nodes? They are looked for in this order.
pub(crate) fn judge(start: &RingStart) -> Result<(), Refusal>
    ensures { Judged start.now result }
{
    if start.n == 0 || RING_NODES < start.n {
        return Err(Refusal::NodeCount);
    }
    if start.n < start.top {
        return Err(Refusal::UnknownNode);
    }
    Ok(())
}

/// A start of update u: first it is asked whether the update is one of the eight, and whether the number of nodes is the one that is fixed.
pub(crate) fn start_update(table: &mut Table, u: usize, start: &RingStart) -> Result<(), Refusal>
    requires { SoundTable (view.table table.old) × Flags start.now.flags }
    ensures { StartTold (view.table table.old) (view.table table.new) u start.now result }
{
    if UPDATES <= u {
        return Err(Refusal::UnknownUpdate);
    }
    if table.fixed_nodes().is_some_and(|fixed| start.n != fixed) {
        return Err(Refusal::NodeCount);
    }
    judge(start)?;
    table.start_in_place(u, start.n, &start.flags[..start.n])
}

/// A table's run: the table, and the accepted token moves of each update since its latest accepted start.
#[derive(Clone, Copy, Debug, PartialEq, Eq)]
pub struct TableRun {
    pub table: Table,
    pub moves: [u64; UPDATES],
}

impl TableRun {
    // The line that begins at `at` and says no step of an update: a start, or no form.
    fn tell_start(&mut self, lines: u64, piece: &[u8], at: usize) -> Option<Line>
        requires { SoundStage (on_table (view.table self.old.table) self.old.moves) lines × (lines < line_limit) × NoStep piece.now at }
        ensures { LineTold (on_table (view.table self.old.table) self.old.moves) (on_table (view.table self.new.table) self.new.moves) (lines + 1) piece.now at result }
    {
        let Some((u, start, next)) = update_start(piece, at) else {
            return formless(lines + 1, piece, at);
        };
        let answer = start_update(&mut self.table, u, &start);
        clear_moves(&mut self.moves, u, answer);
        Some(Line {
            number: lines + 1,
            answer,
            next,
        })
    }

    /// The line that begins at `at`, where it is whole, `lines` being answered before. Accepted probes and passes are counted to their update.
    pub(crate) fn tell(&mut self, lines: u64, piece: &[u8], at: usize) -> Option<Line>
        requires { SoundStage (on_table (view.table self.old.table) self.old.moves) lines × (lines < line_limit) }
        ensures { LineTold (on_table (view.table self.old.table) self.old.moves) (on_table (view.table self.new.table) self.new.moves) (lines + 1) piece.now at result }
    {
        let Some((u, step, next)) = update_step(piece, at) else {
            return self.tell_start(lines, piece, at);
        };
        let request = request_of(step);
        let answer = self.table.apply_sound(u, request);
        add_moves(&mut self.moves, u, moved(request, answer));
        Some(Line {
            number: lines + 1,
            answer,
            next,
        })
    }
}
