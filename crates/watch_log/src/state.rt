// A log between two pieces.
ghost use Rattle.std.specs.Prelude.{◌≡◌, ◌+◌, ◌*◌, ◌≤◌, [], length};
ghost use Rattle.forms.specs.Form.{line_bytes};
ghost use Rattle.log_rules.specs.Answers.{answer_bytes, fresh};
ghost use Rattle.log_answers.specs.Wrote.{Wrote};
ghost use Rattle.log_lines.specs.Stages.{stage_of};
ghost use Rattle.watch_log.specs.Feed.{FedFrom, Good, Resumed, all_answered, decided, decided_by, log_of};
ghost use Rattle.watch_log.specs.Finish.{Finished, cut_text};

use crate::held::Held;
use forms::LINE_BYTES;
use log_answers::{put_answer, put_ring_end, put_table_end, put_tree_end};
use log_lines::{Stage, answer_lines, line_end};
use log_rules::LINE_LIMIT;
use refusal::Refusal;
use std::marker::Model;

// So many lines are answered where the next is the last.
const LAST_LINE: u64 = LINE_LIMIT - 1;

/// Is what is still to be written settled, whatever follows? So many lines are answered, and so many bytes are held of the next.
pub fn is_decided(stage: &Stage, lines: u64, held: usize) -> bool
    ensures { result ≡ decided_by (stage_of stage.now) lines held }
{
    let full = LINE_LIMIT <= lines;
    let long = LINE_BYTES <= held;
    match stage {
        Stage::Fresh => full || long,
        Stage::Ring(_) | Stage::Tree(_) | Stage::Table(_) => full || long && LAST_LINE <= lines,
        Stage::Over => true,
    }
}

/// A log as far as it is read: what it has come to, the lines answered, and what is read of the next.
#[derive(Clone, Copy, Debug)]
pub struct Log {
    stage: Stage,
    lines: u64,
    held: Held,
}

impl Model for Log {
    ghost use Rattle.log_lines.specs.Stages.{stage_of};
    ghost use Rattle.watch_log.specs.Feed.{Good, LogFields};
    ghost use Rattle.watch_log.specs.Held.{held_line};

    ghost Value = { LogFields };

    ghost view = { λ l. record { stage = l.stage; lines = l.lines; held = l.held } };

    ghost invariant = { λ l. Good (record { stage = stage_of l.stage; lines = l.lines; held = held_line l.held }) };

    ghost inverse = { λ d. record { stage = d.stage; lines = d.lines; held = d.held } };
}

impl Log {
    /// Nothing is read.
    pub fn new() -> Log
        ensures { ((log_of result).stage ≡ fresh) × ((log_of result).lines ≡ 0) × ((log_of result).held ≡ []) }
    {
        Log {
            stage: Stage::Fresh,
            lines: 0,
            held: Held::new(),
        }
    }

    /// A log that goes on: what it had come to, the lines answered, and what was read of the next.
    pub fn resumed(stage: Stage, lines: u64, held: &[u8]) -> Log
        requires { Good (record { stage = stage_of stage; lines = lines; held = held.now }) }
        ensures { Resumed (stage_of stage) lines held.now (log_of result) }
    {
        let mut line = Held::new();
        line.extend(held);
        Log {
            stage,
            lines,
            held: line,
        }
    }

    /// A piece of the log: its whole lines are answered into `out`, and what it has of the next is held. Returns how many bytes of
    /// answers are written. `out` has 16 bytes for each byte of the piece, and 11,200 more.
    pub fn feed(&mut self, piece: &[u8], out: &mut [u8]) -> usize
        requires { (length piece.now + line_bytes) * answer_bytes ≤ length out.old }
        ensures { FedFrom (log_of self.old).stage (log_of self.old).lines (log_of self.old).held piece.now (log_of self.new) result 0 out.old out.new }
    {
        if self.is_full() {
            return 0;
        }
        let Some(end) = line_end(piece, 0) else {
            self.held.extend(piece);
            return 0;
        };
        self.held.extend(&piece[..end]);
        let first = answer_lines(&mut self.stage, self.lines, self.held.line(), 0, out, 0);
        let last = answer_lines(&mut self.stage, first.lines, piece, end, out, first.at);
        self.lines = last.lines;
        self.held.clear();
        if self.lines < LINE_LIMIT {
            self.held.extend(&piece[last.next..]);
        }
        last.at
    }

    // Is the last line answered? Further lines are not read.
    fn is_full(&self) -> bool
        ensures { result ≡ all_answered (log_of self.now).lines }
    {
        LINE_LIMIT <= self.lines
    }

    /// Is what is still to be written settled, whatever follows?
    pub fn is_decided(&self) -> bool
        ensures { result ≡ decided (log_of self.now) }
    {
        is_decided(&self.stage, self.lines, self.held.len())
    }

    // The refusal of a last line that is held without its byte 10.
    fn put_cut(&self, out: &mut [u8]) -> usize
        requires { answer_bytes ≤ length out.old }
        ensures { Wrote out.old 0 (cut_text (log_of self.now).lines (length (log_of self.now).held)) result out.new × (result ≤ answer_bytes) }
    {
        if self.held.is_empty() || self.is_full() {
            return 0;
        }
        put_answer(out, 0, self.lines + 1, Err(Refusal::NotAForm))
    }

    /// What is still to be written where the log ends, into `out`, of 4096 bytes or more. Returns how many bytes it has.
    pub fn finish(&self, out: &mut [u8]) -> usize
        requires { 4096 ≤ length out.old }
        ensures { Finished (log_of self.now) result out.old out.new }
    {
        match &self.stage {
            Stage::Fresh => put_answer(out, 0, 1, Err(Refusal::NotAForm)),
            Stage::Ring(run) => {
                let at = self.put_cut(out);
                put_ring_end(out, at, &run.ring, run.moves)
            }
            Stage::Tree(tree) => {
                let at = self.put_cut(out);
                put_tree_end(out, at, tree)
            }
            Stage::Table(run) => {
                let at = self.put_cut(out);
                put_table_end(out, at, &run.table, &run.moves)
            }
            Stage::Over => 0,
        }
    }
}
