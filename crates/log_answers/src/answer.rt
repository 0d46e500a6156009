// The answer to a line.
ghost use Rattle.std.specs.Prelude.{◌+◌, ◌≤◌, length};
ghost use Rattle.log_answers.specs.Wrote.{Wrote, item};
ghost use Rattle.log_rules.specs.Answers.{answer_text};
ghost use Rattle.refusal.specs.Answers.{verdict_from};
ghost use Rattle.refusal.specs.Table.{Accepted, Refused};

use decimal::{put_decimal, put_word};
use refusal::Refusal;

/// Puts a word and a number. Returns the index past them.
pub fn put_item(out: &mut [u8], at: usize, word: &[u8], number: u64) -> usize
    requires { at + length (item word.now number) ≤ length out.old }
    ensures { Wrote out.old at (item word.now number) result out.new }
{
    let end = put_word(out, at, word);
    put_decimal(out, end, number)
}

// `(ok 7)`
fn put_ok(out: &mut [u8], at: usize, line: u64) -> usize
    requires { at + length (answer_text line Accepted) ≤ length out.old }
    ensures { Wrote out.old at (answer_text line Accepted) result out.new }
{
    let after_line = put_item(out, at, b"(ok ", line);
    put_word(out, after_line, b")\n")
}

// `(no 7 10)`
fn put_no(out: &mut [u8], at: usize, line: u64, refusal: Refusal) -> usize
    requires { at + length (answer_text line (Refused refusal)) ≤ length out.old }
    ensures { Wrote out.old at (answer_text line (Refused refusal)) result out.new }
{
    let after_line = put_item(out, at, b"(no ", line);
    let after_number = put_item(out, after_line, b" ", u64::from(refusal.number()));
    put_word(out, after_number, b")\n")
}

/// Puts the answer to a line: `(ok 7)` where it is accepted, `(no 7 10)` where it is refused with number 10. Returns the index past it.
pub fn put_answer(out: &mut [u8], at: usize, line: u64, answer: Result<(), Refusal>) -> usize
    requires { at + length (answer_text line (verdict_from answer)) ≤ length out.old }
    ensures { Wrote out.old at (answer_text line (verdict_from answer)) result out.new }
{
    match answer {
        Ok(()) => put_ok(out, at, line),
        Err(refusal) => put_no(out, at, line, refusal),
    }
}
