// What the test programs of calls write of an answer.
#![tactic(auto)]

ghost use Rattle.std.specs.Prelude.{◌≡◌, ◌++◌, ◌∷◌, [], IfOk, OnOk, decimal};
ghost use Rattle.std.specs.Io.KnownBytes.{Appends};
ghost use Rattle.refusal.specs.Answers.{answer as by_value, counted};
ghost use Rattle.refusal.specs.Table.{code_of};

use refusal::{Refusal, Refused};
use std::io;
use std::io::Write;

/// Writes a number on a line.
pub fn tell_number<W: Write>(out: &mut W, number: u64) -> io::Result<()>
    ensures { OnOk result (Appends (W.contents out.old) (W.contents out.new) (decimal number ++ (10 ∷ []))) }
{
    writeln!(out, "{number}")
}

/// Writes the number of an answer on a line, 0 where it is accepted; gives the next state, or the very one handed in.
pub fn tell<S: Drop, W: Write>(out: &mut W, answer: Result<S, Refused<S>>) -> io::Result<S>
    ensures written { OnOk result (Appends (W.contents out.old) (W.contents out.new) (decimal (code_of (by_value answer).verdict) ++ (10 ∷ []))) }
    ensures state { IfOk result (λ s. s ≡ (by_value answer).state) }
{
    match answer {
        Ok(state) => {
            tell_number(out, 0)?;
            Ok(state)
        }
        Err(refused) => {
            tell_number(out, u64::from(refused.refusal.number()))?;
            Ok(refused.state)
        }
    }
}

/// Writes the number of an answer on a line, 0 where it is accepted, and the number that was asked for on another, 0 where it is refused.
pub fn tell_count<W: Write>(out: &mut W, count: Result<u64, Refusal>) -> io::Result<()>
    ensures { OnOk result (Appends (W.contents out.old) (W.contents out.new)
        (decimal (code_of (counted count).verdict) ++ ((10 ∷ []) ++ (decimal (counted count).number ++ (10 ∷ []))))) }
{
    match count {
        Ok(number) => {
            tell_number(out, 0)?;
            tell_number(out, number)
        }
        Err(refusal) => {
            tell_number(out, u64::from(refusal.number()))?;
            tell_number(out, 0)
        }
    }
}
