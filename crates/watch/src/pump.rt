// The program: bytes to bytes.
ghost use Rattle.std.specs.Prelude.{◌≡◌, ◌||◌, eqb, IfSome, MatchResult, OnOk};
ghost use Rattle.std.specs.Io.KnownBytes.{Appends};
ghost use Rattle.log_rules.specs.Output.{output_of};
ghost use Rattle.watch_log.specs.Feed.{decided, log_of};
ghost use Rattle.watch.specs.Run.{Pumped, PumpFailed, ProgramRan, ProgramFailed};
ghost use Rattle.watch.specs.Turn.{Stopped, Turned};

use crate::put::put_all;
use forms::LINE_BYTES;
use log_rules::ANSWER_BYTES;
use std::io;
use std::io::{ErrorKind, Read, Write};
use watch_log::Log;

// The bytes of a piece: those of one read.
const PIECE_BYTES: usize = 65536;

// The bytes of an answer for each byte of a piece and of the line that is held.
const ANSWERS_BYTES: usize = (PIECE_BYTES + LINE_BYTES) * ANSWER_BYTES;

// One turn: a read, its lines, and one write. Returns how many bytes were read, none where the reader has ended.
#[tactic(auto, using(crate::proofs::Turned::turned, crate::proofs::Turned::unread, crate::proofs::Turned::unwritten))]
fn turn<R: Read, W: Write>(
    reader: &mut R,
    writer: &mut W,
    log: &mut Log,
    piece: &mut [u8; PIECE_BYTES],
    answers: &mut [u8; ANSWERS_BYTES],
) -> io::Result<usize>
    ensures { MatchResult result
        (λ got. Turned (R.remaining reader.old) (R.remaining reader.new) (W.contents writer.old) (W.contents writer.new) (log_of log.old) (log_of log.new) got piece.new)
        (λ e. Stopped (R.remaining reader.old) (R.remaining reader.new) (W.contents writer.old) (W.contents writer.new) (log_of log.old) (log_of log.new)) }
{
    let got = reader.read(piece)?;
    let count = log.feed(&piece[..got], answers);
    put_all(writer, &answers[..count])?;
    Ok(got)
}

// Is nothing more to be read? `got` bytes were, in the last turn.
fn is_over(got: usize, log: &Log) -> bool
    ensures { result ≡ (eqb got 0 || decided (log_of log.now)) }
{
    got == 0 || log.is_decided()
}

// All turns. A proved loop has to end, and nothing says that the reader does: the turns are counted up to a number that no run comes to. That it
// came to it would be a failure: there would be more to read.
fn pump<R: Read, W: Write>(
    reader: &mut R,
    writer: &mut W,
    answers: &mut [u8; ANSWERS_BYTES],
) -> io::Result<Log>
    ensures { MatchResult result
        (λ log. Pumped (R.remaining reader.old) (R.remaining reader.new) (W.contents writer.old) (W.contents writer.new) (log_of log))
        (λ e. PumpFailed (R.remaining reader.old) (R.remaining reader.new) (W.contents writer.old) (W.contents writer.new)) }
{
    let mut log = Log::new();
    let mut piece = [0; PIECE_BYTES];
    for _ in 0..u64::MAX {
        let got = turn(reader, writer, &mut log, &mut piece, answers)?;
        if is_over(got, &log) {
            return Ok(log);
        }
    }
    Err(io::Error::from(ErrorKind::TimedOut))
}

/// Reads a log piece by piece and writes its answers, one write for each piece, and then its end lines. It stops reading once nothing that
/// follows can change what is written.
pub fn answer_all<R: Read, W: Write>(reader: &mut R, writer: &mut W) -> io::Result<()>
    ensures output { OnOk result (IfSome (R.remaining reader.old)
        (λ log. Appends (W.contents writer.old) (W.contents writer.new) (output_of log))) }
    ensures ran { MatchResult result
        (λ done. ProgramRan (R.remaining reader.old) (R.remaining reader.new) (W.contents writer.old) (W.contents writer.new))
        (λ e. ProgramFailed (R.remaining reader.old) (R.remaining reader.new) (W.contents writer.old) (W.contents writer.new)) }
{
    let mut answers = [0; ANSWERS_BYTES];
    let log = pump(reader, writer, &mut answers)?;
    let count = log.finish(&mut answers);
    put_all(writer, &answers[..count])
}
