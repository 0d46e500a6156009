// Writing all bytes, and what is written where that fails.
ghost use Rattle.std.specs.Prelude.{◌≤◌, length, take, IfOk, OnOk, OnErr};
ghost use Rattle.std.specs.Io.KnownBytes.{Appends, Keeps};
ghost use Rattle.watch.specs.Turn.{Begun, Unwritten};

use std::io;
use std::io::{ErrorKind, Write};

// One write: how many bytes it took; none where a signal has interrupted it.
fn put_some<W: Write>(writer: &mut W, bytes: &[u8]) -> io::Result<usize>
    ensures bound { IfOk result (λ n. n ≤ length bytes.now) }
    ensures ok { IfOk result (λ n. Appends (W.contents writer.old) (W.contents writer.new) (take n bytes.now)) }
    ensures err { OnErr result (Keeps (W.contents writer.old) (W.contents writer.new)) }
{
    match writer.write(bytes) {
        Ok(0) => Err(io::Error::from(ErrorKind::WriteZero)),
        Err(error) if error.kind() == ErrorKind::Interrupted => Ok(0),
        written => written,
    }
}

/// Writes all bytes, as `write_all` does. Where a write fails, a beginning of them stands there, and nothing else.
#[tactic(auto, using(crate::proofs::Known::more_written, crate::proofs::Known::cut_short, crate::proofs::Known::nothing_more, crate::proofs::Known::write_more))]
pub fn put_all<W: Write>(writer: &mut W, bytes: &[u8]) -> io::Result<()>
    ensures ok { OnOk result (Appends (W.contents writer.old) (W.contents writer.new) bytes.now) }
    ensures err { OnErr result (Begun (W.contents writer.old) (W.contents writer.new) bytes.now) }
    ensures why { OnErr result (Unwritten (W.contents writer.old) (W.contents writer.new) bytes.now) }
{
    let mut at = 0;
    for _ in 0..u64::MAX {
        if bytes.len() <= at {
            return Ok(());
        }
        at += put_some(writer, &bytes[at..])?;
    }
    Err(io::Error::from(ErrorKind::TimedOut))
}
