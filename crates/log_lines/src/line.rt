// Where a line of a piece ends, and what is told of it.
ghost use Rattle.std.specs.Prelude.{◌≡◌, eqb};
ghost use Rattle.std.specs.List.{position};
ghost use Rattle.log_lines.specs.Lines.{end_at};
ghost use Rattle.log_lines.specs.Formless.{FormlessTold};

use refusal::Refusal;

/// The answer to a line, with the number of the line and the index past it.
#[derive(Clone, Copy, Debug, PartialEq, Eq)]
pub struct Line {
    pub number: u64,
    pub answer: Result<(), Refusal>,
    pub next: usize,
}

// The index of the first byte 10.
fn newline(bytes: &[u8]) -> Option<usize>
    ensures { result ≡ position (λ b. eqb b 10) bytes.now }
{
    bytes.iter().position(|byte| *byte == b'\n')
}

/// The index past the line that begins at `from`, where its byte 10 is in the piece.
pub fn line_end(piece: &[u8], from: usize) -> Option<usize>
    ensures { result ≡ end_at piece.now from }
{
    let rest = piece.get(from..)?;
    let length = newline(rest)?;
    Some(from + length + 1)
}

/// Line `number`, which begins at `from` and says no form: it is refused where it is whole.
pub(crate) fn formless(number: u64, piece: &[u8], from: usize) -> Option<Line>
    ensures { FormlessTold number piece.now from result }
{
    let next = line_end(piece, from)?;
    Some(Line {
        number,
        answer: Err(Refusal::NotAForm),
        next,
    })
}
