// What is read of a line that is not whole yet.
ghost use Rattle.std.specs.Prelude.{◌≡◌, [], eqb, length};
ghost use Rattle.watch_log.specs.Held.{held_line, keep, kept};

use forms::LINE_BYTES;
use std::marker::Model;

/// The bytes that are read of a line: of one with more than 700, the first 700 and the latest. It is as much too long, so it is answered alike.
#[derive(Clone, Copy, Debug)]
pub struct Held {
    bytes: [u8; LINE_BYTES + 1],
    len: usize,
}

impl Model for Held {
    ghost use Rattle.std.specs.Prelude.{◌≤◌};
    ghost use Rattle.log_rules.specs.Pieces.{long_bytes};
    ghost use Rattle.watch_log.specs.Held.{HeldBytes};

    ghost Value = { HeldBytes };

    ghost view = { λ h. record { bytes = h.bytes; len = h.len } };

    ghost invariant = { λ h. h.len ≤ long_bytes };

    ghost inverse = { λ d. record { bytes = d.bytes; len = d.len } };
}

impl Held {
    /// Nothing is read.
    pub fn new() -> Held
        ensures { held_line result ≡ [] }
    {
        Held {
            bytes: [0; LINE_BYTES + 1],
            len: 0,
        }
    }

    /// How many bytes it has, at most 701.
    pub fn len(&self) -> usize
        ensures { result ≡ length (held_line self.now) }
    {
        self.len
    }

    /// Is nothing read of it?
    pub fn is_empty(&self) -> bool
        ensures { result ≡ eqb (length (held_line self.now)) 0 }
    {
        self.len == 0
    }

    /// The line so far.
    pub fn line(&self) -> &[u8]
        ensures { result.now ≡ held_line self.now }
    {
        &self.bytes[..self.len]
    }

    /// One byte more.
    pub fn push(&mut self, byte: u8)
        ensures { held_line self.new ≡ keep (held_line self.old) byte }
    {
        let place = self.len.min(LINE_BYTES);
        self.bytes[place] = byte;
        self.len = place + 1;
    }

    /// More bytes, one after the other.
    pub fn extend(&mut self, bytes: &[u8])
        ensures { held_line self.new ≡ kept (held_line self.old) bytes.now }
    {
        for byte in bytes {
            self.push(*byte);
        }
    }

    /// Nothing is read of the next line.
    pub fn clear(&mut self)
        ensures { held_line self.new ≡ [] }
    {
        self.len = 0;
    }
}
