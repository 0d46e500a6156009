// A ring as other languages lend it: its fields, with a byte for each truth.
#![tactic(auto)]

ghost use Rattle.std.specs.Prelude.{◌≡◌, OnErr};
ghost use Rattle.lent.specs.Ring.{SteppedTo, state_of, truths_test};
ghost use Rattle.refusal.specs.Answers.{verdict_from};
ghost use Rattle.refusal.specs.Table.{code_of};
ghost use Rattle.ring_fields.specs.Fields.{found_sound, ring_in, DroveTo, IsTokenMoved};

use refusal::{COLOR_BYTES, RING_NODES, Refusal};
use ring::Ring;
use ring_rules::Reason;
use std::marker::Model;

/// The fields of a ring, as `Ring` has them, with a byte for each truth: 1 for true, 0 for false. A byte above 1 makes a ring that is not sound.
#[derive(Clone, Copy, Debug, PartialEq, Eq)]
pub struct LentRing {
    pub n: usize,
    pub active: [u8; RING_NODES],
    pub color: [u8; COLOR_BYTES],
    pub sent: [u32; RING_NODES],
    pub received: [u32; RING_NODES],
    pub pending: [u32; RING_NODES],
    pub pos: usize,
    pub q: i64,
    pub black: u8,
    pub closed: u8,
}

impl Model for LentRing {
    ghost use Rattle.lent.specs.Ring.{Lent};

    ghost Value = { Lent };

    ghost view = { λ a. record { n = a.n; active = a.active; color = a.color; sent = a.sent; received = a.received; pending = a.pending; pos = a.pos; q = a.q; black = a.black; closed = a.closed } };

    ghost inverse = { λ d. record { n = d.n; active = d.active; color = d.color; sent = d.sent; received = d.received; pending = d.pending; pos = d.pos; q = d.q; black = d.black; closed = d.closed } };
}

impl From<Ring> for LentRing {
    ghost use Rattle.ring_fields.specs.Fields.{IsLentOf};

    ghost from_gives = { IsLentOf };

    fn from(ring: Ring) -> LentRing {
        LentRing {
            n: ring.n,
            active: flag_bytes::bytes_of(&ring.active),
            color: ring.color,
            sent: ring.sent,
            received: ring.received,
            pending: ring.pending,
            pos: ring.pos,
            q: ring.q,
            black: u8::from(ring.black),
            closed: u8::from(ring.closed),
        }
    }
}

impl LentRing {
    /// Is each byte of a truth 0 or 1?
    #[tactic(auto, unfolding(lent::specs::Ring::truths_test))]
    pub fn has_truths(&self) -> bool
        ensures { result ≡ truths_test self.now }
    {
        flag_bytes::are_flags(&self.active) && self.black <= 1 && self.closed <= 1
    }

    /// The ring that the fields say, whatever their bytes: 1 alone is true.
    #[inline(always)]
    pub fn gathered(&self) -> Ring
        ensures { result ≡ state_of self.now }
    {
        Ring {
            n: self.n,
            active: flag_bytes::truths(&self.active),
            color: self.color,
            sent: self.sent,
            received: self.received,
            pending: self.pending,
            pos: self.pos,
            q: self.q,
            black: self.black == 1,
            closed: self.closed == 1,
        }
    }

    /// The ring that lies in the fields. A byte of a truth that is above 1 is refused with 3.
    pub fn ring(&self) -> Result<Ring, Refusal>
        ensures { result ≡ ring_in self.now }
    {
        if !self.has_truths() {
            return Err(Refusal::Unsound);
        }
        Ok(self.gathered())
    }

    /// Is each byte of a truth 0 or 1, and the ring sound?
    pub fn is_sound(&self) -> bool
        ensures { result ≡ found_sound self.now }
    {
        self.has_truths() && self.gathered().is_sound()
    }

    /// A step by its kind number, 1 to 6, in place; whatever is refused leaves the fields as they were.
    pub fn step(&mut self, kind: usize, i: usize, j: usize) -> Result<(), Refusal>
        ensures told { SteppedTo self.old kind i j (code_of (verdict_from result)) self.new }
        ensures nodes { self.new.n ≡ self.old.n }
        ensures same { OnErr result (self.new ≡ self.old) }
    {
        if !self.has_truths() {
            return Err(Refusal::Unsound);
        }
        let mut ring = self.gathered();
        ring.step_checked(flag_bytes::kind_byte(kind), i, j)?;
        *self = LentRing::from(ring);
        Ok(())
    }

    /// Token moves, at most `limit`, in place: why they end, and how many they are, 0 to 1,000; a refused driver leaves the fields as they were.
    pub fn drive(&mut self, limit: usize) -> Result<(Reason, u32), Refusal>
        ensures told { DroveTo self.old limit result self.new }
        ensures kept { IsTokenMoved self.old self.new }
        ensures same { OnErr result (self.new ≡ self.old) }
    {
        if !self.has_truths() {
            return Err(Refusal::Unsound);
        }
        let mut ring = self.gathered();
        let made = ring.drive_in_place(flag_bytes::limit_word(limit))?;
        *self = LentRing::from(ring);
        Ok(made)
    }
}
