// The fields of a table as other languages lend them, a column of eight places each: the table that lies in them, and its requests in place.
#![tactic(auto)]

ghost use Rattle.std.specs.Prelude.{◌≡◌, ◌&&◌, ◌<◌};
ghost use Rattle.lent.specs.Ring.{state_of};
ghost use Rattle.lent.specs.Table.{AnsweredTo, fields_at, put_fields, table_in, table_truths};
ghost use Rattle.refusal.specs.Answers.{verdict_from};
ghost use Rattle.refusal.specs.Table.{code_of};
ghost use Rattle.table.specs.View.{table};
ghost use Rattle.table_fields.specs.View.{LiesIn, Puts};
ghost use Rattle.table_rules.specs.Answers.{Start, step_ask};
ghost use Rattle.table_rules.specs.Soundness.{sound_table_test};

use refusal::{COLOR_BYTES, RING_NODES, Refusal, UPDATES};
use ring::Ring;
use ring_fields::LentRing;
use std::marker::Model;
use table::Table;

/// A table as other languages lend it, truths as bytes: 1 is true, 0 is false. A place of no nodes is not started, and nothing else of it is read.
#[derive(Clone, Copy, Debug, PartialEq, Eq)]
pub struct LentTable {
    pub n: [usize; UPDATES],
    pub pos: [usize; UPDATES],
    pub q: [i64; UPDATES],
    pub black: [u8; UPDATES],
    pub closed: [u8; UPDATES],
    pub active: [[u8; RING_NODES]; UPDATES],
    pub color: [[u8; COLOR_BYTES]; UPDATES],
    pub sent: [[u32; RING_NODES]; UPDATES],
    pub received: [[u32; RING_NODES]; UPDATES],
    pub pending: [[u32; RING_NODES]; UPDATES],
}

impl Model for LentTable {
    ghost use Rattle.lent.specs.Table.{LentTable};

    ghost Value = { LentTable };

    ghost view = { λ a. record { n = a.n; pos = a.pos; q = a.q; black = a.black; closed = a.closed; active = a.active; color = a.color; sent = a.sent; received = a.received; pending = a.pending } };

    ghost inverse = { λ d. record { n = d.n; pos = d.pos; q = d.q; black = d.black; closed = d.closed; active = d.active; color = d.color; sent = d.sent; received = d.received; pending = d.pending } };
}

impl LentTable {
    // The fields of update u.
    fn place(&self, u: usize) -> LentRing
        requires { u < 8 }
        ensures { result ≡ fields_at self.now u }
    {
        LentRing {
            n: self.n[u],
            active: self.active[u],
            color: self.color[u],
            sent: self.sent[u],
            received: self.received[u],
            pending: self.pending[u],
            pos: self.pos[u],
            q: self.q[u],
            black: self.black[u],
            closed: self.closed[u],
        }
    }

    /// The ring that the fields of update u say, 0 to 7, whatever their bytes: 1 alone is true.
    pub fn ring_at(&self, u: usize) -> Ring
        requires { u < 8 }
        ensures { result ≡ state_of (fields_at self.now u) }
    {
        self.place(u).gathered()
    }

    /// The table that the fields say, whatever their bytes.
    #[tactic(auto, unfolding(lent::specs::Table::table_in))]
    pub fn gathered(&self) -> Table
        ensures { table result ≡ table_in self.now }
    {
        Table {
            rings: [
                self.ring_at(0),
                self.ring_at(1),
                self.ring_at(2),
                self.ring_at(3),
                self.ring_at(4),
                self.ring_at(5),
                self.ring_at(6),
                self.ring_at(7),
            ],
        }
    }

    /// The table that lies there; refused as not sound where a byte that stands for a truth of a started update is neither 0 nor 1.
    pub fn table(&self) -> Result<Table, Refusal>
        ensures { LiesIn self.now result }
    {
        let mut table = Table::empty();
        for u in 0..UPDATES {
            if self.n[u] != 0 {
                table.rings[u] = self.place(u).ring()?;
            }
        }
        Ok(table)
    }

    // Other fields put at update u.
    fn put(&mut self, u: usize, ring: &LentRing)
        requires { u < 8 }
        ensures { self.new ≡ put_fields self.old u ring.now }
    {
        self.n[u] = ring.n;
        self.pos[u] = ring.pos;
        self.q[u] = ring.q;
        self.black[u] = ring.black;
        self.closed[u] = ring.closed;
        self.active[u] = ring.active;
        self.color[u] = ring.color;
        self.sent[u] = ring.sent;
        self.received[u] = ring.received;
        self.pending[u] = ring.pending;
    }

    /// What a start of update u puts into the fields of that update, where it is accepted.
    pub fn started(&self, u: usize, nodes: usize, flags: &[u8]) -> Result<LentRing, Refusal>
        ensures { Puts self.now (Start u nodes flags.now) result }
    {
        let mut table = self.table()?;
        table.start_checked(u, nodes, flags)?;
        Ok(LentRing::from(table.rings[u]))
    }

    /// A start of update u in place; a refusal changes nothing.
    pub fn start(&mut self, u: usize, nodes: usize, flags: &[u8]) -> Result<(), Refusal>
        ensures { AnsweredTo self.old (Start u nodes flags.now) (code_of (verdict_from result)) self.new }
    {
        let ring = self.started(u, nodes, flags)?;
        self.put(u, &ring);
        Ok(())
    }

    /// What a step of update u by its kind number puts into the fields of that update, where it is accepted.
    pub fn stepped(&self, u: usize, kind: usize, i: usize, j: usize) -> Result<LentRing, Refusal>
        ensures { Puts self.now (step_ask u kind i j) result }
    {
        let mut table = self.table()?;
        table.step_checked(u, flag_bytes::kind_byte(kind), i, j)?;
        Ok(LentRing::from(table.rings[u]))
    }

    /// A step of update u in place, by its kind number; a refusal changes nothing.
    pub fn step(&mut self, u: usize, kind: usize, i: usize, j: usize) -> Result<(), Refusal>
        ensures { AnsweredTo self.old (step_ask u kind i j) (code_of (verdict_from result)) self.new }
    {
        let ring = self.stepped(u, kind, i, j)?;
        self.put(u, &ring);
        Ok(())
    }

    /// Is the table sound?
    pub fn is_sound(&self) -> bool
        ensures { result ≡ (table_truths self.now && sound_table_test (table_in self.now)) }
    {
        match self.table() {
            Ok(table) => table.is_sound(),
            Err(_) => false,
        }
    }
}
