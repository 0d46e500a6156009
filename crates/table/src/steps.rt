// A step of one update, in place and by value: the ring's own, on what stands there.
ghost use Rattle.std.specs.Prelude.{◌≡◌, ◌<◌, IsTrue};
ghost use Rattle.refusal.specs.Answers.{answer, handed};
ghost use Rattle.table_rules.specs.Answers.{step_ask};
ghost use Rattle.table_rules.specs.Soundness.{SoundTable};
ghost use Rattle.table_rules.specs.Table.{slot_at};
ghost use Rattle.table.specs.Request.{ask_of};
ghost use Rattle.table.specs.View.{is_started, table, Answered};

use crate::state::Table;
use refusal::{Refusal, Refused};
use ring_rules::Request;

impl Table {
    // Is u one of the eight, and started?
    fn is_started(&self, u: usize) -> bool
        ensures slot { result ≡ is_started (slot_at (table self.now) u) }
        ensures place { IsTrue result → u < 8 }
    {
        self.rings.get(u).is_some_and(|ring| ring.n != 0)
    }

    /// A request to update u of a sound table, in place.
    pub fn apply_sound(&mut self, u: usize, request: Request) -> Result<(), Refusal>
        requires { SoundTable (table self.old) }
        ensures { Answered self.old (ask_of u request) (handed result self.new) }
    {
        if !self.is_started(u) {
            return Err(Refusal::UnknownUpdate);
        }
        self.rings[u].apply_sound(request)
    }

    /// A step of update u of a sound table by its kind number, in place.
    pub fn step_in_place(&mut self, u: usize, kind: u8, i: usize, j: usize) -> Result<(), Refusal>
        requires { SoundTable (table self.old) }
        ensures { Answered self.old (step_ask u kind i j) (handed result self.new) }
    {
        if !self.is_started(u) {
            return Err(Refusal::UnknownUpdate);
        }
        self.rings[u].step_in_place(kind, i, j)
    }

    /// A step of update u of any table by its kind number, in place: an unsound table is refused with 3 before all else.
    pub fn step_checked(&mut self, u: usize, kind: u8, i: usize, j: usize) -> Result<(), Refusal>
        ensures { Answered self.old (step_ask u kind i j) (handed result self.new) }
    {
        if !self.is_sound() {
            return Err(Refusal::Unsound);
        }
        self.step_in_place(u, kind, i, j)
    }

    /// A step of update u by its kind number: the next table, or the refusal and the very table handed in.
    pub fn step(mut self, u: usize, kind: u8, i: usize, j: usize) -> Result<Table, Refused<Table>>
        ensures { Answered self (step_ask u kind i j) (answer result) }
    {
        let told = self.step_checked(u, kind, i, j);
        self.returned(told)
    }
}
