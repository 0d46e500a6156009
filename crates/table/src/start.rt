// A start of one update, in place and by value.
ghost use Rattle.std.specs.Prelude.{◌≡◌, ◌<◌};
ghost use Rattle.refusal.specs.Answers.{answer, handed};
ghost use Rattle.ring_rules.specs.Start.{start_of};
ghost use Rattle.table_rules.specs.Answers.{Start, other_nodes};
ghost use Rattle.table_rules.specs.Soundness.{SoundTable};
ghost use Rattle.table.specs.View.{settled_to, table, Answered};

use crate::state::Table;
use refusal::{Refusal, Refused, UPDATES};

impl Table {
    // Is n another number of nodes than the one that is fixed?
    fn is_other(&self, n: usize) -> bool
        ensures { result ≡ other_nodes (table self.now) n }
    {
        self.fixed_nodes().is_some_and(|fixed| n != fixed)
    }

    // A ring's own start, put at update u.
    fn put_start(&mut self, u: usize, n: usize, flags: &[u8]) -> Result<(), Refusal>
        requires { u < 8 }
        ensures { handed result self.new ≡ settled_to self.old u (start_of n flags.now) }
    {
        self.rings[u].start_in_place(n, flags)
    }

    /// A start of update u of a sound table with n nodes, each active and black as its flag says, in place. Nothing of the update is kept.
    pub fn start_in_place(&mut self, u: usize, n: usize, flags: &[u8]) -> Result<(), Refusal>
        requires { SoundTable (table self.old) }
        ensures { Answered self.old (Start u n flags.now) (handed result self.new) }
    {
        if UPDATES <= u {
            return Err(Refusal::UnknownUpdate);
        }
        if self.is_other(n) {
            return Err(Refusal::NodeCount);
        }
        self.put_start(u, n, flags)
    }

    /// A start of update u of any table with n nodes, in place: an unsound table is refused with 3 before all else.
    pub fn start_checked(&mut self, u: usize, n: usize, flags: &[u8]) -> Result<(), Refusal>
        ensures { Answered self.old (Start u n flags.now) (handed result self.new) }
    {
        if !self.is_sound() {
            return Err(Refusal::Unsound);
        }
        self.start_in_place(u, n, flags)
    }

    /// A start of update u with n nodes, each active and black as its flag says: the next table, or the refusal and the very table handed in.
    pub fn start(mut self, u: usize, n: usize, flags: &[u8]) -> Result<Table, Refused<Table>>
        ensures { Answered self (Start u n flags.now) (answer result) }
    {
        let told = self.start_checked(u, n, flags);
        self.returned(told)
    }
}
