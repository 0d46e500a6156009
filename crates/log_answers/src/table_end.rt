// The end lines of a table.
ghost use Rattle.std.specs.Prelude.{◌+◌, ◌≤◌, length};
ghost use Rattle.log_answers.specs.Slots.{SoundSlot};
ghost use Rattle.log_answers.specs.Wrote.{Wrote};
ghost use Rattle.log_rules.specs.Answers.{table_end, update_end};
ghost use Rattle.table.specs.View as view;
ghost use Rattle.table_rules.specs.Soundness.{SoundTable};
ghost use Rattle.table_rules.specs.Table.{slot_of};

use crate::ring_end::put_update_end;
use refusal::UPDATES;
use ring::Ring;
use table::Table;

// The end line of update u; nothing where it is not started.
fn put_slot(out: &mut [u8], at: usize, u: usize, ring: &Ring, moves: u64) -> usize
    requires { (at + 300 ≤ length out.old) × SoundSlot (slot_of ring.now) }
    ensures { Wrote out.old at (update_end u (slot_of ring.now) moves) result out.new
        × (length (update_end u (slot_of ring.now) moves) ≤ 300) }
{
    if ring.n == 0 {
        return at;
    }
    put_update_end(out, at, u as u64, ring, moves)
}

/// Puts the end lines of the started updates of a sound table, ascending, with the accepted token moves of each. Returns the index past them.
pub fn put_table_end(out: &mut [u8], at: usize, table: &Table, moves: &[u64; UPDATES]) -> usize
    requires { (at + 2400 ≤ length out.old) × SoundTable (view.table table.now) }
    ensures { Wrote out.old at (table_end (view.table table.now) moves.now) result out.new
        × (length (table_end (view.table table.now) moves.now) ≤ 2400) }
{
    let mut end = at;
    for (u, ring) in table.rings.iter().enumerate() {
        end = put_slot(out, end, u, ring, moves[u]);
    }
    end
}
