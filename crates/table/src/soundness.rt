// Is a table sound, however wild its numbers?
ghost use Rattle.std.specs.Prelude.{◌≡◌, nat_eq, not, map};
ghost use Rattle.std.specs.List.{find, list_all};
ghost use Rattle.table_rules.specs.Soundness.{slot_test, sound_table_test};
ghost use Rattle.table_rules.specs.Table.{fixed, slot_of};
ghost use Rattle.table.specs.View.{fixed_by, table};

use crate::state::Table;
use ring::Ring;

// Is an update not started, or sound with so many nodes?
fn is_slot_sound(ring: &Ring, nodes: usize) -> bool
    ensures { result ≡ slot_test nodes (slot_of ring.now) }
{
    ring.n == 0 || (ring.is_sound() && ring.n == nodes)
}

// The nodes of the first started update.
fn first_nodes(rings: &[Ring]) -> Option<usize>
    ensures { result ≡ find (λ n. not (nat_eq n 0)) (map (λ r. r.n) rings.now) }
{
    rings.iter().map(|ring| ring.n).find(|nodes| *nodes != 0)
}

// Is each update not started, or sound with so many nodes?
fn are_sound(rings: &[Ring], nodes: usize) -> bool
    ensures { result ≡ list_all (λ r. slot_test nodes (slot_of r)) rings.now }
{
    rings.iter().all(|ring| is_slot_sound(ring, nodes))
}

impl Table {
    /// The number of nodes that is fixed, that of the first started update, where one is started.
    #[tactic(auto, using(crate::proofs::Laws::fixed_found))]
    pub fn fixed_nodes(&self) -> Option<usize>
        ensures { result ≡ fixed_by (fixed (table self.now)) }
    {
        first_nodes(&self.rings)
    }

    /// Is the table sound: each started update sound, and all with one number of nodes?
    pub fn is_sound(&self) -> bool
        ensures { result ≡ sound_table_test (table self.now) }
    {
        are_sound(&self.rings, self.fixed_nodes().unwrap_or(0))
    }
}
