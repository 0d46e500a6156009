// The state of a table.
ghost use Rattle.std.specs.Prelude.{◌≡◌};
ghost use Rattle.refusal.specs.Answers.{answer, handed};
ghost use Rattle.table_rules.specs.Table.{empty_table};
ghost use Rattle.table.specs.View.{table};

use refusal::{COLOR_BYTES, RING_NODES, Refusal, Refused, UPDATES};
use ring::Ring;

/// Updates 0 to 7, each a ring of its own; one of no nodes is not started.
// No `impl Model`: a refusal hands back the places that are not started too, of which the definitions' table says nothing.
#[derive(Clone, Copy, Debug, PartialEq, Eq)]
pub struct Table {
    pub rings: [Ring; UPDATES],
}

impl Table {
    /// Nothing is started.
    pub fn empty() -> Table
        ensures { table result ≡ empty_table }
    {
        let ring = Ring {
            n: 0,
            active: [false; RING_NODES],
            color: [0; COLOR_BYTES],
            sent: [0; RING_NODES],
            received: [0; RING_NODES],
            pending: [0; RING_NODES],
            pos: 0,
            q: 0,
            black: false,
            closed: false,
        };
        Table {
            rings: [ring; UPDATES],
        }
    }

    // An answer in place, by value: a refusal beside the very table.
    // Kept: `detector::returned` was tried in its place; at this type the checker makes no plan for its loans, so that the proof does not close.
    pub(crate) fn returned(self, told: Result<(), Refusal>) -> Result<Table, Refused<Table>>
        ensures { answer result ≡ handed told self }
    {
        match told {
            Ok(()) => Ok(self),
            Err(refusal) => Err(Refused {
                refusal,
                state: self,
            }),
        }
    }
}
