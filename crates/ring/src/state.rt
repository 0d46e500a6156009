// The state of a ring.

use refusal::{COLOR_BYTES, RING_NODES};
use std::marker::Model;

/// A ring of 1 to 96 nodes with a place for each in every column, as Safra's detector has it (EWD998): the node at place i + 1 hands the token to that at i.
/// Every value of this type is answered, sound or not.
#[derive(Clone, Copy, Debug, PartialEq, Eq)]
pub struct Ring {
    /// The number of nodes.
    pub n: usize,
    /// Which nodes are active; the others are passive.
    pub active: [bool; RING_NODES],
    /// Which nodes are black, eight to a byte, the lowest bit first; the others are white.
    // Kept: colors as bits, the columns as arrays beside n: a rule of the project, fixed memory.
    pub color: [u8; COLOR_BYTES],
    /// How many messages each node sent.
    pub sent: [u32; RING_NODES],
    /// How many messages each node received.
    pub received: [u32; RING_NODES],
    /// How many messages are on their way to each node.
    pub pending: [u32; RING_NODES],
    /// The node that has the token.
    pub pos: usize,
    /// The token's sum of counters, sent less received, of the nodes that handed it on in this round.
    pub q: i64,
    /// Is the token black?
    pub black: bool,
    /// Has the end been announced? No step is taken afterwards.
    pub closed: bool,
}

impl Model for Ring {
    ghost use Rattle.ring_rules.specs.State.{State};

    ghost Value = { State };

    ghost view = { λ a. record { n = a.n; active = a.active; color = a.color; sent = a.sent; received = a.received; pending = a.pending; pos = a.pos; q = a.q; black = a.black; closed = a.closed } };

    ghost inverse = { λ d. record { n = d.n; active = d.active; color = d.color; sent = d.sent; received = d.received; pending = d.pending; pos = d.pos; q = d.q; black = d.black; closed = d.closed } };
}
