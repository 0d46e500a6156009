// The state of a panel.

use panel_rules::Record;
use refusal::RING_NODES;
use ring::Ring;
use std::marker::Model;

/// A panel: a ring, for each of its nodes a firmware mark and a map mark, true for new and false for old, and the record. Marks have a place for each
/// of 96 nodes, as the ring's columns have.
#[derive(Clone, Copy, Debug, PartialEq, Eq)]
pub struct Panel {
    pub ring: Ring,
    pub firmware: [bool; RING_NODES],
    pub map: [bool; RING_NODES],
    pub recorded: Record,
}

impl Model for Panel {
    ghost use Rattle.panel_rules.specs.State.{Panel};

    ghost Value = { Panel };

    ghost view = { λ a. record { ring = a.ring; firmware = a.firmware; map = a.map; recorded = a.recorded } };

    ghost inverse = { λ d. record { ring = d.ring; firmware = d.firmware; map = d.map; recorded = d.recorded } };
}
