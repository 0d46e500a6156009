// A panel as other languages lend it: its fields, with a byte for each truth and for the record.
#![tactic(auto)]

ghost use Rattle.std.specs.Prelude.{◌≡◌, OnErr};
ghost use Rattle.lent_panel.specs.Panel.{AskedTo, panel_in, panel_truths, record_of};
ghost use Rattle.panel_rules.specs.Asks.{Start, step_ask};
ghost use Rattle.refusal.specs.Answers.{verdict_from};
ghost use Rattle.refusal.specs.Table.{code_of};
ghost use Rattle.panel_fields.specs.Fields.{IsStarted, found_sound, panel_found};

use panel::Panel;
use panel_rules::Record;
use refusal::{RING_NODES, Refusal};
use ring_fields::LentRing;
use std::marker::Model;

/// The fields of a panel, as `Panel` has them: those of its ring, its marks with a byte for each, 1 new and 0 old, and the record, 0 empty, 1 old, 2 new. A
/// byte of a truth above 1, or a record above 2, makes a panel that is not sound.
#[derive(Clone, Copy, Debug, PartialEq, Eq)]
pub struct LentPanel {
    pub ring: LentRing,
    pub firmware: [u8; RING_NODES],
    pub map: [u8; RING_NODES],
    pub recorded: u8,
}

impl Model for LentPanel {
    ghost use Rattle.lent_panel.specs.Panel.{LentPanel};

    ghost Value = { LentPanel };

    ghost view = { λ a. record { ring = a.ring; firmware = a.firmware; map = a.map; recorded = a.recorded } };

    ghost inverse = { λ d. record { ring = d.ring; firmware = d.firmware; map = d.map; recorded = d.recorded } };
}

impl From<Panel> for LentPanel {
    ghost use Rattle.panel_fields.specs.Fields.{IsLentOf};

    ghost from_gives = { IsLentOf };

    fn from(panel: Panel) -> LentPanel {
        LentPanel {
            ring: LentRing::from(panel.ring),
            firmware: flag_bytes::bytes_of(&panel.firmware),
            map: flag_bytes::bytes_of(&panel.map),
            recorded: u8::from(panel.recorded),
        }
    }
}

/// The record that a byte says: 0 empty, 1 old, and any other new.
pub fn record_of(byte: u8) -> Record
    ensures { result ≡ record_of byte }
{
    match Record::try_from(byte) {
        Ok(record) => record,
        Err(_) => Record::New,
    }
}

impl LentPanel {
    /// Is each byte of a truth 0 or 1, and the record at most 2?
    #[tactic(auto, unfolding(lent_panel::specs::Panel::panel_truths))]
    pub fn has_truths(&self) -> bool
        ensures { result ≡ panel_truths self.now }
    {
        self.ring.has_truths()
            && flag_bytes::are_flags(&self.firmware)
            && flag_bytes::are_flags(&self.map)
            && self.recorded <= 2
    }

    /// The panel that the fields say, whatever their bytes: of a truth's byte 1 alone is true, and a record above 2 is new.
    #[inline(always)]
    pub fn gathered(&self) -> Panel
        ensures { result ≡ panel_in self.now }
    {
        Panel {
            ring: self.ring.gathered(),
            firmware: flag_bytes::truths(&self.firmware),
            map: flag_bytes::truths(&self.map),
            recorded: record_of(self.recorded),
        }
    }

    /// The panel that lies in the fields. A byte of a truth that is above 1, or a record above 2, is refused with 3.
    pub fn panel(&self) -> Result<Panel, Refusal>
        ensures { result ≡ panel_found self.now }
    {
        if !self.has_truths() {
            return Err(Refusal::Unsound);
        }
        Ok(self.gathered())
    }

    /// Is each byte of a truth 0 or 1, the record at most 2, and the panel sound?
    pub fn is_sound(&self) -> bool
        ensures { result ≡ found_sound self.now }
    {
        self.has_truths() && self.gathered().is_sound()
    }

    /// A start in place; whatever is refused leaves the fields as they were, and no start changes the number of nodes or a mark.
    pub fn start(&mut self, nodes: usize, flags: &[u8]) -> Result<(), Refusal>
        ensures told { AskedTo self.old (Start nodes flags.now) (code_of (verdict_from result)) self.new }
        ensures kept { IsStarted self.old self.new }
        ensures same { OnErr result (self.new ≡ self.old) }
    {
        if !self.has_truths() {
            return Err(Refusal::Unsound);
        }
        let mut panel = self.gathered();
        panel.start_checked(nodes, flags)?;
        *self = LentPanel::from(panel);
        Ok(())
    }

    /// A step by its kind number, 1 to 6, in place; whatever is refused leaves the fields as they were, and no step changes the number of nodes.
    pub fn step(&mut self, kind: usize, i: usize, j: usize) -> Result<(), Refusal>
        ensures told { AskedTo self.old (step_ask kind i j) (code_of (verdict_from result)) self.new }
        ensures nodes { self.new.ring.n ≡ self.old.ring.n }
        ensures same { OnErr result (self.new ≡ self.old) }
    {
        if !self.has_truths() {
            return Err(Refusal::Unsound);
        }
        let mut panel = self.gathered();
        panel.step_checked(flag_bytes::kind_byte(kind), i, j)?;
        *self = LentPanel::from(panel);
        Ok(())
    }
}
