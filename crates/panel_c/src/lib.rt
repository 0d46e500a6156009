// What other languages call of a panel: its fields are lent one by one, with a byte for each truth and for the record, and each answer is a number. Bytes and
// numbers alone cross.
#![tactic(auto)]

ghost use Rattle.std.specs.Prelude.{◌≡◌};
ghost use Rattle.lent_panel.specs.Panel.{AskedTo, EnteredTo, lent_panel, panel_sound_number};
ghost use Rattle.panel_rules.specs.Asks.{Start, step_ask};

use panel::Panel;
use panel_fields::LentPanel;
use refusal::{COLOR_BYTES, RING_NODES};
use ring_fields::LentRing;

/// A panel is first entered: the number of the answer, 0 where it is accepted, and then the first panel in the lent fields, which are not read.
// Kept: the C interface lends the fields one by one, here and below.
#[unsafe(no_mangle)]
pub extern "C" fn muzserlik_panel_enter_fields(
    nodes: usize,
    flags: &[u8],
    n: &mut usize,
    active: &mut [u8; RING_NODES],
    color: &mut [u8; COLOR_BYTES],
    sent: &mut [u32; RING_NODES],
    received: &mut [u32; RING_NODES],
    pending: &mut [u32; RING_NODES],
    pos: &mut usize,
    q: &mut i64,
    black: &mut u8,
    closed: &mut u8,
    firmware: &mut [u8; RING_NODES],
    map: &mut [u8; RING_NODES],
    recorded: &mut u8,
) -> u8
    ensures { EnteredTo nodes flags.now result
        (lent_panel n.old active.old color.old sent.old received.old pending.old pos.old q.old black.old closed.old firmware.old map.old recorded.old)
        (lent_panel n.new active.new color.new sent.new received.new pending.new pos.new q.new black.new closed.new firmware.new map.new recorded.new) }
{
    match Panel::enter(nodes, flags) {
        Ok(panel) => {
            let next = LentPanel::from(panel);
            // Kept: tried, and the proof of `*active = next.ring.active` did not close, straight from a call's result: the arrays are named first.
            let activity = next.ring.active;
            let colors = next.ring.color;
            let sends = next.ring.sent;
            let receipts = next.ring.received;
            let transit = next.ring.pending;
            let firmware_marks = next.firmware;
            let map_marks = next.map;
            *n = next.ring.n;
            *active = activity;
            *color = colors;
            *sent = sends;
            *received = receipts;
            *pending = transit;
            *pos = next.ring.pos;
            *q = next.ring.q;
            *black = next.ring.black;
            *closed = next.ring.closed;
            *firmware = firmware_marks;
            *map = map_marks;
            *recorded = next.recorded;
            0
        }
        Err(refusal) => refusal.number(),
    }
}

/// Is the panel sound? 1 where it is, else 0.
#[unsafe(no_mangle)]
pub extern "C" fn muzserlik_panel_is_sound_fields(
    n: usize,
    active: &[u8; RING_NODES],
    color: &[u8; COLOR_BYTES],
    sent: &[u32; RING_NODES],
    received: &[u32; RING_NODES],
    pending: &[u32; RING_NODES],
    pos: usize,
    q: i64,
    black: u8,
    closed: u8,
    firmware: &[u8; RING_NODES],
    map: &[u8; RING_NODES],
    recorded: u8,
) -> u8
    ensures { result ≡ panel_sound_number (lent_panel n active.now color.now sent.now received.now pending.now pos q black closed firmware.now map.now recorded) }
{
    let panel = LentPanel {
        ring: LentRing {
            n,
            active: *active,
            color: *color,
            sent: *sent,
            received: *received,
            pending: *pending,
            pos,
            q,
            black,
            closed,
        },
        firmware: *firmware,
        map: *map,
        recorded,
    };
    u8::from(panel.is_sound())
}

/// A start in place: the number of its answer, 0 where it is accepted. It writes neither the number of nodes nor a mark, and a refusal nothing.
#[unsafe(no_mangle)]
pub extern "C" fn muzserlik_panel_start_fields(
    n: usize,
    active: &mut [u8; RING_NODES],
    color: &mut [u8; COLOR_BYTES],
    sent: &mut [u32; RING_NODES],
    received: &mut [u32; RING_NODES],
    pending: &mut [u32; RING_NODES],
    pos: &mut usize,
    q: &mut i64,
    black: &mut u8,
    closed: &mut u8,
    firmware: &[u8; RING_NODES],
    map: &[u8; RING_NODES],
    recorded: &mut u8,
    nodes: usize,
    flags: &[u8],
) -> u8
    ensures { AskedTo (lent_panel n active.old color.old sent.old received.old pending.old pos.old q.old black.old closed.old firmware.now map.now recorded.old) (Start nodes flags.now) result
        (lent_panel n active.new color.new sent.new received.new pending.new pos.new q.new black.new closed.new firmware.now map.now recorded.new) }
{
    let mut panel = LentPanel {
        ring: LentRing {
            n,
            active: *active,
            color: *color,
            sent: *sent,
            received: *received,
            pending: *pending,
            pos: *pos,
            q: *q,
            black: *black,
            closed: *closed,
        },
        firmware: *firmware,
        map: *map,
        recorded: *recorded,
    };
    if let Err(refusal) = panel.start(nodes, flags) {
        return refusal.number();
    }
    *active = panel.ring.active;
    *color = panel.ring.color;
    *sent = panel.ring.sent;
    *received = panel.ring.received;
    *pending = panel.ring.pending;
    *pos = panel.ring.pos;
    *q = panel.ring.q;
    *black = panel.ring.black;
    *closed = panel.ring.closed;
    *recorded = panel.recorded;
    0
}

/// A step in place: the number of its answer, 0 where it is accepted. A refusal writes nothing.
#[unsafe(no_mangle)]
pub extern "C" fn muzserlik_panel_step_fields(
    n: usize,
    active: &mut [u8; RING_NODES],
    color: &mut [u8; COLOR_BYTES],
    sent: &mut [u32; RING_NODES],
    received: &mut [u32; RING_NODES],
    pending: &mut [u32; RING_NODES],
    pos: &mut usize,
    q: &mut i64,
    black: &mut u8,
    closed: &mut u8,
    firmware: &mut [u8; RING_NODES],
    map: &mut [u8; RING_NODES],
    recorded: &mut u8,
    kind: usize,
    i: usize,
    j: usize,
) -> u8
    ensures { AskedTo (lent_panel n active.old color.old sent.old received.old pending.old pos.old q.old black.old closed.old firmware.old map.old recorded.old) (step_ask kind i j) result
        (lent_panel n active.new color.new sent.new received.new pending.new pos.new q.new black.new closed.new firmware.new map.new recorded.new) }
{
    let mut panel = LentPanel {
        ring: LentRing {
            n,
            active: *active,
            color: *color,
            sent: *sent,
            received: *received,
            pending: *pending,
            pos: *pos,
            q: *q,
            black: *black,
            closed: *closed,
        },
        firmware: *firmware,
        map: *map,
        recorded: *recorded,
    };
    if let Err(refusal) = panel.step(kind, i, j) {
        return refusal.number();
    }
    *active = panel.ring.active;
    *color = panel.ring.color;
    *sent = panel.ring.sent;
    *received = panel.ring.received;
    *pending = panel.ring.pending;
    *pos = panel.ring.pos;
    *q = panel.ring.q;
    *black = panel.ring.black;
    *closed = panel.ring.closed;
    *firmware = panel.firmware;
    *map = panel.map;
    *recorded = panel.recorded;
    0
}
