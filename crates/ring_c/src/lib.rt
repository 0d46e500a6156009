// What other languages call of a ring: its fields are lent one by one, with a byte for each truth, and each answer is a number. Bytes and numbers alone cross.
#![tactic(auto)]

ghost use Rattle.std.specs.Prelude.{◌≡◌};
ghost use Rattle.lent.specs.Ring.{lent, DrivenTo, StartedTo, SteppedTo, sound_number};

use refusal::{COLOR_BYTES, RING_NODES};
use ring::Ring;
use ring_fields::LentRing;

/// A start: the number of its answer, 0 where it is accepted, and then the first state in the lent fields, which are not read.
// Kept: the C interface lends the fields one by one, here and below.
#[unsafe(no_mangle)]
pub extern "C" fn muzserlik_ring_start_fields(
    nodes: usize,
    flags: &[u8],
    n: &mut usize,
    active: &mut [u8; RING_NODES],
    color: &mut [u8; COLOR_BYTES],
    sent: &mut [u32; RING_NODES],
    received: &mut [u32; RING_NODES],
    pending: &mut [u32; RING_NODES],
    pos: &mut usize,
    q: &mut i64,
    black: &mut u8,
    closed: &mut u8,
) -> u8
    ensures { StartedTo nodes flags.now result
        (lent n.old active.old color.old sent.old received.old pending.old pos.old q.old black.old closed.old)
        (lent n.new active.new color.new sent.new received.new pending.new pos.new q.new black.new closed.new) }
{
    match Ring::start(nodes, flags) {
        Ok(ring) => {
            let next = LentRing::from(ring);
            *n = next.n;
            // Kept: tried, and the proof of `*active = next.active` did not close, straight from a call's result: the arrays are named first.
            let (bytes, colors) = (next.active, next.color);
            let (sends, receipts, transit) = (next.sent, next.received, next.pending);
            *active = bytes;
            *color = colors;
            *sent = sends;
            *received = receipts;
            *pending = transit;
            *pos = next.pos;
            *q = next.q;
            *black = next.black;
            *closed = next.closed;
            0
        }
        Err(refusal) => refusal.number(),
    }
}

/// Is the ring sound? 1 where it is, else 0.
#[unsafe(no_mangle)]
pub extern "C" fn muzserlik_ring_is_sound_fields(
    n: usize,
    active: &[u8; RING_NODES],
    color: &[u8; COLOR_BYTES],
    sent: &[u32; RING_NODES],
    received: &[u32; RING_NODES],
    pending: &[u32; RING_NODES],
    pos: usize,
    q: i64,
    black: u8,
    closed: u8,
) -> u8
    ensures { result ≡ sound_number (lent n active.now color.now sent.now received.now pending.now pos q black closed) }
{
    let ring = LentRing {
        n,
        active: *active,
        color: *color,
        sent: *sent,
        received: *received,
        pending: *pending,
        pos,
        q,
        black,
        closed,
    };
    u8::from(ring.is_sound())
}

/// A step in place: the number of its answer, 0 where it is accepted. A refusal writes nothing.
#[unsafe(no_mangle)]
pub extern "C" fn muzserlik_ring_step_fields(
    n: usize,
    active: &mut [u8; RING_NODES],
    color: &mut [u8; COLOR_BYTES],
    sent: &mut [u32; RING_NODES],
    received: &mut [u32; RING_NODES],
    pending: &mut [u32; RING_NODES],
    pos: &mut usize,
    q: &mut i64,
    black: &mut u8,
    closed: &mut u8,
    kind: usize,
    i: usize,
    j: usize,
) -> u8
    ensures { SteppedTo (lent n active.old color.old sent.old received.old pending.old pos.old q.old black.old closed.old) kind i j result
        (lent n active.new color.new sent.new received.new pending.new pos.new q.new black.new closed.new) }
{
    let mut ring = LentRing {
        n,
        active: *active,
        color: *color,
        sent: *sent,
        received: *received,
        pending: *pending,
        pos: *pos,
        q: *q,
        black: *black,
        closed: *closed,
    };
    if let Err(refusal) = ring.step(kind, i, j) {
        return refusal.number();
    }
    *active = ring.active;
    *color = ring.color;
    *sent = ring.sent;
    *received = ring.received;
    *pending = ring.pending;
    *pos = ring.pos;
    *q = ring.q;
    *black = ring.black;
    *closed = ring.closed;
    0
}

/// The driver in place: the number of its reason or of its refusal; `moves` is how many it made. A refusal writes nothing.
#[unsafe(no_mangle)]
pub extern "C" fn muzserlik_ring_drive_fields(
    n: usize,
    active: &[u8; RING_NODES],
    color: &mut [u8; COLOR_BYTES],
    sent: &[u32; RING_NODES],
    received: &[u32; RING_NODES],
    pending: &[u32; RING_NODES],
    pos: &mut usize,
    q: &mut i64,
    black: &mut u8,
    closed: u8,
    limit: usize,
    moves: &mut u32,
) -> u8
    ensures { DrivenTo (lent n active.now color.old sent.now received.now pending.now pos.old q.old black.old closed) limit result moves.old moves.new
        (lent n active.now color.new sent.now received.now pending.now pos.new q.new black.new closed) }
{
    let mut ring = LentRing {
        n,
        active: *active,
        color: *color,
        sent: *sent,
        received: *received,
        pending: *pending,
        pos: *pos,
        q: *q,
        black: *black,
        closed,
    };
    match ring.drive(limit) {
        Ok((reason, made)) => {
            *color = ring.color;
            *pos = ring.pos;
            *q = ring.q;
            *black = ring.black;
            *moves = made;
            reason.number()
        }
        Err(refusal) => refusal.number(),
    }
}
