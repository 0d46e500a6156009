// What other languages call of a table: its fields are lent one by one, a column of eight places each. Bytes and numbers alone cross.
#![tactic(auto)]

ghost use Rattle.std.specs.Prelude.{◌≡◌, ◌<◌};
ghost use Rattle.lent.specs.Table.{lent_table, put_fields, table_sound_number, AnsweredTo};
ghost use Rattle.table_rules.specs.Answers.{Start, step_ask};

use refusal::{COLOR_BYTES, RING_NODES, UPDATES};
use ring_fields::LentRing;
use table_fields::LentTable;

// The fields of a ring, put at update u: nothing is written to the places of another update.
// Kept: the C interface lends the ten columns one by one, here and below.
fn put(
    n: &mut [usize; UPDATES],
    pos: &mut [usize; UPDATES],
    q: &mut [i64; UPDATES],
    black: &mut [u8; UPDATES],
    closed: &mut [u8; UPDATES],
    active: &mut [[u8; RING_NODES]; UPDATES],
    color: &mut [[u8; COLOR_BYTES]; UPDATES],
    sent: &mut [[u32; RING_NODES]; UPDATES],
    received: &mut [[u32; RING_NODES]; UPDATES],
    pending: &mut [[u32; RING_NODES]; UPDATES],
    u: usize,
    ring: &LentRing,
)
    requires { u < 8 }
    ensures { lent_table n.new pos.new q.new black.new closed.new active.new color.new sent.new received.new pending.new
        ≡ put_fields (lent_table n.old pos.old q.old black.old closed.old active.old color.old sent.old received.old pending.old) u ring.now }
{
    n[u] = ring.n;
    pos[u] = ring.pos;
    q[u] = ring.q;
    black[u] = ring.black;
    closed[u] = ring.closed;
    active[u] = ring.active;
    color[u] = ring.color;
    sent[u] = ring.sent;
    received[u] = ring.received;
    pending[u] = ring.pending;
}

/// A start of update u with so many nodes, each active and black as its flag says: the number of the answer, 0 where it is accepted. A refusal
/// writes nothing, an accepted start to the places of update u alone.
#[unsafe(no_mangle)]
pub extern "C" fn muzserlik_table_start_fields(
    n: &mut [usize; UPDATES],
    pos: &mut [usize; UPDATES],
    q: &mut [i64; UPDATES],
    black: &mut [u8; UPDATES],
    closed: &mut [u8; UPDATES],
    active: &mut [[u8; RING_NODES]; UPDATES],
    color: &mut [[u8; COLOR_BYTES]; UPDATES],
    sent: &mut [[u32; RING_NODES]; UPDATES],
    received: &mut [[u32; RING_NODES]; UPDATES],
    pending: &mut [[u32; RING_NODES]; UPDATES],
    u: usize,
    nodes: usize,
    flags: &[u8],
) -> u8
    ensures { AnsweredTo (lent_table n.old pos.old q.old black.old closed.old active.old color.old sent.old received.old pending.old) (Start u nodes flags.now) result
        (lent_table n.new pos.new q.new black.new closed.new active.new color.new sent.new received.new pending.new) }
{
    let lent = LentTable {
        n: *n,
        pos: *pos,
        q: *q,
        black: *black,
        closed: *closed,
        active: *active,
        color: *color,
        sent: *sent,
        received: *received,
        pending: *pending,
    };
    match lent.started(u, nodes, flags) {
        Ok(ring) => {
            put(
                n, pos, q, black, closed, active, color, sent, received, pending, u, &ring,
            );
            0
        }
        Err(refusal) => refusal.number(),
    }
}

/// A step of update u by its kind number: the number of the answer, 0 where it is accepted. A refusal writes nothing, an accepted step to the
/// places of update u alone.
#[unsafe(no_mangle)]
pub extern "C" fn muzserlik_table_step_fields(
    n: &mut [usize; UPDATES],
    pos: &mut [usize; UPDATES],
    q: &mut [i64; UPDATES],
    black: &mut [u8; UPDATES],
    closed: &mut [u8; UPDATES],
    active: &mut [[u8; RING_NODES]; UPDATES],
    color: &mut [[u8; COLOR_BYTES]; UPDATES],
    sent: &mut [[u32; RING_NODES]; UPDATES],
    received: &mut [[u32; RING_NODES]; UPDATES],
    pending: &mut [[u32; RING_NODES]; UPDATES],
    u: usize,
    kind: usize,
    i: usize,
    j: usize,
) -> u8
    ensures { AnsweredTo (lent_table n.old pos.old q.old black.old closed.old active.old color.old sent.old received.old pending.old) (step_ask u kind i j) result
        (lent_table n.new pos.new q.new black.new closed.new active.new color.new sent.new received.new pending.new) }
{
    let lent = LentTable {
        n: *n,
        pos: *pos,
        q: *q,
        black: *black,
        closed: *closed,
        active: *active,
        color: *color,
        sent: *sent,
        received: *received,
        pending: *pending,
    };
    match lent.stepped(u, kind, i, j) {
        Ok(ring) => {
            put(
                n, pos, q, black, closed, active, color, sent, received, pending, u, &ring,
            );
            0
        }
        Err(refusal) => refusal.number(),
    }
}

/// Is the table sound? 1 where it is, else 0.
#[unsafe(no_mangle)]
pub extern "C" fn muzserlik_table_is_sound_fields(
    n: &[usize; UPDATES],
    pos: &[usize; UPDATES],
    q: &[i64; UPDATES],
    black: &[u8; UPDATES],
    closed: &[u8; UPDATES],
    active: &[[u8; RING_NODES]; UPDATES],
    color: &[[u8; COLOR_BYTES]; UPDATES],
    sent: &[[u32; RING_NODES]; UPDATES],
    received: &[[u32; RING_NODES]; UPDATES],
    pending: &[[u32; RING_NODES]; UPDATES],
) -> u8
    ensures { result ≡ table_sound_number (lent_table n.now pos.now q.now black.now closed.now active.now color.now sent.now received.now pending.now) }
{
    let lent = LentTable {
        n: *n,
        pos: *pos,
        q: *q,
        black: *black,
        closed: *closed,
        active: *active,
        color: *color,
        sent: *sent,
        received: *received,
        pending: *pending,
    };
    u8::from(lent.is_sound())
}
