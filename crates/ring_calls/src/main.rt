// A ring by calls: a sound state with 999,999 sends made. One more is accepted, the next is refused with 9, and messages are still taken.
// Each line is the number of an answer, 0 where the step is accepted; then the messages in transit and the black nodes, each after the
// number of its answer, which is 3 of an unsound ring; and last what a driver is told that is given one move too many.
#![tactic(auto)]

use refusal::{COLOR_BYTES, RING_NODES, Refused, SEND_LIMIT};
use ring::{Driven, Ring};
use ring_rules::MOVE_LIMIT;
use std::io;
use std::io::Write;
use tell::{tell, tell_count, tell_number};

// Two nodes: node 0 is active and sent 999,999 messages, all of them in transit to node 1; the token is black.
fn busy() -> Ring {
    let mut active = [false; RING_NODES];
    active[0] = true;
    let mut sent = [0; RING_NODES];
    sent[0] = SEND_LIMIT - 1;
    let mut pending = [0; RING_NODES];
    pending[1] = SEND_LIMIT - 1;
    Ring {
        n: 2,
        active,
        color: [0; COLOR_BYTES],
        sent,
        received: [0; RING_NODES],
        pending,
        pos: 0,
        q: 0,
        black: true,
        closed: false,
    }
}

// The ring with more messages received than were sent: it is not sound.
fn spoiled(mut ring: Ring) -> Ring {
    ring.received[0] = SEND_LIMIT + 1;
    ring
}

// The number of why a driver stopped, or of its refusal.
fn tell_driver<W: Write>(out: &mut W, answer: Result<Driven, Refused<Ring>>) -> io::Result<()> {
    let number = match answer {
        Ok(driven) => driven.reason.number(),
        Err(refused) => refused.refusal.number(),
    };
    tell_number(out, u64::from(number))
}

fn main(rt: HostRuntime) -> io::Result<()> {
    let mut out = io::writer(&rt);
    let ring = tell(&mut out, busy().send(0, 1))?;
    let ring = tell(&mut out, ring.send(0, 1))?;
    let ring = tell(&mut out, ring.take(1, 1))?;
    let ring = tell(&mut out, ring.send(1, 0))?;
    let ring = tell(&mut out, ring.take(1, 1))?;
    tell_count(&mut out, ring.in_transit())?;
    tell_count(&mut out, ring.black_nodes())?;
    tell_count(&mut out, spoiled(ring).in_transit())?;
    tell_count(&mut out, spoiled(ring).black_nodes())?;
    tell_driver(&mut out, ring.drive(MOVE_LIMIT + 1))
}
