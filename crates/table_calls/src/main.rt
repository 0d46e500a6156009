// A table by calls, each update with a limit of its own: two updates with 999,999 sends each. One more of the first is accepted and the next is 9, beside
// the second that still sends; a fresh start of the first sends again. Each line is the number of an answer, 0 where the request is accepted, or 1
// where the table is sound and 0 where it is not.
#![tactic(auto)]

use refusal::SEND_LIMIT;
use ring::Ring;
use std::io;
use std::io::Write;
use table::Table;
use tell::{tell, tell_number};

// Kept: these are the calls that C makes, whose interface needs the numbers of kinds.
const SEND: u8 = 1;

const TAKE: u8 = 2;

fn tell_sound<W: Write>(out: &mut W, table: &Table) -> io::Result<()> {
    tell_number(out, u64::from(table.is_sound()))
}

// The ring with that many sends of node 0, all of them in transit to node 1.
fn with_sends(mut ring: Ring, sends: u32) -> Ring {
    ring.sent[0] = sends;
    ring.pending[1] = sends;
    ring
}

// 1 for another number of nodes, 13 for an update above 7 or not started, and 13 before 1.
fn tell_unknown<W: Write>(out: &mut W, table: &Table) -> io::Result<()> {
    let table = tell(out, table.start(2, 3, &[1, 1, 1]))?;
    let table = tell(out, table.start(8, 2, &[1, 1]))?;
    let table = tell(out, table.start(8, 3, &[1, 1, 1]))?;
    let table = tell(out, table.step(2, SEND, 0, 1))?;
    let table = tell(out, table.step(8, SEND, 0, 1))?;
    tell_sound(out, &table)
}

// The last send of update 0, and 9 for its next, to oneself too; beside it update 1 still sends, to its own limit. Takes still pass, of 1,000
// messages at once, and not of 1,001, and give no send back.
fn tell_limits<W: Write>(out: &mut W, table: &Table) -> io::Result<Table> {
    let table = tell(out, table.step(0, SEND, 0, 1))?;
    let table = tell(out, table.step(0, SEND, 0, 1))?;
    let table = tell(out, table.step(0, SEND, 0, 0))?;
    let table = tell(out, table.step(1, SEND, 0, 1))?;
    let table = tell(out, table.step(1, SEND, 0, 1))?;
    let table = tell(out, table.step(0, TAKE, 1, 1001))?;
    let table = tell(out, table.step(0, TAKE, 1, 1000))?;
    tell(out, table.step(0, SEND, 1, 0))
}

// A fresh start of update 0 sends again, and update 1 does not; a refused start gives nothing.
fn tell_fresh<W: Write>(out: &mut W, table: &Table) -> io::Result<()> {
    let table = tell(out, table.start(0, 3, &[1, 1, 1]))?;
    let table = tell(out, table.step(0, SEND, 0, 1))?;
    let table = tell(out, table.start(0, 2, &[1, 1]))?;
    let table = tell(out, table.step(0, SEND, 0, 1))?;
    let table = tell(out, table.step(1, SEND, 0, 1))?;
    tell_sound(out, &table)
}

// One update one send above its limit: 3, before 13 and 1.
fn tell_unsound<W: Write>(out: &mut W, table: &Table) -> io::Result<()> {
    tell_sound(out, table)?;
    let table = tell(out, table.step(0, TAKE, 1, 1))?;
    let table = tell(out, table.start(8, 3, &[1, 1, 1]))?;
    tell_sound(out, &table)
}

fn tell_all<W: Write>(out: &mut W) -> io::Result<()> {
    let started = tell(out, Table::empty().start(0, 2, &[1, 1]))?;
    let first = tell(out, started.start(1, 2, &[1, 1]))?;
    tell_unknown(out, &first)?;
    let mut busy = first;
    busy.rings[0] = with_sends(first.rings[0], SEND_LIMIT - 1);
    busy.rings[1] = with_sends(first.rings[1], SEND_LIMIT - 1);
    tell_sound(out, &busy)?;
    let spent = tell_limits(out, &busy)?;
    tell_fresh(out, &spent)?;
    busy.rings[1] = with_sends(first.rings[1], SEND_LIMIT + 1);
    tell_unsound(out, &busy)?;
    // nothing is asked of a place that is not started
    let mut other = first;
    other.rings[7] = with_sends(first.rings[7], 4_000_000_000);
    tell_sound(out, &other)
}

fn main(rt: HostRuntime) -> io::Result<()> {
    tell_all(&mut io::writer(&rt))
}
