// A panel by calls: a panel of three nodes is updated, and a restore of the firmware is still on its way to node 2 when the packing asks: 8. It is taken
// later, and where the announce test holds the marks are unequal: 15. A new run puts node 2 right, and the panel is closed as new. Each line is the
// number of an answer, 0 where the request is accepted; of the lines that begin with r the record after its answer, 0 empty, 1 old and 2 new, and of
// those that begin with m the marks of nodes 0, 1 and 2, each after its answer, 1 for new firmware plus 2 for a new map.
#![tactic(auto)]

use panel::Panel;
use refusal::Refusal;
use std::io;
use std::io::Write;
use tell::{tell, tell_number};

// Kept: these are the calls that C makes, whose interface needs the numbers of kinds and job words; one of them names no job, 0.
const SEND: u8 = 1;

const TAKE: u8 = 2;

const IDLE: u8 = 3;

const PROBE: u8 = 4;

const PASS: u8 = 5;

const CLOSE: u8 = 6;

const FIRMWARE_NEW: usize = 1;

const MAP_NEW: usize = 2;

const FIRMWARE_OLD: usize = 3;

// A number that was asked for, after the number of its answer.
fn tell_read<W: Write>(out: &mut W, number: Result<u64, Refusal>) -> io::Result<()> {
    match number {
        Ok(number) => write!(out, " 0 {number}"),
        Err(refusal) => write!(out, " {refusal} 0"),
    }
}

// The record, and the marks of each node.
fn tell_panel<W: Write>(out: &mut W, panel: Panel) -> io::Result<()> {
    write!(out, "r")?;
    tell_read(out, panel.record_word())?;
    write!(out, "\nm")?;
    for node in 0..3 {
        tell_read(out, panel.marks(node))?;
    }
    writeln!(out, "")
}

// Two messages from node 0 to this node.
fn two_sent<W: Write>(out: &mut W, panel: Panel, node: usize) -> io::Result<Panel> {
    let once = tell(out, panel.step(SEND, 0, node))?;
    tell(out, once.step(SEND, 0, node))
}

// The node takes them: firmware new, and map new.
fn updated<W: Write>(out: &mut W, panel: Panel, node: usize) -> io::Result<Panel> {
    let once = tell(out, panel.step(TAKE, node, FIRMWARE_NEW))?;
    tell(out, once.step(TAKE, node, MAP_NEW))
}

// The token goes round.
fn round<W: Write>(out: &mut W, panel: Panel) -> io::Result<Panel> {
    let probed = tell(out, panel.step(PROBE, 0, 0))?;
    let passed = tell(out, probed.step(PASS, 2, 0))?;
    tell(out, passed.step(PASS, 1, 0))
}

fn close<W: Write>(out: &mut W, panel: Panel) -> io::Result<Panel> {
    tell(out, panel.step(CLOSE, 0, 0))
}

fn idle<W: Write>(out: &mut W, panel: Panel, node: usize) -> io::Result<Panel> {
    tell(out, panel.step(IDLE, node, 0))
}

// Every node is updated; one message more is sent to node 2, and all become passive.
fn busy<W: Write>(out: &mut W, panel: Panel) -> io::Result<Panel> {
    let mut panel = panel;
    for node in 0..3 {
        panel = two_sent(out, panel, node)?;
    }
    for node in 0..3 {
        panel = updated(out, panel, node)?;
    }
    let idled = idle(out, panel, 1)?;
    let restored = tell(out, idled.step(SEND, 0, 2))?;
    let last = idle(out, restored, 0)?;
    idle(out, last, 2)
}

// The packing asks while that message is on its way; it is a restore of the firmware.
fn asked_too_early<W: Write>(out: &mut W, panel: Panel) -> io::Result<Panel> {
    let rounded = round(out, panel)?;
    let asked = close(out, rounded)?;
    let unnamed = tell(out, asked.step(TAKE, 2, 0))?;
    let restored = tell(out, unnamed.step(TAKE, 2, FIRMWARE_OLD))?;
    let asked = close(out, restored)?;
    idle(out, asked, 2)
}

// Two rounds, and the marks are unequal: nothing is closed, and no token move is accepted.
fn unequal<W: Write>(out: &mut W, panel: Panel) -> io::Result<Panel> {
    let first = round(out, panel)?;
    let first = close(out, first)?;
    let second = round(out, first)?;
    let second = close(out, second)?;
    tell_panel(out, second)?;
    let probed = tell(out, second.step(PROBE, 0, 0))?;
    tell(out, probed.step(PASS, 0, 0))
}

// A new run, first with another number of nodes: firmware new for node 2, two rounds, and the close.
fn put_right<W: Write>(out: &mut W, panel: Panel) -> io::Result<Panel> {
    let other = tell(out, panel.start(2, &[1, 0]))?;
    let started = tell(out, other.start(3, &[1, 0, 0]))?;
    tell_panel(out, started)?;
    let sent = tell(out, started.step(SEND, 0, 2))?;
    let taken = tell(out, sent.step(TAKE, 2, FIRMWARE_NEW))?;
    let idled = idle(out, taken, 2)?;
    let idled = idle(out, idled, 0)?;
    let first = round(out, idled)?;
    let second = round(out, first)?;
    close(out, second)
}

fn main(rt: HostRuntime) -> io::Result<()> {
    let mut out = io::writer(&rt);
    let first = match Panel::enter(3, &[1, 0, 0]) {
        Ok(panel) => panel,
        Err(refusal) => return writeln!(out, "{refusal}"),
    };
    tell_number(&mut out, 0)?;
    tell_panel(&mut out, first)?;
    let busy = busy(&mut out, first)?;
    let asked = asked_too_early(&mut out, busy)?;
    let unequal = unequal(&mut out, asked)?;
    let closed = put_right(&mut out, unequal)?;
    tell_panel(&mut out, closed)?;
    tell(&mut out, closed.step(SEND, 0, 1))?;
    // a mark that is changed by hand: not sound, and every request is 3
    let mut broken = closed;
    broken.firmware[1] = false;
    tell_panel(&mut out, broken)?;
    tell(&mut out, broken.step(SEND, 0, 1))?;
    tell(&mut out, broken.start(3, &[1, 0, 0]))?;
    Ok(())
}
