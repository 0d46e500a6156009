// A run by calls: a sound state with 999,999 accepted sends. One more is accepted, the next is 9, and takes
// still pass. Each line is the number of an answer, 0 where the step is accepted; then the acknowledgements in
// transit before and after one is acknowledged, each with the number of its answer before it, 3 of an unsound tree.
#![tactic(auto)]

use refusal::{SEND_LIMIT, TREE_NODES, TREE_PAIRS};
use std::io;
use tell::{tell, tell_count};
use tree::Tree;
use tree_rules::NO_ENGAGER;

// Two nodes: node 0, the root, is active and sent 999,999 messages, all of them in transit to node 1.
fn busy() -> Tree {
    let mut active = [false; TREE_NODES];
    active[0] = true;
    let mut engager = [NO_ENGAGER; TREE_NODES];
    engager[0] = 0;
    let mut unacked = [0u32; TREE_NODES];
    unacked[0] = SEND_LIMIT - 1;
    let mut transit = [0u32; TREE_PAIRS];
    transit[1] = SEND_LIMIT - 1;
    Tree {
        n: 2,
        root: 0,
        active,
        engager,
        unacked,
        transit,
        acks: [0; TREE_NODES],
        sends: SEND_LIMIT - 1,
        closed: false,
    }
}

// The tree with one acknowledgement more than is owed: it is not sound.
fn spoiled(mut tree: Tree) -> Tree {
    tree.acks[0] = 1;
    tree
}

fn main(rt: HostRuntime) -> io::Result<()> {
    let mut out = io::writer(&rt);
    let first = tell(&mut out, busy().send(0, 1))?;
    let second = tell(&mut out, first.send(0, 1))?;
    let third = tell(&mut out, second.take(1, 0))?;
    let fourth = tell(&mut out, third.send(1, 0))?;
    let fifth = tell(&mut out, fourth.take(1, 0))?;
    let last = tell(&mut out, fifth.ack(0))?;
    tell_count(&mut out, fifth.acks_in_transit())?;
    tell_count(&mut out, last.acks_in_transit())?;
    tell_count(&mut out, spoiled(last).acks_in_transit())
}
