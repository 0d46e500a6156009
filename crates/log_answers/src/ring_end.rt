// The end line of a ring.
ghost use Rattle.std.specs.Prelude.{◌≡◌, ◌+◌, ◌≤◌, length};
ghost use Rattle.log_answers.specs.Ends.{Short, end_of, ring_text};
ghost use Rattle.log_answers.specs.Wrote.{Wrote};
ghost use Rattle.log_rules.specs.Answers.{ring_end, ring_end_by, update_end};
ghost use Rattle.ring_rules.specs.Soundness.{Sound};
ghost use Rattle.table_rules.specs.Table.{Started};

use crate::answer::put_item;
use decimal::put_word;
use refusal::RING_NODES;
use ring::Ring;

/// What the end line of a ring tells: its nodes, where the token is, the accepted token moves, the messages in transit and the black nodes.
#[derive(Clone, Copy, Debug, PartialEq, Eq)]
pub struct RingEnd {
    pub nodes: u64,
    pub position: u64,
    pub moves: u64,
    pub in_transit: u64,
    pub black: u64,
}

impl RingEnd {
    // Of a sound ring, after so many accepted token moves.
    #[tactic(auto, unfolding(ring_rules::specs::State::in_transit, ring_rules::specs::State::black_nodes))]
    fn of(ring: &Ring, moves: u64) -> RingEnd
        ensures { result ≡ end_of ring.now moves }
    {
        RingEnd {
            nodes: ring.n as u64,
            position: ring.pos as u64,
            moves,
            in_transit: columns::sum_to(&ring.pending, RING_NODES),
            black: u64::from(color::count_black(&ring.color)),
        }
    }

    // `(end (boards 2) (holder 0) (moves 4) (flight 0) (black 0`, and the last bytes
    #[tactic(auto, using(crate::proofs::Items::decimal_short))]
    fn put(self, out: &mut [u8], at: usize, last: &[u8]) -> usize
        requires { (at + 256 ≤ length out.old) × (length last.now ≤ 8) }
        ensures { Short out.old at (ring_text last.now self) result out.new }
    {
        let end = put_item(out, at, b"(end (boards ", self.nodes);
        let end = put_item(out, end, b") (holder ", self.position);
        let end = put_item(out, end, b") (moves ", self.moves);
        let end = put_item(out, end, b") (flight ", self.in_transit);
        let end = put_item(out, end, b") (black ", self.black);
        put_word(out, end, last)
    }
}

// The end line of a sound ring, with its last bytes.
fn put_ring(out: &mut [u8], at: usize, ring: &Ring, moves: u64, last: &[u8]) -> usize
    requires { (at + 256 ≤ length out.old) × (length last.now ≤ 8) }
    ensures { Short out.old at (ring_end_by last.now ring.now moves) result out.new }
{
    RingEnd::of(ring, moves).put(out, at, last)
}

/// Puts the end line of a sound ring after so many accepted token moves. Returns the index past it.
pub fn put_ring_end(out: &mut [u8], at: usize, ring: &Ring, moves: u64) -> usize
    requires { (at + 256 ≤ length out.old) × Sound ring.now }
    ensures { Short out.old at (ring_end ring.now moves) result out.new }
{
    put_ring(out, at, ring, moves, b"))\n")
}

// `(update 2 (end (boards 4) ..))`
#[tactic(auto, using(crate::proofs::Items::decimal_short))]
pub fn put_update_end(out: &mut [u8], at: usize, update: u64, ring: &Ring, moves: u64) -> usize
    requires { (at + 300 ≤ length out.old) × Sound ring.now }
    ensures { Wrote out.old at (update_end update (Started ring.now) moves) result out.new
        × (length (update_end update (Started ring.now) moves) ≤ 300) }
{
    let end = put_item(out, at, b"(update ", update);
    let end = put_word(out, end, b" ");
    put_ring(out, end, ring, moves, b")))\n")
}
