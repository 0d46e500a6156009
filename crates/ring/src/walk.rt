// The walk of the soundness check, down the ring from node n - 1 to node 0, as the token goes, and the tests of what it has seen.
ghost use Rattle.std.specs.Prelude.{◌≡◌, ◌≤◌, ◌<◌, ◌^◌};
ghost use Rattle.std.specs.Int.Signed.{mag};
ghost use Rattle.ring.specs.Walked.{Bounded, Walked};
ghost use Rattle.ring.specs.Seen.{flow_seen, safra_seen};

use crate::state::Ring;
use refusal::SEND_LIMIT;

/// The nodes above the token: how many messages they sent and received, and whether all of them are passive.
#[derive(Clone, Copy, Debug, PartialEq, Eq)]
pub struct Above {
    pub sent: u64,
    pub received: u64,
    pub passive: bool,
}

/// What the walk has seen: how many messages all nodes sent, received and have pending, the nodes above the token, and whether all others are white.
#[derive(Clone, Copy, Debug, PartialEq, Eq)]
pub struct Seen {
    pub sent: u64,
    pub received: u64,
    pub pending: u64,
    pub above: Above,
    pub white: bool,
}

impl Ring {
    /// The walk over all nodes, past the token.
    pub fn walk(&self) -> Seen
        requires nodes { self.now.n ≤ 96 }
        requires holder { self.now.pos < self.now.n }
        ensures { Walked self.now.n self.now.pos self.now.active self.now.color self.now.sent self.now.received self.now.pending result }
    {
        let mut sent: u64 = 0;
        let mut received: u64 = 0;
        let mut pending: u64 = 0;
        let mut sent_above: u64 = 0;
        let mut received_above: u64 = 0;
        let mut passive = true;
        let mut white = true;
        for node in (0..self.n).rev() {
            sent += u64::from(self.sent[node]);
            received += u64::from(self.received[node]);
            pending += u64::from(self.pending[node]);
            if self.pos < node {
                sent_above = sent;
                received_above = received;
                passive &= !self.active[node];
            }
            if node <= self.pos {
                white &= !color::is_black(&self.color, node);
            }
        }
        Seen {
            sent,
            received,
            pending,
            above: Above {
                sent: sent_above,
                received: received_above,
                passive,
            },
            white,
        }
    }
}

impl Seen {
    /// Are there no more than 1,000,000 sends, and as many as messages received and pending?
    pub fn flows(self) -> bool
        requires { Bounded self }
        ensures { result ≡ flow_seen self }
    {
        self.sent <= u64::from(SEND_LIMIT) && self.sent == self.received + self.pending
    }

    /// Does one of the four cases of Safra's invariant hold (EWD998)? The nodes above the token are passive and its sum q is that of their counters; or q and the
    /// counters of the others make more than 0; or one of the others is black; or the token is `black`.
    pub fn is_safra(self, q: i64, black: bool) -> bool
        requires { Bounded self × (mag q < 2 ^ 62) }
        ensures { result ≡ safra_seen q black self }
    {
        let gathered = self.above.passive
            && signed::is_counter(q, self.above.sent, self.above.received);
        let sent = self.sent - self.above.sent;
        let received = self.received - self.above.received;
        gathered || signed::is_positive_with(q, sent, received) || !self.white || black
    }
}
