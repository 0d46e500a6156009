// The driver: token moves of an open state, until it is conclusive, waits or has spent its limit.
ghost use Rattle.std.specs.Prelude.{◌≡◌, ◌≤◌, true};
ghost use Rattle.ring_rules.specs.Soundness.{Open};
ghost use Rattle.refusal.specs.Answers.{verdict_from};
ghost use Rattle.refusal.specs.Table.{first_of};
ghost use Rattle.ring_rules.specs.Driver.{drive_from, drive_of, drive_table, may_move, move_limit, move_of};
ghost use Rattle.ring.specs.View.{driven, driven_by, driven_in_place};

use crate::state::Ring;
use refusal::{Refusal, Refused};
use ring_rules::{MOVE_LIMIT, Reason};

/// Why the driver stopped, how many token moves it made, 0 to 1,000, and the state after them.
#[derive(Clone, Copy, Debug, PartialEq, Eq)]
pub struct Driven {
    pub reason: Reason,
    pub moves: u32,
    pub ring: Ring,
}

impl Ring {
    // Is the token move allowed, a probe at node 0 and a pass elsewhere?
    fn may_move(&self) -> bool
        requires { Open self.now }
        ensures { result ≡ may_move self.now }
    {
        if self.pos == 0 {
            return self.may_probe();
        }
        !self.active[self.pos]
    }

    // The token move, which is allowed.
    fn make_move(&mut self)
        requires { Open self.old × (may_move self.old ≡ true) }
        ensures { self.new ≡ move_of self.old }
    {
        // Kept: a name for the place; tried: with `self.apply_pass(self.pos)` the proof did not close, since the call opens the ring twice.
        let position = self.pos;
        if position == 0 {
            let _ = self.apply_probe();
            return;
        }
        let _ = self.apply_pass(position);
    }

    /// Token moves of an open state, in place, at most `limit`: why they end, and how many they are.
    pub fn run(&mut self, limit: u32) -> (Reason, u32)
        requires { Open self.old × (limit ≤ move_limit) }
        ensures { driven_in_place result self.new ≡ drive_from limit 0 self.old }
    {
        // Kept: no plainer as a `for`, since the end by the limit is the last of three tests, and stands after as many moves as the limit says.
        let mut moves: u32 = 0;
        loop {
            if self.is_conclusive() {
                return (Reason::Conclusive, moves);
            }
            if !self.may_move() {
                return (Reason::Waiting, moves);
            }
            if moves == limit {
                return (Reason::Spent, moves);
            }
            self.make_move();
            moves += 1;
        }
    }

    // May a driver run: is the state sound and open, and the limit at most 1,000?
    #[tactic(auto, unfolding(ring_rules::specs::Driver::drive_table))]
    fn may_drive(&self, limit: u32) -> Result<(), Refusal>
        ensures { verdict_from result ≡ first_of (drive_table self.now limit) }
    {
        if !self.is_sound() {
            return Err(Refusal::Unsound);
        }
        if self.closed {
            return Err(Refusal::Closed);
        }
        if MOVE_LIMIT < limit {
            return Err(Refusal::MoveLimit);
        }
        Ok(())
    }

    /// Token moves in place, as `drive` makes them: why they ended, and how many they are, 0 to 1,000; a refusal leaves the state.
    #[tactic(auto, using(ring_rules::proofs::Soundness::sound_true), unfolding(ring_rules::specs::Driver::drive_of))]
    pub fn drive_in_place(&mut self, limit: u32) -> Result<(Reason, u32), Refusal>
        ensures { driven_by result self.new ≡ drive_of self.old limit }
    {
        if let Err(refusal) = self.may_drive(limit) {
            return Err(refusal);
        }
        Ok(self.run(limit))
    }

    /// Token moves, at most `limit`, until the round is conclusive, no token move is allowed, or the limit is spent, looked for in this order before each.
    /// A token move is a probe where node 0 has the token, and else a pass. Refused with the very state handed in: an unsound state with 3, a closed run with 4,
    /// a limit above 1,000 with 11.
    pub fn drive(mut self, limit: u32) -> Result<Driven, Refused<Ring>>
        ensures { driven result ≡ drive_of self limit }
    {
        match self.drive_in_place(limit) {
            Ok((reason, moves)) => Ok(Driven {
                reason,
                moves,
                ring: self,
            }),
            Err(refusal) => Err(Refused {
                refusal,
                state: self,
            }),
        }
    }
}
