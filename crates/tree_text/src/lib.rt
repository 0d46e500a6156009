// The text of the engagement tree: definitions in specs/, their theorems in proofs/. This file declares what the reader answers, and the number of what the writer does.
#![tactic(auto)]

ghost use Rattle.std.specs.Prelude.{◌≡◌};
ghost use Rattle.tree_text.specs.View.{written};
ghost use Rattle.tree_text.specs.Write.{written_number};

use refusal::{Refusal, TREE_NODES};

/// What was read: each node's engager, 16 where it has none, and the root.
#[derive(Clone, Copy, Debug, PartialEq, Eq)]
pub struct Found {
    pub engager: [u8; TREE_NODES],
    pub root: usize,
}

// Kept beside `refusal::code`: the contract of the call that writes speaks of its definition.
/// The number of the writer's answer, 0 where the text is written.
pub fn written_number(answer: Result<usize, Refusal>) -> u8
    ensures { result ≡ written_number (written answer) }
{
    match answer {
        Ok(_) => 0,
        Err(refusal) => refusal.number(),
    }
}
