// The tree of Dijkstra and Scholten, the rules: definitions in specs/, their theorems in proofs/. This file names what stands where there is no node, and a request by name.
#![tactic(auto)]

mod request;

pub use request::{Request, UnknownKind};

/// The number that is no node's.
pub const NO_NODE: usize = refusal::TREE_NODES;

/// As it stands in the column of engagers, for a node that has none.
pub const NO_ENGAGER: u8 = NO_NODE as u8;
