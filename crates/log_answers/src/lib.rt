//! The answers of the log program, and the end lines of a run, written into a lent buffer from fixed byte strings.
#![tactic(auto)]

mod answer;
mod ring_end;
mod table_end;
mod tree_end;

pub use answer::{put_answer, put_item};
pub use ring_end::{put_ring_end, put_update_end};
pub use table_end::put_table_end;
pub use tree_end::put_tree_end;
