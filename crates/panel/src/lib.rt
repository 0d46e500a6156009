// The packing station: entering, starts, the six steps with close in the place of announce, the soundness check, and what is read. Every panel and
// request has an answer.
#![tactic(auto)]

mod marks;
mod read;
mod request;
mod start;
mod state;
mod steps;

pub use marks::{all_say, firmware_said, map_said, marks_fit};
pub use state::Panel;
