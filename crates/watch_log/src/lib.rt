//! A log that comes in pieces, cut anywhere: its lines are answered as soon as they are whole.
//! Nothing here reads or writes: a program does that around `feed` and `finish`.
#![tactic(auto)]

mod held;
mod state;

pub use state::{Log, is_decided};
