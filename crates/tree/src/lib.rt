// The tree of Dijkstra and Scholten: start, soundness check, the six steps. Every state and request has an answer.
#![tactic(auto)]

mod acks;
mod messages;
mod request;
mod soundness;
mod start;
mod state;
mod steps;

pub use state::Tree;
