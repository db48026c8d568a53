//! The monitor: a state that threads take in turns, one at a time, with one history of all turns,
//! which is kept in the proofs alone.
#![tactic(auto)]

mod board;
mod monitor;
mod plays;
mod story;
#[cfg(test)]
mod tests;

pub use board::{Part, View};
pub use monitor::{Monitor, Pass, Turn};
pub use story::Story;
