//! Berths: servers that the threads of a storm take in turns.
#![tactic(auto)]

mod berth;
mod counts;
mod made;

pub use berth::Berth;
pub use made::{Made, Ranked};
