//! The messages between the servers of a run: which of them were taken, for each server and each that it sends to.
#![tactic(auto)]

mod find;
mod laws;
mod posts;
mod walk;

pub use laws::{longer_journals_fit, messages_are_sent, messages_stay, pairs_stand_apart};
pub use posts::Posts;
