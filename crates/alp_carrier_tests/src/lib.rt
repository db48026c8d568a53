//! Carriers between two depots, which stand for servers, beside a thread that sends.
#![tactic(auto)]

mod depot;
mod record;
#[cfg(test)]
mod tests;

pub use depot::Depot;
pub use record::{Deed, Record};
