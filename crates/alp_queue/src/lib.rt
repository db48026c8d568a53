//! The order of those who wait for locks: conversions first, then by arrival.
//!
//! A conversion is a request of a transaction that holds a lock on a resource that it asks for. It
//! goes first, since others may wait for what its transaction holds (Gray, Lorie, Putzolu and
//! Traiger 1976).
#![tactic(auto)]

mod locks;
mod modes;
mod needs;
mod queue;
mod tree;
mod waiter;
mod wanted;

pub use locks::Locks;
pub use modes::Modes;
pub use needs::Needs;
pub use queue::{Queue, conversions_come_first, conversions_stay_first};
pub use waiter::Waiter;
pub use wanted::Wanted;
