//! Whose turn it is: the lock table's queue is the waiting list of the journal, and a release walks both alike.
#![tactic(auto)]

mod laws;

pub use laws::releases_walk_the_waiting_list;
