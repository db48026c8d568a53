//! Transactions at the server that began them: who takes part, how they vote, what is decided, and what is to be said
//! again.
#![tactic(auto)]

mod answers;
mod begun;
mod coordinator;
mod course;
mod courses;
mod decision;
mod laws;
mod members;
mod moves;
mod words;

pub use answers::{Ballot, Receipt, Registration};
pub use coordinator::Coordinator;
pub use decision::Decision;
pub use laws::ticks_say_all;
pub use members::Member;
