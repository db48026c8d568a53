//! A transaction's part at one server: what it intends, what it has opened, and what is counted of it.
#![tactic(auto)]

mod ahead;
mod counts;
mod cuts;
mod drops;
mod gone;
mod intents;
mod laws;
mod part;

pub use ahead::Ahead;
pub use counts::{Counts, Sight};
pub use gone::{Gone, takes};
pub use intents::Intents;
pub use laws::intents_are_what_edits_do;
pub use part::Part;
