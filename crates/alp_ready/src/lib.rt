//! What the note of a part says that voted for its commit: what it has locked and what it changes, as notes have them.
#![tactic(auto)]

mod fits;
mod laws;
mod noted;

pub use laws::intents_come_back;
pub use noted::{noted_change, noted_locks};
