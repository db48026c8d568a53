//! What the notes of an earlier run leave a server: parts that are ready, with their locks and their intents, and decisions.
#![tactic(auto)]

mod balance;
mod changes;
mod charges;
mod fault;
mod ids;
mod laws;
mod locks;
mod notes;
mod part;
mod parts;
mod regaining;
mod rooms;
mod seen;
mod sizes;
mod sound;
mod touched;

pub use fault::RegainFault;
pub use laws::{
    charges_follow_leaders, notes_name_their_servers, puts_tell_of_files, ready_parts_fit_the_log,
};
pub use part::RegainedPart;
pub use regaining::{Regained, regain};
