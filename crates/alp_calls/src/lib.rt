//! Performs the file calls of a transaction at one server, on what it sees of a vault through its own intents.
#![tactic(auto)]

mod counting;
mod fault;
mod file_calls;
mod finding;
mod laws;
mod limits;
mod look;
mod opens;
mod owner_calls;
mod page_calls;
mod performing;
mod prop_calls;
mod putting;
mod regaining;
mod said;
mod server_notes;
mod size_calls;

pub use fault::CallFault;
pub use finding::{OpenedFile, opened_file};
pub use laws::{counts_come_to_what_there_is, counts_stay_where_others_commit};
pub use limits::{CELLS_PER_PART, Room};
pub use performing::perform;
pub use regaining::regained_part;
pub use server_notes::are_server_notes;
