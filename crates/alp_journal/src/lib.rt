//! What servers do, entry by entry: events, messages, acts, the journal of a server and the log of a run.
#![tactic(auto)]

mod act;
mod entry;
mod event;
mod journal;
mod laws;
mod lists;
mod log;
mod message;
mod opening;

pub use act::Act;
pub use entry::Entry;
pub use event::Event;
pub use journal::Journal;
pub use laws::passing_refusals_change_nothing;
pub use lists::{Acts, Parts, Stamps};
pub use log::{Item, Mark, RunLog, Sent, ServerLog};
pub use message::{Envelope, Message};
pub use opening::Opening;
