//! The report of a run, as text: a line for each line of a client, and the summary.
#![tactic(auto)]

mod lines;
mod pages;
mod refusals;
mod replies;
mod summary;

pub use lines::put_line;
pub use summary::{Held, Summary, put_summary};
