//! Plays a script on its servers, from the bytes of the script and the disks of the servers to the bytes of the report and the disks as
//! they are then.
#![tactic(auto)]

mod bay;
mod fault;
mod finish;
mod owners;
mod run;
mod start;
mod status;
mod tally;
mod telling;
mod write_all;

pub use run::run_alpine;
pub use status::{Kept, Status, StatusText, status_text};
pub use telling::tell;
