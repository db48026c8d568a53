//! One client of one server, over any vault: what it asks for, and what it is told. With it `alp_stamps` commits
//! to a file of the host, and prints what it is told.
#![tactic(auto)]

mod caller;
mod fault;
mod files;
mod ledger;

pub use caller::Caller;
pub use fault::ServeFault;
pub use ledger::{Ledger, SLOTS};
