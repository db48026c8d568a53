//! A lock table: what each transaction holds, and who waits for what.
//!
//! Whole files and leaves are locked in the six modes of alp_modes. A request is granted as a whole
//! or not at all, so nobody waits with half of what it asked for. Two transactions that wait for
//! one another stay waiting until one of them ends (Gray, Lorie, Putzolu and Traiger 1976).
#![tactic(auto)]

mod asking;
mod holders;
mod laws;
mod plan;
mod request;
mod table;
mod walk;

pub use laws::{
    grants_are_of_all_or_none, holders_are_first_and_least, releases_grant_what_is_free,
};
pub use plan::Plan;
pub use request::{Grant, Request};
pub use table::LockTable;
