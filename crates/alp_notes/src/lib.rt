//! Notes in memory: values by rising name, changed with no memory where room was made before.
#![tactic(auto)]

mod notes;
mod place;
mod rows;

pub use notes::{Notes, copies_of};
