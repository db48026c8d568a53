//! One line of a script: what its text says, if it is inside the language.
#![tactic(auto)]

mod client_lines;
mod event_lines;
mod file_words;
mod grammar;
mod hex;
mod limits;
mod line;
mod operands;

pub use grammar::text_in;
pub use limits::{AREA_LEAST, AREA_MOST, HOME_LEAST, HOME_MOST, PATIENCE_MOST, RUN_MOST};
pub use line::{FileWord, Line};
