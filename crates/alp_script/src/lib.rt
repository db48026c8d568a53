//! The script language: from bytes to numbered lines, or to the first line that is outside.
#![tactic(auto)]

mod context;
mod fault;
mod numbered;
mod numbers;
mod read;
mod reader;
mod servers;
mod sizes;

pub use alp_lines::{
    AREA_LEAST, AREA_MOST, FileWord, HOME_LEAST, HOME_MOST, Line, PATIENCE_MOST, RUN_MOST,
};
pub use alp_tokens::{LINE_BYTES, TEXT_BYTES};
pub use fault::ScriptFault;
pub use numbered::{NumberedLine, SCRIPT_LINES_MOST};
pub use numbers::numbers_are_fixed;
pub use read::{accepted_lines, read_script};
pub use servers::servers_of;
pub use sizes::{NEW_AREA, NEW_HOME, sizes_of};
