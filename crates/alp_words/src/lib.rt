//! What the words of the program mean: the command that they name, or that they name none.
#![tactic(auto)]

mod command;
mod definition;
mod fault;
mod read;

pub use command::Command;
pub use fault::WordsFault;
pub use read::read_command;
