//! The words of a line of a script, and the numbers, names, lists and texts that single words spell.
#![tactic(auto)]

mod fault;
mod names;
mod numbers;
mod words;

pub use fault::LineFault;
pub use names::{TEXT_BYTES, list, name, text};
pub use numbers::{are_numerals, byte, within, word16, word32, word64};
pub use words::{LINE_BYTES, is_line, parts, says, words_in};
