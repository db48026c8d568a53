//! Lines with their numbers.
use alp_lines::Line;

/// The most lines that a script has.
pub const SCRIPT_LINES_MOST: u32 = 200_000;

/// A line of a script, and which line of it, counted from 1.
#[derive(Drop, PartialEq, Eq)]
pub struct NumberedLine {
    pub number: u32,
    pub line: Line,
}
