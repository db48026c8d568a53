//! Tests of command lines, of the words and lines of scripts, of scripts as a whole, and of drills.
#![tactic(auto)]

#[cfg(test)]
mod tests;
