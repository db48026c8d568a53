//! Tests of locks as nodes on two lists, and of runs of pages.
#![tactic(auto)]

#[cfg(test)]
mod tests;
