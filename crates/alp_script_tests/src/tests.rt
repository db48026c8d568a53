//! One module for each crate.
mod drill;
mod lines;
mod script;
mod storm;
mod tokens;
mod words;
