//! One module for each crate.
mod jobs;
mod posts;
mod session;
