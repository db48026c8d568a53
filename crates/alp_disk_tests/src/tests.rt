//! One module for each crate.
mod anchor;
mod batch;
mod bay;
mod disk;
mod format;
mod notes;
mod pool;
mod record;
