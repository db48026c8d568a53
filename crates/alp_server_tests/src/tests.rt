//! One module for each crate.
mod fields;
mod locks;
mod modes;
mod notes;
mod owner;
mod parts;
mod ready;
mod rpc;
mod vault;
