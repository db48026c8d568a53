//! One step of a server.
use crate::{Acts, Event};
use alp_files::Reply;

/// What came, what was answered (nothing is silence), and what took effect.
#[derive(Drop)]
pub struct Entry {
    pub event: Event,
    pub reply: Option<Reply>,
    pub acts: Acts,
}
