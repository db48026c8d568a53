//! What a call comes to, before the part changes.

use alp_base::{Cell, FileId, Key};
use alp_files::{Open, Reply};
use alp_trans::Gone;

/// What a call does to the opens of its part.
#[derive(Clone, Copy)]
pub enum OpenChange {
    /// They stay.
    Stay,
    /// This one is made.
    Opened(Open),
    /// Those with this number are closed.
    Closed(u32),
    /// Those of this file are closed.
    Left(FileId),
}

/// What a call changes.
#[derive(Drop)]
pub struct Effect {
    /// What goes, before the cells are put.
    pub gone: Option<Gone>,
    pub puts: Vec<(Key, Cell)>,
    pub opens: OpenChange,
}

/// What a thread that is where the part is is told.
#[derive(Drop)]
pub enum Said {
    /// The reply, and nothing changes.
    Told(Reply),
    /// The reply, and what changes.
    Done { reply: Reply, effect: Effect },
}
