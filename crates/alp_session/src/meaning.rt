//! What a word of the script stands for.
use alp_base::{FileId, TransId};

/// What a word stands for.
#[derive(Clone, Copy, PartialEq, Eq)]
pub enum Meaning {
    /// A file, or the id that no file has.
    File(FileId),
    /// What a call of this transaction creates that waits at this server, and no file until then.
    Awaited(TransId, u8),
}
