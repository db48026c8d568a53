//! Opens of a transaction's part.
use alp_base::{Access, FileId};

/// A file that the part has opened, and the number by which its calls name it.
#[derive(Clone, Copy, PartialEq, Eq)]
pub struct Open {
    pub number: u32,
    pub file: FileId,
    pub access: Access,
}
