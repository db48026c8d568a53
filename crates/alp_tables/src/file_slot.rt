//! What memory keeps of a file.

/// A file's entry in the directory, the place of its leader, and its blocks that have an index page.
#[derive(Clone, Copy, PartialEq, Eq)]
pub struct FileSlot {
    pub slot: u32,
    pub place: u32,
    /// One bit for each block.
    pub blocks: u32,
}
