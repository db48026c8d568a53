//! Changes of what memory keeps, so that they can be taken back.
use alp_base::{FileId, Name};
use alp_tables::FileSlot;

/// A change of the catalog, with what it takes to take it back.
#[derive(Clone, Copy)]
pub enum Undo {
    PlaceTaken { place: u32 },
    PlaceFreed { place: u32 },
    /// What was kept of a file is changed.
    FileKept { file: FileId, kept: FileSlot },
    /// A file came, with its entry.
    FileCame { file: FileId, slot: u32 },
    /// A file went, with its entry.
    FileWent { file: FileId, kept: FileSlot },
    /// An owner came, with its row.
    OwnerCame { owner: Name, row: u32 },
}
