//! What is committed together.
ghost use Rattle.std.specs.Prelude.{◌≡◌, List, nat_eq, ℕ, IfOk};

use alp_base::{NoteChange, OutOfMemory, PageRef, Sequence};
use std::alloc::Global;

/// What a home page is to hold.
#[derive(Clone, Drop, PartialEq, Eq)]
pub struct PageImage {
    /// The home page.
    pub at: u32,
    /// Shared with whoever made it, and not copied.
    pub page: PageRef,
}

/// Images of home pages.
pub type Images = Sequence<PageImage>;

/// Changes of notes.
pub type NoteChanges = Sequence<NoteChange>;

/// Images of home pages by rising page, and changes of notes by rising name.
#[derive(Drop)]
pub struct Batch {
    pub images: Images,
    pub notes: NoteChanges,
}

/// One more reference to the page of each image.
pub fn share_images(alloc: Global, images: &[PageImage]) -> Result<Vec<PageImage>, OutOfMemory>
    ensures { IfOk result (λ copy. copy.items ≡ images.now) }
{
    let mut copy = Vec::with_capacity(alloc, images.len())?;
    for next in images {
        copy.push(next.clone()?)?;
    }
    Ok(copy)
}
