//! The batch of a change.
ghost use Rattle.std.specs.Prelude.{◌≡◌, IfOk, map as list_map};
ghost use Rattle.alp_store.specs.Batches.{image_of as image_said, batch_of as batch_said};

use alp_base::{NoteChange, OutOfMemory, PageRef};
use alp_batch::{Batch, Images, NoteChanges, PageImage};
use alp_notes::copies_of;
use alp_volume::Draft;
use std::alloc::Global;

/// The pages as images of home pages.
fn images_of(alloc: Global, pages: Vec<(u32, PageRef)>) -> Result<Vec<PageImage>, OutOfMemory>
    ensures { IfOk result (λ v. v.items ≡ list_map image_said pages.items) }
{
    let mut images = Vec::new(alloc);
    for (at, page) in pages {
        images.push(PageImage { at, page })?;
    }
    Ok(images)
}

/// The pages of a plan and the changes of notes, as one batch.
pub(super) fn batch_of(
    alloc: Global,
    draft: &Draft,
    notes: &[NoteChange],
) -> Result<Batch, OutOfMemory>
    ensures { IfOk result (λ b. b ≡ batch_said draft.now.pages notes.now) }
{
    let images = images_of(alloc, draft.pages.images(alloc)?)?;
    let notes = copies_of(alloc, notes)?;
    Ok(Batch {
        images: Images::new(images),
        notes: NoteChanges::new(notes),
    })
}
