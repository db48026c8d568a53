//! What a mount has found so far.
ghost use Rattle.std.specs.Prelude.{◌≡◌, ◌↔◌, ◌<◌, ◌∷◌, [], length, IsTrue, IfOk, false};
ghost use Rattle.std.specs.List.{AllByRecursion};
ghost use Rattle.alp_disk.specs.Disk.{Image as Pages};
ghost use Rattle.alp_batch.specs.Batch.{IsBatch};
ghost use Rattle.alp_base.specs.Notes.{notes_after};
ghost use Rattle.alp_wal.specs.State.{IsBelow, Suits};
ghost use Rattle.alp_wal.specs.Live.{AreLive};
ghost use Rattle.alp_wal.specs.Wal.{indexed, no_index, Logs};
ghost use Rattle.alp_wal.specs.Mount.{found_state, TakenOrNot};

use crate::index::ImageIndex;
use alp_anchor::Anchor;
use alp_base::OutOfMemory;
use alp_batch::{Batch, PageImage, decode, share_images};
use alp_notes::Notes;
use std::alloc::Global;

/// The most notes that are live at once.
const MOST_NOTES: usize = 65535;

/// The log of a disk, in memory, as far as its records were read.
#[derive(Drop)]
pub struct Found {
    pub(super) anchor: Anchor,
    pub(super) end: u32,
    pub(super) index: ImageIndex,
    pub(super) notes: Notes,
}

/// Whether all images are of home pages.
pub fn all_below(images: &[PageImage], home: u32) -> bool
    ensures { IsTrue result ↔ AllByRecursion (IsBelow home) images.now }
{
    images.iter().all(|i| i.at < home)
}

impl Found {
    /// Lays the batch over what was found, where it suits.
    fn apply(&mut self, alloc: Global, batch: &Batch) -> Result<bool, OutOfMemory>
        requires index { length self.old.index ≡ self.old.anchor.sizes.home }
        requires live { AreLive self.old.notes.notes }
        requires batch { IsBatch batch.now }
        ensures suits { IfOk result (λ yes. IsTrue yes → Suits self.old.anchor.sizes.home self.old.notes.notes batch.now) }
        ensures images { IfOk result (λ yes. IsTrue yes → self.new.index ≡ indexed self.old.index batch.now.images) }
        ensures notes { IfOk result (λ yes. IsTrue yes → self.new.notes.notes ≡ notes_after batch.now.notes self.old.notes.notes) }
        ensures suits_not { IfOk result (λ yes. yes ≡ false → Suits self.old.anchor.sizes.home self.old.notes.notes batch.now → ⊥) }
        ensures anchor { self.new.anchor ≡ self.old.anchor }
        ensures end { self.new.end ≡ self.old.end }
        ensures live { IfOk result (λ yes. IsTrue yes → AreLive self.new.notes.notes) }
    {
        if !all_below(batch.images.as_slice(), self.anchor.sizes.home) {
            return Ok(false);
        }
        let images = share_images(alloc, batch.images.as_slice())?;
        let changes = self.notes.make_room(alloc, batch.notes.as_slice())?;
        self.index.lay_over(images);
        self.notes.apply(changes);
        Ok(self.notes.len() <= MOST_NOTES)
    }

    /// Takes the body of the next record.
    pub(super) fn take(&mut self, alloc: Global, body: &[u8]) -> Result<bool, OutOfMemory>
        requires index { length self.old.index ≡ self.old.anchor.sizes.home }
        requires live { AreLive self.old.notes.notes }
        ensures taken { IfOk result (λ yes. (image : Pages) → TakenOrNot self.old.anchor.sizes.home (found_state self.old image) body.now (found_state self.new image) yes) }
        ensures logged { IfOk result (λ yes. IsTrue yes → Logs self.old.index (body.now ∷ []) self.new.index) }
        ensures anchor { self.new.anchor ≡ self.old.anchor }
        ensures end { self.new.end ≡ self.old.end }
        ensures index { IfOk result (λ yes. IsTrue yes → length self.new.index ≡ length self.old.index) }
        ensures live { IfOk result (λ yes. IsTrue yes → AreLive self.new.notes.notes) }
    {
        let Some(batch) = decode(alloc, body)? else {
            return Ok(false);
        };
        self.apply(alloc, &batch)
    }
}
