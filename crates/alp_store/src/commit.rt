//! Commits: a plan of the volume as one batch with the notes.
ghost use Rattle.std.specs.Prelude.{◌≡◌, ◌⊎◌, ℕ, IsTrue, false};
ghost use Rattle.alp_base.specs.declared.faults.VaultFault.TheVariants as fault;
ghost use Rattle.alp_batch.specs.Batch.{IsBatch};
ghost use Rattle.alp_files.specs.Changes.{edits_of};
ghost use Rattle.alp_files.specs.Edits.{edits_map};
ghost use Rattle.alp_base.specs.declared.change.Change.{Change as ChangeOf};
ghost use Rattle.alp_pool.specs.Pools.{log_of};
ghost use Rattle.alp_vault.specs.Volumes.{IsCommit, IsVolumeOf};
ghost use Rattle.alp_wal.specs.Live.{BothFit};
ghost use Rattle.alp_wal.specs.State.{Suits};
ghost use Rattle.alp_wal.specs.Wal.{disk_of, anchor_of, notes_of, is_dead};
ghost use Rattle.alp_store.specs.Batches.{batch_of as batch_said, IsLoggable, AreBelow};
ghost use Rattle.alp_store.specs.Commits.{HasPut, HasStored};
ghost use Rattle.alp_store.specs.Shelves.{shelf_log, IsShelf};
ghost use Rattle.alp_store.specs.Told.{contents_of};

use crate::batch::batch_of;
use crate::home_pages::HomePages;
use crate::shelf::Shelf;
use alp_base::{Change, NoteChange, OutOfMemory, VaultFault};
use alp_batch::Batch;
use alp_disk::Disk;
use alp_volume::{Draft, plan_change};
use alp_wal::{WalFault, all_below};
use std::alloc::Global;

/// Commits a batch for which the log has room.
pub(super) fn put<D: Disk>(pages: &mut HomePages<D>, batch: &Batch) -> Result<(), VaultFault>
    requires alive { is_dead (log_of pages.old) ≡ false }
    requires batch { IsBatch batch.now }
    requires suits { Suits (anchor_of (log_of pages.old)).sizes.home (notes_of (log_of pages.old)) batch.now }
    requires fits { BothFit (anchor_of (log_of pages.old)).sizes.area (notes_of (log_of pages.old)) batch.now }
    ensures { HasPut D.Disk batch.now (log_of pages.old) (log_of pages.new) result }
{
    match pages.commit(batch) {
        Ok(()) => Ok(()),
        Err(WalFault::Failed) => Err(VaultFault::Failed),
        Err(WalFault::Stopped) => Err(VaultFault::Stopped),
        Err(WalFault::OutOfMemory) => Err(VaultFault::OutOfMemory),
        Err(WalFault::Full | WalFault::Dead) => unreachable!(),
    }
}

/// Commits the pages of a plan and the notes.
///
/// A disk whose contents are not told may name places outside the volume; then nothing is committed.
fn put_plan<D: Disk>(
    alloc: Global,
    pages: &mut HomePages<D>,
    draft: &Draft,
    notes: &[NoteChange],
) -> Result<(), VaultFault>
    requires alive { is_dead (log_of pages.old) ≡ false }
    requires loggable { (change : ChangeOf) × IsLoggable (anchor_of (log_of pages.old)).server (anchor_of (log_of pages.old)).servers (anchor_of (log_of pages.old)).sizes.area (notes_of (log_of pages.old)) change draft.now.pages notes.now }
    ensures put { HasPut D.Disk (batch_said draft.now.pages notes.now) (log_of pages.old) (log_of pages.new) result }
    ensures below { AreBelow (anchor_of (log_of pages.old)).sizes.home draft.now.pages ⊎ ((pages.new ≡ pages.old) × (result ≡ Err fault.OutOfMemory)) }
{
    pages.knows();
    let batch = match batch_of(alloc, draft, notes) {
        Ok(batch) => batch,
        Err(OutOfMemory) => return Err(VaultFault::OutOfMemory),
    };
    if !all_below(batch.images.as_slice(), pages.sizes().home) {
        return Err(VaultFault::OutOfMemory);
    }
    put(pages, &batch)
}

impl<D: Disk> Shelf<D> {
    /// Makes the change of the cells and those of the notes.
    pub(super) fn commit(
        &mut self,
        alloc: Global,
        change: &Change,
        notes: &[NoteChange],
    ) -> Result<(), VaultFault>
        requires shelf { IsShelf D.Disk self.old }
        requires asked { IsCommit (anchor_of (shelf_log self.old)).sizes (anchor_of (shelf_log self.old)).server (anchor_of (shelf_log self.old)).servers (notes_of (shelf_log self.old)) change.now notes.now }
        requires room { IsTrue (D.tells (disk_of (shelf_log self.old))) → IsVolumeOf (anchor_of (shelf_log self.old)).sizes (edits_map (edits_of change.now) (contents_of D.Disk (shelf_log self.old)).cells) }
        ensures { HasStored D.Disk change.now notes.now self.old self.new result }
    {
        self.pages.knows();
        let mut draft = match plan_change(alloc, &mut self.pages, &mut self.catalog, change) {
            Ok(draft) => draft,
            Err(fault) => return Err(fault),
        };
        if let Err(fault) = put_plan(alloc, &mut self.pages, &draft, notes) {
            self.catalog.take_back(&mut draft.undos);
            return Err(fault);
        }
        Ok(())
    }
}
