//! What a commit does in memory.
ghost use Rattle.std.specs.Prelude.{◌≡◌, ◌≤◌, length, IfOk};
ghost use Rattle.alp_batch.specs.Batch.{IsBatch};
ghost use Rattle.alp_wal.specs.Prepared.{batch_of, IsReady};

use alp_base::{Bytes, NoteChange, OutOfMemory};
use alp_batch::{Batch, PageImage, encode, share_images};
use alp_notes::Notes;
use std::alloc::Global;

/// What a commit needs, made before its first write.
#[derive(Drop)]
pub(super) struct Prepared {
    pub(super) body: Bytes,
    pub(super) images: Vec<PageImage>,
    pub(super) notes: Vec<NoteChange>,
}

/// Makes all that takes memory, room for the changes of notes too. The notes stay.
pub(super) fn prepare(
    alloc: Global,
    notes: &mut Notes,
    batch: &Batch,
) -> Result<Prepared, OutOfMemory>
    requires { IsBatch batch.now }
    ensures batch { IfOk result (λ p. batch_of p ≡ batch.now) }
    ensures ready { IfOk result IsReady }
    ensures room { IfOk result (λ p. length p.notes.items ≤ notes.new.room) }
    ensures same { notes.new.notes ≡ notes.old.notes }
{
    let body = encode(alloc, batch)?;
    let images = share_images(alloc, batch.images.as_slice())?;
    let changes = notes.make_room(alloc, batch.notes.as_slice())?;
    Ok(Prepared {
        body,
        images,
        notes: changes,
    })
}
