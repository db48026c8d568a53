//! The live notes as a batch, and how long its record is.
ghost use Rattle.std.specs.Prelude.{◌≡◌, ◌↔◌, ◌≤◌, ◌^◌, length, IfOk, OnOk, IsTrue};
ghost use Rattle.alp_batch.specs.Batch.{batch as batch_form, batch_length, IsBatch};
ghost use Rattle.alp_wal.specs.Live.{notes_batch, notes_pages, BothFit, AreLive};

use alp_base::{Bytes, OutOfMemory};
use alp_batch::{Batch, encode_values, encoded_length, values_length};
use alp_notes::Notes;
use alp_record::pages_wanted;
use std::alloc::Global;

/// The body of a record of the notes.
pub(super) fn live_body(alloc: Global, notes: &Notes) -> Result<Bytes, OutOfMemory>
    requires { AreLive notes.now.notes }
    ensures spelled { IfOk result (λ body. body ≡ batch_form.spell (notes_batch notes.now.notes)) }
    ensures fits { OnOk result (batch_form.Fits (notes_batch notes.now.notes)) }
    ensures long { IfOk result (λ body. length body ≡ batch_length (notes_batch notes.now.notes)) }
{
    encode_values(alloc, notes.names(), notes.values())
}

/// The pages of a record of the notes.
fn live_pages(notes: &Notes) -> u64
    requires { AreLive notes.now.notes }
    ensures pages { result ≡ notes_pages notes.now.notes }
    ensures small { result ≤ 2 ^ 50 }
{
    pages_wanted(values_length(notes.names(), notes.values()))
}

/// Whether a record of the notes and then one of the batch go into an empty area.
pub(super) fn both_fit(notes: &Notes, batch: &Batch, area: u32) -> bool
    requires live { AreLive notes.now.notes }
    requires batch { IsBatch batch.now }
    ensures { IsTrue result ↔ BothFit area notes.now.notes batch.now }
{
    let first = live_pages(notes);
    let second = pages_wanted(encoded_length(batch));
    first + second <= area as u64
}
