//! Rows of the owners' pages.
ghost use Rattle.std.specs.Prelude.{◌≡◌, ◌<◌, ◌==◌, ℕ, length, IfOk, Some};
ghost use Rattle.std.specs.List.{list_all};
ghost use Rattle.alp_pages.specs.Pages.{read_row, part_of};

use alp_base::{OutOfMemory, OwnerRecord};
use alp_fields::set_bytes;
use alp_owner::{OWNER_BYTES, decode_owner, encode_owner};
use std::alloc::Global;

/// How many pages hold the owners, behind the directory.
pub const OWNER_PAGES: u32 = 128;

/// How many rows a page holds.
pub const ROWS_PER_PAGE: usize = 2;

/// What a row holds, or nothing where its bytes are neither a record nor unused.
pub type OwnerRow = Option<Option<OwnerRecord>>;

fn is_unused(bytes: &[u8]) -> bool
    ensures { result ≡ list_all (λ b. b == 0) bytes.now }
{
    bytes.iter().all(|b| *b == 0)
}

fn decode_row(alloc: Global, bytes: &[u8; 256]) -> Result<OwnerRow, OutOfMemory>
    ensures { IfOk result (λ row. row ≡ read_row bytes.now) }
{
    if is_unused(bytes) {
        return Ok(Some(None));
    }
    let found = decode_owner(alloc, bytes)?;
    let Some(owner) = found else {
        return Ok(None);
    };
    Ok(Some(Some(owner)))
}

/// The row of an owners' page.
pub fn owner_at(alloc: Global, page: &[u8], k: usize) -> Result<OwnerRow, OutOfMemory>
    requires page { length page.now ≡ 512 }
    requires within { k < ROWS_PER_PAGE }
    ensures { IfOk result (λ row. row ≡ read_row (part_of 256 k page.now)) }
{
    let mut bytes = [0u8; 256];
    let first = OWNER_BYTES * k;
    bytes.copy_from_slice(&page[first..first + OWNER_BYTES]);
    decode_row(alloc, &bytes)
}

/// Puts an owner's record over whatever stood in that row of an owners' page, and leaves the other row alone.
pub fn set_owner(page: &mut [u8], k: usize, owner: &OwnerRecord)
    requires page { length page.old ≡ 512 }
    requires within { k < ROWS_PER_PAGE }
    ensures own { read_row (part_of 256 k page.new) ≡ Some (Some owner.now) }
    ensures others { (j : ℕ) → (j ≡ k → ⊥) → part_of 256 j page.new ≡ part_of 256 j page.old }
    ensures page { length page.new ≡ 512 }
{
    let mut bytes = [0u8; 256];
    encode_owner(owner, &mut bytes);
    set_bytes(page, OWNER_BYTES * k, &bytes);
}
