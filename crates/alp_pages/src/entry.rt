//! Entries of the directory.
ghost use Rattle.std.specs.Prelude.{◌≡◌, ◌<◌, ℕ, length, Some, None};
ghost use Rattle.alp_fields.specs.Forms.{IsRead, whole};
ghost use Rattle.alp_pages.specs.Pages.{entry as entry_form, part_of};

use alp_base::FileId;
use alp_fields::{FieldReader, set_file_id, set_u32, set_zeros};

/// How many pages hold the directory, from page 1 on.
pub const DIRECTORY_PAGES: u32 = 128;

/// The bytes of an entry.
pub const ENTRY_BYTES: usize = 16;

/// How many entries a page holds.
pub const ENTRIES_PER_PAGE: usize = 32;

/// A file, and the home page of its leader.
#[derive(Clone, Copy, PartialEq, Eq)]
pub struct Entry {
    pub file: FileId,
    pub place: u32,
}

#[tactic(auto, unfolding(crate::specs::Pages::entry))]
fn read_entry(reader: &mut FieldReader) -> Option<Option<Entry>>
    ensures { IsRead entry_form reader.old reader.new result }
{
    let file = reader.file_id()?;
    reader.zeros(3)?;
    let place = reader.u32()?;
    if place != 0 {
        return Some(Some(Entry { file, place }));
    }
    let none = file.server == 0 && file.epoch == 0 && file.counter == 0;
    if !none {
        return None;
    }
    Some(None)
}

fn decode_entry(bytes: &[u8]) -> Option<Option<Entry>>
    ensures { result ≡ whole entry_form bytes.now }
{
    let mut reader = FieldReader::new(bytes);
    let found = read_entry(&mut reader)?;
    if !reader.is_empty() {
        return None;
    }
    Some(found)
}

/// The entry of a directory page: a file, or none; nothing where the bytes are no entry.
pub fn entry_at(page: &[u8], k: usize) -> Option<Option<Entry>>
    requires page { length page.now ≡ 512 }
    requires within { k < ENTRIES_PER_PAGE }
    ensures { result ≡ whole entry_form (part_of 16 k page.now) }
{
    let first = ENTRY_BYTES * k;
    decode_entry(&page[first..first + ENTRY_BYTES])
}

/// Puts an entry of a file over whatever stood in that place of a directory page, and leaves the other entries alone.
pub fn set_entry(page: &mut [u8], k: usize, entry: &Entry)
    requires page { length page.old ≡ 512 }
    requires within { k < ENTRIES_PER_PAGE }
    requires placed { 0 < entry.now.place }
    ensures own { whole entry_form (part_of 16 k page.new) ≡ Some (Some entry.now) }
    ensures others { (j : ℕ) → (j ≡ k → ⊥) → part_of 16 j page.new ≡ part_of 16 j page.old }
    ensures page { length page.new ≡ 512 }
{
    let first = ENTRY_BYTES * k;
    set_file_id(page, first, entry.file);
    set_zeros(page, first + 9, 3);
    set_u32(page, first + 12, entry.place);
}

/// Puts an entry of no file there.
pub fn clear_entry(page: &mut [u8], k: usize)
    requires page { length page.old ≡ 512 }
    requires within { k < ENTRIES_PER_PAGE }
    ensures own { whole entry_form (part_of 16 k page.new) ≡ Some None }
    ensures others { (j : ℕ) → (j ≡ k → ⊥) → part_of 16 j page.new ≡ part_of 16 j page.old }
    ensures page { length page.new ≡ 512 }
{
    set_zeros(page, ENTRY_BYTES * k, ENTRY_BYTES);
}
