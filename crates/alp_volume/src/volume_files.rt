//! Reading the files of a volume: each leader in the order of the directory, with its index pages.
ghost use Rattle.std.specs.Prelude.{◌≡◌, ◌≤◌, ◌<◌, ◌+◌, ℕ, List, length, IsTrue, IfOk, None, Some};
ghost use Rattle.std.specs.FinMap as map;
ghost use Rattle.alp_tables.specs.declared.file_slot.FileSlot.{FileSlot as ASlot};
ghost use Rattle.alp_pages.specs.Nodes.{LeaderOf};
ghost use Rattle.alp_pages.specs.Pages.{entry_in};
ghost use Rattle.alp_pages.specs.Volume.{row_of_node};
ghost use Rattle.alp_pages.specs.Damage.{Name, entry_there, parts_of, row_there};
ghost use Rattle.alp_volume.specs.Reached.{AreListed, AreMarks, AreNamed, AreOwners, IsJudged, IsKept, IsUnread, files_from};
ghost use Rattle.alp_pages.specs.Reading.{HasRead};
ghost use Rattle.alp_volume.specs.Known.{IsCatalog};

use crate::catalog::Catalog;
use crate::directory::read_slot;
use crate::file_pages::read_blocks;
use crate::leaders::add_leader;
use alp_base::VaultFault;
use alp_pages::{Entry, PageReader, read_leader};
use alp_vault::HEAD_PAGES;
use std::alloc::Global;

// Takes the leader of a file in, and judges its index pages.
fn read_entry_file<R: PageReader>(
    alloc: Global,
    reader: &mut R,
    catalog: &mut Catalog,
    entry: Entry,
) -> Result<Option<u32>, VaultFault>
    requires place { entry.place < R.home reader.old }
    requires long { length catalog.old.places ≡ R.home reader.old }
    ensures judged { (home : ℕ) (names : List Name) → IsTrue (R.tells reader.old) → AreMarks home names catalog.old.places → IsUnread names entry.file → AreOwners (R.pages reader.old) 256 catalog.old.owners catalog.old.rows → IfOk result (IsJudged home (R.pages reader.old) names (parts_of (R.pages reader.old) (Some entry)) (λ ns. AreMarks home ns catalog.new.places)) }
    ensures kept { (x : ASlot) → IsTrue (R.tells reader.old) → map.get catalog.old.files entry.file ≡ Some x → IfOk result (λ o. o ≡ None → (y : ASlot) × (catalog.new.files ≡ map.insert catalog.old.files entry.file y) × IsKept x y (row_there (row_of_node (LeaderOf entry.file) (R.pages reader.old entry.place)))) }
    ensures others { (catalog.new.owners ≡ catalog.old.owners) × (catalog.new.rows ≡ catalog.old.rows) × (catalog.new.slots ≡ catalog.old.slots) }
    ensures long { length catalog.new.places ≡ length catalog.old.places }
    ensures sized { (home : ℕ) → IsCatalog home catalog.old → IsCatalog home catalog.new }
    ensures read { HasRead R.ReadOn R.faults R.allowance reader.old reader.new result }
{
    let Some(leader) = read_leader(alloc, reader, entry.place)? else {
        return Ok(Some(entry.place));
    };
    if !add_leader(catalog, entry.file, &leader) {
        return Ok(Some(entry.place));
    }
    read_blocks(
        reader,
        &mut catalog.places,
        leader.props.size,
        &leader.index,
    )
}

// Takes the file of a slot in, if there is one.
fn read_file<R: PageReader>(
    alloc: Global,
    reader: &mut R,
    catalog: &mut Catalog,
    slot: u32,
) -> Result<Option<u32>, VaultFault>
    requires slot { slot < 4096 }
    requires head { HEAD_PAGES ≤ R.home reader.old }
    requires long { length catalog.old.places ≡ R.home reader.old }
    ensures judged { (home : ℕ) (names : List Name) → IsTrue (R.tells reader.old) → AreMarks home names catalog.old.places → AreListed home (R.pages reader.old) 4096 names catalog.old.files catalog.old.slots → AreOwners (R.pages reader.old) 256 catalog.old.owners catalog.old.rows → AreNamed slot names catalog.old.files → IfOk result (IsJudged home (R.pages reader.old) names (parts_of (R.pages reader.old) (entry_there (entry_in (R.pages reader.old) slot))) (λ ns. AreMarks home ns catalog.new.places × AreListed home (R.pages reader.old) 4096 ns catalog.new.files catalog.new.slots × AreNamed (slot + 1) ns catalog.new.files)) }
    ensures others { (catalog.new.owners ≡ catalog.old.owners) × (catalog.new.rows ≡ catalog.old.rows) × (catalog.new.slots ≡ catalog.old.slots) }
    ensures long { length catalog.new.places ≡ length catalog.old.places }
    ensures sized { (home : ℕ) → IsCatalog home catalog.old → IsCatalog home catalog.new }
    ensures read { HasRead R.ReadOn R.faults R.allowance reader.old reader.new result }
{
    let Some(found) = read_slot(reader, slot)? else {
        return Ok(None);
    };
    let Some(entry) = found else {
        return Ok(None);
    };
    if entry.place as usize >= catalog.places.len() {
        return Ok(None);
    }
    read_entry_file(alloc, reader, catalog, entry)
}

/// Takes the files of a volume in, up to the first page of them that is damaged.
pub fn read_files<R: PageReader>(
    alloc: Global,
    reader: &mut R,
    catalog: &mut Catalog,
) -> Result<Option<u32>, VaultFault>
    requires head { HEAD_PAGES ≤ R.home reader.old }
    requires long { length catalog.old.places ≡ R.home reader.old }
    ensures judged { (home : ℕ) (names : List Name) → IsTrue (R.tells reader.old) → AreMarks home names catalog.old.places → AreListed home (R.pages reader.old) 4096 names catalog.old.files catalog.old.slots → AreOwners (R.pages reader.old) 256 catalog.old.owners catalog.old.rows → AreNamed 0 names catalog.old.files → IfOk result (IsJudged home (R.pages reader.old) names (files_from (R.pages reader.old) 0) (λ ns. AreMarks home ns catalog.new.places × AreListed home (R.pages reader.old) 4096 ns catalog.new.files catalog.new.slots × AreNamed 4096 ns catalog.new.files)) }
    ensures others { (catalog.new.owners ≡ catalog.old.owners) × (catalog.new.rows ≡ catalog.old.rows) × (catalog.new.slots ≡ catalog.old.slots) }
    ensures long { length catalog.new.places ≡ length catalog.old.places }
    ensures sized { (home : ℕ) → IsCatalog home catalog.old → IsCatalog home catalog.new }
    ensures read { HasRead R.ReadOn R.faults R.allowance reader.old reader.new result }
{
    for slot in 0..4096u32 {
        if let Some(wrong) = read_file(alloc, reader, catalog, slot)? {
            return Ok(Some(wrong));
        }
    }
    Ok(None)
}
