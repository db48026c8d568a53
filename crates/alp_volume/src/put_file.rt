//! Files that are new.
ghost use Rattle.std.specs.Prelude.{◌≡◌, ◌≤◌, ◌<◌, ◌+◌, ◌/◌, ◌%◌, ℕ, List, [], ◌∷◌, IsTrue, IfOk, IfSome, OnOk, Some, None, true, false, slice_index_or};
ghost use Rattle.std.specs.FinMap as map;
ghost use Rattle.alp_base.specs.declared.key.Key.TheVariants.{Leader as LeaderKey, PageOf};
ghost use Rattle.alp_base.specs.declared.cell.Cell.TheVariants.{Leader as LeaderCell};
ghost use Rattle.alp_files.specs.Cells.{View};
ghost use Rattle.alp_files.specs.Edits.{Put, after};
ghost use Rattle.alp_fields.specs.Forms.{whole};
ghost use Rattle.alp_pages.specs.Leader.{leader_page};
ghost use Rattle.alp_pages.specs.Changes.{HasSlot};
ghost use Rattle.alp_volume.specs.Drafts.{IsDraft, laid};
ghost use Rattle.alp_volume.specs.Known.{IsCatalog};
ghost use Rattle.alp_pages.specs.Reading.{HasRead};
ghost use Rattle.alp_volume.specs.Undone.{LeadsOn, with_file, with_place, with_slot};

use crate::catalog::Catalog;
use crate::draft::Draft;
use crate::put_leader::leader_page_of;
use alp_base::{FileId, OutOfMemory, PAGES_PER_FILE, Page, Props, VaultFault};
use alp_pages::{Entry, Leader, PageReader, Places, clear_entry, set_entry};
use alp_vault::HEAD_PAGES;

// The page of the directory with an entry, or with none in its place.
pub(crate) fn entry_page<R: PageReader>(
    draft: &Draft,
    reader: &mut R,
    slot: u32,
    entry: &Option<Entry>,
) -> Result<Page, VaultFault>
    requires slot { slot < 4096 }
    requires head { HEAD_PAGES ≤ R.home reader.old }
    requires placed { IfSome entry.now (λ e. 0 < e.place) }
    ensures page { IsTrue (R.tells reader.old) → IfOk result (λ p. HasSlot (laid draft.now.pages (R.pages reader.old)) p slot entry.now) }
    ensures read { HasRead R.ReadOn R.faults R.allowance reader.old reader.new result }
{
    let page = draft.page(reader, 1 + slot / 32)?;
    let mut bytes = [0u8; 512];
    bytes.copy_from_slice(page.bytes());
    let at = (slot % 32) as usize;
    match entry {
        Some(entry) => set_entry(&mut bytes, at, entry),
        None => clear_entry(&mut bytes, at),
    }
    Ok(Page::new(bytes))
}

// Takes the lowest place and the lowest entry that are free.
fn take_file(
    draft: &mut Draft,
    catalog: &mut Catalog,
    file: FileId,
) -> Result<(u32, u32), OutOfMemory>
    requires new { map.get catalog.old.files file ≡ None }
    ensures place { IfOk result (λ x. slice_index_or catalog.old.places x.0 true ≡ false) }
    ensures slot { IfOk result (λ x. slice_index_or catalog.old.slots x.1 true ≡ false) }
    ensures taken { IfOk result (λ x. catalog.new ≡ with_slot x.1 true (with_file file (record { slot = x.1; place = x.0; blocks = 0 }) (with_place x.0 true catalog.old))) }
    ensures pages { draft.new.pages ≡ draft.old.pages }
    ensures back { LeadsOn draft.old.undos.items catalog.old draft.new.undos.items catalog.new }
    ensures sized { (home : ℕ) → IsCatalog home catalog.old → IsCatalog home catalog.new }
{
    let place = catalog.take_place(&mut draft.undos)?;
    let slot = catalog.take_entry(&mut draft.undos, file, place)?;
    Ok((place, slot))
}

// Writes a leader, and then the page of the directory that names it.
fn write_file(
    draft: &mut Draft,
    place: u32,
    leader: &Leader,
    slot: u32,
    entries: Page,
) -> Result<(), OutOfMemory>
    requires size { leader.now.props.size ≤ PAGES_PER_FILE }
    ensures written { OnOk result ((bytes : List ℕ) × (whole leader_page bytes ≡ Some leader.now) × (draft.new.pages ≡ map.insert (map.insert draft.old.pages place bytes) (1 + slot / 32) entries)) }
    ensures undos { draft.new.undos ≡ draft.old.undos }
    ensures few { map.len draft.new.pages ≤ map.len draft.old.pages + 2 }
{
    draft.write(place, leader_page_of(leader))?;
    draft.write(1 + slot / 32, entries)
}

/// Puts the properties of a file that is not there. It gets the lowest place and the lowest entry that are free, and has no
/// page yet.
pub fn put_new_leader<R: PageReader>(
    draft: &mut Draft,
    reader: &mut R,
    catalog: &mut Catalog,
    file: FileId,
    props: Props,
) -> Result<(), VaultFault>
    requires head { HEAD_PAGES ≤ R.home reader.old }
    requires size { props.size ≤ PAGES_PER_FILE }
    requires new { map.get catalog.old.files file ≡ None }
    requires sized { IsCatalog (R.home reader.old) catalog.old }
    ensures put { (m : View) → IsTrue (R.tells reader.old) → IsDraft (R.home reader.old) (laid draft.old.pages (R.pages reader.old)) m catalog.old → ((n : ℕ) → m (PageOf file n) ≡ None) → OnOk result (IsDraft (R.home reader.old) (laid draft.new.pages (R.pages reader.old)) (after (Put (LeaderKey file) (LeaderCell props) ∷ []) m) catalog.new) }
    ensures back { LeadsOn draft.old.undos.items catalog.old draft.new.undos.items catalog.new }
    ensures sized { IsCatalog (R.home reader.old) catalog.new }
    ensures few { map.len draft.new.pages ≤ map.len draft.old.pages + 2 }
    ensures read { HasRead R.ReadOn R.faults R.allowance reader.old reader.new result }
{
    let Ok((place, slot)) = take_file(draft, catalog, file) else {
        return Err(VaultFault::OutOfMemory);
    };
    let entries = entry_page(draft, reader, slot, &Some(Entry { file, place }))?;
    let leader = Leader {
        file,
        props,
        index: Places::new([0; 32]),
    };
    match write_file(draft, place, &leader, slot, entries) {
        Ok(()) => Ok(()),
        Err(OutOfMemory) => Err(VaultFault::OutOfMemory),
    }
}
