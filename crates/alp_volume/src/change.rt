//! A change of a volume.
ghost use Rattle.std.specs.Prelude.{◌≡◌, ◌≤◌, IsTrue, OnOk, IfOk, IfErr, true, ◌+◌, ◌*◌, length, sum_by};
ghost use Rattle.std.specs.FinMap as map;
ghost use Rattle.alp_files.specs.Cells.{Cells, View};
ghost use Rattle.alp_files.specs.Changes.{edits_of};
ghost use Rattle.alp_files.specs.Edits.{after, edits_map};
ghost use Rattle.alp_files.specs.Sound.{AreSound};
ghost use Rattle.alp_files.specs.Undo.{puts_of};
ghost use Rattle.alp_vault.specs.Volumes.{changed_cells, fit_keys};
ghost use Rattle.alp_pages.specs.Changes.{cuts_of, drops_of};
ghost use Rattle.alp_volume.specs.Drafts.{AreBelow, ArePaged, HaveLeaders, IsDraft, IsPlanned, laid};
ghost use Rattle.alp_volume.specs.Known.{IsCatalog, Knows};
ghost use Rattle.alp_volume.specs.Puts.{HaveLeadersPut, head_pages, heads_made, page_pages, pages_made};
ghost use Rattle.alp_pages.specs.Reading.{HasRead};
ghost use Rattle.alp_volume.specs.Undone.{Leads, LeadsOn};
ghost use Rattle.alp_pages.specs.Volume.{StandFor};

use crate::catalog::Catalog;
use crate::cut_file::{cut_file, drop_file};
use crate::draft::Draft;
use crate::put_cell::{put_head, put_late};
use alp_base::{Cell, Change, FileId, Key, VaultFault};
use alp_pages::PageReader;
use alp_vault::HEAD_PAGES;
use std::alloc::Global;

fn make_drops<R: PageReader>(
    alloc: Global,
    draft: &mut Draft,
    reader: &mut R,
    catalog: &mut Catalog,
    drops: &[FileId],
) -> Result<(), VaultFault>
    requires head { HEAD_PAGES ≤ R.home reader.old }
    requires sized { IsCatalog (R.home reader.old) catalog.old }
    ensures dropped { (m : View) → IsTrue (R.tells reader.old) → IsDraft (R.home reader.old) (laid draft.old.pages (R.pages reader.old)) m catalog.old → HaveLeaders m → OnOk result (IsDraft (R.home reader.old) (laid draft.new.pages (R.pages reader.old)) (after (drops_of drops.now) m) catalog.new × HaveLeaders (after (drops_of drops.now) m)) }
    ensures back { LeadsOn draft.old.undos.items catalog.old draft.new.undos.items catalog.new }
    ensures sized { IsCatalog (R.home reader.old) catalog.new }
    ensures few { map.len draft.new.pages ≤ map.len draft.old.pages + 3 * length drops.now }
    ensures read { HasRead R.ReadOn R.faults R.allowance reader.old reader.new result }
{
    for file in drops {
        drop_file(alloc, draft, reader, catalog, *file)?;
    }
    Ok(())
}

fn make_cuts<R: PageReader>(
    alloc: Global,
    draft: &mut Draft,
    reader: &mut R,
    catalog: &mut Catalog,
    cuts: &[(FileId, u32)],
) -> Result<(), VaultFault>
    requires sized { IsCatalog (R.home reader.old) catalog.old }
    ensures cut { (m : View) → IsTrue (R.tells reader.old) → IsDraft (R.home reader.old) (laid draft.old.pages (R.pages reader.old)) m catalog.old → HaveLeaders m → OnOk result (IsDraft (R.home reader.old) (laid draft.new.pages (R.pages reader.old)) (after (cuts_of cuts.now) m) catalog.new × HaveLeaders (after (cuts_of cuts.now) m)) }
    ensures back { LeadsOn draft.old.undos.items catalog.old draft.new.undos.items catalog.new }
    ensures sized { IsCatalog (R.home reader.old) catalog.new }
    ensures few { map.len draft.new.pages ≤ map.len draft.old.pages + 2 * length cuts.now }
    ensures read { HasRead R.ReadOn R.faults R.allowance reader.old reader.new result }
{
    for cut in cuts {
        cut_file(alloc, draft, reader, catalog, cut.0, cut.1)?;
    }
    Ok(())
}

// The leaders and owners among the puts.
fn put_heads<R: PageReader>(
    alloc: Global,
    draft: &mut Draft,
    reader: &mut R,
    catalog: &mut Catalog,
    puts: &[(Key, Cell)],
) -> Result<(), VaultFault>
    requires head { HEAD_PAGES ≤ R.home reader.old }
    requires fits { fit_keys puts.now ≡ true }
    requires sized { IsCatalog (R.home reader.old) catalog.old }
    ensures put { (m : View) → IsTrue (R.tells reader.old) → IsDraft (R.home reader.old) (laid draft.old.pages (R.pages reader.old)) m catalog.old → HaveLeaders m → OnOk result (IsDraft (R.home reader.old) (laid draft.new.pages (R.pages reader.old)) (heads_made puts.now m) catalog.new) }
    ensures back { LeadsOn draft.old.undos.items catalog.old draft.new.undos.items catalog.new }
    ensures sized { IsCatalog (R.home reader.old) catalog.new }
    ensures few { map.len draft.new.pages ≤ map.len draft.old.pages + sum_by head_pages puts.now }
    ensures read { HasRead R.ReadOn R.faults R.allowance reader.old reader.new result }
{
    for put in puts {
        put_head(alloc, draft, reader, catalog, put.0, &put.1)?;
    }
    Ok(())
}

// The pages among the puts.
fn put_pages<R: PageReader>(
    alloc: Global,
    draft: &mut Draft,
    reader: &mut R,
    catalog: &mut Catalog,
    puts: &[(Key, Cell)],
) -> Result<(), VaultFault>
    requires fits { fit_keys puts.now ≡ true }
    requires sized { IsCatalog (R.home reader.old) catalog.old }
    ensures put { (m : View) → IsTrue (R.tells reader.old) → IsDraft (R.home reader.old) (laid draft.old.pages (R.pages reader.old)) m catalog.old → HaveLeadersPut m puts.now → OnOk result (IsDraft (R.home reader.old) (laid draft.new.pages (R.pages reader.old)) (pages_made puts.now m) catalog.new) }
    ensures back { LeadsOn draft.old.undos.items catalog.old draft.new.undos.items catalog.new }
    ensures sized { IsCatalog (R.home reader.old) catalog.new }
    ensures few { map.len draft.new.pages ≤ map.len draft.old.pages + sum_by page_pages puts.now }
    ensures read { HasRead R.ReadOn R.faults R.allowance reader.old reader.new result }
{
    for put in puts {
        put_late(alloc, draft, reader, catalog, put.0, &put.1)?;
    }
    Ok(())
}

// The puts: leaders and owners come before pages, whatever their order.
fn make_puts<R: PageReader>(
    alloc: Global,
    draft: &mut Draft,
    reader: &mut R,
    catalog: &mut Catalog,
    puts: &[(Key, Cell)],
) -> Result<(), VaultFault>
    requires head { HEAD_PAGES ≤ R.home reader.old }
    requires fits { fit_keys puts.now ≡ true }
    requires sized { IsCatalog (R.home reader.old) catalog.old }
    ensures put { (m : View) → IsTrue (R.tells reader.old) → IsDraft (R.home reader.old) (laid draft.old.pages (R.pages reader.old)) m catalog.old → HaveLeaders m → ArePaged (after (puts_of puts.now) m) → OnOk result (IsDraft (R.home reader.old) (laid draft.new.pages (R.pages reader.old)) (after (puts_of puts.now) m) catalog.new) }
    ensures back { LeadsOn draft.old.undos.items catalog.old draft.new.undos.items catalog.new }
    ensures sized { IsCatalog (R.home reader.old) catalog.new }
    ensures few { map.len draft.new.pages ≤ map.len draft.old.pages + 3 * length puts.now }
    ensures read { HasRead R.ReadOn R.faults R.allowance reader.old reader.new result }
{
    put_heads(alloc, draft, reader, catalog, puts)?;
    put_pages(alloc, draft, reader, catalog, puts)
}

// First the drops, then the cuts.
fn make_room<R: PageReader>(
    alloc: Global,
    draft: &mut Draft,
    reader: &mut R,
    catalog: &mut Catalog,
    change: &Change,
) -> Result<(), VaultFault>
    requires head { HEAD_PAGES ≤ R.home reader.old }
    requires sized { IsCatalog (R.home reader.old) catalog.old }
    ensures cut { (m : View) → IsTrue (R.tells reader.old) → IsDraft (R.home reader.old) (laid draft.old.pages (R.pages reader.old)) m catalog.old → HaveLeaders m → OnOk result (IsDraft (R.home reader.old) (laid draft.new.pages (R.pages reader.old)) (after (cuts_of change.now.cuts) (after (drops_of change.now.drops) m)) catalog.new × HaveLeaders (after (cuts_of change.now.cuts) (after (drops_of change.now.drops) m))) }
    ensures back { LeadsOn draft.old.undos.items catalog.old draft.new.undos.items catalog.new }
    ensures sized { IsCatalog (R.home reader.old) catalog.new }
    ensures few { map.len draft.new.pages ≤ map.len draft.old.pages + (3 * length change.now.drops + 2 * length change.now.cuts) }
    ensures read { HasRead R.ReadOn R.faults R.allowance reader.old reader.new result }
{
    make_drops(alloc, draft, reader, catalog, change.drops.as_slice())?;
    make_cuts(alloc, draft, reader, catalog, change.cuts.as_slice())
}

// Makes the change. Without memory only a part of it is made.
fn make_change<R: PageReader>(
    alloc: Global,
    draft: &mut Draft,
    reader: &mut R,
    catalog: &mut Catalog,
    change: &Change,
) -> Result<(), VaultFault>
    requires head { HEAD_PAGES ≤ R.home reader.old }
    requires fits { fit_keys change.now.puts ≡ true }
    requires sized { IsCatalog (R.home reader.old) catalog.old }
    ensures made { (m : View) → IsTrue (R.tells reader.old) → IsDraft (R.home reader.old) (laid draft.old.pages (R.pages reader.old)) m catalog.old → HaveLeaders m → ArePaged (after (edits_of change.now) m) → OnOk result (IsDraft (R.home reader.old) (laid draft.new.pages (R.pages reader.old)) (after (edits_of change.now) m) catalog.new) }
    ensures back { LeadsOn draft.old.undos.items catalog.old draft.new.undos.items catalog.new }
    ensures sized { IsCatalog (R.home reader.old) catalog.new }
    ensures below { OnOk result (AreBelow (R.home reader.old) draft.new.pages) }
    ensures few { map.len draft.new.pages ≤ map.len draft.old.pages + 4 * changed_cells change.now }
    ensures read { HasRead R.ReadOn R.faults R.allowance reader.old reader.new result }
{
    make_room(alloc, draft, reader, catalog, change)?;
    make_puts(alloc, draft, reader, catalog, change.puts.as_slice())?;
    // Pages that a reader does not tell may have changed since the volume was read, and name places outside it.
    if !draft.pages.are_below(catalog.places.len()) {
        return Err(VaultFault::OutOfMemory);
    }
    Ok(())
}

/// The pages that make a change, and what takes the catalog back. The catalog has the change at once; where it fails the
/// catalog is as it was.
pub fn plan_change<R: PageReader>(
    alloc: Global,
    reader: &mut R,
    catalog: &mut Catalog,
    change: &Change,
) -> Result<Draft, VaultFault>
    requires head { HEAD_PAGES ≤ R.home reader.old }
    requires fits { fit_keys change.now.puts ≡ true }
    requires sized { IsCatalog (R.home reader.old) catalog.old }
    ensures planned { (m : Cells) (stands : StandFor (R.home reader.old) (R.pages reader.old) m) → IsTrue (R.tells reader.old) → Knows (R.home reader.old) stands.volume catalog.old → AreSound (edits_map (edits_of change.now) m) → IfOk result (λ d. IsPlanned (R.home reader.old) (laid d.pages (R.pages reader.old)) (edits_map (edits_of change.now) m) catalog.new) }
    ensures below { IfOk result (λ d. AreBelow (R.home reader.old) d.pages) }
    ensures few { IfOk result (λ d. map.len d.pages ≤ 4 * changed_cells change.now) }
    ensures back { IfOk result (λ d. Leads d.undos.items catalog.new catalog.old) }
    ensures same { IfErr result (λ _. catalog.new ≡ catalog.old) }
    ensures sized { IsCatalog (R.home reader.old) catalog.new }
    ensures read { HasRead R.ReadOn R.faults R.allowance reader.old reader.new result }
{
    let mut draft = Draft::new(alloc);
    match make_change(alloc, &mut draft, reader, catalog, change) {
        Ok(()) => Ok(draft),
        Err(fault) => {
            catalog.take_back(&mut draft.undos);
            Err(fault)
        }
    }
}
