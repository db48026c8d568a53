//! Taking into memory what single entries, rows and leaders say, unless they are outside the grammar.
ghost use Rattle.std.specs.Prelude.{◌≡◌, ◌≤◌, ◌<◌, ◌+◌, ℕ, List, length, true, false, Some, Option};
ghost use Rattle.std.specs.FinMap as map;
ghost use Rattle.alp_pages.specs.Pages.{Pages as PagesOf, entry_in};
ghost use Rattle.alp_pages.specs.Damage.{Name, Slot, added, names_in, is_right};
ghost use Rattle.alp_volume.specs.Reached.{AreListed, AreMarks};
ghost use Rattle.alp_volume.specs.Known.{IsCatalog};

use crate::catalog::Catalog;
use alp_pages::Entry;
use alp_tables::FileSlot;

// A file with its entry, unless it or its place is known.
fn add_file(catalog: &mut Catalog, slot: u32, entry: Entry) -> bool
    requires slot { slot < 4096 }
    requires room { map.len catalog.old.files < 4096 }
    ensures judged { (home : ℕ) (at : PagesOf) (names : List Name) → entry_in at slot ≡ Some (Some entry) → AreMarks home names catalog.old.places → AreListed home at slot names catalog.old.files catalog.old.slots → result ≡ is_right home at names (Slot slot) }
    ensures marked { (home : ℕ) (at : PagesOf) (names : List Name) → entry_in at slot ≡ Some (Some entry) → AreMarks home names catalog.old.places → result ≡ true → AreMarks home (added names (names_in at (Slot slot))) catalog.new.places }
    ensures listed { (home : ℕ) (at : PagesOf) (names : List Name) → entry_in at slot ≡ Some (Some entry) → AreMarks home names catalog.old.places → AreListed home at slot names catalog.old.files catalog.old.slots → result ≡ true → AreListed home at (slot + 1) (added names (names_in at (Slot slot))) catalog.new.files catalog.new.slots }
    ensures others { (catalog.new.owners ≡ catalog.old.owners) × (catalog.new.rows ≡ catalog.old.rows) }
    ensures long { length catalog.new.places ≡ length catalog.old.places }
    ensures sized { (home : ℕ) → IsCatalog home catalog.old → IsCatalog home catalog.new }
    ensures few { map.len catalog.new.files ≤ map.len catalog.old.files + 1 }
{
    if !catalog.places.mark(entry.place) {
        return false;
    }
    let _ = catalog.slots.mark(slot);
    let kept = FileSlot {
        slot,
        place: entry.place,
        blocks: 0,
    };
    catalog.files.add(entry.file, kept)
}

/// Takes an entry of the directory in, unless it is outside the grammar or names a file or a place for the second time.
pub fn add_entry(catalog: &mut Catalog, slot: u32, found: &Option<Option<Entry>>) -> bool
    requires slot { slot < 4096 }
    requires room { map.len catalog.old.files < 4096 }
    ensures judged { (home : ℕ) (at : PagesOf) (names : List Name) → found.now ≡ entry_in at slot → AreMarks home names catalog.old.places → AreListed home at slot names catalog.old.files catalog.old.slots → result ≡ is_right home at names (Slot slot) }
    ensures marked { (home : ℕ) (at : PagesOf) (names : List Name) → found.now ≡ entry_in at slot → AreMarks home names catalog.old.places → result ≡ true → AreMarks home (added names (names_in at (Slot slot))) catalog.new.places }
    ensures listed { (home : ℕ) (at : PagesOf) (names : List Name) → found.now ≡ entry_in at slot → AreMarks home names catalog.old.places → AreListed home at slot names catalog.old.files catalog.old.slots → result ≡ true → AreListed home at (slot + 1) (added names (names_in at (Slot slot))) catalog.new.files catalog.new.slots }
    ensures others { (catalog.new.owners ≡ catalog.old.owners) × (catalog.new.rows ≡ catalog.old.rows) }
    ensures long { length catalog.new.places ≡ length catalog.old.places }
    ensures sized { (home : ℕ) → IsCatalog home catalog.old → IsCatalog home catalog.new }
    ensures few { map.len catalog.new.files ≤ map.len catalog.old.files + 1 }
{
    match *found {
        None => false,
        Some(None) => true,
        Some(Some(entry)) => add_file(catalog, slot, entry),
    }
}
