//! Taking leaders into memory.
ghost use Rattle.std.specs.Prelude.{◌≡◌, ◌<◌, ◌⊎◌, ℕ, List, length, true, false, None, Some, slice_index};
ghost use Rattle.std.specs.FinMap as map;
ghost use Rattle.alp_fields.specs.Forms.{whole};
ghost use Rattle.alp_pages.specs.Leader.{leader_page};
ghost use Rattle.alp_tables.specs.declared.file_slot.FileSlot.{FileSlot as ASlot};
ghost use Rattle.alp_pages.specs.Nodes.{LeaderOf};
ghost use Rattle.alp_pages.specs.Pages.{Pages as PagesOf};
ghost use Rattle.alp_pages.specs.Damage.{Name, NodePage, added, is_right, names_in};
ghost use Rattle.alp_volume.specs.Reached.{AreFresh, AreMarks, AreOwners, IsKept};
ghost use Rattle.alp_volume.specs.Known.{IsCatalog};

use crate::blocks::blocks_of;
use crate::catalog::Catalog;
use crate::marks::mark_row;
use alp_base::FileId;
use alp_pages::{Leader, Places};
use alp_tables::{FileSlot, FileTable};

// Keeps which blocks of the file have an index page.
fn keep_blocks(files: &mut FileTable, file: FileId, index: &Places)
    ensures kept { (x : ASlot) → map.get files.old file ≡ Some x → (y : ASlot) × (files.new ≡ map.insert files.old file y) × IsKept x y index.now }
    ensures absent { map.get files.old file ≡ None → files.new ≡ files.old }
{
    let Some(kept) = files.get(file) else {
        return;
    };
    let blocks = blocks_of(index);
    files.put(file, FileSlot { blocks, ..kept });
}

/// Takes a leader in, unless it is another file's, its owner is unknown, or it names a place that is none of the volume's
/// or was named before.
pub fn add_leader(catalog: &mut Catalog, file: FileId, leader: &Leader) -> bool
    requires { length leader.now.index ≡ 32 }
    ensures judged { (home : ℕ) (at : PagesOf) (names : List Name) (place : ℕ) → whole leader_page (at place) ≡ Some leader.now → AreMarks home names catalog.old.places → AreFresh (LeaderOf file) names → AreOwners at 256 catalog.old.owners catalog.old.rows → result ≡ is_right home at names (NodePage (LeaderOf file) 32 place) }
    ensures marked { (home : ℕ) (at : PagesOf) (names : List Name) (place : ℕ) → whole leader_page (at place) ≡ Some leader.now → AreMarks home names catalog.old.places → AreFresh (LeaderOf file) names → result ≡ true → AreMarks home (added names (names_in at (NodePage (LeaderOf file) 32 place))) catalog.new.places }
    ensures kept { result ≡ true → (x : ASlot) → map.get catalog.old.files file ≡ Some x → (y : ASlot) × (catalog.new.files ≡ map.insert catalog.old.files file y) × IsKept x y leader.now.index }
    ensures own { result ≡ true → leader.now.file ≡ file }
    ensures within { result ≡ true → (j : ℕ) → j < 32 → (slice_index leader.now.index j ≡ 0) ⊎ (slice_index leader.now.index j < length catalog.old.places) }
    ensures others { (catalog.new.owners ≡ catalog.old.owners) × (catalog.new.rows ≡ catalog.old.rows) × (catalog.new.slots ≡ catalog.old.slots) }
    ensures long { length catalog.new.places ≡ length catalog.old.places }
    ensures sized { (home : ℕ) → IsCatalog home catalog.old → IsCatalog home catalog.new }
{
    if leader.file != file {
        return false;
    }
    let Some(_) = catalog.owners.get(&leader.props.owner) else {
        return false;
    };
    if !mark_row(&mut catalog.places, 32, leader.index.as_slice()) {
        return false;
    }
    keep_blocks(&mut catalog.files, file, &leader.index);
    true
}
