//! Reading the owners' pages.
ghost use Rattle.std.specs.Prelude.{◌≡◌, ◌≤◌, ◌<◌, ◌+◌, ℕ, List, length, IsTrue, IfOk, true, false};
ghost use Rattle.std.specs.FinMap as map;
ghost use Rattle.alp_pages.specs.Pages.{Pages as PagesOf, row_in};
ghost use Rattle.alp_pages.specs.Damage.{Name, is_right_row};
ghost use Rattle.alp_volume.specs.Reached.{AreCosts, AreOwners, IsJudged, rows_from};
ghost use Rattle.alp_pages.specs.Reading.{HasRead};
ghost use Rattle.alp_volume.specs.Known.{IsCatalog};

use crate::catalog::Catalog;
use alp_base::VaultFault;
use alp_pages::{OwnerRow, PageReader, read_row};
use alp_tables::{Cost, charge_of};
use alp_vault::HEAD_PAGES;
use std::alloc::Global;

// Takes a row in, unless it is outside the grammar, names an owner for the second time, or its charge is wrong.
fn add_owner(catalog: &mut Catalog, row: u32, found: OwnerRow, costs: &[Cost]) -> bool
    requires row { row < 256 }
    requires room { map.len catalog.old.owners < 256 }
    requires few { length costs.now ≤ 4096 }
    ensures judged { (at : PagesOf) → found ≡ row_in at row → AreCosts at costs.now → AreOwners at row catalog.old.owners catalog.old.rows → result ≡ is_right_row at row (row_in at row) }
    ensures owned { (at : PagesOf) → found ≡ row_in at row → AreOwners at row catalog.old.owners catalog.old.rows → result ≡ true → AreOwners at (row + 1) catalog.new.owners catalog.new.rows }
    ensures files { (catalog.new.files ≡ catalog.old.files) × (catalog.new.slots ≡ catalog.old.slots) }
    ensures places { catalog.new.places ≡ catalog.old.places }
    ensures sized { (home : ℕ) → IsCatalog home catalog.old → IsCatalog home catalog.new }
    ensures few { map.len catalog.new.owners ≤ map.len catalog.old.owners + 1 }
{
    let Some(found) = found else {
        return false;
    };
    let Some(owner) = found else {
        return true;
    };
    if u64::from(owner.charge) != charge_of(costs, &owner.name) {
        return false;
    }
    let _ = catalog.rows.mark(row);
    catalog.owners.add(owner.name, row)
}

/// Takes the owners in, up to the first of their pages that is damaged.
pub fn read_owners<R: PageReader>(
    alloc: Global,
    reader: &mut R,
    catalog: &mut Catalog,
    costs: &[Cost],
) -> Result<Option<u32>, VaultFault>
    requires home { HEAD_PAGES < R.home reader.old }
    requires empty { map.len catalog.old.owners ≡ 0 }
    requires few { length costs.now ≤ 4096 }
    ensures judged { (home : ℕ) (names : List Name) → IsTrue (R.tells reader.old) → AreCosts (R.pages reader.old) costs.now → AreOwners (R.pages reader.old) 0 catalog.old.owners catalog.old.rows → IfOk result (IsJudged home (R.pages reader.old) names (rows_from 0) (λ ns. (ns ≡ names) × AreOwners (R.pages reader.old) 256 catalog.new.owners catalog.new.rows)) }
    ensures files { (catalog.new.files ≡ catalog.old.files) × (catalog.new.slots ≡ catalog.old.slots) }
    ensures places { catalog.new.places ≡ catalog.old.places }
    ensures sized { (home : ℕ) → IsCatalog home catalog.old → IsCatalog home catalog.new }
    ensures read { HasRead R.ReadOn R.faults R.allowance reader.old reader.new result }
{
    for row in 0..256u32 {
        let found = read_row(alloc, reader, row)?;
        if !add_owner(catalog, row, found, costs) {
            return Ok(Some(129 + row / 2));
        }
    }
    Ok(None)
}
