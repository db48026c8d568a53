//! Reading the header and the directory.
ghost use Rattle.std.specs.Prelude.{◌≡◌, ◌≤◌, ◌<◌, ℕ, List, length, nat_eq, IsTrue, IfOk};
ghost use Rattle.std.specs.FinMap as map;
ghost use Rattle.std.specs.Cmp.Lexicographic.{pointwise};
ghost use Rattle.alp_pages.specs.Pages.{entry_in, header_page};
ghost use Rattle.alp_pages.specs.Damage.{Name};
ghost use Rattle.alp_volume.specs.Reached.{AreListed, AreMarks, IsJudged, slots_from};
ghost use Rattle.alp_pages.specs.Reading.{HasRead};
ghost use Rattle.alp_volume.specs.Known.{IsCatalog};

use crate::catalog::Catalog;
use crate::take_in::add_entry;
use alp_base::VaultFault;
use alp_pages::{Entry, PageReader, entry_at, new_header};
use alp_vault::HEAD_PAGES;

/// Whether the first page is the header of a volume.
pub fn read_header<R: PageReader>(reader: &mut R) -> Result<bool, VaultFault>
    requires { HEAD_PAGES ≤ R.home reader.old }
    ensures header { IsTrue (R.tells reader.old) → IfOk result (λ is. is ≡ pointwise nat_eq (R.pages reader.old 0) header_page) }
    ensures read { HasRead R.ReadOn R.faults R.allowance reader.old reader.new result }
{
    let page = reader.page(0)?;
    Ok(page.bytes() == new_header().bytes())
}

/// The entry of a slot, or nothing where it is outside the grammar.
pub fn read_slot<R: PageReader>(
    reader: &mut R,
    slot: u32,
) -> Result<Option<Option<Entry>>, VaultFault>
    requires slot { slot < 4096 }
    requires home { HEAD_PAGES ≤ R.home reader.old }
    ensures entry { IsTrue (R.tells reader.old) → IfOk result (λ o. o ≡ entry_in (R.pages reader.old) slot) }
    ensures read { HasRead R.ReadOn R.faults R.allowance reader.old reader.new result }
{
    let page = reader.page(1 + slot / 32)?;
    Ok(entry_at(page.bytes(), (slot % 32) as usize))
}

/// Takes the directory in, up to the first page of it that is damaged.
pub fn read_directory<R: PageReader>(
    reader: &mut R,
    catalog: &mut Catalog,
) -> Result<Option<u32>, VaultFault>
    requires home { HEAD_PAGES ≤ R.home reader.old }
    requires empty { map.len catalog.old.files ≡ 0 }
    ensures judged { (home : ℕ) (names : List Name) → IsTrue (R.tells reader.old) → AreMarks home names catalog.old.places → AreListed home (R.pages reader.old) 0 names catalog.old.files catalog.old.slots → IfOk result (IsJudged home (R.pages reader.old) names (slots_from 0) (λ ns. AreMarks home ns catalog.new.places × AreListed home (R.pages reader.old) 4096 ns catalog.new.files catalog.new.slots)) }
    ensures others { (catalog.new.owners ≡ catalog.old.owners) × (catalog.new.rows ≡ catalog.old.rows) }
    ensures long { length catalog.new.places ≡ length catalog.old.places }
    ensures sized { (home : ℕ) → IsCatalog home catalog.old → IsCatalog home catalog.new }
    ensures read { HasRead R.ReadOn R.faults R.allowance reader.old reader.new result }
{
    for slot in 0..4096u32 {
        let found = read_slot(reader, slot)?;
        if !add_entry(catalog, slot, &found) {
            return Ok(Some(1 + slot / 32));
        }
    }
    Ok(None)
}
