//! Reading a volume: what memory keeps of it, or its first damaged page.
ghost use Rattle.std.specs.Prelude.{◌≡◌, ◌≤◌, ◌<◌, ℕ, List, [], ◌∷◌, length, IsTrue, IfOk, OnOk, IsErrOf, None, Some};
ghost use Rattle.std.specs.FinMap as map;
ghost use Rattle.alp_base.specs.declared.faults.VaultFault.TheVariants as fault;
ghost use Rattle.alp_files.specs.Cells.{Cells};
ghost use Rattle.alp_pages.specs.Volume.{StandFor};
ghost use Rattle.alp_pages.specs.Damage.{Header, Name, damage_of, parts};
ghost use Rattle.alp_volume.specs.Reached.{AreListed, AreMarks, AreOwners, AreWithin, IsJudged, rows_from, slots_from};
ghost use Rattle.alp_volume.specs.Known.{IsBlank, IsCatalog, IsRead, Knows};
ghost use Rattle.alp_pages.specs.Reading.{HasRead, HasReadAll};

use crate::catalog::Catalog;
use crate::charges::read_costs;
use crate::directory::{read_directory, read_header};
use crate::owner_pages::read_owners;
use crate::volume_files::read_files;
use alp_base::{OutOfMemory, VaultFault};
use alp_pages::PageReader;
use alp_vault::HEAD_PAGES;
use std::alloc::Global;

// The header and the directory.
fn judge_head<R: PageReader>(
    reader: &mut R,
    catalog: &mut Catalog,
) -> Result<Option<u32>, VaultFault>
    requires head { HEAD_PAGES ≤ R.home reader.old }
    requires empty { map.len catalog.old.files ≡ 0 }
    ensures judged { (home : ℕ) → IsTrue (R.tells reader.old) → AreMarks home [] catalog.old.places → AreListed home (R.pages reader.old) 0 [] catalog.old.files catalog.old.slots → IfOk result (IsJudged home (R.pages reader.old) [] (Header ∷ slots_from 0) (λ ns. AreMarks home ns catalog.new.places × AreListed home (R.pages reader.old) 4096 ns catalog.new.files catalog.new.slots)) }
    ensures others { (catalog.new.owners ≡ catalog.old.owners) × (catalog.new.rows ≡ catalog.old.rows) }
    ensures long { length catalog.new.places ≡ length catalog.old.places }
    ensures sized { (home : ℕ) → IsCatalog home catalog.old → IsCatalog home catalog.new }
    ensures read { HasRead R.ReadOn R.faults R.allowance reader.old reader.new result }
{
    if !read_header(reader)? {
        return Ok(Some(0));
    }
    read_directory(reader, catalog)
}

// The owners, whose charges are the sums of the sizes.
fn judge_owners<R: PageReader>(
    alloc: Global,
    reader: &mut R,
    catalog: &mut Catalog,
    home: u32,
) -> Result<Option<u32>, VaultFault>
    requires home { home ≡ R.home reader.old }
    requires head { HEAD_PAGES < home }
    requires empty { map.len catalog.old.owners ≡ 0 }
    ensures judged { (names : List Name) → IsTrue (R.tells reader.old) → AreWithin home (R.pages reader.old) → AreOwners (R.pages reader.old) 0 catalog.old.owners catalog.old.rows → IfOk result (IsJudged home (R.pages reader.old) names (rows_from 0) (λ ns. (ns ≡ names) × AreOwners (R.pages reader.old) 256 catalog.new.owners catalog.new.rows)) }
    ensures files { (catalog.new.files ≡ catalog.old.files) × (catalog.new.slots ≡ catalog.old.slots) }
    ensures places { catalog.new.places ≡ catalog.old.places }
    ensures sized { (home : ℕ) → IsCatalog home catalog.old → IsCatalog home catalog.new }
    ensures read { HasRead R.ReadOn R.faults R.allowance reader.old reader.new result }
{
    let costs = read_costs(alloc, reader, home)?;
    read_owners(alloc, reader, catalog, &costs)
}

// All of the volume, up to the first page that is damaged.
fn judge_volume<R: PageReader>(
    alloc: Global,
    reader: &mut R,
    catalog: &mut Catalog,
    home: u32,
) -> Result<Option<u32>, VaultFault>
    requires home { home ≡ R.home reader.old }
    requires head { HEAD_PAGES < home }
    requires blank { IsBlank home catalog.old }
    ensures judged { IsTrue (R.tells reader.old) → IfOk result (IsJudged home (R.pages reader.old) [] (parts (R.pages reader.old)) (λ ns. IsRead home (R.pages reader.old) ns catalog.new)) }
    ensures sized { IsCatalog home catalog.new }
    ensures read { HasRead R.ReadOn R.faults R.allowance reader.old reader.new result }
{
    if let Some(wrong) = judge_head(reader, catalog)? {
        return Ok(Some(wrong));
    }
    if let Some(wrong) = judge_owners(alloc, reader, catalog, home)? {
        return Ok(Some(wrong));
    }
    read_files(alloc, reader, catalog)
}

/// Reads a volume of so many home pages, or names the first of them that is damaged.
pub fn read_volume<R: PageReader>(
    alloc: Global,
    reader: &mut R,
    home: u32,
) -> Result<Catalog, VaultFault>
    requires home { home ≡ R.home reader.old }
    requires head { HEAD_PAGES < home }
    ensures known { (m : Cells) (standing : StandFor home (R.pages reader.old) m) → IsTrue (R.tells reader.old) → IfOk result (λ c. Knows home standing.volume c) }
    ensures sized { IfOk result (λ c. IsCatalog home c) }
    ensures right { IsTrue (R.tells reader.old) → OnOk result (damage_of home (R.pages reader.old) ≡ None) }
    ensures damaged { (place : ℕ) → IsTrue (R.tells reader.old) → IsErrOf result (fault.Damaged place) → damage_of home (R.pages reader.old) ≡ Some place }
    ensures read { HasReadAll R.ReadOn R.faults R.allowance reader.old reader.new result }
{
    let mut catalog = match Catalog::new(alloc, home) {
        Ok(catalog) => catalog,
        Err(OutOfMemory) => return Err(VaultFault::OutOfMemory),
    };
    match judge_volume(alloc, reader, &mut catalog, home)? {
        Some(place) => Err(VaultFault::Damaged { place }),
        None => Ok(catalog),
    }
}
