//! Fetching the cells of a volume: at most three pages are read for one.
ghost use Rattle.std.specs.Prelude.{◌≡◌, ◌<◌, ◌/◌, ◌%◌, ◌*◌, ℕ, List, IsTrue, IfOk, Some, None, option_map};
ghost use Rattle.alp_base.specs.declared.ids.FileId.{FileId as File};
ghost use Rattle.alp_base.specs.declared.key.Key.TheVariants.{PageOf, Leader as LeaderKey, OwnerOf};
ghost use Rattle.alp_fields.specs.Forms.{whole};
ghost use Rattle.std.specs.FinMap as map;
ghost use Rattle.alp_files.specs.Cells.{Cells, View, owner_in};
ghost use Rattle.alp_base.specs.declared.cell.Cell.TheVariants.{Page as PageCell, Leader as LeaderCell};
ghost use Rattle.alp_pages.specs.Leader.{leader_page};
ghost use Rattle.alp_pages.specs.Nodes.{LeaderOf, IndexOf};
ghost use Rattle.alp_pages.specs.Pages.{row_in};
ghost use Rattle.alp_pages.specs.Volume.{Volume as VolumeOf, Spells};
ghost use Rattle.alp_pages.specs.Fetch.{named_by};
ghost use Rattle.alp_pages.specs.Counted.{is_held};
ghost use Rattle.alp_pages.specs.Reading.{HasRead};

use crate::index::decode_index;
use crate::owners::{OwnerRow, owner_at};
use crate::reader::PageReader;
use crate::{Leader, decode_leader};
use alp_base::{FileId, OutOfMemory, OwnerRecord, Page, PageRef, Props, VaultFault};
use std::alloc::Global;

pub fn copy_of(page: &PageRef) -> Page
    ensures { result ≡ page.now }
{
    let mut bytes = [0u8; 512];
    bytes.copy_from_slice(page.bytes());
    Page::new(bytes)
}

/// The leader on a page, if the page is one of a leader.
pub fn read_leader<R: PageReader>(
    alloc: Global,
    reader: &mut R,
    at: u32,
) -> Result<Option<Leader>, VaultFault>
    requires { at < R.home reader.old }
    ensures leader { IsTrue (R.tells reader.old) → IfOk result (λ o. o ≡ whole leader_page (R.pages reader.old at)) }
    ensures read { HasRead R.ReadOn R.faults R.allowance reader.old reader.new result }
{
    let page = copy_of(&reader.page(at)?);
    match decode_leader(alloc, &page) {
        Ok(leader) => Ok(leader),
        Err(OutOfMemory) => Err(VaultFault::OutOfMemory),
    }
}

/// The place of the index page of a block, by the file's leader.
fn index_place<R: PageReader>(
    alloc: Global,
    reader: &mut R,
    file: FileId,
    leader_at: u32,
    block: usize,
) -> Result<Option<u32>, VaultFault>
    requires at { leader_at < R.home reader.old }
    requires block { block < 32 }
    ensures place { IsTrue (R.tells reader.old) → IfOk result (λ o. o ≡ named_by (R.pages reader.old) (LeaderOf file) (Some leader_at) block) }
    ensures read { HasRead R.ReadOn R.faults R.allowance reader.old reader.new result }
{
    let Some(leader) = read_leader(alloc, reader, leader_at)? else {
        return Ok(None);
    };
    if leader.file != file {
        return Ok(None);
    }
    let place = leader.index.at(block);
    if place == 0 {
        return Ok(None);
    }
    Ok(Some(place))
}

/// The place of a page of data, by its index page.
fn page_place<R: PageReader>(
    reader: &mut R,
    file: FileId,
    index_at: u32,
    number: u32,
) -> Result<Option<u32>, VaultFault>
    requires { index_at < R.home reader.old }
    ensures place { IsTrue (R.tells reader.old) → IfOk result (λ o. o ≡ named_by (R.pages reader.old) (IndexOf file (number / 128)) (Some index_at) (number % 128)) }
    ensures read { HasRead R.ReadOn R.faults R.allowance reader.old reader.new result }
{
    let page = reader.page(index_at)?;
    let Some(places) = decode_index(page.bytes()) else {
        return Ok(None);
    };
    let place = places.at((number % 128) as usize);
    if place == 0 {
        return Ok(None);
    }
    Ok(Some(place))
}

/// A page of the file whose leader stands there, if the file has that page.
///
/// On a disk whose contents are not told a place may lie outside the volume; then there is no page.
pub fn fetch_page<R: PageReader>(
    alloc: Global,
    reader: &mut R,
    home: u32,
    file: FileId,
    leader_at: u32,
    number: u32,
) -> Result<Option<PageRef>, VaultFault>
    requires home { home ≡ R.home reader.old }
    requires at { leader_at < home }
    requires number { number < 4096 }
    ensures page { (v : VolumeOf) (m : View) → IsTrue (R.tells reader.old) → Spells home (R.pages reader.old) v m → v.places.of (LeaderOf file) ≡ Some leader_at → IfOk result (λ o. option_map PageCell o ≡ m (PageOf file number)) }
    ensures read { HasRead R.ReadOn R.faults R.allowance reader.old reader.new result }
{
    let block = (number / 128) as usize;
    let Some(index_at) = index_place(alloc, reader, file, leader_at, block)? else {
        return Ok(None);
    };
    if index_at >= home {
        return Ok(None);
    }
    let Some(place) = page_place(reader, file, index_at, number)? else {
        return Ok(None);
    };
    if place >= home {
        return Ok(None);
    }
    Ok(Some(reader.page(place)?))
}

/// Whether the file whose leader stands there has a page in the block. One page is read.
pub fn fetch_block<R: PageReader>(
    alloc: Global,
    reader: &mut R,
    file: FileId,
    leader_at: u32,
    block: u32,
) -> Result<bool, VaultFault>
    requires at { leader_at < R.home reader.old }
    requires block { block < 32 }
    ensures block { (home : ℕ) (v : VolumeOf) (m : Cells) → IsTrue (R.tells reader.old) → Spells home (R.pages reader.old) v (map.get m) → v.places.of (LeaderOf file) ≡ Some leader_at → IfOk result (λ has. has ≡ is_held m (IndexOf file block)) }
    ensures read { HasRead R.ReadOn R.faults R.allowance reader.old reader.new result }
{
    let place = index_place(alloc, reader, file, leader_at, block as usize)?;
    Ok(place.is_some())
}

/// The properties of the file whose leader stands there.
pub fn fetch_leader<R: PageReader>(
    alloc: Global,
    reader: &mut R,
    at: u32,
) -> Result<Option<Props>, VaultFault>
    requires { at < R.home reader.old }
    ensures props { (home : ℕ) (v : VolumeOf) (m : View) (f : File) → IsTrue (R.tells reader.old) → Spells home (R.pages reader.old) v m → v.places.of (LeaderOf f) ≡ Some at → IfOk result (λ o. option_map LeaderCell o ≡ m (LeaderKey f)) }
    ensures read { HasRead R.ReadOn R.faults R.allowance reader.old reader.new result }
{
    let Some(leader) = read_leader(alloc, reader, at)? else {
        return Ok(None);
    };
    Ok(Some(leader.props))
}

/// What a row of the owners' pages holds.
pub fn read_row<R: PageReader>(
    alloc: Global,
    reader: &mut R,
    row: u32,
) -> Result<OwnerRow, VaultFault>
    requires row { row < 256 }
    requires home { 257 < R.home reader.old }
    ensures row { IsTrue (R.tells reader.old) → IfOk result (λ o. o ≡ row_in (R.pages reader.old) row) }
    ensures read { HasRead R.ReadOn R.faults R.allowance reader.old reader.new result }
{
    let page = reader.page(129 + row / 2)?;
    match owner_at(alloc, page.bytes(), (row % 2) as usize) {
        Ok(found) => Ok(found),
        Err(OutOfMemory) => Err(VaultFault::OutOfMemory),
    }
}

/// The record of the owner in a row.
pub fn fetch_owner<R: PageReader>(
    alloc: Global,
    reader: &mut R,
    row: u32,
) -> Result<Option<OwnerRecord>, VaultFault>
    requires row { row < 256 }
    requires home { 257 < R.home reader.old }
    ensures record { (home : ℕ) (v : VolumeOf) (m : View) (name : List ℕ) → IsTrue (R.tells reader.old) → Spells home (R.pages reader.old) v m → v.rows.of name ≡ Some row → IfOk result (λ o. o ≡ owner_in (m (OwnerOf name))) }
    ensures read { HasRead R.ReadOn R.faults R.allowance reader.old reader.new result }
{
    let Some(found) = read_row(alloc, reader, row)? else {
        return Ok(None);
    };
    Ok(found)
}
