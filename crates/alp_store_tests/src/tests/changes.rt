//! Changes of files by numbers that look random: each leaves files sound.
ghost use Rattle.std.specs.Prelude.{◌≡◌, ◌<◌, IfOk, None};
ghost use Rattle.std.specs.FinMap as map;
ghost use Rattle.alp_base.specs.declared.key.Key.TheVariants.{Leader, OwnerOf};
ghost use Rattle.alp_store_tests.specs.FileChanges.{IsFileChange, IsSized, IsCharged};

use super::fixtures::{ann, props_of};
use super::wrong::Wrong;
use alp_base::{
    AccessList, Cell, Change, CutList, FileId, FileList, Key, Name, OwnerRecord, Page, PageRef,
    Props, PutList,
};
use alp_files::CellMap;
use std::alloc::{AllocError, Global};

// How many files there may be.
const FILES: u32 = 4;

// How many pages a file may have: those whose numbers are the first multiples of the stride.
const PAGES: u32 = 16;

const STRIDE: u32 = 37;

fn file_of(number: u32) -> FileId {
    FileId {
        server: 1,
        epoch: 1,
        counter: number % FILES,
    }
}

fn put_keys(keys: &mut Vec<Key>, file: FileId) -> Result<(), AllocError> {
    keys.push(Key::Leader(file))?;
    for page in 0..PAGES {
        keys.push(Key::PageOf(file, page * STRIDE))?;
    }
    Ok(())
}

// All keys at which something may stand.
pub(super) fn all_keys(alloc: Global) -> Result<Vec<Key>, Wrong> {
    let owner = Key::OwnerOf(ann());
    let mut keys = vec![in alloc; owner]?;
    for number in 0..FILES {
        put_keys(&mut keys, file_of(number))?;
    }
    Ok(keys)
}

fn change_of(drops: Vec<FileId>, cuts: Vec<(FileId, u32)>, puts: Vec<(Key, Cell)>) -> Change
    ensures { result ≡ record { drops = drops.items; cuts = cuts.items; puts = puts.items } }
{
    Change {
        drops: FileList::new(drops),
        cuts: CutList::new(cuts),
        puts: PutList::new(puts),
    }
}

// The owner comes.
fn coming(alloc: Global, cells: &CellMap, name: Name) -> Result<Change, Wrong>
    requires { map.get cells.now (OwnerOf name) ≡ None }
    ensures { IfOk result (IsFileChange cells.now) }
{
    let owner = OwnerRecord {
        name,
        quota: 4096,
        charge: 0,
        create: AccessList::new(Vec::new(alloc)),
    };
    let put = (Key::OwnerOf(name), Cell::Owner(owner));
    let puts = vec![in alloc; put]?;
    Ok(change_of(Vec::new(alloc), Vec::new(alloc), puts))
}

// The size of the owner's file, 0 where it does not stand.
fn size_of(cells: &CellMap, owner: Name, file: FileId) -> Result<u32, Wrong>
    ensures { IfOk result (λ size. IsSized owner size (map.get cells.now (Leader file))) }
{
    match cells.get(&Key::Leader(file)) {
        None => Ok(0),
        Some(Cell::Leader(props)) if props.owner == owner => Ok(props.size),
        Some(_) => Err(Wrong::Cell),
    }
}

// The owner's record, charged for a file of the second size in place of one of the first.
fn charged(cells: &CellMap, owner: Name, before: u32, after: u32) -> Result<OwnerRecord, Wrong>
    ensures { IfOk result (IsCharged cells.now owner before after) }
{
    let Some(Cell::Owner(was)) = cells.get(&Key::OwnerOf(owner)) else {
        return Err(Wrong::Cell);
    };
    let mut charged = was.clone()?;
    if charged.charge < before || u32::MAX - after < charged.charge - before {
        return Err(Wrong::Cell);
    }
    charged.charge = charged.charge - before + after;
    Ok(charged)
}

// The file of that size is deleted.
fn deletion(
    alloc: Global,
    cells: &CellMap,
    owner: Name,
    file: FileId,
    size: u32,
) -> Result<Change, Wrong>
    requires stands { 0 < size }
    requires sized { IsSized owner size (map.get cells.now (Leader file)) }
    ensures { IfOk result (IsFileChange cells.now) }
{
    let charged = charged(cells, owner, size, 0)?;
    let drops = vec![in alloc; file]?;
    let put = (Key::OwnerOf(owner), Cell::Owner(charged));
    let puts = vec![in alloc; put]?;
    Ok(change_of(drops, Vec::new(alloc), puts))
}

// The file of that size, or none, is cut to these properties, and a page below them is written.
fn writing(
    alloc: Global,
    cells: &CellMap,
    file: FileId,
    size: u32,
    props: Props,
    number: u32,
) -> Result<Change, Wrong>
    requires sized { IsSized props.owner size (map.get cells.now (Leader file)) }
    requires within { number < props.size }
    ensures { IfOk result (IsFileChange cells.now) }
{
    let owner = props.owner;
    let charged = charged(cells, owner, size, props.size)?;
    let byte = (props.create_time % 256) as u8;
    let page = PageRef::new(alloc, Page::new([byte; 512]))?;
    let cuts = vec![in alloc; (file, props.size)]?;
    let leader = (Key::Leader(file), Cell::Leader(props));
    let put = (Key::OwnerOf(owner), Cell::Owner(charged));
    let written = (Key::PageOf(file, number), Cell::Page(page));
    let puts = vec![in alloc; leader, put, written]?;
    Ok(change_of(Vec::new(alloc), cuts, puts))
}

// A change of the cells, by that number: the owner comes, or a file goes, or comes, is cut or grows, or one of its pages
// is written.
pub(super) fn next_change(alloc: Global, cells: &CellMap, number: u32) -> Result<Change, Wrong>
    ensures { IfOk result (IsFileChange cells.now) }
{
    let name = ann();
    if cells.get(&Key::OwnerOf(name)).is_none() {
        return coming(alloc, cells, name);
    }
    let file = file_of(number);
    let size = size_of(cells, name, file)?;
    let kind = number / FILES % 16;
    if size > 0 && kind == 0 {
        return deletion(alloc, cells, name, file, size);
    }
    let more = number / 64;
    let wanted = if size == 0 || kind < 4 {
        more / PAGES % (PAGES * STRIDE) + 1
    } else {
        size
    };
    let page = more % PAGES * STRIDE;
    let page = if page < wanted { page } else { 0 };
    let props = props_of(alloc, name, wanted, more);
    writing(alloc, cells, file, size, props, page)
}
