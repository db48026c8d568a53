//! Disks and cells of the tests.
ghost use Rattle.std.specs.Prelude.{◌≡◌};
ghost use Rattle.alp_vault.specs.Vault.{AreSizes};

use super::commits::puts_of;
use super::quiet_disk::QuietDisk;
use super::serving::Serving;
use super::wrong::Wrong;
use alp_base::{
    AccessList, Cell, FileId, Key, Name, OutOfMemory, OwnerRecord, Page, PageRef, Props, Sizes,
};
use alp_disk::{Disk, Fuse, MemDisk};
use alp_files::CellMap;
use alp_silent::Silent;
use alp_store::Store;
use alp_vault::Vault;
use std::alloc::Global;

pub(super) const SIZES: Sizes = Sizes {
    home: 512,
    area: 64,
};

pub(super) const FILE: FileId = FileId {
    server: 1,
    epoch: 1,
    counter: 1,
};

// ---- disks

// A disk for a volume of these sizes, of which these calls fail.
pub(super) fn mem_disk(
    alloc: Global,
    sizes: Sizes,
    fails: Vec<u64>,
) -> Result<QuietDisk<Fuse<Silent>>, Wrong> {
    let pages = sizes
        .area
        .saturating_mul(2)
        .saturating_add(sizes.home)
        .saturating_add(2);
    let disk = MemDisk::new(alloc, pages, fails)?;
    QuietDisk::new(Fuse::new(Silent { disk }))
}

// The store of the only server on the disk.
pub(super) fn started<D: Disk>(
    alloc: Global,
    disk: QuietDisk<D>,
    sizes: Sizes,
) -> Result<Serving<Store<D>>, Wrong>
    requires { AreSizes sizes }
{
    match disk.start(alloc, 1, sizes) {
        Ok(store) => Ok(store),
        Err(_fault) => Err(Wrong::Start),
    }
}

// ---- cells

pub(super) fn ann() -> Name {
    Name::spelled(b"ann")
}

pub(super) fn props_of(alloc: Global, owner: Name, size: u32, time: u32) -> Props
    ensures owner { result.owner ≡ owner }
    ensures size { result.size ≡ size }
{
    Props {
        owner,
        name: owner,
        type_no: 0,
        create_time: u64::from(time),
        byte_length: 0,
        size,
        high_water: size,
        read: AccessList::new(Vec::new(alloc)),
        modify: AccessList::new(Vec::new(alloc)),
    }
}

// An owner of that quota with a file of that size.
pub(super) fn put_file(
    alloc: Global,
    cells: &mut CellMap,
    size: u32,
    quota: u32,
) -> Result<(), OutOfMemory> {
    let name = ann();
    let props = props_of(alloc, name, size, quota);
    let owner = OwnerRecord {
        name,
        quota,
        charge: size,
        create: AccessList::new(Vec::new(alloc)),
    };
    cells.put(Key::Leader(FILE), Cell::Leader(props))?;
    cells.put(Key::OwnerOf(name), Cell::Owner(owner))?;
    Ok(())
}

// So many pages of the file from that one on, each of that byte alone.
pub(super) fn put_pages(
    alloc: Global,
    cells: &mut CellMap,
    first: u32,
    count: u32,
    byte: u8,
) -> Result<(), OutOfMemory> {
    for number in 0..count {
        let page = PageRef::new(alloc, Page::new([byte; 512]))?;
        let key = Key::PageOf(FILE, first.saturating_add(number));
        cells.put(key, Cell::Page(page))?;
    }
    Ok(())
}

// The store with these cells.
pub(super) fn committed<V: Vault>(
    alloc: Global,
    store: Serving<V>,
    cells: &CellMap,
    clock: u32,
) -> Result<Serving<V>, Wrong> {
    let change = puts_of(alloc, cells)?;
    store.commit(alloc, &change, clock)
}

pub(super) fn same_cell(found: &Option<Cell>, wanted: Option<&Cell>) -> bool {
    match (found, wanted) {
        (None, None) => true,
        (Some(found), Some(wanted)) => found == wanted,
        _ => false,
    }
}

// At how many keys of the owner, the file and so many of its pages the store holds what the map has.
pub(super) fn agree<V: Vault>(
    store: Serving<V>,
    cells: &CellMap,
    pages: u32,
) -> Result<(Serving<V>, u32), Wrong> {
    let (store, owner) = store.holds(cells, &Key::OwnerOf(ann()))?;
    let (mut store, file) = store.holds(cells, &Key::Leader(FILE))?;
    let mut same = u32::from(owner).saturating_add(u32::from(file));
    for number in 0..pages {
        let (next, page) = store.holds(cells, &Key::PageOf(FILE, number))?;
        store = next;
        same = same.saturating_add(u32::from(page));
    }
    Ok((store, same))
}
