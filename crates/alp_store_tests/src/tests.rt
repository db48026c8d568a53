//! A store under failures, stops and restarts.
mod changes;
mod commits;
mod fixtures;
mod memory;
mod notes;
mod quiet_disk;
mod serving;
mod takes;
mod turns;
mod wrong;

use alp_base::{Key, OutOfMemory, Page, Sizes};
use alp_disk::Disk;
use alp_files::CellMap;
use alp_store::Store;
use alp_vault::Vault;
use commits::puts_of;
use fixtures::{FILE, SIZES, agree, committed, mem_disk, put_file, put_pages, started};
use quiet_disk::QuietDisk;
use serving::Serving;
use std::alloc::Global;
use std::test::*;
use wrong::Wrong;

// A file of three written pages.
fn three_pages(alloc: Global) -> Result<CellMap, OutOfMemory> {
    let mut cells = CellMap::new(alloc);
    put_file(alloc, &mut cells, 3, 400)?;
    put_pages(alloc, &mut cells, 0, 3, 7)?;
    Ok(cells)
}

// ---- failing reads

// The pages of the disk.
fn pages_of<D: Disk>(alloc: Global, disk: &mut QuietDisk<D>) -> Result<Vec<Page>, Wrong> {
    let mut pages = Vec::new(alloc);
    for at in 0..disk.pages() {
        let mut page = Page::zero();
        disk.read_page(at, &mut page)?;
        pages.push(page)?;
    }
    Ok(pages)
}

// The pages of the disk once a store on it holds these cells.
fn written_pages<D: Disk>(
    alloc: Global,
    disk: QuietDisk<D>,
    cells: &CellMap,
) -> Result<Vec<Page>, Wrong> {
    let store = started(alloc, disk, SIZES)?;
    let store = committed(alloc, store, cells, 1)?;
    let mut disk = store.into_disk()?;
    pages_of(alloc, &mut disk)
}

// Puts these pages on the disk.
fn fill<D: Disk>(disk: &mut QuietDisk<D>, pages: &[Page]) -> Result<(), Wrong> {
    let mut at = 0u32;
    for page in pages {
        disk.write_page(at, page)?;
        at = at.saturating_add(1);
    }
    disk.sync()
}

// The numbers of calls from one on, more than a start makes behind the first that fails.
fn calls_after(alloc: Global, call: u64) -> Result<Vec<u64>, OutOfMemory> {
    let mut fails = Vec::new(alloc);
    for more in 1..=40u64 {
        fails.push(call.saturating_add(more))?;
    }
    Ok(fails)
}

// Whether two fetches of a written page give its cell; nothing where the first fails.
fn fetches_twice<V: Vault>(store: Serving<V>, cells: &CellMap) -> Option<bool> {
    let key = Key::PageOf(FILE, 1);
    match store.holds(cells, &key) {
        Ok((store, first)) => match store.holds(cells, &key) {
            Ok((_store, second)) => Some(first && second),
            Err(_wrong) => Some(false),
        },
        Err(_wrong) => None,
    }
}

// The same of a store on a disk with these pages; nothing where it does not start either.
fn is_fetched_twice<D: Disk>(
    alloc: Global,
    disk: QuietDisk<D>,
    pages: &[Page],
    cells: &CellMap,
) -> Result<Option<bool>, Wrong> {
    let mut disk = disk;
    fill(&mut disk, pages)?;
    match disk.start(alloc, 1, SIZES) {
        Ok(store) => Ok(fetches_twice(store, cells)),
        Err(_fault) => Ok(None),
    }
}

// After how many calls behind those that fill the disk a first fetch is the last to read it, and whether the second one gives the
// same.
fn first_fetched(
    alloc: Global,
    pages: &[Page],
    cells: &CellMap,
) -> Result<Option<(u64, bool)>, Wrong> {
    let written = (pages.len() as u64).saturating_add(1);
    for n in 0..1000u64 {
        let fails = calls_after(alloc, written.saturating_add(n))?;
        let disk = mem_disk(alloc, SIZES, fails)?;
        if let Some(same) = is_fetched_twice(alloc, disk, pages, cells)? {
            return Ok(Some((n, same)));
        }
    }
    Ok(None)
}

#[test]
fn a_second_fetch_reads_no_disk(rt: HostRuntime) -> Result<(), Fail> {
    let alloc = rt.alloc();
    let cells = three_pages(alloc)?;
    let disk = mem_disk(alloc, SIZES, Vec::new(alloc))?;
    let pages = written_pages(alloc, disk, &cells)?;
    let found = first_fetched(alloc, pages.as_slice(), &cells)?;
    let (calls, same) = found.ok_or("no fetch")?;
    assert!(rt; same && calls > 257);
    Ok(())
}

// ---- stopped commits

// What a stopped commit left: how many cells are as before, how many as after it, and the counts.
type Left = (u32, u32, (u32, u32, u32, u64));

// What a commit that is stopped after so many changing calls leaves behind a crash with that pick; nothing where it was
// not stopped.
fn after_a_stop<V: Vault>(
    alloc: Global,
    store: Serving<V>,
    cells: &CellMap,
    calls: u32,
    pick: u64,
) -> Result<Option<Left>, Wrong> {
    let none = CellMap::new(alloc);
    let change = puts_of(alloc, cells)?;
    let (store, stopped) = store.stopped(alloc, &change, 9, calls, pick)?;
    let (store, before) = agree(store, &none, 3)?;
    let (store, after) = agree(store, cells, 3)?;
    let counts = store.counts(alloc)?;
    if !stopped {
        return Ok(None);
    }
    Ok(Some((before, after, counts)))
}

// The same of three pages on a new volume.
fn stopped_on<D: Disk>(
    alloc: Global,
    disk: QuietDisk<D>,
    calls: u32,
    pick: u64,
) -> Result<Option<Left>, Wrong> {
    let cells = three_pages(alloc)?;
    let store = started(alloc, disk, SIZES)?;
    after_a_stop(alloc, store, &cells, calls, pick)
}

#[test]
fn a_stopped_commit_was_made_or_not(rt: HostRuntime) -> Result<(), Fail> {
    let alloc = rt.alloc();
    let mut before = 0u32;
    let mut after = 0u32;
    for calls in 0..40u32 {
        for pick in 0..6u64 {
            let disk = mem_disk(alloc, SIZES, Vec::new(alloc))?;
            match stopped_on(alloc, disk, calls, pick)? {
                Some((5, 0, (0, 0, 0, 0))) => before = before.saturating_add(1),
                Some((0, 5, (1, 1, 5, 9))) => after = after.saturating_add(1),
                Some(_) => return Err("half a commit".into()),
                None => {
                    assert!(rt; before > 0 && after > 0 && calls > 2);
                    return Ok(());
                }
            }
        }
    }
    Err("each commit was stopped".into())
}

// ---- a full volume

const LARGE: Sizes = Sizes {
    home: 512,
    area: 2048,
};

// A file of so many pages that there is no place for another.
fn most_pages(alloc: Global) -> Result<CellMap, OutOfMemory> {
    let mut cells = CellMap::new(alloc);
    put_file(alloc, &mut cells, 300, 400)?;
    put_pages(alloc, &mut cells, 0, 252, 7)?;
    Ok(cells)
}

// The counts of a store that holds these cells, and how many of them it gives.
fn looked_at<V: Vault>(
    alloc: Global,
    store: Serving<V>,
    cells: &CellMap,
) -> Result<((u32, u32, u32, u64), u32), Wrong> {
    let (store, there) = agree(store, cells, 300)?;
    let counts = store.counts(alloc)?;
    Ok((counts, there))
}

// The same of a new store once it holds the cells.
fn filled_up<D: Disk>(
    alloc: Global,
    disk: QuietDisk<D>,
    cells: &CellMap,
) -> Result<((u32, u32, u32, u64), u32), Wrong> {
    let store = started(alloc, disk, LARGE)?;
    let store = committed(alloc, store, cells, 1)?;
    looked_at(alloc, store, cells)
}

#[test]
fn a_full_volume_commits(rt: HostRuntime) -> Result<(), Fail> {
    let alloc = rt.alloc();
    let cells = most_pages(alloc)?;
    let disk = mem_disk(alloc, LARGE, Vec::new(alloc))?;
    assert!(rt; filled_up(alloc, disk, &cells)? == ((1, 1, 255, 1), 302));
    Ok(())
}

// ---- threads

fn crosses<T: Send + Sync>(_value: &T) {}

// A store crosses threads as its disk does.
fn store_crosses<D: Disk + Send + Sync>(store: &Store<D>) {
    crosses(store);
}

// Whether a store starts on the disk.
fn starts<D: Disk + Send + Sync>(alloc: Global, disk: QuietDisk<D>) -> Result<bool, Wrong> {
    let store = started(alloc, disk, SIZES)?;
    store_crosses(store.vault());
    Ok(true)
}

#[test]
fn stores_cross_threads(rt: HostRuntime) -> Result<(), Fail> {
    let alloc = rt.alloc();
    let disk = mem_disk(alloc, SIZES, Vec::new(alloc))?;
    assert!(rt; starts(alloc, disk)?);
    Ok(())
}
