//! Tests of alp_disk.
ghost use Rattle.std.specs.Prelude.{◌<◌};

use alp_base::{Halt, Page};
use alp_disk::{Disk, FileDisk, Fuse, MemDisk, write_span, write_synced};
use std::fs::File;
use std::os::unix::fs::FileExt;
use std::test::Fail;
use std::thread::{Threads, join};
use std::{env, fs, process};

/// A write that is synced, and three that wait for a sync.
fn write_some<D: Disk>(disk: &mut D) -> Result<(), Halt> {
    if disk.pages() < 3 {
        return Err(Halt::Stopped);
    }
    write_synced(disk, 0, 0, &[1; 4])?;
    disk.write(0, 0, &[9; 2])?;
    disk.write(1, 10, &[8; 3])?;
    disk.write(2, 509, &[7; 3])
}

/// What the places hold that `write_some` writes to.
fn read_some<D: Disk>(disk: &mut D) -> Result<[u8; 10], Halt> {
    let mut page = Page::zero();
    let mut some = [0; 10];
    if disk.pages() < 3 {
        return Err(Halt::Stopped);
    }
    disk.read(0, &mut page)?;
    some[..4].copy_from_slice(&page.bytes()[..4]);
    disk.read(1, &mut page)?;
    some[4..7].copy_from_slice(&page.bytes()[10..13]);
    disk.read(2, &mut page)?;
    some[7..].copy_from_slice(&page.bytes()[509..]);
    Ok(some)
}

/// What `write_some` writes, as `read_some` reads it.
const WRITTEN: [u8; 10] = [9, 9, 1, 1, 8, 8, 8, 7, 7, 7];

/// What is left after each pick. The bytes of picks above 2 were computed by another implementation of the generator, which
/// gives the words that the tests of Rust's crate expect.
const LEFT: &[(u64, [u8; 10])] = &[
    (0, [1, 1, 1, 1, 0, 0, 0, 0, 0, 0]),
    (1, [9, 9, 1, 1, 8, 8, 8, 7, 7, 7]),
    (2, [1, 1, 1, 1, 8, 8, 8, 0, 0, 0]),
    (3, [75, 47, 1, 1, 153, 222, 81, 229, 182, 63]),
    (4, [127, 63, 1, 1, 4, 188, 126, 189, 50, 23]),
    (5, [182, 0, 1, 1, 21, 135, 132, 47, 114, 9]),
];

/// Whether a new disk reads as it was written, and after a crash with that pick as wanted.
fn leaves<D: Disk>(disk: D, pick: u64, want: &[u8; 10]) -> Result<bool, Halt> {
    let mut disk = disk;
    write_some(&mut disk)?;
    let before = read_some(&mut disk)?;
    let mut back = disk.power_off(pick);
    let after = read_some(&mut back)?;
    Ok(before == WRITTEN && after == *want)
}

#[test]
fn picks_leave_what_they_say(rt: HostRuntime) -> Result<(), Fail> {
    let alloc = rt.alloc();
    for (pick, want) in LEFT {
        let disk = MemDisk::new(alloc, 3, Vec::new(alloc))?;
        assert!(rt; leaves(disk, *pick, want)?, "pick {pick}");
    }
    Ok(())
}

/// Whether two rows of writes fail, and the third is done.
fn fails_twice<D: Disk>(disk: &mut D) -> bool {
    write_some(disk) == Err(Halt::Failed)
        && write_some(disk) == Err(Halt::Failed)
        && write_some(disk) == Ok(())
}

#[test]
fn calls_fail_as_listed(rt: HostRuntime) -> Result<(), Fail> {
    let alloc = rt.alloc();
    let mut disk = MemDisk::new(alloc, 3, vec![in alloc; 2, 7]?)?;
    assert!(rt; fails_twice(&mut disk));
    Ok(())
}

fn reads_as<D: Disk>(disk: &mut D, want: &[u8; 10]) -> bool {
    read_some(disk) == Ok(*want)
}

/// Whether the third call of the writes that counts is the last that passes, and no read passes after it.
fn stops<D: Disk>(disk: &mut D) -> bool {
    disk.stop_after(Some(3));
    write_some(disk) == Err(Halt::Stopped) && read_some(disk) == Err(Halt::Stopped)
}

/// What the writes that passed leave.
const STOPPED: [u8; 10] = [9, 9, 1, 1, 8, 8, 8, 0, 0, 0];

#[test]
fn a_fuse_stops_after_its_allowance(rt: HostRuntime) -> Result<(), Fail> {
    let alloc = rt.alloc();
    let mut fuse = Fuse::new(MemDisk::new(alloc, 3, Vec::new(alloc))?);
    assert!(rt; stops(&mut fuse));
    let mut back = fuse.power_off(1);
    assert!(rt; reads_as(&mut back, &STOPPED));
    let mut inner = back.into_inner();
    assert!(rt; reads_as(&mut inner, &STOPPED));
    Ok(())
}

/// Whether a span of two pages is written.
fn writes_span<D: Disk>(disk: &mut D) -> bool {
    let mut bytes = [5; 1024];
    bytes[522..525].fill(6);
    disk.pages() == 3 && write_span(disk, 0, 2, &bytes) == Ok(())
}

#[test]
fn a_span_is_written_page_by_page(rt: HostRuntime) -> Result<(), Fail> {
    let alloc = rt.alloc();
    let mut disk = MemDisk::new(alloc, 3, Vec::new(alloc))?;
    assert!(rt; writes_span(&mut disk));
    assert!(rt; reads_as(&mut disk, &[5, 5, 5, 5, 6, 6, 6, 0, 0, 0]));
    Ok(())
}

/// Whether the disk is written and synced, and the bytes of a second handle of its file are those that were written.
fn stands_in<D: Disk>(disk: &mut D, second: &File) -> bool {
    let mut want = [0; 1536];
    want[..4].copy_from_slice(&[9, 9, 1, 1]);
    want[522..525].fill(8);
    want[1533..].fill(7);
    let written = write_some(disk).is_ok() && disk.sync().is_ok();
    let mut bytes = [0; 1536];
    let read = second.read_exact_at(&mut bytes, 0);
    written && read.is_ok() && bytes == want
}

/// What was written stands at its place in the file: a second handle reads it after the sync.
#[test]
fn a_file_holds_pages(rt: HostRuntime) -> Result<(), Fail> {
    let name = format!(in rt.alloc(); "alp_disk-test-{}", process::id(rt.process()))?;
    let path = env::temp_dir(&rt)?.join(rt.alloc(), name.as_str())?;
    let file = File::create_new(&rt, path.as_path())?;
    let sized = file.set_len(1536).is_ok();
    let second = File::open(&rt, path.as_path())?;
    let mut disk = FileDisk::new(file, 3);
    let stood = stands_in(&mut disk, &second);
    let mut back = disk.power_off(0);
    let held = reads_as(&mut back, &WRITTEN);
    let length = fs::metadata(&rt, path.as_path())?.len();
    fs::remove_file(&rt, path.as_path())?;
    assert!(rt; sized && stood && held && length == 1536);
    Ok(())
}

/// Lends a disk to two threads, and moves it through one.
fn cross_threads<D: Disk + Send + Sync>(rt: &(impl Threads + Sync), disk: D) -> D {
    join(rt, || disk.pages(), || disk.pages());
    join(rt, move || disk, || ()).0
}

/// Whether a disk reads as zeros.
fn is_new<D: Disk>(disk: &mut D) -> bool {
    reads_as(disk, &[0; 10])
}

#[test]
fn disks_cross_threads(rt: HostRuntime) -> Result<(), Fail> {
    let alloc = rt.alloc();
    let fuse = cross_threads(&rt, Fuse::new(MemDisk::new(alloc, 3, Vec::new(alloc))?));
    let mut inner = cross_threads(&rt, fuse.into_inner());
    assert!(rt; is_new(&mut inner));
    let mut file = cross_threads(&rt, FileDisk::new(File::open(&rt, "/dev/null")?, 7));
    // The host syncs no such file, and says so: a sync is handed on.
    assert!(rt; file.pages() == 7 && file.sync() == Err(Halt::Failed));
    Ok(())
}
