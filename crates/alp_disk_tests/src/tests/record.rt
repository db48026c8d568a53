//! Tests of alp_record.
use alp_base::Halt;
use alp_disk::{Disk, Fuse, MemDisk};
use alp_record::*;
use std::alloc::Global;
use std::test::*;

/// The records of generation 7 in pages 2 to 9 of a disk of ten.
const AREA: Area = Area {
    first: 2,
    end: 10,
    generation: 7,
};

/// Adds a record where the gate is closed and the area has room for it, and tells whether it did.
fn add_at<D: Disk>(disk: &mut D, at: u32, body: &[u8]) -> Result<bool, Halt> {
    let long = body.len();
    if disk.pages() < AREA.end || at >= AREA.end || long > 4096 {
        return Ok(false);
    }
    let mut page = alp_base::Page::zero();
    disk.read(at, &mut page)?;
    if page.bytes()[0] == 0xA5 || AREA.end - at < record_pages(long as u32) {
        return Ok(false);
    }
    disk.sync()?;
    add_record(disk, &AREA, at, body)?;
    Ok(true)
}

/// The length of the body of the record at a page, or none where the records end.
fn length_at<D: Disk>(alloc: Global, disk: &mut D, at: u32) -> Result<Option<usize>, RecordFault> {
    if disk.pages() < AREA.end {
        return Ok(None);
    }
    match read_record(alloc, disk, &AREA, at)? {
        Some(body) => Ok(Some(body.as_slice().len())),
        None => Ok(None),
    }
}

/// Adds three records, and one between them for which there is no room.
fn add_three<D: Disk>(disk: &mut D) -> Result<bool, Halt> {
    let first = add_at(disk, 2, &[9; 600])?;
    let second = add_at(disk, 5, &[8; 512])?;
    let long = add_at(disk, 7, &[8; 1025])?;
    let third = add_at(disk, 7, &[7; 1024])?;
    Ok(first && second && !long && third)
}

const LENGTHS: &[(u32, Option<usize>)] = &[
    (2, Some(600)),
    (5, Some(512)),
    (7, Some(1024)),
    (10, None),
];

fn have_lengths<D: Disk>(alloc: Global, disk: &mut D) -> Result<bool, RecordFault> {
    for (at, length) in LENGTHS {
        if length_at(alloc, disk, *at)? != *length {
            return Ok(false);
        }
    }
    Ok(true)
}

#[test]
fn records_stand_one_behind_the_other(rt: HostRuntime) -> Result<(), Fail> {
    let alloc = rt.alloc();
    let mut disk = MemDisk::new(alloc, 10, Vec::new(alloc))?;
    assert!(rt; length_at(alloc, &mut disk, 2)?.is_none());
    assert!(rt; add_three(&mut disk)?);
    assert!(rt; have_lengths(alloc, &mut disk)?);
    Ok(())
}

/// Adds a record, and changes a byte of its body.
fn spoil<D: Disk>(disk: &mut D) -> Result<bool, Halt> {
    if !add_at(disk, 2, &[9; 600])? || disk.pages() < 5 {
        return Ok(false);
    }
    disk.write(4, 88, &[1])?;
    Ok(true)
}

fn is_damaged<D: Disk>(alloc: Global, disk: &mut D) -> bool {
    length_at(alloc, disk, 2) == Err(RecordFault::Damaged { place: 2 })
}

#[test]
fn an_open_gate_with_other_bytes_is_damage(rt: HostRuntime) -> Result<(), Fail> {
    let alloc = rt.alloc();
    let mut disk = MemDisk::new(alloc, 10, Vec::new(alloc))?;
    assert!(rt; spoil(&mut disk)?);
    assert!(rt; is_damaged(alloc, &mut disk));
    Ok(())
}

/// Adds a record, and a second one that is stopped after so many calls.
fn stop_second<D: Disk>(disk: &mut D, calls: u32) -> Result<bool, Halt> {
    let first = add_at(disk, 2, &[9; 600])?;
    disk.stop_after(Some(calls));
    let _ = add_at(disk, 5, &[8; 700]);
    Ok(first)
}

/// The length of the second record after that and a crash with that pick, or 0 where there is none. Nothing where the first
/// record is not there.
fn look_after_stop<D: Disk>(
    alloc: Global,
    disk: D,
    calls: u32,
    pick: u64,
) -> Result<Option<usize>, RecordFault> {
    let mut disk = disk;
    if !stop_second(&mut disk, calls)? {
        return Ok(None);
    }
    let mut back = disk.power_off(pick);
    if length_at(alloc, &mut back, 2)? != Some(600) {
        return Ok(None);
    }
    match length_at(alloc, &mut back, 5)? {
        Some(length) => Ok(Some(length)),
        None => Ok(Some(0)),
    }
}

#[test]
fn a_crash_leaves_the_record_or_none(rt: HostRuntime) -> Result<(), Fail> {
    let alloc = rt.alloc();
    let (mut before, mut after) = (false, false);
    for calls in 0..10 {
        for pick in 0..6 {
            let disk = Fuse::new(MemDisk::new(alloc, 10, Vec::new(alloc))?);
            let found = look_after_stop(alloc, disk, calls, pick)?;
            assert!(rt; found == Some(0) || found == Some(700), "{calls} {pick}");
            before = before || found == Some(0);
            after = after || found == Some(700);
        }
    }
    assert!(rt; before && after);
    Ok(())
}
