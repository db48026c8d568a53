//! Tests of alp_anchor.
ghost use Rattle.std.specs.Prelude.{◌≤◌, IsTrue};
ghost use Rattle.alp_base.specs.Crashes.{Only};

use alp_anchor::{Anchor, AnchorFault, anchor_page, read_anchor, switch_anchor};
use alp_base::{Halt, Page, Sizes};
use alp_disk::{Disk, Fuse, MemDisk, write_synced};
use std::test::Fail;

/// The page of an anchor of a disk of 642 pages of server 2 of 3.
fn page_of(generation: u32, area: u8) -> Page {
    anchor_page(&Anchor {
        page: 0,
        generation,
        area,
        server: 2,
        servers: 3,
        sizes: Sizes {
            home: 512,
            area: 64,
        },
    })
}

/// Reads the anchor that counts, and switches from it to the other area.
fn switch_over<D: Disk>(disk: &mut D) -> Result<Anchor, AnchorFault>
    requires pages { 2 ≤ D.size disk.old }
    requires durable { IsTrue (D.tells disk.old) → Only (D.seen disk.old) (D.may_leave disk.old) }
{
    let old = read_anchor(disk, 2, 3)?;
    Ok(switch_anchor(disk, &old, 1 - old.area)?)
}

/// Puts anchors into both pages; the one in page 1 counts, and its generation is 0.
fn prepare<D: Disk>(disk: &mut D) -> Result<(), AnchorFault> {
    if disk.pages() < 2 {
        return Err(AnchorFault::Halted(Halt::Stopped));
    }
    write_synced(disk, 0, 0, page_of(u32::MAX, 0).bytes())?;
    switch_over(disk)?;
    Ok(())
}

/// Whether the first page is none that a switch writes whole.
fn is_torn(page: &Page) -> bool {
    let gate = page.bytes()[0];
    let rest = &page.bytes()[1..];
    let old = page_of(u32::MAX, 0);
    let new = page_of(1, 0);
    gate != 0 && gate != 0xA5 || rest != &old.bytes()[1..] && rest != &new.bytes()[1..]
}

/// The generation that counts, and whether the first page is torn.
fn look<D: Disk>(disk: &mut D) -> Result<(u32, bool), AnchorFault> {
    let mut page = Page::zero();
    if disk.pages() < 2 {
        return Err(AnchorFault::Halted(Halt::Stopped));
    }
    disk.read(0, &mut page)?;
    let anchor = read_anchor(disk, 2, 3)?;
    Ok((anchor.generation, is_torn(&page)))
}

/// What is found where a switch is stopped after so many calls, and the power goes off.
fn look_after_stop<D: Disk>(disk: D, calls: u32, pick: u64) -> Result<(u32, bool), AnchorFault> {
    let mut disk = disk;
    prepare(&mut disk)?;
    disk.sync()?;
    if disk.pages() < 2 {
        return Err(AnchorFault::Halted(Halt::Stopped));
    }
    disk.stop_after(Some(calls));
    let _switched = switch_over(&mut disk);
    let mut back = disk.power_off(pick);
    look(&mut back)
}

#[test]
fn a_crash_leaves_the_old_anchor_or_the_new(rt: HostRuntime) -> Result<(), Fail> {
    let alloc = rt.alloc();
    let (mut old, mut new, mut torn) = (false, false, false);
    for calls in 0..8 {
        for pick in 0..6 {
            let disk = Fuse::new(MemDisk::new(alloc, 642, Vec::new(alloc))?);
            let (generation, is_torn) = look_after_stop(disk, calls, pick)?;
            assert!(rt; generation < 2, "{calls} {pick}");
            old = old || generation == 0;
            new = new || generation == 1;
            torn = torn || is_torn;
        }
    }
    assert!(rt; old && new && torn);
    Ok(())
}

/// How the page of an anchor begins, before its zeros.
const FRONT: [u8; 24] = [
    0xA5, 0x41, 0x4C, 0x50, 0x49, 0x4E, 0x45, 0x31, 0, 0, 0, 1, 0, 1, 1, 0, 8, 0, 0, 0, 0x40, 0, 0,
    0,
];

fn is_spelled(page: &Page) -> bool {
    let (front, rest) = page.bytes().split_at(24);
    front == FRONT.as_slice() && rest == [0; 488].as_slice()
}

#[test]
fn an_anchor_has_one_spelling(rt: HostRuntime) {
    let page = anchor_page(&Anchor {
        page: 0,
        generation: 1,
        area: 0,
        server: 1,
        servers: 1,
        sizes: Sizes {
            home: 16384,
            area: 2048,
        },
    });
    assert!(rt; is_spelled(&page));
}

fn put<D: Disk>(disk: &mut D, at: u32, page: &Page) -> Result<(), Halt> {
    if at >= disk.pages() {
        return Err(Halt::Stopped);
    }
    disk.write(at, 0, page.bytes())
}

fn read_as<D: Disk>(disk: &mut D, server: u8) -> Result<u32, AnchorFault> {
    if disk.pages() < 2 {
        return Err(AnchorFault::Halted(Halt::Stopped));
    }
    Ok(read_anchor(disk, server, 3)?.generation)
}

const NO_VOLUME: AnchorFault = AnchorFault::NotAVolume { found: [0; 24] };

const DAMAGED: AnchorFault = AnchorFault::Damaged { place: 1 };

/// Whether anchors are told apart by their server, and two of one server by their generations.
fn are_told_apart<D: Disk>(disk: &mut D) -> bool {
    read_as(disk, 2) == Err(NO_VOLUME)
        && put(disk, 1, &page_of(7, 0)) == Ok(())
        && read_as(disk, 2) == Ok(7)
        && read_as(disk, 1) == Err(NO_VOLUME)
        && put(disk, 0, &page_of(7, 1)) == Ok(())
        && read_as(disk, 2) == Err(DAMAGED)
}

#[test]
fn a_disk_with_no_anchor_of_the_server_is_no_volume(rt: HostRuntime) -> Result<(), Fail> {
    let alloc = rt.alloc();
    let mut disk = MemDisk::new(alloc, 642, Vec::new(alloc))?;
    assert!(rt; are_told_apart(&mut disk));
    Ok(())
}
