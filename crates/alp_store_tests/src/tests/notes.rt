//! Disks of server 1 of three, with notes that a run before left there, spelled by hand.
use super::fixtures::{SIZES, mem_disk};
use super::quiet_disk::QuietDisk;
use super::wrong::Wrong;
use alp_base::{OutOfMemory, Page, VaultFault};
use alp_disk::Disk;
use alp_fields::put_bytes;
use std::alloc::Global;
use std::test::*;

const SERVERS: u8 = 3;

// The page behind the one record of a new volume, with its first home page.
const FREE: u32 = 5;

// Epoch 1 and clock 9.
const CLOCK: &[u8] = b"\
\x01\x01C\x00\x00\x00\x0c\
\x00\x00\x00\x01\x00\x00\x00\x00\x00\x00\x00\x09";

// The transaction 1.1.7 is decided, at time 9, with the parts 2.1.5 and 3.1.1.
const DECISION: &[u8] = b"\
\x01\x0aD\x01\x00\x00\x00\x01\x00\x00\x00\x07\x00\x00\x00\x1b\
\x00\x00\x00\x00\x00\x00\x00\x09\x02\
\x02\x00\x00\x00\x01\x00\x00\x00\x05\
\x03\x00\x00\x00\x01\x00\x00\x00\x01";

// The part 1.1.5 of the transaction 2.1.7, at time 9, of client 2, locks nothing and changes nothing.
const READY: &[u8] = b"\
\x01\x0aR\x01\x00\x00\x00\x01\x00\x00\x00\x05\x00\x00\x00\x1a\
\x02\x00\x00\x00\x01\x00\x00\x00\x07\
\x00\x00\x00\x00\x00\x00\x00\x09\x02\
\x00\x00\x00\x00\x00\x00\x00\x00";

// A batch of no images, with so many notes.
fn batch_of(alloc: Global, count: u8, notes: &[u8]) -> Result<Vec<u8>, OutOfMemory> {
    let mut bytes = Vec::new(alloc);
    put_bytes(&mut bytes, &[0, 0, 0, count])?;
    put_bytes(&mut bytes, notes)?;
    Ok(bytes)
}

// Puts a record of that batch behind those of a new volume.
fn record<D: Disk>(disk: &mut QuietDisk<D>, batch: &[u8]) -> Result<(), Wrong> {
    if batch.len() > 255 {
        return Err(Wrong::Disk);
    }
    let header = [0xa5, b'R', 0, 0, 0, 1, 0, 0, 0, batch.len() as u8];
    disk.write_page(FREE, &Page::beginning(&header))?;
    disk.write_page(FREE + 1, &Page::beginning(batch))?;
    disk.sync()
}

// The disk with a new volume of the server.
fn new_volume<D: Disk>(alloc: Global, disk: QuietDisk<D>) -> Result<QuietDisk<D>, Wrong> {
    match disk.start(alloc, SERVERS, SIZES) {
        Ok(store) => store.into_disk(),
        Err(_fault) => Err(Wrong::Start),
    }
}

// How many notes a vault has that starts on the disk; nothing where it is refused for what is no page.
fn noted_on<D: Disk>(alloc: Global, disk: QuietDisk<D>) -> Result<Option<usize>, Wrong> {
    match disk.start(alloc, SERVERS, SIZES) {
        Ok(store) => Ok(Some(store.note_count())),
        Err(fault) => {
            if fault == (VaultFault::Damaged { place: 0 }) {
                Ok(None)
            } else {
                Err(Wrong::Start)
            }
        }
    }
}

// The same of a new volume with that batch behind its records.
fn noted_behind<D: Disk>(
    alloc: Global,
    disk: QuietDisk<D>,
    batch: &[u8],
) -> Result<Option<usize>, Wrong> {
    let mut disk = new_volume(alloc, disk)?;
    record(&mut disk, batch)?;
    noted_on(alloc, disk)
}

// The same with these notes.
fn noted(alloc: Global, count: u8, notes: &[u8]) -> Result<Option<usize>, Wrong> {
    let batch = batch_of(alloc, count, notes)?;
    let disk = mem_disk(alloc, SIZES, Vec::new(alloc))?;
    noted_behind(alloc, disk, batch.as_slice())
}

const NOTES: [&[u8]; 3] = [CLOCK, DECISION, READY];

#[test]
fn notes_of_the_server(rt: HostRuntime) -> Result<(), Fail> {
    let alloc = rt.alloc();
    let mut all = Vec::new(alloc);
    for note in NOTES {
        assert!(rt; noted(alloc, 1, note)? == Some(1));
        put_bytes(&mut all, note)?;
    }
    assert!(rt; noted(alloc, 3, &all)? == Some(3));
    Ok(())
}

// Whether a start is refused with the note, one byte of which is changed.
fn is_refused(alloc: Global, note: &[u8], at: usize, to: u8) -> Result<bool, Wrong> {
    let mut bytes = Vec::new(alloc);
    put_bytes(&mut bytes, note)?;
    if let Some(byte) = bytes.get_mut(at) {
        *byte = to;
    }
    Ok(noted(alloc, 1, &bytes)?.is_none())
}

// Another letter, a clock that is too late; a decision of another server, with parts here, on no server of the run, or with more
// than it counts; a part on another server, of a transaction from here, from no server of the run, or with a time that is too late.
static WRONG: [(&[u8], usize, u8); 10] = [
    (CLOCK, 2, b'E'),
    (CLOCK, 11, 0x41),
    (DECISION, 3, 2),
    (DECISION, 25, 1),
    (DECISION, 34, 4),
    (DECISION, 24, 1),
    (READY, 3, 2),
    (READY, 16, 1),
    (READY, 16, 4),
    (READY, 25, 0x41),
];

#[test]
fn notes_of_no_such_server(rt: HostRuntime) -> Result<(), Fail> {
    for (note, at, to) in WRONG {
        assert!(rt; is_refused(rt.alloc(), note, at, to)?, "{at} {to}");
    }
    Ok(())
}
