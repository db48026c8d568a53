//! Volumes that somebody changed between two runs.
ghost use Rattle.std.specs.Prelude.{◌≡◌, ◌≤◌, IsTrue, IfOk, IfSome, false};
ghost use Rattle.alp_batch.specs.Batch.{IsBatch};
ghost use Rattle.alp_wal.specs.Wal.{disk_of, is_dead, IsLog, IsKnown};

use super::{SOUND, run_in};
use alp_base::OutOfMemory;
use alp_batch::{Batch, decode};
use alp_bay::{Bay, MemBay};
use alp_disk::{Disk, MemDisk};
use alp_wal::{Wal, WalFault, all_below, mount};
use std::alloc::Global;
use std::test::Fail;

// So many pages has the disk: two anchors, two areas of the log, and the home pages from disk page 130 on.
const PAGES: u32 = 642;

const MADE: &[u8] = b"servers 1\nvolume 1 512 64\n";

const AGAIN: &[u8] = b"servers 1\n";

// A home page that begins with these bytes and is zeros behind them.
type Begun = (u16, &'static [u8]);

// What is committed to a volume: home pages by rising page, and a note `C` of so many bytes, 0 for none.
struct Spoiled {
    pages: &'static [Begun],
    note: u8,
    said: &'static str,
}

// The entry of file 1.1.1, whose leader is home page 100, where the directory ends only at 128; and at 257, where leaders begin.
const ENTRY_OF_100: &[u8] = &[1, 0, 0, 0, 1, 0, 0, 0, 1, 0, 0, 0, 0, 0, 0, 100];

const ENTRY_OF_257: &[u8] = &[1, 0, 0, 0, 1, 0, 0, 0, 1, 0, 0, 0, 0, 0, 1, 1];

// Owner ann, with quota 10 and charge 1.
const ANN: &[u8] = &[
    3, b'a', b'n', b'n', 0, 0, 0, 0, 0, 0, 0, 0, 0, 0, 0, 0, 0, 0, 0, 0, 0, 0, 0, 0, 0, 0, 0, 0,
    10, 0, 0, 0, 1,
];

static SPOILED: [Spoiled; 5] = [
    Spoiled {
        pages: &[(0, b"XOLUME1\x01")],
        note: 0,
        said: "alpine: damaged server 1 place 130",
    },
    Spoiled {
        pages: &[(1, ENTRY_OF_100)],
        note: 0,
        said: "alpine: damaged server 1 place 131",
    },
    Spoiled {
        pages: &[(129, ANN)],
        note: 0,
        said: "alpine: damaged server 1 place 259",
    },
    Spoiled {
        pages: &[(1, ENTRY_OF_257), (257, &[9])],
        note: 0,
        said: "alpine: damaged server 1 place 387",
    },
    Spoiled {
        pages: &[],
        note: 11,
        said: "alpine: damaged server 1 place 0",
    },
];

// How many pages there are, at most 255.
fn count(pages: &[Begun]) -> u8 {
    let mut count = 0u8;
    for _ in pages {
        count = count.saturating_add(1);
    }
    count
}

impl Spoiled {
    // The bytes of the batch.
    fn spelled(&self, alloc: Global) -> Result<Vec<u8>, OutOfMemory> {
        let mut bytes = Vec::new(alloc);
        bytes.extend_from_slice(&[0, count(self.pages)])?;
        for (at, begins) in self.pages {
            let mut page = [0; 512];
            for (to, from) in page.iter_mut().zip(begins.iter()) {
                *to = *from;
            }
            bytes.extend_from_slice(&[0, 0])?;
            bytes.extend_from_slice(&at.to_be_bytes())?;
            bytes.extend_from_slice(&page)?;
        }
        match self.note {
            0 => bytes.extend_from_slice(&[0, 0])?,
            length => bytes.extend_from_slice(&[0, 1, 1, 1, b'C', 0, 0, 0, length])?,
        }
        bytes.extend_from_slice(&[0; 255][..self.note as usize])?;
        Ok(bytes)
    }

    // The batch, by way of its bytes.
    fn batch(&self, alloc: Global) -> Result<Option<Batch>, OutOfMemory>
        ensures { IfOk result (λ found. IfSome found IsBatch) }
    {
        let bytes = self.spelled(alloc)?;
        decode(alloc, bytes.as_slice())
    }
}

// Commits a batch where it suits, and gives the fault.
fn put<D: Disk>(wal: &mut Wal<D>, batch: &Batch) -> Option<Result<(), WalFault>>
    requires log { IsLog (D.size (disk_of wal.old)) wal.old }
    requires known { IsTrue (D.tells (disk_of wal.old)) → is_dead wal.old ≡ false → IsKnown (D.size (disk_of wal.old)) (D.seen (disk_of wal.old)) (D.may_leave (disk_of wal.old)) wal.old }
    requires batch { IsBatch batch.now }
{
    let live = wal.note_names().len();
    let changes = batch.notes.as_slice().len();
    if live > 65000 || changes > 500 {
        return None;
    }
    if !all_below(batch.images.as_slice(), wal.sizes().home) {
        return None;
    }
    Some(wal.commit(batch))
}

// The disk of a server after a run that made it.
fn made(alloc: Global, bay: &mut MemBay) -> Result<MemDisk, Fail>
    ensures long { IfOk result (λ disk. 2 ≤ ⟦<MemDisk as Disk>⟧.size disk) }
{
    let told = run_in(alloc, &["play"], MADE, &SOUND, bay)?;
    if told.code != 0 {
        return Err("a volume".into());
    }
    match bay.take(1, PAGES) {
        Ok(disk) => Ok(disk),
        Err(_fault) => Err("a disk".into()),
    }
}

// The disk stands in the bay again, and no call of it is to be stopped.
fn give_back(bay: &mut MemBay, disk: MemDisk) -> Result<(), Fail> {
    let mut disk = disk;
    if disk.pages() < 2 {
        return Err("two pages".into());
    }
    disk.stop_after(None);
    bay.give(1, disk);
    Ok(())
}

// The disk with the batch committed to its volume.
fn spoil(alloc: Global, disk: MemDisk, spoiled: &Spoiled) -> Result<MemDisk, Fail>
    requires long { 2 ≤ ⟦<MemDisk as Disk>⟧.size disk }
{
    let Some(batch) = spoiled.batch(alloc)? else {
        return Err("a batch".into());
    };
    let Ok(mut wal) = mount(alloc, disk, 1, 1) else {
        return Err("a volume".into());
    };
    match put(&mut wal, &batch) {
        Some(Ok(())) => Ok(wal.close()),
        _ => Err("a commit".into()),
    }
}

// Whether a run on such a volume says so, and writes nothing.
fn is_told(alloc: Global, spoiled: &Spoiled) -> Result<bool, Fail> {
    let mut bay = MemBay::new(alloc)?;
    let disk = made(alloc, &mut bay)?;
    give_back(&mut bay, spoil(alloc, disk, spoiled)?)?;
    let told = run_in(alloc, &["play"], AGAIN, &SOUND, &mut bay)?;
    Ok(told.is(9, spoiled.said, b""))
}

#[test]
fn tells_what_was_committed_past_the_grammar(rt: HostRuntime) -> Result<(), Fail> {
    for spoiled in &SPOILED {
        assert!(rt; is_told(rt.alloc(), spoiled)?);
    }
    Ok(())
}

// How a run ends on a volume whose disk pages got a zero at such an offset.
fn with_zeros(alloc: Global, at: &[(u32, u16)], code: u8, said: &str) -> Result<bool, Fail> {
    let mut bay = MemBay::new(alloc)?;
    let mut disk = made(alloc, &mut bay)?;
    for (page, offset) in at {
        if *page >= disk.pages() || *offset > 511 || disk.write(*page, *offset, &[0]).is_err() {
            return Err("a write".into());
        }
    }
    if disk.sync().is_err() {
        return Err("a sync".into());
    }
    give_back(&mut bay, disk)?;
    let told = run_in(alloc, &["play"], AGAIN, &SOUND, &mut bay)?;
    Ok(told.is(code, said, b""))
}

#[test]
fn tells_closed_gates_and_a_broken_record(rt: HostRuntime) -> Result<(), Fail> {
    let closed = with_zeros(
        rt.alloc(),
        &[(0, 0), (1, 0)],
        8,
        "alpine: not a volume server 1",
    )?;
    let broken = with_zeros(rt.alloc(), &[(2, 1)], 9, "alpine: damaged server 1 place 2")?;
    assert!(rt; closed && broken);
    Ok(())
}
