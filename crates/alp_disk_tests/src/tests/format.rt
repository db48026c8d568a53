//! Tests of alp_format.
ghost use Rattle.std.specs.Prelude.{◌≡◌, ◌<◌, IsTrue, IfOk, IfSome, false};
ghost use Rattle.alp_batch.specs.Batch.{IsBatch};
ghost use Rattle.alp_wal.specs.Wal.{disk_of, is_dead, IsLog, IsKnown};

use alp_base::{Bytes, OutOfMemory, Page, Sizes};
use alp_batch::{Batch, decode};
use alp_disk::{Disk, FileDisk, Fuse, MemDisk};
use alp_format::format;
use alp_wal::{Wal, WalFault, all_below, mount};
use rand_core::{Rng, SeedableRng};
use rand_pcg::Pcg32;
use std::alloc::Global;
use std::fs::File;
use std::test::Fail;
use std::{env, fs, process};

const SIZES: Sizes = Sizes {
    home: 512,
    area: 64,
};

/// The pages that the sizes make up, and the disk's page of home page 7.
const PAGES: u32 = 642;

const HOME_PAGE_7: u32 = 137;

/// Home pages from `first` on get this byte, and the note `C` gets so many bytes, if any.
#[derive(Clone, Copy)]
struct Change {
    first: u8,
    count: u8,
    byte: u8,
    note: u16,
}

impl Change {
    fn new(first: u8, count: u8, byte: u8, note: u16) -> Change {
        Change {
            first,
            count,
            byte,
            note,
        }
    }

    /// The change as a batch, by way of its spelling.
    fn batch(&self, alloc: Global) -> Result<Option<Batch>, OutOfMemory>
        ensures { IfOk result (λ found. IfSome found IsBatch) }
    {
        let mut bytes = Vec::new(alloc);
        bytes.extend_from_slice(&[0, self.count])?;
        for k in 0..self.count {
            bytes.extend_from_slice(&[0, 0, 0, self.first.wrapping_add(k)])?;
            bytes.extend_from_slice(&[self.byte; 512])?;
        }
        if self.note == 0 {
            bytes.extend_from_slice(&[0, 0])?;
        } else {
            bytes.extend_from_slice(&[0, 1, 1, 1, 0x43, 0, 0])?;
            bytes.extend_from_slice(&self.note.to_be_bytes())?;
        }
        for _ in 0..self.note {
            bytes.push(self.byte)?;
        }
        decode(alloc, bytes.as_slice())
    }
}

/// What a log is to hold.
#[derive(Clone, Copy)]
struct Plain {
    pages: [u8; 16],
    note: u16,
}

const NOTHING: Plain = Plain {
    pages: [0; 16],
    note: 0,
};

impl Plain {
    fn with(&self, change: &Change) -> Plain {
        let mut pages = self.pages;
        for k in 0..change.count {
            pages[(change.first.wrapping_add(k) % 16) as usize] = change.byte;
        }
        let note = match change.note {
            0 => self.note,
            note => note,
        };
        Plain { pages, note }
    }
}

/// Commits a batch where it suits, and gives the fault.
fn put<D: Disk>(wal: &mut Wal<D>, batch: &Batch) -> Option<Result<(), WalFault>>
    requires log { IsLog (D.size (disk_of wal.old)) wal.old }
    requires known { IsTrue (D.tells (disk_of wal.old)) → is_dead wal.old ≡ false → IsKnown (D.size (disk_of wal.old)) (D.seen (disk_of wal.old)) (D.may_leave (disk_of wal.old)) wal.old }
    requires batch { IsBatch batch.now }
    ensures log { IsLog (D.size (disk_of wal.new)) wal.new }
    ensures known { IsTrue (D.tells (disk_of wal.new)) → is_dead wal.new ≡ false → IsKnown (D.size (disk_of wal.new)) (D.seen (disk_of wal.new)) (D.may_leave (disk_of wal.new)) wal.new }
{
    let live = wal.note_names().len();
    let changes = batch.notes.as_slice().len();
    if live > 65000 || changes > 500 {
        return None;
    }
    if !all_below(batch.images.as_slice(), wal.sizes().home) {
        return None;
    }
    Some(wal.commit(batch))
}

/// Commits a change.
fn make<D: Disk>(alloc: Global, wal: &mut Wal<D>, change: &Change) -> Option<Result<(), WalFault>>
    requires log { IsLog (D.size (disk_of wal.old)) wal.old }
    requires known { IsTrue (D.tells (disk_of wal.old)) → is_dead wal.old ≡ false → IsKnown (D.size (disk_of wal.old)) (D.seen (disk_of wal.old)) (D.may_leave (disk_of wal.old)) wal.old }
    ensures log { IsLog (D.size (disk_of wal.new)) wal.new }
    ensures known { IsTrue (D.tells (disk_of wal.new)) → is_dead wal.new ≡ false → IsKnown (D.size (disk_of wal.new)) (D.seen (disk_of wal.new)) (D.may_leave (disk_of wal.new)) wal.new }
{
    match change.batch(alloc) {
        Ok(Some(batch)) => put(wal, &batch),
        _ => None,
    }
}

fn is_made<D: Disk>(alloc: Global, wal: &mut Wal<D>, change: &Change) -> bool
    requires log { IsLog (D.size (disk_of wal.old)) wal.old }
    requires known { IsTrue (D.tells (disk_of wal.old)) → is_dead wal.old ≡ false → IsKnown (D.size (disk_of wal.old)) (D.seen (disk_of wal.old)) (D.may_leave (disk_of wal.old)) wal.old }
    ensures log { IsLog (D.size (disk_of wal.new)) wal.new }
    ensures known { IsTrue (D.tells (disk_of wal.new)) → is_dead wal.new ≡ false → IsKnown (D.size (disk_of wal.new)) (D.seen (disk_of wal.new)) (D.may_leave (disk_of wal.new)) wal.new }
{
    make(alloc, wal, change) == Some(Ok(()))
}

/// The first byte of a home page.
fn byte_at<D: Disk>(wal: &mut Wal<D>, at: u8) -> Option<u8>
    requires log { IsLog (D.size (disk_of wal.old)) wal.old }
    requires known { IsTrue (D.tells (disk_of wal.old)) → is_dead wal.old ≡ false → IsKnown (D.size (disk_of wal.old)) (D.seen (disk_of wal.old)) (D.may_leave (disk_of wal.old)) wal.old }
    ensures log { IsLog (D.size (disk_of wal.new)) wal.new }
    ensures known { IsTrue (D.tells (disk_of wal.new)) → is_dead wal.new ≡ false → IsKnown (D.size (disk_of wal.new)) (D.seen (disk_of wal.new)) (D.may_leave (disk_of wal.new)) wal.new }
{
    if wal.sizes().home != SIZES.home {
        return None;
    }
    let mut page = Page::zero();
    if wal.read_page(at as u32, &mut page).is_err() {
        return None;
    }
    Some(page.bytes()[0])
}

/// Whether the note `C` has that length, 0 where it is not there.
fn has_note<D: Disk>(alloc: Global, wal: &Wal<D>, length: u16) -> bool {
    let Ok(letter) = Vec::from_slice(alloc, &[0x43]) else {
        return false;
    };
    let name = Bytes::new(letter);
    match wal.note(&name) {
        Some(value) => value.as_slice().len() == length as usize,
        None => length == 0,
    }
}

/// Whether the log holds just this.
fn holds<D: Disk>(alloc: Global, wal: &mut Wal<D>, plain: &Plain) -> bool
    requires log { IsLog (D.size (disk_of wal.old)) wal.old }
    requires known { IsTrue (D.tells (disk_of wal.old)) → is_dead wal.old ≡ false → IsKnown (D.size (disk_of wal.old)) (D.seen (disk_of wal.old)) (D.may_leave (disk_of wal.old)) wal.old }
    ensures log { IsLog (D.size (disk_of wal.new)) wal.new }
    ensures known { IsTrue (D.tells (disk_of wal.new)) → is_dead wal.new ≡ false → IsKnown (D.size (disk_of wal.new)) (D.seen (disk_of wal.new)) (D.may_leave (disk_of wal.new)) wal.new }
{
    for at in 0..16 {
        if byte_at(wal, at) != Some(plain.pages[at as usize]) {
            return false;
        }
    }
    has_note(alloc, wal, plain.note)
}

fn fresh<D: Disk>(alloc: Global, disk: D) -> Option<Wal<D>>
    ensures log { IfSome result (λ w. IsLog (D.size (disk_of w)) w) }
    ensures known { IfSome result (λ w. IsTrue (D.tells (disk_of w)) → is_dead w ≡ false → IsKnown (D.size (disk_of w)) (D.seen (disk_of w)) (D.may_leave (disk_of w)) w) }
{
    if disk.pages() != PAGES {
        return None;
    }
    match format(alloc, disk, 1, 1, SIZES) {
        Ok(wal) => Some(wal),
        Err(_refused) => None,
    }
}

fn mounted<D: Disk>(alloc: Global, disk: D) -> Option<Wal<D>>
    ensures log { IfSome result (λ w. IsLog (D.size (disk_of w)) w) }
    ensures known { IfSome result (λ w. IsTrue (D.tells (disk_of w)) → is_dead w ≡ false → IsKnown (D.size (disk_of w)) (D.seen (disk_of w)) (D.may_leave (disk_of w)) w) }
{
    if disk.pages() < 2 {
        return None;
    }
    match mount(alloc, disk, 1, 1) {
        Ok(wal) => Some(wal),
        Err(_refused) => None,
    }
}

fn memory(alloc: Global) -> Result<Fuse<MemDisk>, OutOfMemory> {
    Ok(Fuse::new(MemDisk::new(alloc, PAGES, Vec::new(alloc))?))
}

/// Whether after a checkpoint of no notes 62 pages are left, which a batch of 61 pages does not fit, and one of 60 fills.
fn is_filled<D: Disk>(alloc: Global, wal: &mut Wal<D>) -> bool
    requires log { IsLog (D.size (disk_of wal.old)) wal.old }
    requires known { IsTrue (D.tells (disk_of wal.old)) → is_dead wal.old ≡ false → IsKnown (D.size (disk_of wal.old)) (D.seen (disk_of wal.old)) (D.may_leave (disk_of wal.old)) wal.old }
{
    wal.checkpoint() == Ok(())
        && wal.room() == 62
        && make(alloc, wal, &Change::new(0, 61, 1, 0)) == Some(Err(WalFault::Full))
        && is_made(alloc, wal, &Change::new(0, 60, 1, 0))
        && wal.room() == 0
}

fn fills<D: Disk>(alloc: Global, disk: D) -> bool {
    match fresh(alloc, disk) {
        Some(mut wal) => is_filled(alloc, &mut wal),
        None => false,
    }
}

#[test]
fn a_batch_fills_an_area(rt: HostRuntime) -> Result<(), Fail> {
    let alloc = rt.alloc();
    assert!(rt; fills(alloc, memory(alloc)?));
    Ok(())
}

/// Whether the bytes of home page 7 are not all the same.
fn is_torn<D: Disk>(disk: &mut D) -> Option<bool> {
    let mut page = Page::zero();
    if disk.pages() != PAGES || disk.read(HOME_PAGE_7, &mut page).is_err() {
        return None;
    }
    let bytes = page.bytes();
    Some(bytes.iter().any(|b| *b != bytes[0]))
}

// Two commits that leave one page of the area, and one that makes a checkpoint.
const FIRST: Change = Change {
    first: 7,
    count: 2,
    byte: 1,
    note: 15000,
};

const SECOND: Change = Change {
    first: 7,
    count: 1,
    byte: 2,
    note: 14000,
};

const THIRD: Change = Change {
    first: 8,
    count: 2,
    byte: 3,
    note: 10,
};

/// Makes the three, the last of which is stopped after so many calls.
fn stop_third<D: Disk>(alloc: Global, wal: &mut Wal<D>, calls: u32) -> bool
    requires log { IsLog (D.size (disk_of wal.old)) wal.old }
    requires known { IsTrue (D.tells (disk_of wal.old)) → is_dead wal.old ≡ false → IsKnown (D.size (disk_of wal.old)) (D.seen (disk_of wal.old)) (D.may_leave (disk_of wal.old)) wal.old }
{
    if !is_made(alloc, wal, &FIRST) || !is_made(alloc, wal, &SECOND) {
        return false;
    }
    wal.stop_after(Some(calls));
    make(alloc, wal, &THIRD).is_some()
}

/// Whether the disk holds what was before the third, and whether it holds what was after it.
fn look<D: Disk>(alloc: Global, disk: D) -> Option<(bool, bool)> {
    let mut wal = mounted(alloc, disk)?;
    let was = NOTHING.with(&FIRST).with(&SECOND);
    let before = holds(alloc, &mut wal, &was);
    let after = holds(alloc, &mut wal, &was.with(&THIRD));
    Some((before, after))
}

/// The same for a stop after so many calls and a crash with that pick, and whether a home page is torn then.
fn look_after_stop<D: Disk>(
    alloc: Global,
    disk: D,
    calls: u32,
    pick: u64,
) -> Option<(bool, bool, bool)> {
    let mut wal = fresh(alloc, disk)?;
    if !stop_third(alloc, &mut wal, calls) {
        return None;
    }
    let mut disk = wal.close().power_off(pick);
    let torn = is_torn(&mut disk)?;
    let (before, after) = look(alloc, disk)?;
    Some((before, after, torn))
}

#[test]
fn a_crash_leaves_the_batch_or_none(rt: HostRuntime) -> Result<(), Fail> {
    let alloc = rt.alloc();
    let mut seen = (false, false, false);
    for calls in 0..60 {
        for pick in 0..6 {
            let found = look_after_stop(alloc, memory(alloc)?, calls, pick);
            let (before, after, torn) = found.ok_or("no log")?;
            assert!(rt; before != after, "{calls} {pick}");
            seen = (seen.0 || before, seen.1 || after, seen.2 || torn);
        }
    }
    assert!(rt; seen.0 && seen.1 && seen.2);
    Ok(())
}

fn below(random: &mut Pcg32, end: u8) -> u8
    requires { 0 < end }
{
    (random.next_u32() % end as u32) as u8
}

fn any_change(random: &mut Pcg32) -> Change {
    let note = below(random, 200) as u16 * 10;
    Change::new(
        below(random, 13),
        below(random, 4),
        below(random, 255),
        note,
    )
}

/// Mostly none.
fn any_stop(random: &mut Pcg32) -> Option<u32> {
    if below(random, 4) > 0 {
        return None;
    }
    Some(below(random, 40) as u32)
}

/// What a run is to hold now, and what it has seen.
#[derive(Drop)]
struct Run {
    plain: Plain,
    random: Pcg32,
    checkpoints: u32,
    stops: u32,
}

impl Run {
    /// A mount after a stop, which finds what was before the change or after it.
    fn recover<D: Disk>(&mut self, alloc: Global, disk: D, next: Plain) -> Option<Wal<D>>
        ensures log { IfSome result (λ w. IsLog (D.size (disk_of w)) w) }
        ensures known { IfSome result (λ w. IsTrue (D.tells (disk_of w)) → is_dead w ≡ false → IsKnown (D.size (disk_of w)) (D.seen (disk_of w)) (D.may_leave (disk_of w)) w) }
    {
        self.stops = self.stops.wrapping_add(1);
        let pick = below(&mut self.random, 6) as u64;
        let mut wal = mounted(alloc, disk.power_off(pick))?;
        if holds(alloc, &mut wal, &next) {
            self.plain = next;
        }
        Some(wal)
    }

    /// A commit that may be stopped. Gives whether it was done, and nothing where there was another fault.
    fn commit<D: Disk>(&mut self, alloc: Global, wal: &mut Wal<D>, change: &Change) -> Option<bool>
        requires log { IsLog (D.size (disk_of wal.old)) wal.old }
        requires known { IsTrue (D.tells (disk_of wal.old)) → is_dead wal.old ≡ false → IsKnown (D.size (disk_of wal.old)) (D.seen (disk_of wal.old)) (D.may_leave (disk_of wal.old)) wal.old }
        ensures log { IsLog (D.size (disk_of wal.new)) wal.new }
        ensures known { IsTrue (D.tells (disk_of wal.new)) → is_dead wal.new ≡ false → IsKnown (D.size (disk_of wal.new)) (D.seen (disk_of wal.new)) (D.may_leave (disk_of wal.new)) wal.new }
    {
        let room = wal.room();
        wal.stop_after(any_stop(&mut self.random));
        match make(alloc, wal, change)? {
            Ok(()) => {
                self.plain = self.plain.with(change);
                self.checkpoints = self.checkpoints.wrapping_add((wal.room() > room) as u32);
                Some(true)
            }
            Err(WalFault::Stopped) => Some(false),
            Err(_fault) => None,
        }
    }

    fn turn<D: Disk>(&mut self, alloc: Global, wal: Wal<D>) -> Option<Wal<D>>
        requires log { IsLog (D.size (disk_of wal)) wal }
        requires known { IsTrue (D.tells (disk_of wal)) → is_dead wal ≡ false → IsKnown (D.size (disk_of wal)) (D.seen (disk_of wal)) (D.may_leave (disk_of wal)) wal }
        ensures log { IfSome result (λ w. IsLog (D.size (disk_of w)) w) }
        ensures known { IfSome result (λ w. IsTrue (D.tells (disk_of w)) → is_dead w ≡ false → IsKnown (D.size (disk_of w)) (D.seen (disk_of w)) (D.may_leave (disk_of w)) w) }
    {
        let mut wal = wal;
        let change = any_change(&mut self.random);
        if self.commit(alloc, &mut wal, &change)? {
            return Some(wal);
        }
        let next = self.plain.with(&change);
        self.recover(alloc, wal.close(), next)
    }

    /// Whether after each of so many turns the log holds what the plain map holds.
    fn many<D: Disk>(&mut self, alloc: Global, disk: D, count: u32) -> Option<bool> {
        let mut wal = fresh(alloc, disk)?;
        for _ in 0..count {
            wal = self.turn(alloc, wal)?;
            if !holds(alloc, &mut wal, &self.plain) {
                return Some(false);
            }
        }
        Some(true)
    }
}

#[test]
fn many_commits_hold_what_a_plain_map_holds(rt: HostRuntime) -> Result<(), Fail> {
    let alloc = rt.alloc();
    let mut run = Run {
        plain: NOTHING,
        random: Pcg32::seed_from_u64(1),
        checkpoints: 0,
        stops: 0,
    };
    assert!(rt; run.many(alloc, memory(alloc)?, 1000) == Some(true));
    assert!(rt; run.checkpoints > 50, "{}", run.checkpoints);
    assert!(rt; run.stops > 50, "{}", run.stops);
    Ok(())
}

const BEFORE: Change = Change {
    first: 7,
    count: 2,
    byte: 1,
    note: 600,
};

const FAILING: Change = Change {
    first: 7,
    count: 1,
    byte: 2,
    note: 600,
};

/// Whether the disk fails in the second commit, the next one finds the log dead, and it holds what stood before them.
fn dies<D: Disk>(alloc: Global, wal: &mut Wal<D>) -> bool
    requires log { IsLog (D.size (disk_of wal.old)) wal.old }
    requires known { IsTrue (D.tells (disk_of wal.old)) → is_dead wal.old ≡ false → IsKnown (D.size (disk_of wal.old)) (D.seen (disk_of wal.old)) (D.may_leave (disk_of wal.old)) wal.old }
{
    is_made(alloc, wal, &BEFORE)
        && make(alloc, wal, &FAILING) == Some(Err(WalFault::Failed))
        && make(alloc, wal, &FAILING) == Some(Err(WalFault::Dead))
        && holds(alloc, wal, &NOTHING.with(&BEFORE))
}

fn fails_in_second<D: Disk>(alloc: Global, disk: D) -> bool {
    match fresh(alloc, disk) {
        Some(mut wal) => dies(alloc, &mut wal),
        None => false,
    }
}

#[test]
fn a_fault_leaves_a_dead_log_that_reads_on(rt: HostRuntime) -> Result<(), Fail> {
    let alloc = rt.alloc();
    // Formatting makes 520 calls, the first commit 9 and the second 8.
    let fails = Vec::from_slice(alloc, &[534])?;
    let disk = MemDisk::new(alloc, PAGES, fails)?;
    assert!(rt; fails_in_second(alloc, disk));
    Ok(())
}

const KEPT: Change = Change {
    first: 7,
    count: 2,
    byte: 9,
    note: 600,
};

/// Formats a disk, commits a change, and looks for it after a mount.
fn is_kept<D: Disk>(alloc: Global, disk: D) -> Option<bool> {
    let mut wal = fresh(alloc, disk)?;
    if !is_made(alloc, &mut wal, &KEPT) {
        return None;
    }
    let mut again = mounted(alloc, wal.close())?;
    Some(holds(alloc, &mut again, &NOTHING.with(&KEPT)))
}

#[test]
fn a_file_holds_a_log(rt: HostRuntime) -> Result<(), Fail> {
    let alloc = rt.alloc();
    let name = format!(in alloc; "alp_format-test-{}", process::id(rt.process()))?;
    let path = env::temp_dir(&rt)?.join(alloc, name.as_str())?;
    let file = File::create_new(&rt, path.as_path())?;
    let sized = file.set_len(512 * PAGES as u64);
    let kept = is_kept(alloc, FileDisk::new(file, PAGES));
    fs::remove_file(&rt, path.as_path())?;
    assert!(rt; sized.is_ok() && kept == Some(true));
    Ok(())
}

/// What threads may share and hand over.
fn crosses<T: Send + Sync>(_value: &T) {}

/// Whether a new log is alive, and has logged no page. It crosses threads as its disk does.
fn is_new<D: Disk + Send + Sync>(alloc: Global, disk: D) -> bool {
    match fresh(alloc, disk) {
        Some(log) => {
            crosses(&log);
            !log.is_dead() && log.logged(7).is_none() && log.logged(512).is_none()
        }
        None => false,
    }
}

#[test]
fn a_new_log_is_alive_and_crosses_threads(rt: HostRuntime) -> Result<(), Fail> {
    let alloc = rt.alloc();
    assert!(rt; is_new(alloc, memory(alloc)?));
    Ok(())
}
