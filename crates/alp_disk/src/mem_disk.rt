//! A disk in memory.
ghost use Rattle.std.specs.Prelude.{◌≡◌, ◌<◌, ◌≤◌, ◌+◌, ◌^◌, ◌↔◌, ℕ, Bool, true, false, [], length, replicate, vec_capacity, IsTrue, IsErr, OnOk, OnErr, IfOk};
ghost use Rattle.alp_base.specs.Pages.{zero_page};
ghost use Rattle.alp_base.specs.Streams.{counted, is_failing};
ghost use Rattle.alp_disk.specs.Disk.{page as page_of, IsImage, with_bytes, Torn};
ghost use Rattle.alp_base.specs.Crashes.{Follows, NoMore, Only, Adds};
ghost use Rattle.alp_base.specs.Allowances.{Spends, HasHaltCause};
ghost use Rattle.alp_disk.specs.Pending.{replay};
ghost use Rattle.alp_disk.specs.declared.outcomes.TheConstants.{ROOM as room_of_writes};
ghost use Rattle.alp_base.specs.declared.allowance.Allowance.TheVariants.{Free};

use crate::Disk;
use crate::outcomes::{ROOM, crash, newest, note, settle, zero_pages};
use crate::pending_write::PendingWrite;
use alp_base::{Halt, OutOfMemory, Page};
use std::alloc::Global;

/// Pages in memory, with the writes since the last sync. It tells what it holds.
///
/// The numbers of the calls that are to fail are given when it is made: reads, writes and syncs
/// count together, from 1. Room for 8,192 writes is taken then. A write past that room makes the
/// earlier ones stable first.
#[derive(Drop)]
pub struct MemDisk {
    stable: Vec<Page>,
    pending: Vec<PendingWrite>,
    fails: Vec<u64>,
    calls: u64,
    faults: u64,
    ghost whole: { IsImage (length stable.items) stable.items },
    ghost few: { length stable.items < 2 ^ 32 },
    ghost room: { room_of_writes ≤ vec_capacity pending },
    ghost faults_end: { faults < 2 ^ 64 },
}

impl MemDisk {
    ghost use Rattle.alp_disk.specs.MemDisk.{stable_of, pending_of, page_count, calls_of, fails_of, faults_of};

    /// A disk that reads as zeros.
    pub fn new(alloc: Global, pages: u32, fails: Vec<u64>) -> Result<MemDisk, OutOfMemory>
        ensures zeros { IfOk result (λ disk. stable_of disk ≡ replicate pages zero_page) }
        ensures size { IfOk result (λ disk. page_count disk ≡ pages) }
        ensures synced { IfOk result (λ disk. pending_of disk ≡ []) }
        ensures calls { IfOk result (λ disk. calls_of disk ≡ 0) }
        ensures fails { IfOk result (λ disk. fails_of disk ≡ fails.items) }
        ensures faults { IfOk result (λ disk. faults_of disk ≡ 0) }
    {
        let stable = zero_pages(alloc, pages)?;
        let pending = Vec::with_capacity(alloc, ROOM)?;
        Ok(MemDisk {
            stable,
            pending,
            fails,
            calls: 0,
            faults: 0,
        })
    }
}

/// Whether the next call is to fail.
fn is_listed(calls: u64, fails: &[u64]) -> bool
    ensures { result ≡ is_failing calls fails.now }
{
    let next = calls.saturating_add(1);
    fails.iter().any(|n| *n == next)
}

/// Counts a call, and says whether it is to fail.
fn fails_now(calls: &mut u64, faults: &mut u64, fails: &[u64]) -> bool
    ensures failing { result ≡ is_failing calls.old fails.now }
    ensures counts { calls.new ≡ counted calls.old }
    ensures same { result ≡ false → faults.new ≡ faults.old }
    ensures rose { result ≡ true → faults.new ≡ counted faults.old }
{
    let failing = is_listed(*calls, fails);
    *calls = calls.saturating_add(1);
    if !failing {
        return false;
    }
    *faults = faults.saturating_add(1);
    true
}

impl Disk for MemDisk {
    ghost use Rattle.alp_disk.specs.PendingLaws.{is_image-replay, read_is_left};
    ghost use Rattle.alp_disk.specs.MemDisk.{stable_of, pending_of, page_count, seen_of, LeftBy, calls_of, fails_of, faults_of, CountsCall, SamePages, Waits, CrashedBy};

    ghost tells = { λ _. true };

    ghost size = { λ m. page_count m };

    ghost seen = { λ m. seen_of m };

    ghost may_leave = { λ m. LeftBy m };

    ghost left_since = { λ _ m. LeftBy m };

    ghost faults = { λ m. m.faults };

    ghost allowance = { λ _. Free };

    ghost crashed = { λ m pick back. CrashedBy pick m back };

    ghost few = { λ m. m.few };

    ghost faults_end = { λ m. m.faults_end };

    ghost is_image = { λ m _. is_image-replay (page_count m) (stable_of m) (pending_of m) m.whole };

    ghost are_images = { λ _ _ left. left.0 };

    ghost were_images = { λ _ _ _ left. left.0 };

    ghost as_read = { λ m _. read_is_left (page_count m) (stable_of m) (pending_of m) m.whole };

    ghost counts_now = { λ _ _ _ left. left };

    ghost only_now = { λ _ _ left. left };

    fn pages(&self) -> u32 {
        self.stable.len() as u32
    }

    fn read(&mut self, at: u32, page: &mut Page) -> Result<(), Halt>
        requires { at < page_count self.old }
        ensures bytes { OnOk result (page.new ≡ page_of (seen_of self.old) at) }
        ensures size { page_count self.new ≡ page_count self.old }
        ensures seen { seen_of self.new ≡ seen_of self.old }
        ensures crash { NoMore (LeftBy self.old) (LeftBy self.new) }
        ensures settles_nothing { NoMore (LeftBy self.new) (LeftBy self.old) }
        ensures time { Adds (λ _ m. LeftBy m) self.old self.new (LeftBy self.new) }
        ensures cause { HasHaltCause (faults_of self.old) (faults_of self.new) Free result }

        ensures counts { CountsCall self.old self.new result }
        ensures kept { SamePages self.old self.new }
    {
        if fails_now(&mut self.calls, &mut self.faults, &self.fails) {
            return Err(Halt::Failed);
        }
        *page = newest(&self.stable, &self.pending, at);
        Ok(())
    }

    fn write(&mut self, at: u32, offset: u16, bytes: &[u8]) -> Result<(), Halt>
        requires page { at < page_count self.old }
        requires fits { offset + length bytes.now ≤ 512 }
        ensures written { OnOk result (seen_of self.new ≡ with_bytes (seen_of self.old) at offset bytes.now) }
        ensures size { page_count self.new ≡ page_count self.old }
        ensures crash { Follows (Torn at offset (length bytes.now)) (LeftBy self.old) (LeftBy self.new) }
        ensures time { Adds (λ _ m. LeftBy m) self.old self.new (LeftBy self.new) }
        ensures cause { HasHaltCause (faults_of self.old) (faults_of self.new) Free result }

        ensures counts { CountsCall self.old self.new result }
        // Where there is no room for one more, the earlier ones are stable first.
        ensures waits { OnOk result (Waits at offset bytes.now self.old self.new) }
        ensures kept { OnErr result (SamePages self.old self.new) }
    {
        let failing = fails_now(&mut self.calls, &mut self.faults, &self.fails);
        if failing {
            return Err(Halt::Failed);
        }
        let write = PendingWrite::new(at, offset, bytes);
        note(&mut self.stable, &mut self.pending, write);
        Ok(())
    }

    fn sync(&mut self) -> Result<(), Halt>
        ensures durable { OnOk result (Only (seen_of self.old) (LeftBy self.new)) }
        ensures size { page_count self.new ≡ page_count self.old }
        ensures seen { seen_of self.new ≡ seen_of self.old }
        ensures crash { NoMore (LeftBy self.old) (LeftBy self.new) }
        ensures time { Adds (λ _ m. LeftBy m) self.old self.new (LeftBy self.new) }
        ensures cause { HasHaltCause (faults_of self.old) (faults_of self.new) Free result }

        ensures counts { CountsCall self.old self.new result }
        ensures stable { OnOk result (pending_of self.new ≡ []) }
        ensures kept { OnErr result (SamePages self.old self.new) }
    {
        if !fails_now(&mut self.calls, &mut self.faults, &self.fails) {
            settle(&mut self.stable, &mut self.pending);
            return Ok(());
        }
        Err(Halt::Failed)
    }

    fn stop_after(&mut self, _calls: Option<u32>) {}

    /// Pick 0 drops the writes since the last sync, 1 keeps them, 2 drops and keeps them by turns, and
    /// a greater one fills their ranges with the low bytes of successive words of `Pcg32`, seeded with
    /// the pick.
    fn power_off(self, pick: u64) -> Self
        ensures left { LeftBy self (seen_of result) }
        ensures still { Only (seen_of result) (LeftBy result) }
        ensures size { page_count result ≡ page_count self }
        ensures faults { faults_of result ≡ faults_of self }
        ensures crashed { CrashedBy pick self result }
    {
        let MemDisk {
            mut stable,
            mut pending,
            fails,
            calls,
            faults,
        } = self;
        crash(&mut stable, &pending, pick);
        pending.clear();
        MemDisk {
            stable,
            pending,
            fails,
            calls,
            faults,
        }
    }
}
