//! Mounting a disk.
ghost use Rattle.std.specs.Prelude.{◌≡◌, ◌≤◌, ◌<◌, ◌+◌, length, IsTrue, OnOk, IfOk, IfErr, MatchResult, IsErrOf, ℕ, true, false, List};
ghost use Rattle.alp_base.specs.Causes.{Rose};
ghost use Rattle.alp_base.specs.Faults.{IsCountKept};
ghost use Rattle.alp_base.specs.declared.faults.Halt.{Halt as Halting};
ghost use Rattle.alp_base.specs.declared.faults.VaultFault.TheVariants.{Failed, Stopped, Damaged, NotAVolume};
ghost use Rattle.alp_base.specs.declared.allowance.Allowance.TheVariants.{Spent};
ghost use Rattle.alp_base.specs.Allowances.{Spends};
ghost use Rattle.alp_base.specs.Crashes.{Only, NoMore, Adds};
ghost use Rattle.alp_anchor.specs.Anchor.{IsSound, Counts};
ghost use Rattle.alp_disk.specs.Calls.{Looked};
ghost use Rattle.alp_record.specs.Record.{IsEnd};
ghost use Rattle.alp_wal.specs.Live.{AreLive, AreWithin};
ghost use Rattle.alp_wal.specs.Reading.{area_first, area_end, Reads};
ghost use Rattle.alp_wal.specs.Wal.{disk_of, anchor_of, state_of, is_dead, IsLog, IsKnown};
ghost use Rattle.alp_wal.specs.Mount.{Finds, IsBad, IsPastSync, WhyNotMounted, HasMountCause};

use crate::Wal;
use crate::begin::{area_of, bare, begin};
use crate::found::Found;
use alp_base::{Halt, OutOfMemory, VaultFault};
use alp_disk::Disk;
use alp_record::{Area, RecordFault, read_record, record_pages};
use std::alloc::Global;

/// Reads the record behind the last one that was found, and tells whether there is one.
fn step<D: Disk>(
    alloc: Global,
    disk: &mut D,
    area: &Area,
    found: &mut Found,
) -> Result<bool, VaultFault>
    requires area { area_end found.old.anchor ≤ D.size disk.old }
    requires end { area.now.end ≡ area_end found.old.anchor }
    requires generation { area.now.generation ≡ found.old.anchor.generation }
    requires begun { area_first found.old.anchor ≤ found.old.end }
    requires inside { found.old.end ≤ area_end found.old.anchor }
    requires index { length found.old.index ≡ found.old.anchor.sizes.home }
    requires live { AreLive found.old.notes.notes }
    requires within { AreWithin (area_first found.old.anchor) found.old.end found.old.notes.notes }
    ensures more { IsTrue (D.tells disk.old) → Finds (D.seen disk.old) found.old.anchor found.old → IfOk result (λ more. IsTrue more → Finds (D.seen disk.old) found.old.anchor found.new) }
    ensures last { IsTrue (D.tells disk.old) → IfOk result (λ more. more ≡ false → IsEnd (D.seen disk.old) (area_end found.old.anchor) found.old.end) }
    ensures stays { IfOk result (λ more. more ≡ false → found.new ≡ found.old) }
    ensures bad { IsTrue (D.tells disk.old) → Finds (D.seen disk.old) found.old.anchor found.old → (place : ℕ) → IsErrOf result (Damaged place) → IsBad (D.seen disk.old) found.old.anchor place }
    ensures is_volume { (bytes : List ℕ) → IsErrOf result (NotAVolume bytes) → ⊥ }
    ensures grows { IfOk result (λ more. IsTrue more → found.old.end + 1 ≤ found.new.end) }
    ensures inside { OnOk result (found.new.end ≤ area_end found.old.anchor) }
    ensures anchor { found.new.anchor ≡ found.old.anchor }
    ensures index { OnOk result (length found.new.index ≡ length found.old.index) }
    ensures live { OnOk result (AreLive found.new.notes.notes) }
    ensures within { OnOk result (AreWithin (area_first found.old.anchor) found.new.end found.new.notes.notes) }
    ensures tells { D.tells disk.new ≡ D.tells disk.old }
    ensures size { D.size disk.new ≡ D.size disk.old }
    ensures seen { D.seen disk.new ≡ D.seen disk.old }
    ensures crash { NoMore (D.may_leave disk.old) (D.may_leave disk.new) }
    ensures time { Adds D.left_since disk.old disk.new (D.may_leave disk.old) }
    ensures allowance { D.allowance disk.new ≡ D.allowance disk.old }
    ensures later { D.faults disk.old ≤ D.faults disk.new }
    ensures still { MatchResult result (λ _. D.faults disk.new ≡ D.faults disk.old) (IsCountKept (D.faults disk.old) (D.faults disk.new)) }
    ensures failed { IsErrOf result Failed → Rose (D.faults disk.old) (D.faults disk.new) }
    ensures stopped { IsErrOf result Stopped → D.allowance disk.new ≡ Spent }
{
    let body = match read_record(alloc, disk, area, found.end) {
        Ok(Some(body)) => body,
        Ok(None) => return Ok(false),
        Err(RecordFault::Halted(Halt::Failed)) => return Err(VaultFault::Failed),
        Err(RecordFault::Halted(Halt::Stopped)) => return Err(VaultFault::Stopped),
        Err(RecordFault::OutOfMemory) => return Err(VaultFault::OutOfMemory),
        Err(RecordFault::Damaged { place }) => return Err(VaultFault::Damaged { place }),
    };
    let taken = match found.take(alloc, body.as_slice()) {
        Ok(taken) => taken,
        Err(OutOfMemory) => return Err(VaultFault::OutOfMemory),
    };
    if !taken {
        return Err(VaultFault::Damaged { place: found.end });
    }
    found.end += record_pages(body.as_slice().len() as u32);
    Ok(true)
}

/// Reads the records behind those that were found, up to the last one.
fn replay<D: Disk>(
    alloc: Global,
    disk: &mut D,
    area: &Area,
    found: &mut Found,
) -> Result<(), VaultFault>
    requires area { area_end found.old.anchor ≤ D.size disk.old }
    requires end { area.now.end ≡ area_end found.old.anchor }
    requires generation { area.now.generation ≡ found.old.anchor.generation }
    requires begun { area_first found.old.anchor ≤ found.old.end }
    requires inside { found.old.end ≤ area_end found.old.anchor }
    requires index { length found.old.index ≡ found.old.anchor.sizes.home }
    requires live { AreLive found.old.notes.notes }
    requires within { AreWithin (area_first found.old.anchor) found.old.end found.old.notes.notes }
    requires before { IsTrue (D.tells disk.old) → Finds (D.seen disk.old) found.old.anchor found.old }
    ensures finds { IsTrue (D.tells disk.old) → OnOk result (Finds (D.seen disk.old) found.old.anchor found.new) }
    ensures ends { IsTrue (D.tells disk.old) → OnOk result (IsEnd (D.seen disk.old) (area_end found.old.anchor) found.new.end) }
    ensures bad { IsTrue (D.tells disk.old) → (place : ℕ) → IsErrOf result (Damaged place) → IsBad (D.seen disk.old) found.old.anchor place }
    ensures is_volume { (bytes : List ℕ) → IsErrOf result (NotAVolume bytes) → ⊥ }
    ensures begun { OnOk result (found.old.end ≤ found.new.end) }
    ensures inside { OnOk result (found.new.end ≤ area_end found.old.anchor) }
    ensures anchor { found.new.anchor ≡ found.old.anchor }
    ensures index { OnOk result (length found.new.index ≡ found.old.anchor.sizes.home) }
    ensures live { OnOk result (AreLive found.new.notes.notes) }
    ensures within { OnOk result (AreWithin (area_first found.old.anchor) found.new.end found.new.notes.notes) }
    ensures tells { D.tells disk.new ≡ D.tells disk.old }
    ensures size { D.size disk.new ≡ D.size disk.old }
    ensures seen { D.seen disk.new ≡ D.seen disk.old }
    ensures crash { NoMore (D.may_leave disk.old) (D.may_leave disk.new) }
    ensures time { Adds D.left_since disk.old disk.new (D.may_leave disk.old) }
    ensures allowance { D.allowance disk.new ≡ D.allowance disk.old }
    ensures later { D.faults disk.old ≤ D.faults disk.new }
    ensures still { MatchResult result (λ _. D.faults disk.new ≡ D.faults disk.old) (IsCountKept (D.faults disk.old) (D.faults disk.new)) }
    ensures failed { IsErrOf result Failed → Rose (D.faults disk.old) (D.faults disk.new) }
    ensures stopped { IsErrOf result Stopped → D.allowance disk.new ≡ Spent }
{
    for _ in 0..area.end {
        if !step(alloc, disk, area, found)? {
            return Ok(());
        }
    }
    Ok(())
}

/// What a disk stands for, read in full.
fn recover<D: Disk>(
    alloc: Global,
    disk: &mut D,
    server: u8,
    servers: u8,
) -> Result<Found, VaultFault>
    requires { 2 ≤ D.size disk.old }
    ensures counts { IsTrue (D.tells disk.old) → IfOk result (λ f. Counts (D.size disk.old) (D.seen disk.old) f.anchor) }
    ensures named { IfOk result (λ f. (f.anchor.server ≡ server) × (f.anchor.servers ≡ servers)) }
    ensures sound { IfOk result (λ f. IsSound (D.size disk.old) f.anchor) }
    ensures finds { IsTrue (D.tells disk.old) → IfOk result (λ f. Finds (D.seen disk.old) f.anchor f) }
    ensures ends { IsTrue (D.tells disk.old) → IfOk result (λ f. IsEnd (D.seen disk.old) (area_end f.anchor) f.end) }
    ensures begun { IfOk result (λ f. area_first f.anchor ≤ f.end) }
    ensures inside { IfOk result (λ f. f.end ≤ area_end f.anchor) }
    ensures index { IfOk result (λ f. length f.index ≡ f.anchor.sizes.home) }
    ensures live { IfOk result (λ f. AreLive f.notes.notes) }
    ensures within { IfOk result (λ f. AreWithin (area_first f.anchor) f.end f.notes.notes) }
    ensures durable { IsTrue (D.tells disk.old) → OnOk result (Only (D.seen disk.old) (D.may_leave disk.new)) }
    ensures settled { IsTrue (D.tells disk.old) → IfErr result (λ e. IsPastSync e → Only (D.seen disk.old) (D.may_leave disk.new)) }
    ensures why_not { IsTrue (D.tells disk.old) → IfErr result (WhyNotMounted server servers (D.size disk.old) (D.seen disk.old)) }
    ensures below { Looked D.Disk disk.old disk.new }
    ensures still { MatchResult result (λ _. D.faults disk.new ≡ D.faults disk.old) (IsCountKept (D.faults disk.old) (D.faults disk.new)) }
    ensures failed { IsErrOf result Failed → Rose (D.faults disk.old) (D.faults disk.new) }
    ensures stopped { IsErrOf result Stopped → D.allowance disk.new ≡ Spent }
{
    let anchor = begin(disk, server, servers)?;
    let area = area_of(&anchor);
    let Ok(mut found) = bare(alloc, anchor, area.first) else {
        return Err(VaultFault::OutOfMemory);
    };
    match replay(alloc, disk, &area, &mut found) {
        Ok(()) => Ok(found),
        Err(fault) => Err(fault),
    }
}

/// Mounts the volume of a server.
///
/// It begins with a sync, and changes nothing that a read gives.
pub fn mount<D: Disk>(
    alloc: Global,
    disk: D,
    server: u8,
    servers: u8,
) -> Result<Wal<D>, (D, VaultFault)>
    requires { 2 ≤ D.size disk }
    ensures log { IfOk result (λ w. IsLog (D.size (disk_of w)) w) }
    ensures known { IsTrue (D.tells disk) → IfOk result (λ w. IsKnown (D.size (disk_of w)) (D.seen (disk_of w)) (D.may_leave (disk_of w)) w) }
    ensures reads { IsTrue (D.tells disk) → IfOk result (λ w. Reads server servers (D.size disk) (D.seen disk) (state_of w (D.seen (disk_of w)))) }
    ensures alive { IfOk result (λ w. is_dead w ≡ false) }
    ensures named { IfOk result (λ w. ((anchor_of w).server ≡ server) × ((anchor_of w).servers ≡ servers)) }
    ensures below { IfOk result (λ w. Looked D.Disk disk (disk_of w)) }
    ensures why_not { IsTrue (D.tells disk) → IfErr result (λ e. WhyNotMounted server servers (D.size disk) (D.seen disk) e.1) }
    ensures below_refused { IfErr result (λ e. Looked D.Disk disk e.0) }
    // It began with a sync: what is refused as no volume, or as damaged, is so after a crash too.
    ensures durable { IsTrue (D.tells disk) → IfErr result (λ e. IsPastSync e.1 → Only (D.seen e.0) (D.may_leave e.0)) }
    ensures cause { HasMountCause D.Disk disk result }
{
    let mut disk = disk;
    match recover(alloc, &mut disk, server, servers) {
        Err(fault) => Err((disk, fault)),
        Ok(found) => Ok(Wal::over(alloc, disk, found)),
    }
}
