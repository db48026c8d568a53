//! How a mount begins.
ghost use Rattle.std.specs.Prelude.{◌≡◌, ◌≤◌, ◌+◌, length, IsTrue, OnOk, IfOk, IfErr, MatchResult, IsErrOf, ℕ};
ghost use Rattle.std.specs.FinMap as map;
ghost use Rattle.alp_base.specs.Causes.{Rose};
ghost use Rattle.alp_base.specs.Faults.{IsCountKept};
ghost use Rattle.alp_base.specs.Allowances.{Spends};
ghost use Rattle.alp_base.specs.declared.faults.VaultFault.TheVariants.{Failed, Stopped, Damaged};
ghost use Rattle.alp_base.specs.declared.allowance.Allowance.TheVariants.{Spent};
ghost use Rattle.alp_disk.specs.Disk.{Image as Pages};
ghost use Rattle.alp_base.specs.Crashes.{Only, NoMore, Adds};
ghost use Rattle.alp_anchor.specs.Anchor.{IsSound, Counts};
ghost use Rattle.alp_wal.specs.Live.{AreLive};
ghost use Rattle.alp_wal.specs.Reading.{area_first, area_end};
ghost use Rattle.alp_wal.specs.Wal.{no_index};
ghost use Rattle.alp_wal.specs.Mount.{Finds, IsPastSync, WhyNone, halt_fault};

use crate::found::Found;
use crate::index::ImageIndex;
use alp_anchor::{Anchor, AnchorFault, read_anchor};
use alp_base::{Halt, OutOfMemory, VaultFault};
use alp_disk::Disk;
use alp_notes::Notes;
use alp_record::Area;
use std::alloc::Global;

/// The area that an anchor names.
pub(super) fn area_of(anchor: &Anchor) -> Area
    requires area { anchor.now.area ≤ 1 }
    requires pages { anchor.now.sizes.area ≤ 4096 }
    ensures first { result.first ≡ area_first anchor.now }
    ensures end { result.end ≡ area_end anchor.now }
    ensures generation { result.generation ≡ anchor.now.generation }
{
    let pages = anchor.sizes.area;
    let first = if anchor.area == 0 { 2 } else { 2 + pages };
    Area {
        first,
        end: first + pages,
        generation: anchor.generation,
    }
}

/// What is found before any record.
pub fn bare(alloc: Global, anchor: Anchor, first: u32) -> Result<Found, OutOfMemory>
    requires { first ≡ area_first anchor }
    ensures anchor { IfOk result (λ f. f.anchor ≡ anchor) }
    ensures end { IfOk result (λ f. f.end ≡ area_first anchor) }
    ensures empty { IfOk result (λ f. f.index ≡ no_index anchor.sizes.home) }
    ensures index { IfOk result (λ f. length f.index ≡ anchor.sizes.home) }
    ensures live { IfOk result (λ f. AreLive f.notes.notes) }
    ensures none { IfOk result (λ f. f.notes.notes ≡ map.empty) }
    ensures finds { IfOk result (λ f. (image : Pages) → Finds image anchor f) }
{
    let index = ImageIndex::new(alloc, anchor.sizes.home)?;
    Ok(Found {
        anchor,
        end: first,
        index,
        notes: Notes::new(alloc),
    })
}

pub(super) fn halted(halt: Halt) -> VaultFault
    ensures { result ≡ halt_fault halt }
{
    match halt {
        Halt::Failed => VaultFault::Failed,
        Halt::Stopped => VaultFault::Stopped,
    }
}

/// Syncs the disk, and reads the anchor that counts.
pub(super) fn begin<D: Disk>(disk: &mut D, server: u8, servers: u8) -> Result<Anchor, VaultFault>
    requires { 2 ≤ D.size disk.old }
    ensures counts { IsTrue (D.tells disk.old) → IfOk result (λ a. Counts (D.size disk.old) (D.seen disk.old) a) }
    ensures named { IfOk result (λ a. (a.server ≡ server) × (a.servers ≡ servers)) }
    ensures sound { IfOk result (IsSound (D.size disk.old)) }
    ensures why_none { IsTrue (D.tells disk.old) → IfErr result (WhyNone server servers (D.size disk.old) (D.seen disk.old)) }
    ensures durable { IsTrue (D.tells disk.old) → OnOk result (Only (D.seen disk.old) (D.may_leave disk.new)) }
    ensures settled { IsTrue (D.tells disk.old) → IfErr result (λ e. IsPastSync e → Only (D.seen disk.old) (D.may_leave disk.new)) }
    ensures tells { D.tells disk.new ≡ D.tells disk.old }
    ensures size { D.size disk.new ≡ D.size disk.old }
    ensures seen { D.seen disk.new ≡ D.seen disk.old }
    ensures crash { NoMore (D.may_leave disk.old) (D.may_leave disk.new) }
    ensures time { Adds D.left_since disk.old disk.new (D.may_leave disk.old) }
    ensures allowance { Spends (D.allowance disk.old) (D.allowance disk.new) }
    ensures later { D.faults disk.old ≤ D.faults disk.new }
    ensures still { MatchResult result (λ _. D.faults disk.new ≡ D.faults disk.old) (IsCountKept (D.faults disk.old) (D.faults disk.new)) }
    ensures failed { IsErrOf result Failed → Rose (D.faults disk.old) (D.faults disk.new) }
    ensures stopped { IsErrOf result Stopped → D.allowance disk.new ≡ Spent }
{
    if let Err(halt) = disk.sync() {
        return Err(halted(halt));
    }
    match read_anchor(disk, server, servers) {
        Ok(anchor) => Ok(anchor),
        Err(AnchorFault::Halted(halt)) => Err(halted(halt)),
        Err(AnchorFault::NotAVolume { found }) => Err(VaultFault::NotAVolume { found }),
        Err(AnchorFault::Damaged { place }) => Err(VaultFault::Damaged { place }),
    }
}
