//! Formatting a disk.
ghost use Rattle.std.specs.Prelude.{◌≡◌, ◌≤◌, ◌+◌, ◌*◌, [], ℕ, List, IsTrue, OnOk, IfOk, IfErr, replicate, false};
ghost use Rattle.std.specs.FinMap as map;
ghost use Rattle.alp_base.specs.Allowances.{Spends, HasHaltCause};
ghost use Rattle.alp_base.specs.Crashes.{Only, Follows, After, Adds, LeavesOnly};
ghost use Rattle.alp_disk.specs.Runs.{SameOutside, Holds};
ghost use Rattle.alp_anchor.specs.Anchor.{AreSizesOf, IsSound};
ghost use Rattle.alp_disk.specs.Calls.{IsSameDevice};
ghost use Rattle.alp_wal.specs.Reading.{ReadsBy};
ghost use Rattle.alp_wal.specs.Wal.{disk_of, anchor_of, notes_of, state_of, room_of, is_dead, IsLog, IsKnown};
ghost use Rattle.alp_format.specs.Format.{blank_state, first_anchor, SameAreas, IsCleared, IsRefused, Formatting};

use alp_anchor::{Anchor, anchor_page, open_gate};
use alp_base::{Halt, Page, Sizes, VaultFault};
use alp_disk::Disk;
use alp_wal::{Wal, bare};
use std::alloc::Global;

/// Writes zeros into so many pages, and syncs nothing.
fn clear<D: Disk>(disk: &mut D, first: u32, count: u32) -> Result<(), Halt>
    requires { first + count ≤ D.size disk.old }
    ensures written { IsTrue (D.tells disk.old) → OnOk result (Holds first count (replicate (512 * count) 0) (D.seen disk.old) (D.seen disk.new)) }
    ensures crash { Follows (SameOutside first count) (D.may_leave disk.old) (D.may_leave disk.new) }
    ensures any_moment { Adds D.left_since disk.old disk.new (After (SameOutside first count) (D.may_leave disk.old)) }
    ensures tells { D.tells disk.new ≡ D.tells disk.old }
    ensures size { D.size disk.new ≡ D.size disk.old }
    ensures allowance { Spends (D.allowance disk.old) (D.allowance disk.new) }
    ensures cause { HasHaltCause (D.faults disk.old) (D.faults disk.new) (D.allowance disk.new) result }
{
    let blank = Page::zero();
    for k in 0..count {
        disk.write(first + k, 0, blank.bytes())?;
    }
    Ok(())
}

/// Writes zeros over both anchors, the first header of the log and the home pages, and syncs nothing.
fn clear_all<D: Disk>(disk: &mut D, sizes: Sizes) -> Result<(), Halt>
    requires { AreSizesOf (D.size disk.old) sizes }
    ensures cleared { IsTrue (D.tells disk.old) → OnOk result (IsCleared sizes (D.seen disk.new)) }
    ensures crash { Follows (SameAreas sizes) (D.may_leave disk.old) (D.may_leave disk.new) }
    ensures any_moment { Adds D.left_since disk.old disk.new (After (SameAreas sizes) (D.may_leave disk.old)) }
    ensures tells { D.tells disk.new ≡ D.tells disk.old }
    ensures size { D.size disk.new ≡ D.size disk.old }
    ensures allowance { Spends (D.allowance disk.old) (D.allowance disk.new) }
    ensures cause { HasHaltCause (D.faults disk.old) (D.faults disk.new) (D.allowance disk.new) result }
{
    clear(disk, 0, 3)?;
    clear(disk, 2 + 2 * sizes.area, sizes.home)
}

/// Clears what a new volume has to have clear, and syncs it.
fn wipe<D: Disk>(disk: &mut D, sizes: Sizes) -> Result<(), Halt>
    requires { AreSizesOf (D.size disk.old) sizes }
    ensures cleared { IsTrue (D.tells disk.old) → OnOk result (IsCleared sizes (D.seen disk.new)) }
    ensures durable { IsTrue (D.tells disk.old) → OnOk result (Only (D.seen disk.new) (D.may_leave disk.new)) }
    ensures crash { Follows (SameAreas sizes) (D.may_leave disk.old) (D.may_leave disk.new) }
    ensures any_moment { Adds D.left_since disk.old disk.new (After (SameAreas sizes) (D.may_leave disk.old)) }
    ensures tells { D.tells disk.new ≡ D.tells disk.old }
    ensures size { D.size disk.new ≡ D.size disk.old }
    ensures allowance { Spends (D.allowance disk.old) (D.allowance disk.new) }
    ensures cause { HasHaltCause (D.faults disk.old) (D.faults disk.new) (D.allowance disk.new) result }
{
    clear_all(disk, sizes)?;
    disk.sync()
}

/// Makes a new volume of a disk, with this anchor in its first page.
fn establish<D: Disk>(disk: &mut D, anchor: &Anchor) -> Result<(), Halt>
    requires sound { IsSound (D.size disk.old) anchor.now }
    requires page { anchor.now.page ≡ 0 }
    requires area { anchor.now.area ≡ 0 }
    ensures blank { IsTrue (D.tells disk.old) → OnOk result (ReadsBy (D.size disk.old) (D.seen disk.new) anchor.now [] (blank_state anchor.now.sizes.home)) }
    ensures durable { IsTrue (D.tells disk.old) → OnOk result (Only (D.seen disk.new) (D.may_leave disk.new)) }
    ensures any_moment { IsTrue (D.tells disk.old) → LeavesOnly D.left_since disk.old disk.new (Formatting anchor.now.server anchor.now.servers (D.size disk.old) anchor.now.sizes (D.may_leave disk.old)) }
    ensures tells { D.tells disk.new ≡ D.tells disk.old }
    ensures size { D.size disk.new ≡ D.size disk.old }
    ensures allowance { Spends (D.allowance disk.old) (D.allowance disk.new) }
    ensures cause { HasHaltCause (D.faults disk.old) (D.faults disk.new) (D.allowance disk.new) result }
{
    wipe(disk, anchor.sizes)?;
    let page = anchor_page(anchor);
    open_gate(disk, 0, &page)
}

/// Makes a new volume of a disk: home pages of zeros, and no notes.
///
/// What the disk held is gone. A crash during the call may leave a disk that no call mounts.
pub fn format<D: Disk>(
    alloc: Global,
    disk: D,
    server: u8,
    servers: u8,
    sizes: Sizes,
) -> Result<Wal<D>, (D, VaultFault)>
    requires { AreSizesOf (D.size disk) sizes }
    ensures log { IfOk result (λ w. IsLog (D.size (disk_of w)) w) }
    ensures known { IsTrue (D.tells disk) → IfOk result (λ w. IsKnown (D.size (disk_of w)) (D.seen (disk_of w)) (D.may_leave (disk_of w)) w) }
    ensures blank { IsTrue (D.tells disk) → IfOk result (λ w. state_of w (D.seen (disk_of w)) ≡ blank_state sizes.home) }
    ensures anchor { IfOk result (λ w. anchor_of w ≡ first_anchor server servers sizes) }
    ensures room { IfOk result (λ w. room_of w ≡ sizes.area) }
    ensures alive { IfOk result (λ w. is_dead w ≡ false) }
    ensures none { IfOk result (λ w. notes_of w ≡ map.empty) }
    ensures below { IfOk result (λ w. IsSameDevice D.Disk disk (disk_of w)) }
    ensures no_fault { IfOk result (λ w. D.faults (disk_of w) ≡ D.faults disk) }
    ensures any_moment { IsTrue (D.tells disk) → IfOk result (λ w. LeavesOnly D.left_since disk (disk_of w) (Formatting server servers (D.size disk) sizes (D.may_leave disk))) }
    // A disk that is given back is one that a stop within the call could leave.
    ensures any_moment_refused { IsTrue (D.tells disk) → IfErr result (λ e. LeavesOnly D.left_since disk e.0 (Formatting server servers (D.size disk) sizes (D.may_leave disk))) }
    ensures refused { IfErr result (λ e. IsRefused D.Disk disk e.0 e.1) }
{
    let anchor = Anchor {
        page: 0,
        generation: 1,
        area: 0,
        server,
        servers,
        sizes,
    };
    let found = match bare(alloc, anchor, 2) {
        Ok(found) => found,
        Err(_) => return Err((disk, VaultFault::OutOfMemory)),
    };
    let mut disk = disk;
    match establish(&mut disk, &anchor) {
        Err(Halt::Failed) => Err((disk, VaultFault::Failed)),
        Err(Halt::Stopped) => Err((disk, VaultFault::Stopped)),
        Ok(()) => Ok(Wal::over(alloc, disk, found)),
    }
}
