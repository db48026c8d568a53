//! Writes that all disks share.
ghost use Rattle.std.specs.Prelude.{◌≡◌, ◌<◌, ◌≤◌, ◌+◌, ◌*◌, ℕ, length, IsTrue, OnOk};
ghost use Rattle.alp_disk.specs.Disk.{Image, with_bytes, Torn};
ghost use Rattle.alp_base.specs.Crashes.{Only, Follows, After, Adds};
ghost use Rattle.alp_base.specs.Allowances.{Spends, HasHaltCause};
ghost use Rattle.alp_disk.specs.Runs.{SameOutside, Holds};

use crate::Disk;
use alp_base::Halt;

/// A write and a sync.
pub fn write_synced<D: Disk>(disk: &mut D, at: u32, offset: u16, bytes: &[u8]) -> Result<(), Halt>
    requires page { at < D.size disk.old }
    requires fits { offset + length bytes.now ≤ 512 }
    ensures written { IsTrue (D.tells disk.old) → OnOk result (D.seen disk.new ≡ with_bytes (D.seen disk.old) at offset bytes.now) }
    ensures durable { IsTrue (D.tells disk.old) → OnOk result (Only (D.seen disk.new) (D.may_leave disk.new)) }
    ensures crash { Follows (Torn at offset (length bytes.now)) (D.may_leave disk.old) (D.may_leave disk.new) }
    ensures any_moment { Adds D.left_since disk.old disk.new (After (Torn at offset (length bytes.now)) (D.may_leave disk.old)) }
    ensures tells { D.tells disk.new ≡ D.tells disk.old }
    ensures size { D.size disk.new ≡ D.size disk.old }
    ensures allowance { Spends (D.allowance disk.old) (D.allowance disk.new) }
    ensures cause { HasHaltCause (D.faults disk.old) (D.faults disk.new) (D.allowance disk.new) result }
{
    disk.write(at, offset, bytes)?;
    disk.sync()?;
    Ok(())
}

/// Writes so many whole pages, and syncs nothing.
pub fn write_span<D: Disk>(disk: &mut D, first: u32, count: u32, bytes: &[u8]) -> Result<(), Halt>
    requires room { first + count ≤ D.size disk.old }
    requires whole { length bytes.now ≡ 512 * count }
    ensures written { IsTrue (D.tells disk.old) → OnOk result (Holds first count bytes.now (D.seen disk.old) (D.seen disk.new)) }
    ensures crash { Follows (SameOutside first count) (D.may_leave disk.old) (D.may_leave disk.new) }
    ensures any_moment { Adds D.left_since disk.old disk.new (After (SameOutside first count) (D.may_leave disk.old)) }
    ensures tells { D.tells disk.new ≡ D.tells disk.old }
    ensures size { D.size disk.new ≡ D.size disk.old }
    ensures allowance { Spends (D.allowance disk.old) (D.allowance disk.new) }
    ensures cause { HasHaltCause (D.faults disk.old) (D.faults disk.new) (D.allowance disk.new) result }
{
    for k in 0..count {
        let from = 512 * k as usize;
        disk.write(first + k, 0, &bytes[from..from + 512])?;
    }
    Ok(())
}
