//! A disk as all that stands on it sees it.
ghost use Rattle.std.specs.Prelude.{◌≡◌, ◌⊎◌, ◌≤◌, ◌<◌, ◌+◌, ◌^◌, ℕ, Bool, List, length, IsTrue, OnOk};
ghost use Rattle.alp_disk.specs.Disk.{Image, page as page_of, IsImage, with_bytes, Torn};
ghost use Rattle.alp_base.specs.Crashes.{Follows, Only, NoMore, SameOutcomes, Adds};
ghost use Rattle.alp_base.specs.Allowances.{Spends, HasHaltCause, Sets};
ghost use Rattle.alp_base.specs.declared.allowance.Allowance.{Allowance as Limit};
ghost use Rattle.alp_base.specs.declared.allowance.Allowance.TheVariants.{Free};

use alp_base::{Halt, Page};

/// Pages of 512 bytes that a crash may tear.
///
/// What the disk holds is said only where it tells it; what a call may answer, and why, always is.
/// `read`, `write` and `sync` take no memory.
pub trait Disk: Drop {
    /// Whether the contents are told.
    ghost tells: { Self → Bool };

    /// The number of pages.
    ghost size: { Self → ℕ };

    /// What a read gives.
    ghost seen: { Self → Image };

    /// What a crash now may leave.
    ghost may_leave: { Self → Image → Type 0 };

    /// What a crash at some moment since the first of these might have left.
    ghost left_since: { Self → Self → Image → Type 0 };

    /// How often the disk has failed.
    ghost faults: { Self → ℕ };

    /// How many further changing calls pass, where a number was set.
    ghost allowance: { Self → Limit };

    /// What `power_off` with a pick may give.
    ghost crashed: { Self → ℕ → Self → Type 0 };

    fn pages(&self) -> u32
        ensures { result ≡ size self.now };

    fn read(&mut self, at: u32, page: &mut Page) -> Result<(), Halt>
        requires { at < size self.old }
        ensures bytes { IsTrue (tells self.old) → OnOk result (page.new ≡ page_of (seen self.old) at) }
        ensures tells { tells self.new ≡ tells self.old }
        ensures size { size self.new ≡ size self.old }
        ensures seen { seen self.new ≡ seen self.old }
        ensures crash { NoMore (may_leave self.old) (may_leave self.new) }
        ensures settles_nothing { NoMore (may_leave self.new) (may_leave self.old) }
        ensures time { Adds left_since self.old self.new (may_leave self.new) }
        ensures allowance { allowance self.new ≡ allowance self.old }
        ensures cause { HasHaltCause (faults self.old) (faults self.new) (allowance self.new) result };

    /// Until a sync, a crash may leave any bytes in the range.
    fn write(&mut self, at: u32, offset: u16, bytes: &[u8]) -> Result<(), Halt>
        requires page { at < size self.old }
        requires fits { offset + length bytes.now ≤ 512 }
        ensures written { IsTrue (tells self.old) → OnOk result (seen self.new ≡ with_bytes (seen self.old) at offset bytes.now) }
        ensures tells { tells self.new ≡ tells self.old }
        ensures size { size self.new ≡ size self.old }
        ensures crash { Follows (Torn at offset (length bytes.now)) (may_leave self.old) (may_leave self.new) }
        ensures time { Adds left_since self.old self.new (may_leave self.new) }
        ensures allowance { Spends (allowance self.old) (allowance self.new) }
        ensures cause { HasHaltCause (faults self.old) (faults self.new) (allowance self.new) result };

    /// After it, a crash leaves what a read gives.
    fn sync(&mut self) -> Result<(), Halt>
        ensures durable { IsTrue (tells self.old) → OnOk result (Only (seen self.old) (may_leave self.new)) }
        ensures tells { tells self.new ≡ tells self.old }
        ensures size { size self.new ≡ size self.old }
        ensures seen { seen self.new ≡ seen self.old }
        ensures crash { NoMore (may_leave self.old) (may_leave self.new) }
        ensures time { Adds left_since self.old self.new (may_leave self.new) }
        ensures allowance { Spends (allowance self.old) (allowance self.new) }
        ensures cause { HasHaltCause (faults self.old) (faults self.new) (allowance self.new) result };

    /// On a `Fuse`, lets so many further writes and syncs pass, or all of them. Other disks ignore it.
    fn stop_after(&mut self, calls: Option<u32>)
        ensures tells { tells self.new ≡ tells self.old }
        ensures size { size self.new ≡ size self.old }
        ensures seen { seen self.new ≡ seen self.old }
        ensures crash { SameOutcomes (may_leave self.old) (may_leave self.new) }
        ensures time { Adds left_since self.old self.new (may_leave self.new) }
        ensures faults { faults self.new ≡ faults self.old }
        ensures allowance { Sets calls (allowance self.old) (allowance self.new) };

    /// A crash, and the disk as it comes back.
    fn power_off(self, pick: u64) -> Self
        ensures left { IsTrue (tells self) → may_leave self (seen result) }
        ensures still { IsTrue (tells self) → Only (seen result) (may_leave result) }
        ensures crashed { crashed self pick result }
        ensures tells { tells result ≡ tells self }
        ensures size { size result ≡ size self }
        ensures faults { faults result ≡ faults self }
        ensures allowance { allowance result ≡ Free };

    /// The pages have numbers of 32 bits.
    ghost few: { (disk : Self) → size disk < 2 ^ 32 };

    /// The count of faults stands still at the end of its range.
    ghost faults_end: { (disk : Self) → faults disk < 2 ^ 64 };

    /// Where the contents are told, they are an image of this size.
    ghost is_image: { (disk : Self) → IsTrue (tells disk) → IsImage (size disk) (seen disk) };

    /// So is each outcome of a crash.
    ghost are_images: { (disk : Self) (c : Image) → may_leave disk c → IsImage (size disk) c };

    /// And each that there might have been.
    ghost were_images: { (start : Self) (disk : Self) (c : Image) → left_since start disk c → IsImage (size disk) c };

    /// A disk as it reads is one of its outcomes.
    ghost as_read: { (disk : Self) → IsTrue (tells disk) → may_leave disk (seen disk) };

    /// This moment is one of those since an earlier one.
    ghost counts_now: { (start : Self) (disk : Self) (c : Image) → may_leave disk c → left_since start disk c };

    /// Since this moment there is no other.
    ghost only_now: { (disk : Self) (c : Image) → left_since disk disk c → may_leave disk c };
}
