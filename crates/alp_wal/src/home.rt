//! Images that are brought home.
ghost use Rattle.std.specs.Prelude.{◌≡◌, ◌<◌, ◌≤◌, ◌+◌, length, IsTrue, OnOk, None};
ghost use Rattle.alp_base.specs.Allowances.{Spends, HasHaltCause};
ghost use Rattle.alp_base.specs.Crashes.{Only, Follows, After, Adds};
ghost use Rattle.alp_wal.specs.Home.{SameUnlogged, BroughtHome, MayDiffer, IsBrought};
ghost use Rattle.alp_wal.specs.Logged.{AreListed};
ghost use Rattle.alp_wal.specs.Wal.{no_index};

use alp_base::{Halt, PageRef};
use alp_disk::Disk;

/// Writes the image of a page, if there is one, and syncs nothing.
fn write_image<D: Disk>(disk: &mut D, at: u32, image: &Option<PageRef>) -> Result<(), Halt>
    requires { at < D.size disk.old }
    ensures written { IsTrue (D.tells disk.old) → OnOk result (IsBrought at image.now (D.seen disk.old) (D.seen disk.new)) }
    ensures crash { Follows (MayDiffer at image.now) (D.may_leave disk.old) (D.may_leave disk.new) }
    ensures any_moment { Adds D.left_since disk.old disk.new (After (MayDiffer at image.now) (D.may_leave disk.old)) }
    ensures tells { D.tells disk.new ≡ D.tells disk.old }
    ensures size { D.size disk.new ≡ D.size disk.old }
    ensures allowance { Spends (D.allowance disk.old) (D.allowance disk.new) }
    ensures cause { HasHaltCause (D.faults disk.old) (D.faults disk.new) (D.allowance disk.new) result }
{
    match image {
        None => Ok(()),
        Some(image) => disk.write(at, 0, image.bytes()),
    }
}

/// Writes the images of an index to the pages from there on, and syncs nothing.
fn write_home<D: Disk>(
    disk: &mut D,
    first: u32,
    index: &[Option<PageRef>],
    logged: &[u32],
) -> Result<(), Halt>
    requires room { first + length index.now ≤ D.size disk.old }
    requires listed { AreListed logged.now index.now }
    ensures written { IsTrue (D.tells disk.old) → OnOk result (BroughtHome first (length index.now) index.now (D.seen disk.old) (D.seen disk.new)) }
    ensures crash { Follows (SameUnlogged first index.now) (D.may_leave disk.old) (D.may_leave disk.new) }
    ensures any_moment { Adds D.left_since disk.old disk.new (After (SameUnlogged first index.now) (D.may_leave disk.old)) }
    ensures tells { D.tells disk.new ≡ D.tells disk.old }
    ensures size { D.size disk.new ≡ D.size disk.old }
    ensures allowance { Spends (D.allowance disk.old) (D.allowance disk.new) }
    ensures cause { HasHaltCause (D.faults disk.old) (D.faults disk.new) (D.allowance disk.new) result }
{
    for j in 0..logged.len() {
        let at = logged[j];
        write_image(disk, first + at, &index[at as usize])?;
    }
    Ok(())
}

/// Writes the images of an index to the pages from there on, and syncs them.
pub(super) fn bring_home<D: Disk>(
    disk: &mut D,
    first: u32,
    index: &[Option<PageRef>],
    logged: &[u32],
) -> Result<(), Halt>
    requires room { first + length index.now ≤ D.size disk.old }
    requires listed { AreListed logged.now index.now }
    ensures home { IsTrue (D.tells disk.old) → OnOk result (BroughtHome first (length index.now) index.now (D.seen disk.old) (D.seen disk.new)) }
    ensures durable { IsTrue (D.tells disk.old) → OnOk result (Only (D.seen disk.new) (D.may_leave disk.new)) }
    ensures any_moment { Adds D.left_since disk.old disk.new (After (SameUnlogged first index.now) (D.may_leave disk.old)) }
    ensures tells { D.tells disk.new ≡ D.tells disk.old }
    ensures size { D.size disk.new ≡ D.size disk.old }
    ensures allowance { Spends (D.allowance disk.old) (D.allowance disk.new) }
    ensures cause { HasHaltCause (D.faults disk.old) (D.faults disk.new) (D.allowance disk.new) result }
{
    write_home(disk, first, index, logged)?;
    disk.sync()
}

/// Drops the images of an index.
pub(super) fn clear_images(index: &mut Vec<Option<PageRef>>, logged: &[u32])
    requires { AreListed logged.now index.old.items }
    ensures { index.new.items ≡ no_index (length index.old.items) }
{
    for j in 0..logged.len() {
        index[logged[j] as usize] = None;
    }
}
