//! Reading home pages.
ghost use Rattle.std.specs.Prelude.{◌≡◌, ◌<◌, IsTrue, OnOk, IsOk, ℕ, List, None, Some, slice_index_or};
ghost use Rattle.alp_base.specs.Allowances.{HasHaltCause};
ghost use Rattle.alp_disk.specs.Disk.{page as page_of};
ghost use Rattle.alp_base.specs.Crashes.{NoMore, Adds};
ghost use Rattle.alp_disk.specs.Calls.{OnlyRead};
ghost use Rattle.alp_wal.specs.Wal.{disk_of, anchor_of, index_of, state_of, IsLog, IsKnown};
ghost use Rattle.alp_wal.specs.Calls.{IsSameLog};

use crate::Wal;
use alp_base::{Halt, Page, PageRef};
use alp_disk::Disk;

fn copied(image: &PageRef) -> Page
    ensures { result ≡ image.now }
{
    let mut bytes = [0u8; 512];
    bytes.copy_from_slice(image.bytes());
    Page::new(bytes)
}

impl<D: Disk> Wal<D> {
    /// Reads a home page, from the last record that has it or from its place. It takes no memory.
    pub fn read_page(&mut self, at: u32, page: &mut Page) -> Result<(), Halt>
        requires log { IsLog (D.size (disk_of self.old)) self.old }
        requires at { at < (anchor_of self.old).sizes.home }
        ensures page { IsTrue (D.tells (disk_of self.old)) → OnOk result (page.new ≡ page_of (state_of self.old (D.seen (disk_of self.old))).pages at) }
        ensures log { IsLog (D.size (disk_of self.new)) self.new }
        ensures known { IsKnown (D.size (disk_of self.old)) (D.seen (disk_of self.old)) (D.may_leave (disk_of self.old)) self.old → IsKnown (D.size (disk_of self.new)) (D.seen (disk_of self.new)) (D.may_leave (disk_of self.new)) self.new }
        ensures same { IsSameLog self.old self.new }
        ensures below { OnlyRead D.Disk (disk_of self.old) (disk_of self.new) }
        ensures logged { (image : List ℕ) → slice_index_or (index_of self.old) at None ≡ Some image → IsOk result × (page.new ≡ image) × (self.new ≡ self.old) }
        ensures cause { HasHaltCause (D.faults (disk_of self.old)) (D.faults (disk_of self.new)) (D.allowance (disk_of self.new)) result }
    {
        if let Some(image) = self.index.get(at) {
            *page = copied(image);
            return Ok(());
        }
        let first = 2 + 2 * self.anchor.sizes.area;
        self.disk.read(first + at, page)
    }
}
