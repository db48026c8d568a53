//! Reading through the buffers.
ghost use Rattle.std.specs.Prelude.{◌≡◌, ◌<◌, ◌≤◌, ◌↔◌, ℕ, List, IsTrue, IfOk, IfErr, OnOk, OnErr, IsErrOf, Some, false, true, nat_eq};
ghost use Rattle.std.specs.Map.{lookup};
ghost use Rattle.alp_disk.specs.Disk.{page as page_of};
ghost use Rattle.alp_base.specs.Allowances.{HasHaltCause};
ghost use Rattle.alp_base.specs.Causes.{Rose};
ghost use Rattle.alp_base.specs.declared.allowance.Allowance.TheVariants.{Spent};
ghost use Rattle.alp_disk.specs.Calls.{OnlyRead};
ghost use Rattle.alp_wal.specs.Calls.{IsSameLog};
ghost use Rattle.alp_wal.specs.Wal.{anchor_of, is_dead};
ghost use Rattle.alp_wal.specs.declared.fault.WalFault.TheVariants.{Failed, Stopped, OutOfMemory as NoMemory, Full, Dead};
ghost use Rattle.alp_pool.specs.Buffers.{IsResident, AreBuffersOf, HoldTheSame};
ghost use Rattle.alp_pool.specs.Pools.{log_of, buffers_of, capacity_of, device_of, held_by, IsPool};
ghost use Rattle.alp_pool.specs.Calls.{HasGetCause};

use crate::Pool;
use alp_base::{Halt, OutOfMemory, Page, PageRef};
use alp_disk::Disk;
use alp_wal::WalFault;

impl<D: Disk> Pool<D> {
    /// A page that a buffer has, which counts as used now.
    fn held_page(&mut self, at: u32) -> Result<PageRef, OutOfMemory>
        requires { IsResident at (buffers_of self.old) }
        ensures page { (bytes : List ℕ) → lookup (nat_eq at) (buffers_of self.old) ≡ Some bytes → IfOk result (λ p. p ≡ bytes) }
        ensures log { log_of self.new ≡ log_of self.old }
        ensures held { HoldTheSame (buffers_of self.old) (buffers_of self.new) }
        ensures capacity { capacity_of self.new ≡ capacity_of self.old }
    {
        let _ = self.held.len();
        self.held.promote(&at);
        let Some(held) = self.held.peek(&at) else {
            unreachable!()
        };
        held.share()
    }

    /// The page as the log has it: shared where a record has its image, and read where none has.
    fn logged_page(&mut self, at: u32) -> Result<PageRef, WalFault>
        requires pool { IsPool D.Disk self.old }
        requires at { at < (anchor_of (log_of self.old)).sizes.home }
        ensures page { IsTrue (D.tells (device_of self.old)) → IfOk result (λ p. p ≡ page_of (held_by D.Disk self.old).pages at) }
        ensures pool { IsPool D.Disk self.new }
        ensures same { IsSameLog (log_of self.old) (log_of self.new) }
        ensures below { OnlyRead D.Disk (device_of self.old) (device_of self.new) }
        ensures buffers { buffers_of self.new ≡ buffers_of self.old }
        ensures capacity { capacity_of self.new ≡ capacity_of self.old }
        ensures later { D.faults (device_of self.old) ≤ D.faults (device_of self.new) }
        ensures no_fault { OnOk result (D.faults (device_of self.new) ≡ D.faults (device_of self.old)) }
        ensures failed { IsErrOf result Failed → Rose (D.faults (device_of self.old)) (D.faults (device_of self.new)) }
        ensures stopped { IsErrOf result Stopped → D.allowance (device_of self.new) ≡ Spent }
        ensures memory { IsErrOf result NoMemory → D.faults (device_of self.new) ≡ D.faults (device_of self.old) }
        ensures never_dead { IsErrOf result Dead → ⊥ }
        ensures never_full { IsErrOf result Full → ⊥ }
    {
        if let Some(image) = self.log.logged(at) {
            return Ok(image.share()?);
        }
        let mut page = Page::zero();
        match self.log.read_page(at, &mut page) {
            Ok(()) => Ok(PageRef::new(self.alloc, page)?),
            Err(Halt::Failed) => Err(WalFault::Failed),
            Err(Halt::Stopped) => Err(WalFault::Stopped),
        }
    }

    /// Gives the page a buffer.
    fn keep(&mut self, at: u32, page: &PageRef) -> Result<(), OutOfMemory>
        ensures resident { OnOk result (IsResident at (buffers_of self.new)) }
        ensures log { log_of self.new ≡ log_of self.old }
        ensures capacity { capacity_of self.new ≡ capacity_of self.old }
        ensures kept { OnErr result (buffers_of self.new ≡ buffers_of self.old) }
        ensures buffers { (pages : List (List ℕ)) → page.now ≡ page_of pages at → AreBuffersOf pages (buffers_of self.old) → AreBuffersOf pages (buffers_of self.new) }
    {
        let held = page.share()?;
        let _ = self.held.len();
        match self.held.put(at, held) {
            Ok(_) => Ok(()),
            Err(_) => Err(OutOfMemory),
        }
    }

    /// The page, as the log holds it now; a buffer has it from then on. What was handed out stays as it was.
    ///
    /// Where no buffer has it the disk is read, or the image in the log's records is shared.
    pub fn get(&mut self, at: u32) -> Result<PageRef, WalFault>
        requires pool { IsPool D.Disk self.old }
        requires at { at < (anchor_of (log_of self.old)).sizes.home }
        ensures pool { IsPool D.Disk self.new }
        ensures page { IsTrue (D.tells (device_of self.old)) → IfOk result (λ p. p ≡ page_of (held_by D.Disk self.old).pages at) }
        ensures resident { OnOk result (IsResident at (buffers_of self.new)) }
        // A page that a buffer has asks nothing of the disk.
        ensures held { IsResident at (buffers_of self.old) → (log_of self.new ≡ log_of self.old) × HoldTheSame (buffers_of self.old) (buffers_of self.new) × IfErr result (λ f. f ≡ NoMemory) }
        ensures buffer { (bytes : List ℕ) → lookup (nat_eq at) (buffers_of self.old) ≡ Some bytes → IfOk result (λ p. p ≡ bytes) }
        ensures kept { OnErr result (HoldTheSame (buffers_of self.old) (buffers_of self.new)) }
        ensures same { IsSameLog (log_of self.old) (log_of self.new) }
        ensures below { OnlyRead D.Disk (device_of self.old) (device_of self.new) }
        ensures capacity { capacity_of self.new ≡ capacity_of self.old }
        ensures cause { HasGetCause D.Disk at self.old self.new result }
    {
        if self.held.contains(&at) {
            return Ok(self.held_page(at)?);
        }
        if self.log.is_dead() {
            return Err(WalFault::Dead);
        }
        let page = self.logged_page(at)?;
        self.keep(at, &page)?;
        Ok(page)
    }
}
