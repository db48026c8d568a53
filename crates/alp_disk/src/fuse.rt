//! A disk that stops after so many changing calls.
ghost use Rattle.std.specs.Prelude.{◌≡◌, ◌≢◌, ◌⊎◌, ◌↔◌, ◌+◌, ◌≤◌, ◌<◌, length, IsTrue, OnOk, Err};
ghost use Rattle.alp_base.specs.Causes.{Rose};
ghost use Rattle.alp_base.specs.declared.faults.Halt.TheVariants.{Stopped};
ghost use Rattle.alp_disk.specs.Disk.{page as page_of, with_bytes, Torn};
ghost use Rattle.alp_base.specs.Crashes.{Follows, Only, NoMore, SameOutcomes, Adds};
ghost use Rattle.alp_base.specs.Allowances.{Spends, HasHaltCause, Sets, allowance_given};
ghost use Rattle.alp_base.specs.declared.allowance.Allowance.TheVariants.{Free, Left, Spent};

use crate::Disk;
use alp_base::{Allowance, Halt, Page};

/// Passes so many writes and syncs, and then answers `Stopped` to every call. Stops are no faults.
///
/// The write that is stopped may have reached the disk: it is handed on first. The sync that is
/// stopped is not handed on. When it is made and after `power_off` it passes all calls.
#[derive(Drop)]
pub struct Fuse<D: Disk> {
    inner: D,
    allowance: Allowance,
    ghost inner_free: { D.allowance inner ≡ Free },
}

impl<D: Disk> Fuse<D> {
    ghost use Rattle.alp_disk.specs.Fuse.{inner_of, allowance_of};

    pub fn new(disk: D) -> Fuse<D>
        ensures free { allowance_of result ≡ Free }
        ensures tells { D.tells (inner_of result) ≡ D.tells disk }
        ensures size { D.size (inner_of result) ≡ D.size disk }
        ensures seen { D.seen (inner_of result) ≡ D.seen disk }
        ensures crash { SameOutcomes (D.may_leave disk) (D.may_leave (inner_of result)) }
        ensures time { Adds D.left_since disk (inner_of result) (D.may_leave (inner_of result)) }
        ensures faults { D.faults (inner_of result) ≡ D.faults disk }
    {
        let mut inner = disk;
        inner.stop_after(None);
        Fuse {
            inner,
            allowance: Allowance::Free,
        }
    }

    pub fn into_inner(self) -> D
        ensures { result ≡ inner_of self }
    {
        self.inner
    }

    fn stop(&mut self) -> Result<(), Halt>
        ensures spent { allowance_of self.new ≡ Spent }
        ensures inner { inner_of self.new ≡ inner_of self.old }
        ensures stopped { result ≡ Err Stopped }
    {
        self.allowance = Allowance::Spent;
        Err(Halt::Stopped)
    }
}

impl<D: Disk> Disk for Fuse<D> {
    ghost use Rattle.alp_disk.specs.Fuse.{inner_of, allowance_of, Burns};

    ghost tells = { λ f. D.Disk.tells f.inner };

    ghost size = { λ f. D.Disk.size f.inner };

    ghost seen = { λ f. D.Disk.seen f.inner };

    ghost may_leave = { λ f. D.Disk.may_leave f.inner };

    ghost left_since = { λ start f. D.Disk.left_since start.inner f.inner };

    ghost faults = { λ f. D.Disk.faults f.inner };

    ghost allowance = { λ f. f.allowance };

    ghost crashed = { λ f pick back. D.Disk.crashed f.inner pick back.inner };

    ghost few = { λ f. D.Disk.few f.inner };

    ghost faults_end = { λ f. D.Disk.faults_end f.inner };

    ghost is_image = { λ f. D.Disk.is_image f.inner };

    ghost are_images = { λ f. D.Disk.are_images f.inner };

    ghost were_images = { λ start f. D.Disk.were_images start.inner f.inner };

    ghost as_read = { λ f. D.Disk.as_read f.inner };

    ghost counts_now = { λ start f. D.Disk.counts_now start.inner f.inner };

    ghost only_now = { λ f. D.Disk.only_now f.inner };

    fn pages(&self) -> u32 {
        self.inner.pages()
    }

    fn read(&mut self, at: u32, page: &mut Page) -> Result<(), Halt>
        requires { at < D.size (inner_of self.old) }
        ensures bytes { IsTrue (D.tells (inner_of self.old)) → OnOk result (page.new ≡ page_of (D.seen (inner_of self.old)) at) }
        ensures tells { D.tells (inner_of self.new) ≡ D.tells (inner_of self.old) }
        ensures size { D.size (inner_of self.new) ≡ D.size (inner_of self.old) }
        ensures seen { D.seen (inner_of self.new) ≡ D.seen (inner_of self.old) }
        ensures crash { NoMore (D.may_leave (inner_of self.old)) (D.may_leave (inner_of self.new)) }
        ensures settles_nothing { NoMore (D.may_leave (inner_of self.new)) (D.may_leave (inner_of self.old)) }
        ensures time { Adds (λ start f. D.left_since (inner_of start) (inner_of f)) self.old self.new (D.may_leave (inner_of self.new)) }
        ensures allowance { allowance_of self.new ≡ allowance_of self.old }
        ensures cause { HasHaltCause (D.faults (inner_of self.old)) (D.faults (inner_of self.new)) (allowance_of self.new) result }

        ensures stops { (result ≡ Err Stopped) ↔ (allowance_of self.new ≡ Spent) }
        ensures stopped { allowance_of self.old ≡ Spent → self.new ≡ self.old }
    {
        if let Allowance::Spent = self.allowance {
            return Err(Halt::Stopped);
        }
        self.inner.read(at, page)
    }

    fn write(&mut self, at: u32, offset: u16, bytes: &[u8]) -> Result<(), Halt>
        requires page { at < D.size (inner_of self.old) }
        requires fits { offset + length bytes.now ≤ 512 }
        ensures written { IsTrue (D.tells (inner_of self.old)) → OnOk result (D.seen (inner_of self.new) ≡ with_bytes (D.seen (inner_of self.old)) at offset bytes.now) }
        ensures tells { D.tells (inner_of self.new) ≡ D.tells (inner_of self.old) }
        ensures size { D.size (inner_of self.new) ≡ D.size (inner_of self.old) }
        ensures crash { Follows (Torn at offset (length bytes.now)) (D.may_leave (inner_of self.old)) (D.may_leave (inner_of self.new)) }
        ensures time { Adds (λ start f. D.left_since (inner_of start) (inner_of f)) self.old self.new (D.may_leave (inner_of self.new)) }
        ensures allowance { Spends (allowance_of self.old) (allowance_of self.new) }
        ensures cause { HasHaltCause (D.faults (inner_of self.old)) (D.faults (inner_of self.new)) (allowance_of self.new) result }

        ensures burns { Burns self.old self.new result }
        // The write that stops is handed on first.
        ensures stopping { allowance_of self.old ≡ Left 0 → IsTrue (D.tells (inner_of self.old))
            → (D.seen (inner_of self.new) ≡ with_bytes (D.seen (inner_of self.old)) at offset bytes.now) ⊎ Rose (D.faults (inner_of self.old)) (D.faults (inner_of self.new)) }
    {
        match self.allowance {
            Allowance::Free => self.inner.write(at, offset, bytes),
            Allowance::Spent => Err(Halt::Stopped),
            Allowance::Left(0) => {
                let _ = self.inner.write(at, offset, bytes);
                self.stop()
            }
            Allowance::Left(calls) => {
                self.allowance = Allowance::Left(calls - 1);
                self.inner.write(at, offset, bytes)
            }
        }
    }

    fn sync(&mut self) -> Result<(), Halt>
        ensures durable { IsTrue (D.tells (inner_of self.old)) → OnOk result (Only (D.seen (inner_of self.old)) (D.may_leave (inner_of self.new))) }
        ensures tells { D.tells (inner_of self.new) ≡ D.tells (inner_of self.old) }
        ensures size { D.size (inner_of self.new) ≡ D.size (inner_of self.old) }
        ensures seen { D.seen (inner_of self.new) ≡ D.seen (inner_of self.old) }
        ensures crash { NoMore (D.may_leave (inner_of self.old)) (D.may_leave (inner_of self.new)) }
        ensures time { Adds (λ start f. D.left_since (inner_of start) (inner_of f)) self.old self.new (D.may_leave (inner_of self.new)) }
        ensures allowance { Spends (allowance_of self.old) (allowance_of self.new) }
        ensures cause { HasHaltCause (D.faults (inner_of self.old)) (D.faults (inner_of self.new)) (allowance_of self.new) result }

        ensures burns { Burns self.old self.new result }
        // The sync that stops is not handed on.
        ensures stopping { allowance_of self.old ≡ Left 0 → inner_of self.new ≡ inner_of self.old }
    {
        match self.allowance {
            Allowance::Free => self.inner.sync(),
            Allowance::Spent => Err(Halt::Stopped),
            Allowance::Left(0) => self.stop(),
            Allowance::Left(calls) => {
                self.allowance = Allowance::Left(calls - 1);
                self.inner.sync()
            }
        }
    }

    fn stop_after(&mut self, calls: Option<u32>)
        ensures tells { D.tells (inner_of self.new) ≡ D.tells (inner_of self.old) }
        ensures size { D.size (inner_of self.new) ≡ D.size (inner_of self.old) }
        ensures seen { D.seen (inner_of self.new) ≡ D.seen (inner_of self.old) }
        ensures crash { SameOutcomes (D.may_leave (inner_of self.old)) (D.may_leave (inner_of self.new)) }
        ensures time { Adds (λ start f. D.left_since (inner_of start) (inner_of f)) self.old self.new (D.may_leave (inner_of self.new)) }
        ensures faults { D.faults (inner_of self.new) ≡ D.faults (inner_of self.old) }
        ensures allowance { Sets calls (allowance_of self.old) (allowance_of self.new) }

        ensures given { allowance_of self.new ≡ allowance_given calls }
        ensures inner { inner_of self.new ≡ inner_of self.old }
    {
        self.allowance = match calls {
            None => Allowance::Free,
            Some(calls) => Allowance::Left(calls),
        };
    }

    fn power_off(self, pick: u64) -> Self {
        Fuse {
            inner: self.inner.power_off(pick),
            allowance: Allowance::Free,
        }
    }
}
