//! A disk beside its model.
ghost use Rattle.std.specs.Prelude.{◌≡◌, ◌<◌, ◌≤◌, ◌+◌, ◌^◌, length, IsTrue, OnOk, Err};
ghost use Rattle.alp_base.specs.Allowances.{HasHaltCause};
ghost use Rattle.alp_base.specs.Crashes.{Follows, Only, NoMore, Adds};
ghost use Rattle.alp_base.specs.Streams.{counted};
ghost use Rattle.alp_base.specs.declared.allowance.Allowance.TheVariants.{Free};
ghost use Rattle.alp_base.specs.declared.faults.Halt.TheVariants.{Failed};
ghost use Rattle.alp_disk.specs.Disk.{page as page_of, with_bytes, Torn};
ghost use Rattle.alp_disk.specs.MemDisk.{page_count, seen_of, LeftBy};

use alp_base::{Halt, Page};
use alp_disk::{Disk, MemDisk};

/// A disk that is used as a model in memory is: each call goes to both. It tells what the model holds.
///
/// Each failed call of the disk is a fault, and so is a read of other bytes than the model's. A crash keeps all writes, as the
/// end of a process does of a file.
#[derive(Drop)]
pub struct Believed<D: Disk> {
    pub(crate) disk: D,
    pub(crate) model: MemDisk,
    pub(crate) faults: u64,
    ghost same: { D.size disk ≡ page_count model },
    ghost faults_end: { faults < 2 ^ 64 },
}

impl<D: Disk> Believed<D> {
    /// A disk, and a model of as many pages.
    pub(crate) fn new(disk: D, model: MemDisk) -> Believed<D>
        requires same { D.size disk ≡ page_count model }
        ensures device { result.disk ≡ disk }
        ensures model { result.model ≡ model }
        ensures faults { result.faults ≡ 0 }
    {
        Believed {
            disk,
            model,
            faults: 0,
        }
    }

    fn fail(&mut self) -> Result<(), Halt>
        ensures failed { result ≡ Err Failed }
        ensures faults { self.new.faults ≡ counted self.old.faults }
        ensures model { self.new.model ≡ self.old.model }
    {
        self.faults = self.faults.saturating_add(1);
        Err(Halt::Failed)
    }
}

impl<D: Disk> Disk for Believed<D> {
    ghost use Rattle.std.specs.Prelude.{true};
    ghost use Rattle.alp_disk.specs.MemDisk.{CrashedBy};
    ghost use Rattle.alp_disk.specs.contracts.mem_disk.MemDiskDisk.TheImpl.Laws as mem_laws;

    ghost tells = { λ _. true };

    ghost size = { λ b. page_count b.model };

    ghost seen = { λ b. seen_of b.model };

    ghost may_leave = { λ b. LeftBy b.model };

    ghost left_since = { λ _ b. LeftBy b.model };

    ghost faults = { λ b. b.faults };

    ghost allowance = { λ _. Free };

    ghost crashed = { λ b _ back. CrashedBy 1 b.model back.model × D.Disk.crashed b.disk 1 back.disk };

    ghost few = { λ b. mem_laws.few-law b.model };

    ghost faults_end = { λ b. b.faults_end };

    ghost is_image = { λ b. mem_laws.is_image-law b.model };

    ghost are_images = { λ b. mem_laws.are_images-law b.model };

    ghost were_images = { λ _ b. mem_laws.are_images-law b.model };

    ghost as_read = { λ b. mem_laws.as_read-law b.model };

    ghost counts_now = { λ _ _ _ left. left };

    ghost only_now = { λ _ _ left. left };

    fn pages(&self) -> u32 {
        self.model.pages()
    }

    fn read(&mut self, at: u32, page: &mut Page) -> Result<(), Halt>
        requires { at < page_count self.old.model }
        ensures bytes { OnOk result (page.new ≡ page_of (seen_of self.old.model) at) }
        ensures size { page_count self.new.model ≡ page_count self.old.model }
        ensures seen { seen_of self.new.model ≡ seen_of self.old.model }
        ensures crash { NoMore (LeftBy self.old.model) (LeftBy self.new.model) }
        ensures settles_nothing { NoMore (LeftBy self.new.model) (LeftBy self.old.model) }
        ensures time { Adds (λ _ b. LeftBy b.model) self.old self.new (LeftBy self.new.model) }
        ensures cause { HasHaltCause self.old.faults self.new.faults Free result }

        // What the device reads is what is given.
        ensures device { IsTrue (D.tells self.old.disk) → OnOk result (page.new ≡ page_of (D.seen self.old.disk) at) }
    {
        let mut told = Page::zero();
        match self.model.read(at, &mut told) {
            Ok(()) => {}
            Err(_) => return self.fail(),
        }
        match self.disk.read(at, page) {
            Ok(()) => {}
            Err(_) => return self.fail(),
        }
        if page.bytes() != told.bytes() {
            return self.fail();
        }
        *page = told;
        Ok(())
    }

    fn write(&mut self, at: u32, offset: u16, bytes: &[u8]) -> Result<(), Halt>
        requires page { at < page_count self.old.model }
        requires fits { offset + length bytes.now ≤ 512 }
        ensures written { OnOk result (seen_of self.new.model ≡ with_bytes (seen_of self.old.model) at offset bytes.now) }
        ensures size { page_count self.new.model ≡ page_count self.old.model }
        ensures crash { Follows (Torn at offset (length bytes.now)) (LeftBy self.old.model) (LeftBy self.new.model) }
        ensures time { Adds (λ _ b. LeftBy b.model) self.old self.new (LeftBy self.new.model) }
        ensures cause { HasHaltCause self.old.faults self.new.faults Free result }

        // The device has the bytes too.
        ensures device { IsTrue (D.tells self.old.disk) → OnOk result (D.seen self.new.disk ≡ with_bytes (D.seen self.old.disk) at offset bytes.now) }
    {
        match self.model.write(at, offset, bytes) {
            Ok(()) => {}
            Err(_) => return self.fail(),
        }
        match self.disk.write(at, offset, bytes) {
            Ok(()) => Ok(()),
            Err(_) => self.fail(),
        }
    }

    fn sync(&mut self) -> Result<(), Halt>
        ensures durable { OnOk result (Only (seen_of self.old.model) (LeftBy self.new.model)) }
        ensures size { page_count self.new.model ≡ page_count self.old.model }
        ensures seen { seen_of self.new.model ≡ seen_of self.old.model }
        ensures crash { NoMore (LeftBy self.old.model) (LeftBy self.new.model) }
        ensures time { Adds (λ _ b. LeftBy b.model) self.old self.new (LeftBy self.new.model) }
        ensures cause { HasHaltCause self.old.faults self.new.faults Free result }

        // A crash leaves of the device what it reads as.
        ensures device { IsTrue (D.tells self.old.disk) → OnOk result (Only (D.seen self.old.disk) (D.may_leave self.new.disk)) }
    {
        match self.disk.sync() {
            Ok(()) => {}
            Err(_) => return self.fail(),
        }
        match self.model.sync() {
            Ok(()) => Ok(()),
            Err(_) => self.fail(),
        }
    }

    fn stop_after(&mut self, _calls: Option<u32>) {}

    fn power_off(self, _pick: u64) -> Self {
        let Believed {
            disk,
            model,
            faults,
        } = self;
        Believed {
            disk: disk.power_off(1),
            model: model.power_off(1),
            faults,
        }
    }
}
