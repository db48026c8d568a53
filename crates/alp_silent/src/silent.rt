//! A disk in memory of which nothing is told.
use alp_base::{Halt, Page};
use alp_disk::{Disk, MemDisk};

/// A disk in memory whose contents contracts do not see, as those of a host file.
#[derive(Drop)]
pub struct Silent {
    pub disk: MemDisk,
}

impl Disk for Silent {
    ghost use Rattle.std.specs.Prelude.{[], false};
    ghost use Rattle.alp_base.specs.declared.allowance.Allowance.TheVariants.{Free};
    ghost use Rattle.alp_disk.specs.FileDisk.{untold};
    ghost use Rattle.alp_disk.specs.contracts.mem_disk.MemDiskDisk.TheImpl as mem_disk;
    ghost use Rattle.alp_disk.specs.contracts.mem_disk.MemDiskDisk.TheImpl.Laws as mem_laws;

    ghost tells = { λ _. false };

    ghost size = { λ s. mem_disk.ghosts.size s.disk };

    ghost seen = { λ _. [] };

    ghost may_leave = { λ _ _. ⊥ };

    ghost left_since = { λ _ _ _. ⊥ };

    ghost faults = { λ s. mem_disk.ghosts.faults s.disk };

    ghost allowance = { λ _. Free };

    ghost crashed = { λ _ _ _. Unit {0} };

    ghost few = { λ s. mem_laws.few-law s.disk };

    ghost faults_end = { λ s. mem_laws.faults_end-law s.disk };

    ghost is_image = { λ _ told. untold told };

    ghost are_images = { λ _ _ left. absurd left };

    ghost were_images = { λ _ _ _ left. absurd left };

    ghost as_read = { λ _ told. untold told };

    ghost counts_now = { λ _ _ _ left. left };

    ghost only_now = { λ _ _ left. left };

    fn pages(&self) -> u32 {
        self.disk.pages()
    }

    fn read(&mut self, at: u32, page: &mut Page) -> Result<(), Halt> {
        self.disk.read(at, page)
    }

    fn write(&mut self, at: u32, offset: u16, bytes: &[u8]) -> Result<(), Halt> {
        self.disk.write(at, offset, bytes)
    }

    fn sync(&mut self) -> Result<(), Halt> {
        self.disk.sync()
    }

    fn stop_after(&mut self, calls: Option<u32>) {
        self.disk.stop_after(calls)
    }

    fn power_off(self, pick: u64) -> Self {
        Silent {
            disk: self.disk.power_off(pick),
        }
    }
}
