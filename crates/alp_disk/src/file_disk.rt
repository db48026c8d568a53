//! A disk that is a file of the host.
ghost use Rattle.std.specs.Prelude.{◌≡◌, ◌↔◌, ◌≤◌, ◌<◌, ◌+◌, ◌*◌, ◌^◌, false, [], length, IsOk, OnOk, OnErr, Err};
ghost use Rattle.alp_base.specs.Streams.{counted};
ghost use Rattle.alp_base.specs.declared.faults.Halt.TheVariants.{Failed};
ghost use Rattle.alp_disk.specs.FileDisk.{untold};
ghost use Rattle.alp_base.specs.declared.allowance.Allowance.TheVariants.{Free};

use crate::Disk;
use alp_base::{Halt, Page};
use std::fs::File;
use std::io;
use std::os::unix::fs::FileExt;

/// The pages of a file, one behind the other. It tells nothing of what it holds, since no contract
/// can say what a file gives. A sync goes to the device.
#[derive(Drop)]
pub struct FileDisk {
    file: File,
    pages: u32,
    faults: u64,
    ghost few: { pages < 2 ^ 32 },
    ghost faults_end: { faults < 2 ^ 64 },
}

impl FileDisk {
    /// The first so many pages of a file that is open for reading and writing.
    pub fn new(file: File, pages: u32) -> FileDisk
        ensures size { ⟦<FileDisk as Disk>⟧.size result ≡ pages }
        ensures faults { ⟦<FileDisk as Disk>⟧.faults result ≡ 0 }
    {
        FileDisk {
            file,
            pages,
            faults: 0,
        }
    }
}

/// Where a byte of a page stands in the file.
fn place_of(at: u32, offset: u16) -> u64
    ensures { result ≡ 512 * at + offset }
{
    512 * at as u64 + offset as u64
}

/// Counts an error of the host as a fault.
fn halt_at_error(faults: &mut u64, given: io::Result<()>) -> Result<(), Halt>
    ensures ok { IsOk result ↔ IsOk given }
    ensures same { OnOk given (faults.new ≡ faults.old) }
    ensures rose { OnErr given ((result ≡ Err Failed) × (faults.new ≡ counted faults.old)) }
{
    match given {
        Ok(()) => Ok(()),
        Err(_) => {
            *faults = faults.saturating_add(1);
            Err(Halt::Failed)
        }
    }
}

impl Disk for FileDisk {
    ghost tells = { λ _. false };

    ghost size = { λ f. f.pages };

    ghost seen = { λ _. [] };

    ghost may_leave = { λ _ _. ⊥ };

    ghost left_since = { λ _ _ _. ⊥ };

    ghost faults = { λ f. f.faults };

    ghost allowance = { λ _. Free };

    ghost crashed = { λ f _ back. back ≡ f };

    ghost few = { λ f. f.few };

    ghost faults_end = { λ f. f.faults_end };

    ghost is_image = { λ _ told. untold told };

    ghost are_images = { λ _ _ left. absurd left };

    ghost were_images = { λ _ _ _ left. absurd left };

    ghost as_read = { λ _ told. untold told };

    ghost counts_now = { λ _ _ _ left. left };

    ghost only_now = { λ _ _ left. left };

    fn pages(&self) -> u32 {
        self.pages
    }

    fn read(&mut self, at: u32, page: &mut Page) -> Result<(), Halt> {
        let mut bytes = [0; 512];
        let result = self.file.read_exact_at(&mut bytes, place_of(at, 0));
        halt_at_error(&mut self.faults, result)?;
        *page = Page::new(bytes);
        Ok(())
    }

    fn write(&mut self, at: u32, offset: u16, bytes: &[u8]) -> Result<(), Halt> {
        let result = self.file.write_all_at(bytes, place_of(at, offset));
        halt_at_error(&mut self.faults, result)
    }

    fn sync(&mut self) -> Result<(), Halt> {
        let result = self.file.sync_data();
        halt_at_error(&mut self.faults, result)
    }

    fn stop_after(&mut self, _calls: Option<u32>) {}

    fn power_off(self, _pick: u64) -> Self {
        self
    }
}
