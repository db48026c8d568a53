//! A disk that is in memory, or a file of the host.
use crate::VolumeFile;
use alp_base::{Halt, Page};
use alp_disk::{Disk, MemDisk};

/// A disk in memory, which tells what it holds, or the file of a server's volume, which does not.
#[derive(Drop)]
pub enum HostDisk {
    Memory(MemDisk),
    File(VolumeFile),
}

impl Disk for HostDisk {
    ghost use Rattle.std.specs.Prelude.{◌<◌, ◌^◌, IsTrue};
    ghost use Rattle.alp_disk.specs.Disk.{Image, IsImage};
    ghost use Rattle.alp_disk.specs.contracts.mem_disk.MemDiskDisk.TheImpl.Laws as mem_laws;
    ghost use Rattle.alp_disk.specs.contracts.file_disk.FileDiskDisk.TheImpl.Laws as file_laws;
    ghost use Rattle.alp_bay.specs.HostDisks.{tells_of, size_of, seen_of, LeftBy, faults_of, CrashedBy, each};
    ghost use Rattle.alp_base.specs.declared.allowance.Allowance.TheVariants.{Free};

    ghost tells = { λ d. tells_of d };

    ghost size = { λ d. size_of d };

    ghost seen = { λ d. seen_of d };

    ghost may_leave = { λ d. LeftBy d };

    ghost left_since = { λ _ d. LeftBy d };

    ghost faults = { λ d. faults_of d };

    ghost allowance = { λ _. Free };

    ghost crashed = { λ d pick back. CrashedBy pick d back };

    ghost few = { λ d. each (λ x. size_of x < 2 ^ 32) (λ m. mem_laws.few-law m) (λ f. file_laws.few-law f.disk) d };

    ghost faults_end = { λ d. each (λ x. faults_of x < 2 ^ 64) (λ m. mem_laws.faults_end-law m) (λ f. file_laws.faults_end-law f.disk) d };

    ghost is_image = { λ d. each (λ x. IsTrue (tells_of x) → IsImage (size_of x) (seen_of x)) (λ m. mem_laws.is_image-law m) (λ f. file_laws.is_image-law f.disk) d };

    ghost are_images = { λ d. each (λ x. (c : Image) → LeftBy x c → IsImage (size_of x) c) (λ m. mem_laws.are_images-law m) (λ f. file_laws.are_images-law f.disk) d };

    ghost were_images = { λ _ d. each (λ x. (c : Image) → LeftBy x c → IsImage (size_of x) c) (λ m. mem_laws.are_images-law m) (λ f. file_laws.are_images-law f.disk) d };

    ghost as_read = { λ d. each (λ x. IsTrue (tells_of x) → LeftBy x (seen_of x)) (λ m. mem_laws.as_read-law m) (λ f. file_laws.as_read-law f.disk) d };

    ghost counts_now = { λ _ _ _ left. left };

    ghost only_now = { λ _ _ left. left };

    fn pages(&self) -> u32 {
        match self {
            HostDisk::Memory(disk) => disk.pages(),
            HostDisk::File(volume) => volume.pages(),
        }
    }

    fn read(&mut self, at: u32, page: &mut Page) -> Result<(), Halt> {
        match self {
            HostDisk::Memory(disk) => disk.read(at, page),
            HostDisk::File(volume) => volume.read(at, page),
        }
    }

    fn write(&mut self, at: u32, offset: u16, bytes: &[u8]) -> Result<(), Halt> {
        match self {
            HostDisk::Memory(disk) => disk.write(at, offset, bytes),
            HostDisk::File(volume) => volume.write(at, offset, bytes),
        }
    }

    fn sync(&mut self) -> Result<(), Halt> {
        match self {
            HostDisk::Memory(disk) => disk.sync(),
            HostDisk::File(volume) => volume.sync(),
        }
    }

    fn stop_after(&mut self, calls: Option<u32>) {
        match self {
            HostDisk::Memory(disk) => disk.stop_after(calls),
            HostDisk::File(volume) => volume.stop_after(calls),
        }
    }

    fn power_off(self, pick: u64) -> Self {
        match self {
            HostDisk::Memory(disk) => HostDisk::Memory(disk.power_off(pick)),
            HostDisk::File(volume) => HostDisk::File(volume.power_off(pick)),
        }
    }
}
