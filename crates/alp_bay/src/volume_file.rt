//! The file of a server's volume.
ghost use Rattle.std.specs.Prelude.{◌≡◌, None, Some};

use crate::folder::SyncedFolder;
use crate::held_file::{HeldFile, MadeFile};
use alp_base::{Halt, Page};
use alp_disk::{Disk, FileDisk};
use std::fs::Metadata;

/// What was done where a volume's file had no byte: it got so many, and stands in that folder.
#[derive(Drop)]
pub(crate) struct Made {
    bytes: u64,
    folder: SyncedFolder,
}

/// A disk that is the file of a server's volume in a folder. No other program has it.
#[derive(Drop)]
pub struct VolumeFile {
    disk: FileDisk,
    path: String,
    // What the host said of the file when it was opened.
    found: Metadata,
    made: Option<Made>,
}

impl VolumeFile {
    /// The first so many pages of a file that was found with them.
    pub(crate) fn found(held: HeldFile, pages: u32) -> VolumeFile
        ensures path { result.path ≡ held.path }
        ensures found { result.found ≡ held.found }
        ensures made { result.made ≡ None }
        ensures size { ⟦<FileDisk as Disk>⟧.size result.disk ≡ pages }
        ensures faults { ⟦<FileDisk as Disk>⟧.faults result.disk ≡ 0 }
    {
        let (disk, path, found) = held.into_disk(pages);
        VolumeFile {
            disk,
            path,
            found,
            made: None,
        }
    }

    /// The first so many pages of a file that got its length, and stands in that folder.
    pub(crate) fn made(file: MadeFile, folder: SyncedFolder, pages: u32) -> VolumeFile
        ensures path { result.path ≡ file.held.path }
        ensures found { result.found ≡ file.held.found }
        ensures made { result.made ≡ Some (record { bytes = file.bytes; folder = folder }) }
        ensures size { ⟦<FileDisk as Disk>⟧.size result.disk ≡ pages }
        ensures faults { ⟦<FileDisk as Disk>⟧.faults result.disk ≡ 0 }
    {
        let (held, bytes) = file.into_parts();
        let (disk, path, found) = held.into_disk(pages);
        VolumeFile {
            disk,
            path,
            found,
            made: Some(Made { bytes, folder }),
        }
    }

    /// The file as a disk. Its lock is still held.
    pub fn into_disk(self) -> FileDisk
        ensures { result ≡ self.disk }
    {
        let VolumeFile { disk, .. } = self;
        disk
    }
}

impl Disk for VolumeFile {
    ghost use Rattle.alp_disk.specs.contracts.file_disk.FileDiskDisk.TheImpl as file_disk;
    ghost use Rattle.alp_disk.specs.contracts.file_disk.FileDiskDisk.TheImpl.Laws as file_laws;
    ghost use Rattle.alp_base.specs.declared.allowance.Allowance.TheVariants.{Free};

    ghost tells = { λ v. file_disk.ghosts.tells v.disk };

    ghost size = { λ v. file_disk.ghosts.size v.disk };

    ghost seen = { λ v. file_disk.ghosts.seen v.disk };

    ghost may_leave = { λ v. file_disk.ghosts.may_leave v.disk };

    ghost left_since = { λ _ v. file_disk.ghosts.may_leave v.disk };

    ghost faults = { λ v. file_disk.ghosts.faults v.disk };

    ghost allowance = { λ _. Free };

    ghost crashed = { λ v pick back. file_disk.ghosts.crashed v.disk pick back.disk × (back.path ≡ v.path) };

    ghost few = { λ v. file_laws.few-law v.disk };

    ghost faults_end = { λ v. file_laws.faults_end-law v.disk };

    ghost is_image = { λ v. file_laws.is_image-law v.disk };

    ghost are_images = { λ v. file_laws.are_images-law v.disk };

    ghost were_images = { λ _ v. file_laws.are_images-law v.disk };

    ghost as_read = { λ v. file_laws.as_read-law v.disk };

    ghost counts_now = { λ _ _ _ left. left };

    ghost only_now = { λ _ _ left. left };

    fn pages(&self) -> u32 {
        self.disk.pages()
    }

    fn read(&mut self, at: u32, page: &mut Page) -> Result<(), Halt> {
        self.disk.read(at, page)
    }

    fn write(&mut self, at: u32, offset: u16, bytes: &[u8]) -> Result<(), Halt> {
        self.disk.write(at, offset, bytes)
    }

    fn sync(&mut self) -> Result<(), Halt> {
        self.disk.sync()
    }

    fn stop_after(&mut self, calls: Option<u32>) {
        self.disk.stop_after(calls);
    }

    fn power_off(self, pick: u64) -> Self {
        let VolumeFile {
            disk,
            path,
            found,
            made,
        } = self;
        VolumeFile {
            disk: disk.power_off(pick),
            path,
            found,
            made,
        }
    }
}
