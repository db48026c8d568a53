//! A file that no other program has. No other module of this crate has a file in its hands, or gives one a length.
ghost use Rattle.std.specs.Prelude.{◌≡◌, ◌*◌, IfOk, IfErr};
ghost use Rattle.std.specs.Fs.{metadata_len};
ghost use Rattle.alp_bay.specs.Refusals.{IsOfHost};

use crate::refusal::HostFault;
use alp_disk::{Disk, FileDisk};
use std::fs::{File, Files, Metadata, OpenOptions};

/// The bytes of a page.
pub(crate) const PAGE_BYTES: u64 = 512;

/// A file of the host, its path, and what the host said of it when it was opened. Its lock is held for as long as it is open: only a lock
/// that was given makes one.
#[derive(Drop)]
pub(crate) struct HeldFile {
    file: File,
    path: String,
    found: Metadata,
}

/// A file that was found with no byte, and has so many after a crash too. Only a sync of the file after its length was set makes one.
#[derive(Drop)]
pub(crate) struct MadeFile {
    held: HeldFile,
    bytes: u64,
}

impl HeldFile {
    /// The file of that path, which is made where it is missing.
    pub(crate) fn open<R: Files<File = File>>(
        files: &R,
        path: String,
    ) -> Result<HeldFile, HostFault>
        ensures path { IfOk result (λ held. held.path ≡ path) }
        ensures cause { IfErr result IsOfHost }
    {
        let mut options = OpenOptions::new();
        options.read(true).write(true).create(true);
        let file = options.open(files, path.as_str())?;
        file.try_lock()?;
        let found = file.metadata()?;
        Ok(HeldFile { file, path, found })
    }

    /// How many bytes the host said that it has.
    pub(crate) fn bytes(&self) -> u64
        ensures { result ≡ metadata_len self.now.found }
    {
        self.found.len()
    }

    /// Gives it so many pages, and syncs it. A file that was found with bytes gets no length.
    pub(crate) fn make(self, pages: u32) -> Result<MadeFile, HostFault>
        requires empty { metadata_len self.found ≡ 0 }
        ensures made { IfOk result (λ made. (made.held ≡ self) × (made.bytes ≡ 512 * pages)) }
        ensures cause { IfErr result IsOfHost }
    {
        let bytes = PAGE_BYTES * pages as u64;
        self.file.set_len(bytes)?;
        self.file.sync_all()?;
        Ok(MadeFile { held: self, bytes })
    }

    /// What the host said of it, which is let go.
    pub(crate) fn into_found(self) -> Metadata
        ensures { result ≡ self.found }
    {
        let HeldFile { found, .. } = self;
        found
    }

    /// The first so many pages of it, its path, and what the host said of it.
    pub(crate) fn into_disk(self, pages: u32) -> (FileDisk, String, Metadata)
        ensures size { ⟦<FileDisk as Disk>⟧.size result.0 ≡ pages }
        ensures faults { ⟦<FileDisk as Disk>⟧.faults result.0 ≡ 0 }
        ensures path { result.1 ≡ self.path }
        ensures found { result.2 ≡ self.found }
    {
        let HeldFile { file, path, found } = self;
        (FileDisk::new(file, pages), path, found)
    }
}

impl MadeFile {
    /// The file, and how many bytes it got.
    pub(crate) fn into_parts(self) -> (HeldFile, u64)
        ensures { (result.0 ≡ self.held) × (result.1 ≡ self.bytes) }
    {
        let MadeFile { held, bytes } = self;
        (held, bytes)
    }
}
