//! A folder of the host.
ghost use Rattle.std.specs.Prelude.{◌≡◌, IfOk, IfErr, string_bytes};
ghost use Rattle.std.specs.Fs.{file_type, IsDir};
ghost use Rattle.alp_bay.specs.Refusals.{IsNoFolder};

use crate::mem_bay::copied;
use crate::refusal::{HostFault, Refusal};
use std::alloc::Global;
use std::fs::{self, File, Files, Metadata};
use std::io;
use std::snapshot::Snapshot;

// What the host found at a name. Only `look` makes one.
#[derive(Drop)]
struct AtName {
    name: String,
    found: Metadata,
}

// Asks the host what stands at that name.
fn look<R: Files>(files: &R, name: String) -> io::Result<AtName>
    ensures { IfOk result (λ at. at.name ≡ name) }
{
    let found = fs::metadata(files, name.as_str())?;
    Ok(AtName { name, found })
}

/// A folder, by its name. What the host found at that name was one.
#[derive(Drop)]
pub(crate) struct Folder {
    at: AtName,
    ghost is_folder: { IsDir (file_type at.found) },
}

/// What was made in the folder of this name stands there after a crash. Only a sync of the folder makes one.
#[derive(Drop)]
pub(crate) struct SyncedFolder {
    name: Snapshot<String>,
}

impl Folder {
    /// The folder of that name, where one is there. An empty name names none.
    pub(crate) fn find<R: Files>(alloc: Global, files: &R, name: &str) -> Result<Folder, HostFault>
        ensures found { IfOk result (λ folder. string_bytes folder.at.name ≡ name.now) }
        ensures cause { IfErr result (IsNoFolder name.now) }
    {
        if name.is_empty() {
            return Err(HostFault::Refused(Refusal::NoName));
        }
        let name = copied(alloc, name)?;
        let at = look(files, name)?;
        if !at.found.is_dir() {
            return Err(HostFault::Refused(Refusal::NoFolder(at.found)));
        }
        Ok(Folder { at })
    }

    /// Its name.
    pub(crate) fn name(&self) -> &str
        ensures { result.now ≡ string_bytes self.now.at.name }
    {
        self.at.name.as_str()
    }

    /// Syncs it.
    pub(crate) fn sync<R: Files<File = File>>(&self, files: &R) -> io::Result<SyncedFolder>
        ensures { IfOk result (λ synced. synced.name.value ≡ self.now.at.name) }
    {
        File::open(files, self.at.name.as_str())?.sync_all()?;
        Ok(SyncedFolder {
            name: Snapshot::of(&self.at.name),
        })
    }
}
