//! How the file of a server's volume is found in a folder, or made there.
ghost use Rattle.std.specs.Prelude.{◌≡◌, ◌≢◌, ℕ, ◌*◌, ◌^◌, ◌≤◌, ◌<◌, IfOk, IfErr, IfSome, IfNone, string_bytes};
ghost use Rattle.std.specs.Fs.{metadata_len};
ghost use Rattle.alp_bay.specs.Refusals.{IsOfHost, IsNoDisk};
ghost use Rattle.alp_bay.specs.VolumeFiles.{volume_path, IsSizedFor};

use crate::folder::Folder;
use crate::held_file::{HeldFile, PAGE_BYTES};
use crate::refusal::{HostFault, Refusal};
use crate::volume_file::VolumeFile;
use alp_base::OutOfMemory;
use alp_disk::{Disk, FileDisk};
use std::alloc::Global;
use std::fmt::Write;
use std::fs::{File, Files};

/// The fewest pages of a disk: those of its two anchors.
const FEWEST_PAGES: u64 = 2;

// Where the volume of a server stands.
fn path_of(alloc: Global, folder: &str, server: u8) -> Result<String, OutOfMemory>
    ensures { IfOk result (λ path. string_bytes path ≡ volume_path folder.now server) }
{
    let mut path = String::new(alloc);
    match write!(path, "{folder}/server{server}.vol") {
        Ok(()) => Ok(path),
        Err(_) => Err(OutOfMemory),
    }
}

// The disk that is a file which was found with no byte: it gets so many pages, and stands in its folder.
fn make_whole<R: Files<File = File>>(
    files: &R,
    folder: &Folder,
    file: HeldFile,
    pages: u32,
) -> Result<VolumeFile, HostFault>
    requires { metadata_len file.found ≡ 0 }
    ensures path { IfOk result (λ v. v.path ≡ file.path) }
    ensures sized { IfOk result (λ v. IsSizedFor pages (string_bytes folder.now.at.name) v.found v.made (⟦<FileDisk as Disk>⟧.size v.disk)) }
    ensures size { IfOk result (λ v. ⟦<FileDisk as Disk>⟧.size v.disk ≡ pages) }
    ensures unfailed { IfOk result (λ v. ⟦<FileDisk as Disk>⟧.faults v.disk ≡ 0) }
    ensures cause { IfErr result IsOfHost }
{
    let made = file.make(pages)?;
    let synced = folder.sync(files)?;
    Ok(VolumeFile::made(made, synced, pages))
}

// How many pages a file of that length has, if it can be a disk.
fn pages_in(bytes: u64) -> Option<u32>
    ensures exact { IfSome result (λ pages. (bytes ≡ 512 * pages) × (2 ≤ pages)) }
    ensures none { IfNone result ((pages : ℕ) → 2 ≤ pages → pages < 2 ^ 32 → bytes ≢ 512 * pages) }
{
    let pages = bytes / PAGE_BYTES;
    if bytes % PAGE_BYTES != 0 || pages < FEWEST_PAGES {
        return None;
    }
    u32::try_from(pages).ok()
}

/// The disk that is the file `server1.vol` to `server8.vol` of a folder. One that is missing or empty is made with so many
/// pages.
pub(crate) fn open_volume<R: Files<File = File>>(
    alloc: Global,
    files: &R,
    folder: &Folder,
    server: u8,
    pages: u32,
) -> Result<VolumeFile, HostFault>
    requires { 2 ≤ pages }
    ensures path { IfOk result (λ v. string_bytes v.path ≡ volume_path (string_bytes folder.now.at.name) server) }
    ensures sized { IfOk result (λ v. IsSizedFor pages (string_bytes folder.now.at.name) v.found v.made (⟦<FileDisk as Disk>⟧.size v.disk)) }
    ensures long { IfOk result (λ v. 2 ≤ ⟦<FileDisk as Disk>⟧.size v.disk) }
    ensures unfailed { IfOk result (λ v. ⟦<FileDisk as Disk>⟧.faults v.disk ≡ 0) }
    ensures cause { IfErr result IsNoDisk }
{
    let path = path_of(alloc, folder.name(), server)?;
    let file = HeldFile::open(files, path)?;
    let bytes = file.bytes();
    if bytes == 0 {
        return make_whole(files, folder, file, pages);
    }
    match pages_in(bytes) {
        Some(long) => Ok(VolumeFile::found(file, long)),
        None => Err(HostFault::Refused(Refusal::Length(file.into_found()))),
    }
}
