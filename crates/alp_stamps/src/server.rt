//! A server on the volume in a folder.
ghost use Rattle.std.specs.Prelude.{◌≡◌, ◌≤◌, IfOk, IsTrue, false};
ghost use Rattle.alp_acknowledge.specs.Turns.{IsFresh};

use crate::failed::Failed;
use alp_base::Sizes;
use alp_bay::{Bay, HostBay, HostDisk};
use alp_disk::{Disk, FileDisk};
use alp_node::Node;
use alp_store::Store;
use alp_vault::Vault;
use std::alloc::Global;
use std::fs::{File, Files};
use std::rt::Runtime;

// The sizes of a new volume, in pages. The log's areas are as small as they may be, so that every few commits one of them
// makes a checkpoint.
const SIZES: Sizes = Sizes {
    home: 16384,
    area: 64,
};

// The number of the server, the only one, whose volume it is.
const SERVER: u8 = 1;

// The file of the volume in the folder.
fn volume_in<R: Runtime + Files<File = File>>(
    rt: &R,
    alloc: Global,
    folder: &str,
) -> Result<FileDisk, Failed>
    ensures { IfOk result (λ disk. 2 ≤ ⟦<FileDisk as Disk>⟧.size disk) }
{
    let mut bay = HostBay::new(alloc, rt.clone()?)?;
    bay.choose(Some(folder))?;
    let disk = bay.take(SERVER, 2 + 2 * SIZES.area + SIZES.home)?;
    match disk {
        HostDisk::File(volume) => Ok(volume.into_disk()),
        HostDisk::Memory(_disk) => Err(Failed::Volume),
    }
}

// The store of the server on its disk.
fn store_on(alloc: Global, disk: FileDisk) -> Result<Store<FileDisk>, Failed>
    requires { 2 ≤ ⟦<FileDisk as Disk>⟧.size disk }
    ensures serves { IfOk result (λ s. IsTrue (⟦<Store<FileDisk> as Vault>⟧.serves s)) }
    ensures silent { IfOk result (λ s. ⟦<Store<FileDisk> as Vault>⟧.tells s ≡ false) }
    ensures number { IfOk result (λ s. ⟦<Store<FileDisk> as Vault>⟧.server s ≡ 1) }
    ensures one { IfOk result (λ s. ⟦<Store<FileDisk> as Vault>⟧.servers s ≡ 1) }
{
    match Store::start(alloc, disk, SERVER, 1, SIZES) {
        Ok(store) => Ok(store),
        Err((_disk, _fault)) => Err(Failed::Volume),
    }
}

/// The server on the volume in the folder, which is made where there is none. It did nothing yet.
pub(crate) fn server_in<R: Runtime + Files<File = File>>(
    rt: &R,
    alloc: Global,
    folder: &str,
) -> Result<Node<Store<FileDisk>>, Failed>
    ensures { IfOk result IsFresh }
{
    let disk = volume_in(rt, alloc, folder)?;
    let store = store_on(alloc, disk)?;
    match Node::start(alloc, SERVER, 1, store) {
        Ok(node) => Ok(node),
        Err((_store, _fault)) => Err(Failed::Volume),
    }
}
