//! A server of a run is started on its disk.
ghost use Rattle.std.specs.Prelude.{◌≡◌, ◌≤◌, IsTrue, IfOk, IfErr};
ghost use Rattle.alp_base.specs.declared.allowance.Allowance.TheVariants.{Free};
ghost use Rattle.alp_top.specs.Disks.{IsStarted, IsCountedStart};
ghost use Rattle.alp_top.specs.Volumes.{WhyNotBegun};
ghost use Rattle.alp_vault.specs.Vault.{AreSizes, IsServer};

use crate::fault::{NoReport, of_start, of_vault};
use alp_base::Sizes;
use alp_disk::Disk;
use alp_node::Node;
use alp_store::Store;
use alp_vault::Vault;
use std::alloc::Global;

/// Starts the server of this number, one of so many, on its disk. A new disk becomes a volume of these sizes. A disk that no server is
/// started on comes back.
pub fn start<D: Disk>(
    alloc: Global,
    server: u8,
    servers: u8,
    disk: D,
    sizes: Sizes,
) -> Result<Node<Store<D>>, (D, NoReport)>
    requires server { IsServer server servers }
    requires pages { 2 ≤ D.size disk }
    requires sizes { AreSizes sizes }
    requires free { D.allowance disk ≡ Free }
    ensures started { IfOk result (IsStarted ⟦<Store<D> as Vault>⟧ D.Disk sizes server servers disk) }
    ensures size { IfErr result (λ e. D.size e.0 ≡ D.size disk) }
    ensures tells { IfErr result (λ e. D.tells e.0 ≡ D.tells disk) }
    ensures later { IfErr result (λ e. D.faults disk ≤ D.faults e.0) }
    ensures cause { IsTrue (D.tells disk) → IfErr result (λ e. WhyNotBegun D.Disk sizes server servers e.1 disk e.0) }
    ensures counted { IfErr result (λ e. IsCountedStart server e.1 (D.faults disk) (D.faults e.0)) }
{
    let store = match Store::start(alloc, disk, server, servers, sizes) {
        Ok(store) => store,
        Err((disk, fault)) => return Err((disk, of_vault(server, fault))),
    };
    match Node::start(alloc, server, servers, store) {
        Ok(node) => {
            node.knows();
            Ok(node)
        }
        Err((store, fault)) => Err((store.into_disk(), of_start(server, fault))),
    }
}
