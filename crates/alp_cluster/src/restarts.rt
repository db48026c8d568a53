//! A server falls, and starts again.
ghost use Rattle.std.specs.Prelude.{◌≡◌, MatchResult, Result, Ok, Err};
ghost use Rattle.alp_node.specs.declared.start.StartFault.{StartFault as AStartFault};
ghost use Rattle.alp_cluster.specs.declared.fault.RunFault.TheVariants as run_fault;
ghost use Rattle.alp_cluster.specs.Servers.{IsOn, StartsAgain, StaysDown};

use crate::fault::RunFault;
use alp_node::{Down, Node};
use alp_vault::Vault;

/// The server falls, its disk crashes with that pick, and it starts again. Where it does not, it comes back as it is then.
pub(crate) fn start_again<V: Vault>(
    node: Node<V>,
    pick: u64,
) -> Result<Node<V>, (Down<V>, RunFault)>
    requires on { IsOn V.Vault node }
    ensures { MatchResult result (StartsAgain V.Vault pick node) (λ e. (f : AStartFault) × (e.1 ≡ run_fault.Start node.kept.server f) × StaysDown V.Vault pick node e.0 f) }
{
    let server = node.server();
    let fallen = node.fall(pick);
    fallen.knows();
    match fallen.restart() {
        Ok(node) => {
            node.knows();
            Ok(node)
        }
        Err((down, fault)) => {
            down.knows();
            Err((down, RunFault::Start { server, fault }))
        }
    }
}
