//! What a server keeps beside its journal.
use crate::dead::Dead;
use crate::lives::Lives;
use crate::sessions::Sessions;
use crate::waits::Waits;
use alp_base::Sizes;
use alp_coord::Coordinator;
use alp_locks::LockTable;
use alp_vault::Vault;
use alp_worker::Joins;
use std::alloc::Global;

/// What a server keeps beside its journal, and no more than its journal says.
#[derive(Drop)]
pub struct ServerState<V: Vault> {
    pub alloc: Global,
    /// The number of the server, how many servers the run has, and the sizes of its volume.
    pub server: u8,
    pub servers: u8,
    pub sizes: Sizes,
    pub epoch: u32,
    pub clock: u64,
    /// How many files were created in this epoch.
    pub given: u32,
    /// Transactions that began here.
    pub coordinator: Coordinator,
    /// Joins that were drawn here, of other servers' transactions.
    pub joins: Joins,
    pub sessions: Sessions,
    pub lives: Lives,
    /// Parts that ended while their clients do not know, each up to its client's `Finish` of it or next `Begin` or `Join`.
    pub dead: Dead,
    /// Calls that wait for their locks, or have them and are not collected.
    pub waits: Waits,
    pub locks: LockTable,
    pub vault: V,
    /// Whether the vault was stopped in a step, or failed in the commit of one.
    pub is_down: bool,
}
