//! What a server keeps: cells and notes, what a commit makes of them, and what a crash may leave.
#![tactic(auto)]

mod apply;
mod counted;
mod held;
mod laws;
mod limits;
mod mem_vault;
mod owners;
mod puts;
mod stage;
mod sweep;
mod vault;

pub use laws::{clocks_are_server_notes, counts_leave_log_room};
pub use limits::{BLOCKS_PER_FILE, FILES_PER_SERVER, HEAD_PAGES, OWNERS_PER_SERVER};
pub use mem_vault::MemVault;
pub use vault::Vault;
