//! What is left for a part beside what all live parts come to.
ghost use Rattle.std.specs.Prelude.{◌≡◌, IsTrue};
ghost use Rattle.alp_node.specs.Rooms.{IsRoomOf, locks_given as locks_given_said};

use crate::answer::Given;
use crate::lock_counts::LockCounts;
use crate::server_state::ServerState;
use alp_calls::{CallFault, Room};
use alp_vault::{HEAD_PAGES, Vault};

impl<V: Vault> ServerState<V> {
    /// What is left for a part that would have so many resources locked.
    pub fn room(&self, locks: u32) -> Room
        requires { IsTrue (V.serves self.now.vault) }
        ensures { IsRoomOf (V.tells self.now.vault) (V.held self.now.vault).cells self.now locks result }
    {
        let totals = self.lives.totals();
        let places = self.sizes.home.saturating_sub(HEAD_PAGES);
        let beside = places.saturating_sub(self.vault.used());
        Room {
            left: beside.saturating_sub(totals.places),
            files: self.vault.file_count().saturating_add(totals.files),
            owners: self.vault.owner_count().saturating_add(totals.owners),
            area: self.sizes.area,
            locks,
        }
    }
}

/// How many resources a part has locked behind a call that came to this.
pub fn locks_given(old: u32, counts: LockCounts, given: &Result<Given, CallFault>) -> u32
    ensures { result ≡ locks_given_said old counts given.now }
{
    match given {
        Ok(given) => {
            if given.is_made() {
                return counts.made;
            }
            counts.asked
        }
        Err(_) => old,
    }
}
