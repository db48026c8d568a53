//! How many resources a part has locked.
ghost use Rattle.std.specs.Prelude.{◌≡◌, ◌≤◌, length, is_some, not, if◌then◌else◌};
ghost use Rattle.std.specs.List.{list_any};
ghost use Rattle.std.specs.Ordering.{eq_by_cmp};
ghost use Rattle.alp_base.specs.Orders.{resource_cmp};
ghost use Rattle.alp_files.specs.Locks.{joined};
ghost use Rattle.alp_locks.specs.Tables.{holding};
ghost use Rattle.alp_node.specs.Shapes.{fresh_on, counts_then, too_locked as too_locked_said};

use crate::server_state::ServerState;
use alp_base::{Resource, TransId};
use alp_files::{Call, Refusal, What};
use alp_modes::Mode;
use alp_queue::Needs;
use alp_vault::Vault;

/// The most resources that a part has locked.
const MOST_LOCKS: u32 = 1024;

/// How many resources a part has locked behind a call: where the call makes no file, and where it makes one.
#[derive(Clone, Copy)]
pub struct LockCounts {
    pub asked: u32,
    pub made: u32,
}

impl<V: Vault> ServerState<V> {
    /// How many the live transaction has locked behind the call, which asks these and has so many locked now.
    pub fn lock_counts(&self, trans: TransId, locks: u32, needs: &Needs, call: &Call) -> LockCounts
        requires locks { locks ≤ 1024 }
        requires few { length needs.now ≤ 64 }
        ensures { result ≡ counts_then locks (holding self.now.locks.held trans) needs.now call.now }
    {
        let asked = locks + self.fresh(trans, needs.as_slice());
        let made = match call {
            Call::CreateFile { .. } => asked + 1,
            _ => asked,
        };
        LockCounts { asked, made }
    }

    // How many of the resources are not held yet, each once.
    fn fresh(&self, trans: TransId, needs: &[(Resource, Mode)]) -> u32
        requires { length needs.now ≤ 64 }
        ensures count { result ≡ fresh_on (holding self.now.locks.held trans) needs.now }
        ensures few { result ≤ 64 }
    {
        let mut count = 0;
        for (i, need) in needs.iter().enumerate() {
            count += one_if(self.is_fresh(trans, &need.0, &needs[..i]));
        }
        count
    }

    // Whether a resource is neither held nor among these.
    fn is_fresh(&self, trans: TransId, at: &Resource, before: &[(Resource, Mode)]) -> bool
        ensures { result ≡ not (is_some (joined (holding self.now.locks.held trans) before.now at.now)) }
    {
        if self.locks.mode_of(trans, at).is_some() {
            return false;
        }
        !is_among(at, before)
    }
}

fn one_if(counts: bool) -> u32
    ensures { result ≡ if counts then 1 else 0 }
{
    if counts { 1 } else { 0 }
}

fn is_among(at: &Resource, needs: &[(Resource, Mode)]) -> bool
    ensures { result ≡ list_any (λ n. eq_by_cmp resource_cmp at.now n.0) needs.now }
{
    needs.iter().any(|need| at.cmp(&need.0).is_eq())
}

/// How a part that changes so many cells is refused as many locked resources, in an area of so many pages, if it is.
pub fn too_locked(area: u32, cells: u32, locks: u32) -> Option<Refusal>
    requires { cells ≤ 256 }
    ensures { result ≡ too_locked_said area cells locks }
{
    if locks > MOST_LOCKS {
        return Some(Refusal::TooMany {
            what: What::Locks,
            limit: MOST_LOCKS,
        });
    }
    let asked = 6 * cells + (locks + 15) / 16 + 30;
    if asked > area {
        let room = area;
        return Some(Refusal::LogFull { room, asked });
    }
    None
}
