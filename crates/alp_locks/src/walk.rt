//! The walk along those who wait.
ghost use Rattle.std.specs.Prelude.{◌≡◌, ◌+◌, ◌≤◌, ◌<◌, [], length, true, vec_capacity};
ghost use Rattle.std.specs.FinMap as map;
ghost use Rattle.alp_locks.specs.Tables.{are_known};
ghost use Rattle.alp_locks.specs.Releases.{is_free as free, walked};

use crate::asking::blocker;
use crate::holders::Holders;
use alp_base::TransId;
use alp_queue::{Queue, Waiter};

fn is_free(holders: &Holders, waiter: &Waiter) -> bool
    ensures { result ≡ free holders.now waiter.now }
{
    blocker(holders, &waiter.trans, waiter.rises.as_slice()).is_none()
}

/// Tries each waiter in turn, by what is held at that moment, and grants and wakes those that are
/// free.
pub fn walk(holders: &mut Holders, queue: &mut Queue, woken: &mut Vec<TransId>)
    requires known { are_known holders.old queue.old ≡ true }
    requires room { length queue.old + length woken.old.items ≤ vec_capacity woken.old }

    ensures tried { record { held = holders.new; waiting = queue.new; woken = woken.new.items } ≡ walked (record { held = holders.old; waiting = []; woken = woken.old.items }) queue.old }
    ensures known { are_known holders.new queue.new ≡ true }
    ensures room { length queue.new + length woken.new.items ≤ vec_capacity woken.new }
{
    let mut at = 0;
    while at < queue.waiters().len() {
        if is_free(holders, &queue.waiters()[at]) {
            let waiter = queue.take(at);
            holders.replace(waiter.trans, waiter.after);
            woken.push_reserved(waiter.trans);
        } else {
            at += 1;
        }
    }
}
