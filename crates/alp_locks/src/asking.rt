//! What an ask comes to, before anything changes.
ghost use Rattle.std.specs.Prelude.{◌≡◌, IfOk};
ghost use Rattle.std.specs.FinMap as map;
ghost use Rattle.alp_locks.specs.Tables.{held_of};
ghost use Rattle.alp_locks.specs.Asks.{raised, joined, risen, waiter_of, blocker as blocker_said};
ghost use Rattle.alp_locks.specs.Wanted.{mode_after as mode_after_said, is_rising, rising_in, wanted_in, is_converting};

use crate::holders::Holders;
use alp_base::{OutOfMemory, Resource, TransId};
use alp_modes::{Mode, join};
use alp_queue::{Locks, Modes, Needs, Waiter, Wanted};
use std::alloc::Global;

fn raise(held: Option<Mode>, asked: Mode) -> Mode
    ensures { result ≡ raised held asked }
{
    match held {
        Some(mode) => join(mode, asked),
        None => asked,
    }
}

/// What the transaction holds, shared with the table: none of it is copied.
pub fn held_by(alloc: Global, holders: &Holders, trans: &TransId) -> Result<Locks, OutOfMemory>
    ensures { IfOk result (λ l. l ≡ held_of holders.now trans.now) }
{
    match holders.get(trans) {
        Some(locks) => locks.share(),
        None => Ok(Locks::new(alloc)),
    }
}

// The modes that are asked, each resource once.
fn asked_modes(alloc: Global, needs: &[(Resource, Mode)]) -> Result<Modes, OutOfMemory>
    ensures { IfOk result (λ m. m ≡ joined map.empty needs.now) }
{
    let mut modes = Modes::new(alloc);
    for (resource, mode) in needs {
        let before = modes.get(resource);
        modes.put(*resource, raise(before, *mode))?;
    }
    Ok(modes)
}

// What is held of what is asked.
fn wanted(
    alloc: Global,
    held: &Locks,
    needs: &[(Resource, Mode)],
) -> Result<Vec<Wanted>, OutOfMemory>
    ensures { IfOk result (λ v. v.items ≡ wanted_in held.now needs.now) }
{
    let asked = asked_modes(alloc, needs)?;
    let found = held.look_up(&asked)?;
    Ok(found)
}

// The mode that a grant would leave there.
fn mode_after(wanted: &Wanted) -> Mode
    ensures { result ≡ mode_after_said wanted.now }
{
    raise(wanted.held, wanted.asked)
}

// Whether that is another mode than the one that is held.
fn rises(wanted: &Wanted) -> bool
    ensures { result ≡ is_rising wanted.now }
{
    wanted.held != Some(mode_after(wanted))
}

// Those that rise, with the modes that a grant would leave.
fn rising_of(alloc: Global, all: &[Wanted]) -> Result<Needs, OutOfMemory>
    ensures { IfOk result (λ n. n ≡ rising_in all.now) }
{
    let mut list = Vec::with_capacity(alloc, all.len())?;
    for wanted in all {
        if rises(wanted) {
            list.push((wanted.resource, mode_after(wanted)))?;
        }
    }
    Ok(Needs::new(list))
}

// Whether a lock is held on one that rises.
fn converts(all: &[Wanted]) -> bool
    ensures { result ≡ is_converting all.now }
{
    all.iter()
        .any(|wanted| rises(wanted) && wanted.held.is_some())
}

/// The needs on which the transaction's mode would rise.
pub fn rises_of(
    alloc: Global,
    holders: &Holders,
    trans: &TransId,
    needs: &[(Resource, Mode)],
) -> Result<Needs, OutOfMemory>
    ensures { IfOk result (λ n. n ≡ risen (held_of holders.now trans.now) needs.now) }
{
    let held = held_by(alloc, holders, trans)?;
    let all = wanted(alloc, &held, needs)?;
    rising_of(alloc, all.as_slice())
}

/// The request as it would wait.
pub fn waiter_for(
    alloc: Global,
    holders: &Holders,
    trans: TransId,
    needs: Needs,
) -> Result<Waiter, OutOfMemory>
    ensures { IfOk result (λ w. w ≡ waiter_of (held_of holders.now trans) trans needs) }
{
    let held = held_by(alloc, holders, &trans)?;
    let all = wanted(alloc, &held, needs.as_slice())?;
    let rises = rising_of(alloc, all.as_slice())?;
    let after = held.with_all(rises.as_slice())?;
    Ok(Waiter {
        trans,
        needs,
        rises,
        after,
        converts: converts(all.as_slice()),
    })
}

/// The least transaction in the way on the first resource where one is.
pub fn blocker(holders: &Holders, trans: &TransId, rises: &[(Resource, Mode)]) -> Option<TransId>
    ensures { result ≡ blocker_said holders.now trans.now rises.now }
{
    for (resource, mode) in rises {
        if let Some(holder) = holders.holder_on(trans, resource, *mode) {
            return Some(holder);
        }
    }
    None
}
