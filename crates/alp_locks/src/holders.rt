//! What each transaction holds.
ghost use Rattle.std.specs.Prelude.{◌≡◌, IfOk, OnOk, OnErr, is_some, true, false, not, ◌&&◌};
ghost use Rattle.std.specs.Option.{option_copied, option_map};
ghost use Rattle.std.specs.List.{find};
ghost use Rattle.std.specs.FinMap as map;
ghost use Rattle.std.specs.BTreeMap.{IsOrdered};
ghost use Rattle.alp_base.specs.Orders.{trans_cmp};
ghost use Rattle.alp_files.specs.Holdings.{agree_held};
ghost use Rattle.alp_locks.specs.Tables.{held_of};
ghost use Rattle.alp_locks.specs.Asks.{disagrees as disagreeing, holder_on as holder_said};

use alp_base::{OutOfMemory, Resource, TransId};
use alp_modes::Mode;
use alp_queue::Locks;
use std::alloc::Global;
use std::collections::BTreeMap;
use std::marker::Model;

/// The locks of each transaction that holds some or waits, seen as a finite map.
#[derive(Drop)]
pub struct Holders {
    locks: BTreeMap<TransId, Locks>,
}

impl Model for Holders {
    ghost use Rattle.std.specs.FinMap as map;
    ghost use Rattle.alp_locks.specs.Tables.{Holders as TheHolders, holders_code};

    ghost Value = { TheHolders };

    ghost coded = { holders_code };

    ghost view = { λ p. map.from_entries p.locks.entries };
}

impl Holders {
    pub fn new(alloc: Global) -> Holders
        ensures { result ≡ map.empty }
    {
        Holders {
            locks: BTreeMap::new(alloc),
        }
    }

    pub fn get(&self, trans: &TransId) -> Option<&Locks>
        ensures { option_copied result ≡ map.get self.now trans.now }
    {
        self.locks.get(trans)
    }

    /// The transaction holds these locks from now on.
    pub fn put(&mut self, trans: TransId, locks: Locks) -> Result<(), OutOfMemory>
        ensures ok { OnOk result (self.new ≡ map.insert self.old trans locks) }
        ensures err { OnErr result (self.new ≡ self.old) }
    {
        self.locks.insert(trans, locks)?;
        Ok(())
    }

    /// The transaction is here from now on, and holds what it held. The answer says whether it was
    /// not here before.
    pub fn enter(&mut self, alloc: Global, trans: TransId) -> Result<bool, OutOfMemory>
        ensures ok { OnOk result (self.new ≡ map.insert self.old trans (held_of self.old trans)) }
        ensures fresh { IfOk result (λ fresh. fresh ≡ not (is_some (map.get self.old trans))) }
        ensures err { OnErr result (self.new ≡ self.old) }
    {
        if self.get(&trans).is_some() {
            return Ok(false);
        }
        self.put(trans, Locks::new(alloc))?;
        Ok(true)
    }

    /// The same as `put` for a transaction that is here already, which takes no memory.
    pub fn replace(&mut self, trans: TransId, locks: Locks)
        requires { is_some (map.get self.old trans) ≡ true }
        ensures { self.new ≡ map.insert self.old trans locks }
    {
        match self.locks.insert(trans, locks) {
            Ok(before) => drop(before),
            Err(refused) => drop(refused),
        }
    }

    /// Forgets the transaction, and takes no memory.
    pub fn remove(&mut self, trans: &TransId)
        ensures { self.new ≡ map.remove self.old trans.now }
    {
        let locks = self.locks.remove(trans);
        drop(locks);
    }

    /// The least other transaction whose mode on the resource does not agree with this one.
    pub fn holder_on(&self, trans: &TransId, resource: &Resource, mode: Mode) -> Option<TransId>
        ensures { result ≡ holder_said self.now trans.now (resource.now, mode) }
    {
        holder_in(&self.locks, trans, resource, mode)
    }
}

fn disagrees(locks: &Locks, resource: &Resource, mode: Mode) -> bool
    ensures { result ≡ not (agree_held (map.get locks.now resource.now) (Some mode)) }
{
    locks.disagrees_on(resource, mode)
}

fn holder_in(
    locks: &BTreeMap<TransId, Locks>,
    trans: &TransId,
    resource: &Resource,
    mode: Mode,
) -> Option<TransId>
    ensures least { result ≡ option_map (λ part. part.0) (find (disagreeing trans.now (resource.now, mode)) locks.now.entries) }
    ensures rising { IsOrdered trans_cmp locks.now }
{
    for (other, held) in locks.iter() {
        if !trans.cmp(other).is_eq() && disagrees(held, resource, mode) {
            return Some(*other);
        }
    }
    None
}
