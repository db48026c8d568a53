//! Transactions that are live at a server.
ghost use Rattle.std.specs.Prelude.{◌≡◌, ◌≢◌, ◌≤◌, IfOk, OnOk, OnErr, None, Some, slice_get};
ghost use Rattle.std.specs.FinMap as map;
ghost use Rattle.std.specs.Option.{option_copied as copied};
ghost use Rattle.std.specs.BTreeMap.{keys, IsOrdered};
ghost use Rattle.std.specs.List.Sorted.{IsStrictlySortedBy};
ghost use Rattle.alp_base.specs.Orders.{trans_cmp};
ghost use Rattle.alp_trans.specs.Counting.{no_counts};
ghost use Rattle.alp_node.specs.Totals.{totals_of, AreFewTotals};

use crate::totals::Totals;
use alp_base::{JoinNo, Name, OutOfMemory, TransId};
use alp_trans::Part;
use std::alloc::Global;
use std::collections::BTreeMap;
use std::marker::Model;

/// A live part: its client, the principal that it acts for, what it did here, how many resources it has locked, and its join,
/// where the transaction is another server's. Of a part that an earlier run left ready no principal is known.
#[derive(Drop)]
pub struct Live {
    pub client: u8,
    pub who: Option<Name>,
    pub part: Part,
    pub locks: u32,
    pub join: Option<JoinNo>,
}

/// Live transactions by their ids, and what they come to together, which is kept as they change and end.
#[derive(Drop)]
pub struct Lives {
    lives: BTreeMap<TransId, Live>,
    totals: Totals,
}

impl Model for Lives {
    ghost use Rattle.std.specs.Prelude.{◌≡◌};
    ghost use Rattle.std.specs.FinMap as map;
    ghost use Rattle.alp_base.specs.Orders.{trans_cmp};
    ghost use Rattle.alp_node.specs.declared.lives.Live.{Live};
    ghost use Rattle.alp_base.specs.contracts.ids.TransId as id_type;
    ghost use Rattle.alp_node.specs.contracts.lives.Live as live_type;
    ghost use Rattle.alp_node.specs.Totals.{totals_of};

    ghost Value = { map.FinMap trans_cmp Live };

    ghost coded = { map.code id_type.the_row.coded live_type.the_row.coded };

    ghost view = { λ l. map.from_entries l.lives.entries };

    ghost invariant = { λ l. l.totals ≡ totals_of (map.from_entries l.lives.entries) };
}

impl Live {
    /// One that stands for this one while that is changed: a part that did nothing.
    pub fn blank(&self, alloc: Global) -> Live
        ensures same { result ≡ record self.now { part = result.part } }
        ensures idle { result.part.counts ≡ no_counts }
    {
        Live {
            client: self.client,
            who: self.who,
            part: Part::new(alloc),
            locks: self.locks,
            join: self.join,
        }
    }
}

impl Lives {
    pub fn new(alloc: Global) -> Lives
        ensures { result ≡ map.empty }
    {
        Lives {
            lives: BTreeMap::new(alloc),
            totals: Totals::none(),
        }
    }

    pub fn get(&self, trans: &TransId) -> Option<&Live>
        ensures { copied result ≡ map.get self.now trans.now }
    {
        self.lives.get(trans)
    }

    /// A transaction is live from now on, whose part did nothing yet.
    pub fn add(&mut self, trans: TransId, live: Live) -> Result<(), OutOfMemory>
        requires new { map.get self.old trans ≡ None }
        requires idle { live.part.counts ≡ no_counts }
        ensures ok { OnOk result (self.new ≡ map.insert self.old trans live) }
        ensures err { OnErr result (self.new ≡ self.old) }
    {
        self.lives.insert(trans, live)?;
        Ok(())
    }

    /// A part that an earlier run left ready is live from now on.
    pub fn restore(&mut self, trans: TransId, live: Live) -> Result<(), OutOfMemory>
        requires new { map.get self.old trans ≡ None }
        requires few { AreFewTotals (totals_of self.old) }
        requires part { (live.part.counts.places ≤ 32768) × (live.part.counts.files ≤ 32768) × (live.part.counts.owners ≤ 32768) }
        ensures ok { OnOk result (self.new ≡ map.insert self.old trans live) }
        ensures err { OnErr result (self.new ≡ self.old) }
    {
        let counts = live.part.counts;
        self.lives.insert(trans, live)?;
        self.totals = self.totals.with(counts);
        Ok(())
    }

    /// This stands for a transaction that is live, and what stood for it is given. Takes no memory.
    pub fn swap(&mut self, trans: TransId, live: Live) -> Live
        requires there { map.get self.old trans ≢ None }
        requires few { AreFewTotals (totals_of self.old) }
        requires part { (live.part.counts.places ≤ 32768) × (live.part.counts.files ≤ 32768) × (live.part.counts.owners ≤ 32768) }
        ensures after { self.new ≡ map.insert self.old trans live }
        ensures before { map.get self.old trans ≡ Some result }
    {
        let counts = live.part.counts;
        match self.lives.insert(trans, live) {
            Ok(Some(old)) => {
                self.totals = self.totals.without(old.part.counts).with(counts);
                old
            }
            Ok(None) => unreachable!(),
            Err(_) => unreachable!(),
        }
    }

    /// How many there are.
    pub fn len(&self) -> usize
        ensures { result ≡ map.len self.now }
    {
        self.lives.len()
    }

    /// What they come to together.
    pub fn totals(&self) -> Totals
        ensures { result ≡ totals_of self.now }
    {
        self.totals
    }

    /// Their ids, in rising order.
    pub fn ids(&self, alloc: Global) -> Result<Vec<TransId>, OutOfMemory>
        ensures ids { IfOk result (λ v. v.items ≡ map.keys self.now) }
        ensures rising { IfOk result (λ v. IsStrictlySortedBy trans_cmp v.items) }
    {
        let ids = ids_in(alloc, &self.lives)?;
        Ok(ids)
    }

    /// The least id, if there is one.
    pub fn least(&self) -> Option<TransId>
        ensures least { result ≡ slice_get (map.keys self.now) 0 }
        ensures rising { IsStrictlySortedBy trans_cmp (map.keys self.now) }
    {
        if self.lives.len() == 0 {
            return None;
        }
        let Some((trans, _)) = self.lives.first_key_value() else {
            unreachable!()
        };
        Some(*trans)
    }

    /// A transaction is live no more.
    pub fn remove(&mut self, trans: &TransId)
        ensures { self.new ≡ map.remove self.old trans.now }
    {
        if let Some(old) = self.lives.remove(trans) {
            self.totals = self.totals.without(old.part.counts);
        }
    }
}

fn ids_in(alloc: Global, lives: &BTreeMap<TransId, Live>) -> Result<Vec<TransId>, OutOfMemory>
    ensures ids { IfOk result (λ v. v.items ≡ keys lives.now) }
    ensures rising { IsOrdered trans_cmp lives.now }
{
    let mut ids = Vec::new(alloc);
    for trans in lives.keys() {
        ids.push(*trans)?;
    }
    Ok(ids)
}
