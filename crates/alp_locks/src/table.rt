//! The table.
ghost use Rattle.std.specs.Prelude.{◌≡◌, ◌+◌, ◌≤◌, ◌<◌, ◌^◌, ◌&&◌, List, [], length, true, false, not, is_some, is_none, if◌then◌else◌, None, drop, slice_get, IfOk, OnOk, OnErr};
ghost use Rattle.std.specs.FinMap as map;
ghost use Rattle.std.specs.Ordering.{eq_by_cmp};
ghost use Rattle.alp_base.specs.Orders.{trans_cmp};
ghost use Rattle.alp_base.specs.declared.ids.TransId.{TransId as ATransId};
ghost use Rattle.alp_base.specs.declared.key.Resource.{Resource as AResource};
ghost use Rattle.alp_files.specs.Holdings.{join_held, held_by};
ghost use Rattle.alp_queue.specs.Order.{waits, placed};
ghost use Rattle.alp_locks.specs.Tables.{held_of, holding};
ghost use Rattle.alp_locks.specs.Asks.{risen, blocker as blocking, waiter_of, entered, grant_of, asked, with_granted, with_regained, with_waiter, refusal, refused, in_way_of as in_way};
ghost use Rattle.alp_locks.specs.Laws.{AgreesUnless};
ghost use Rattle.alp_locks.specs.Releases.{released};
ghost use Rattle.alp_locks.specs.Sound.{IsPrepared, IsSound};

use crate::asking::{blocker, rises_of, waiter_for};
use crate::holders::Holders;
use crate::walk::walk;
use crate::{Grant, Plan, Request};
use alp_base::{Choice, OutOfMemory, Resource, TransId};
use alp_modes::Mode;
use alp_queue::{Needs, Queue, Waiter};
use std::alloc::Global;
use std::marker::Model;

/// Locks of transactions, and the requests that wait; seen as what each transaction holds, the
/// waiting list in the order in which it is tried, and who was woken and not taken.
#[derive(Drop)]
pub struct LockTable {
    alloc: Global,
    holders: Holders,
    queue: Queue,
    woken: Vec<TransId>,
}

impl Model for LockTable {
    ghost use Rattle.std.specs.Prelude.{◌≡◌, ◌+◌, ◌≤◌, length, true, vec_capacity};
    ghost use Rattle.alp_locks.specs.Tables.{Table, table_code, are_known};

    ghost Value = { Table };

    ghost coded = { table_code };

    ghost view = { λ t. record { held = t.holders; waiting = t.queue; woken = t.woken.items } };

    ghost invariant = { λ t. (are_known t.holders t.queue ≡ true) × (length t.queue + length t.woken.items ≤ vec_capacity t.woken) };
}

impl LockTable {
    /// A table in which no lock is held and nobody waits. It takes no memory before the first request.
    pub fn new(alloc: Global) -> LockTable
        ensures empty { result ≡ record { held = map.empty; waiting = []; woken = [] } }
        ensures sound { IsSound result }
    {
        LockTable {
            alloc,
            holders: Holders::new(alloc),
            queue: Queue::new(alloc),
            woken: Vec::new(alloc),
        }
    }

    /// The mode in which the transaction holds that resource, if it does.
    pub fn mode_of(&self, trans: TransId, at: &Resource) -> Option<Mode>
        ensures { result ≡ holding self.now.held trans at.now }
    {
        match self.holders.get(&trans) {
            Some(locks) => locks.get(at),
            None => None,
        }
    }

    /// All that the transaction holds, by the resources.
    pub fn list_of(&self, trans: TransId) -> Result<Vec<(Resource, Mode)>, OutOfMemory>
        ensures { IfOk result (λ v. v.items ≡ map.entries (held_of self.now.held trans)) }
    {
        match self.holders.get(&trans) {
            Some(locks) => locks.list(),
            None => Ok(Vec::new(self.alloc)),
        }
    }

    /// Whether no request of the transaction waits.
    pub fn is_granted(&self, trans: TransId) -> bool
        ensures { result ≡ not (waits self.now.waiting trans) }
    {
        !self.queue.has(&trans)
    }

    /// The needs on which the transaction's mode would rise: each resource once, files before leaves
    /// and in the order of keys, with the mode that a grant would leave.
    pub fn rising(&self, trans: TransId, needs: &Needs) -> Result<Needs, OutOfMemory>
        ensures { IfOk result (λ n. n ≡ risen (held_of self.now.held trans) needs.now) }
    {
        rises_of(self.alloc, &self.holders, &trans, needs.as_slice())
    }

    /// The table knows the transaction from now on, as the first grant to it by `take` wants. What
    /// each transaction holds stays as it is (`grants_are_of_all_or_none`).
    pub fn enter(&mut self, trans: TransId) -> Result<(), OutOfMemory>
        ensures after { OnOk result (self.new ≡ entered self.old trans) }
        ensures sound { IsSound self.old → IsSound self.new }
        ensures err { OnErr result (self.new ≡ self.old) }
    {
        self.holders.enter(self.alloc, trans)?;
        Ok(())
    }

    /// Makes the needs of a transaction ready to be granted: all of a grant that takes memory. It costs
    /// what is asked: what the transaction holds is looked up by resource, and neither copied nor walked.
    ///
    /// Modes that are asked on one resource are joined, and what would not rise is dropped. The
    /// plan stays good as long as what the transaction holds does not change.
    pub fn plan(&self, trans: TransId, needs: Needs) -> Result<Plan, OutOfMemory>
        ensures { IfOk result (λ p. p ≡ waiter_of (held_of self.now.held trans) trans needs) }
    {
        let waiter = waiter_for(self.alloc, &self.holders, trans, needs)?;
        Ok(Plan { waiter })
    }

    /// Who stands in the way of a plan: the least holder on the first resource where there is one.
    /// Takes no memory.
    ///
    /// Only what others hold stands in the way, and not what they wait for.
    pub fn in_way_of(&self, plan: &Plan) -> Option<TransId>
        ensures { result ≡ blocking self.now.held plan.now.trans plan.now.rises }
    {
        let waiter = &plan.waiter;
        blocker(&self.holders, &waiter.trans, waiter.rises.as_slice())
    }

    /// Grants a plan to a transaction that the table knows. Takes no memory.
    pub fn take(&mut self, plan: Plan)
        requires known { is_some (map.get self.old.held plan.trans) ≡ true }
        requires prepared { IsPrepared self.old.held plan }
        ensures after { self.new ≡ with_granted self.old plan.trans plan.rises plan.after }

        // Where nobody stands in the way, locks that agreed still do.
        ensures sound { IsSound self.old → blocking self.old.held plan.trans plan.rises ≡ None → waits self.old.waiting plan.trans ≡ false → IsSound self.new }
    {
        let Plan { waiter } = plan;
        if waiter.rises.as_slice().is_empty() {
            return;
        }
        self.holders.replace(waiter.trans, waiter.after);
    }

    /// The request of a plan waits from now on, behind those of its kind: also where nobody stands in its way, which is the
    /// caller's to see.
    /// Its grant will take no memory.
    pub fn wait(&mut self, plan: Plan) -> Result<(), OutOfMemory>
        requires prepared { IsPrepared self.old.held plan }
        requires idle { waits self.old.waiting plan.trans ≡ false }
        ensures after { OnOk result (self.new ≡ with_waiter self.old plan) }
        ensures sound { IsSound self.old → IsSound self.new }
        ensures err { OnErr result (self.new ≡ self.old) }
    {
        let Plan { waiter: request } = plan;
        self.let_in(request)
    }

    /// How many requests wait.
    pub fn waiters(&self) -> usize
        ensures count { result ≡ length self.now.waiting }
        ensures fits { result < 2 ^ 63 }
    {
        self.queue.waiters().len()
    }

    /// Asks for all the needs of a transaction that does not wait: a plan of them is taken where
    /// nobody stands in its way.
    ///
    /// Each resource is judged by itself: whoever asks for a leaf of a file asks for the intention
    /// on the file too, and then modes agree on each leaf (`agreeing_locks_agree_on_leaves` of
    /// alp_files).
    pub fn ask(&mut self, request: Request) -> Result<Grant, OutOfMemory>
        requires { waits self.old.waiting request.trans ≡ false }
        ensures answer { IfOk result (λ g. g ≡ grant_of self.old request) }
        ensures after { OnOk result (self.new ≡ asked self.old request) }

        // Locks that agreed still do, whatever the answer. After want of memory the table is as before.
        ensures sound { IsSound self.old → IsSound self.new }
        ensures err { OnErr result (self.new ≡ self.old) }
    {
        let Request {
            trans,
            needs,
            choice,
        } = request;
        let plan = self.plan(trans, needs)?;
        match self.in_way_of(&plan) {
            None => self.grant(plan),
            Some(holder) => self.refuse(plan.waiter, holder, choice),
        }
    }

    /// Gives all the locks of a list at once to a transaction that does not wait, as it held them before a restart; the table knows
    /// it from then on. Modes that the list names on one resource are joined. The answer is who stands in the way: then nobody gets
    /// anything.
    pub fn regain(&mut self, trans: TransId, locks: Needs) -> Result<Option<TransId>, OutOfMemory>
        requires { waits self.old.waiting trans ≡ false }
        ensures answer { IfOk result (λ holder. holder ≡ in_way self.old.held trans locks) }
        ensures after { IfOk result (λ holder. self.new ≡ with_regained self.old trans locks holder) }

        // Each holds on each resource what it held, and the transaction what the list comes to besides.
        ensures held { IfOk result (λ holder. (u : ATransId) → (r : AResource) → holding self.new.held u r ≡ if eq_by_cmp trans_cmp u trans && is_none holder then join_held (holding self.old.held u r) (held_by locks r) else holding self.old.held u r) }

        // Where the transaction is new, who stands in the way holds locks that do not agree with the list, and nobody else does.
        ensures agrees { is_some (map.get self.old.held trans) ≡ false → IfOk result (λ holder. AgreesUnless self.old.held trans locks holder) }

        // Locks that agreed still do, whatever the answer. After want of memory the table is as before.
        ensures sound { IsSound self.old → IsSound self.new }
        ensures err { OnErr result (self.new ≡ self.old) }
    {
        let plan = self.plan(trans, locks)?;
        if let Some(holder) = self.in_way_of(&plan) {
            return Ok(Some(holder));
        }
        self.enter(trans)?;
        self.take(plan);
        Ok(None)
    }

    // The transaction has what it asked for.
    fn grant(&mut self, plan: Plan) -> Result<Grant, OutOfMemory>
        requires { IsPrepared self.old.held plan }
        ensures answer { IfOk result (λ g. g ≡ Grant.Granted) }
        ensures after { OnOk result (self.new ≡ with_granted self.old plan.trans plan.rises plan.after) }
        ensures err { OnErr result (self.new ≡ self.old) }
    {
        if plan.waiter.rises.as_slice().is_empty() {
            return Ok(Grant::Granted);
        }
        self.enter(plan.waiter.trans)?;
        self.take(plan);
        Ok(Grant::Granted)
    }

    // Another is in the way.
    fn refuse(
        &mut self,
        waiter: Waiter,
        holder: TransId,
        choice: Choice,
    ) -> Result<Grant, OutOfMemory>
        ensures answer { IfOk result (λ g. g ≡ refusal choice holder) }
        ensures after { OnOk result (self.new ≡ refused self.old waiter choice) }
        ensures err { OnErr result (self.new ≡ self.old) }
    {
        match choice {
            Choice::Fail => Ok(Grant::Conflict { holder }),
            Choice::Wait => {
                self.let_in(waiter)?;
                Ok(Grant::Queued)
            }
        }
    }

    // The request waits, and all that its grant will need is there.
    fn let_in(&mut self, waiter: Waiter) -> Result<(), OutOfMemory>
        ensures after { OnOk result (self.new ≡ with_waiter self.old waiter) }
        ensures err { OnErr result (self.new ≡ self.old) }
    {
        let room = self.queue.waiters().len() + 1;
        self.woken.reserve(room)?;
        line_up(self.alloc, &mut self.holders, &mut self.queue, waiter)
    }

    /// Takes away the locks and the waiting request of that transaction, then tries each waiter in
    /// turn and grants those that are free at that moment. Takes no memory.
    pub fn release_all(&mut self, trans: TransId)
        ensures after { self.new ≡ released self.old trans }
        ensures sound { IsSound self.old → IsSound self.new }
        ensures few { length self.new.waiting + length self.new.woken ≤ length self.old.waiting + length self.old.woken }
    {
        self.holders.remove(&trans);
        self.queue.withdraw(&trans);
        walk(&mut self.holders, &mut self.queue, &mut self.woken);
    }

    /// The transaction that was granted first from the waiting list and not taken yet. Takes no memory.
    pub fn take_woken(&mut self) -> Option<TransId>
        ensures taken { result ≡ slice_get self.old.woken 0 }
        ensures left { self.new ≡ record self.old { woken = drop 1 self.old.woken } }
        ensures sound { IsSound self.old → IsSound self.new }
    {
        if self.woken.is_empty() {
            return None;
        }
        Some(self.woken.remove(0))
    }
}

// Makes a place for what the waiter will hold, and lets it into the queue.
fn line_up(
    alloc: Global,
    holders: &mut Holders,
    queue: &mut Queue,
    waiter: Waiter,
) -> Result<(), OutOfMemory>
    ensures held { OnOk result (holders.new ≡ map.insert holders.old waiter.trans (held_of holders.old waiter.trans)) }
    ensures waiting { OnOk result (queue.new ≡ placed queue.old waiter) }
    ensures err { OnErr result ((holders.new ≡ holders.old) × (queue.new ≡ queue.old)) }
{
    let trans = waiter.trans;
    if !holders.enter(alloc, trans)? {
        return queue.enter(waiter);
    }
    match queue.enter(waiter) {
        Ok(()) => Ok(()),
        Err(refused) => {
            holders.remove(&trans);
            Err(refused)
        }
    }
}
