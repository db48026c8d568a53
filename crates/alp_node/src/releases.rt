//! Locks go, and calls that waited for them get theirs.
ghost use Rattle.std.specs.Prelude.{◌≡◌, ◌+◌, ◌≤◌, ◌<◌, ◌^◌, ◌++◌, ◌∷◌, [], IfOk, OnOk, Some, length, vec_capacity};
ghost use Rattle.std.specs.FinMap as map;
ghost use Rattle.alp_calls.specs.Parts.{IsPart};
ghost use Rattle.alp_journal.specs.declared.act.Act.TheVariants as act;
ghost use Rattle.alp_node.specs.Releases.{granted_one, woken_taken, let_go, grant_acts, granted_behind};
ghost use Rattle.alp_node.specs.Totals.{totals_of, AreFewTotals};
ghost use Rattle.alp_node.specs.declared.lives.Live.{Live as ALive};

use crate::server_state::ServerState;
use alp_base::{OutOfMemory, TransId};
use alp_journal::Act;
use alp_vault::Vault;

impl<V: Vault> ServerState<V> {
    /// The act by which a part is gone, with room for those of all grants that may come of it, and for so many more.
    pub fn released(&self, trans: TransId, more: usize) -> Result<Vec<Act>, OutOfMemory>
        requires { more ≤ 2 ^ 62 }
        ensures acts { IfOk result (λ v. v.items ≡ act.Released trans ∷ []) }
        ensures room { IfOk result (λ v. 1 + length self.now.locks.waiting + more ≤ vec_capacity v) }
    {
        let mut acts = Vec::with_capacity(self.alloc, self.locks.waiters() + 1 + more)?;
        acts.push_reserved(Act::Released { trans });
        Ok(acts)
    }

    /// The transaction is live no more, and its locks go. Then each request that waits is tried in turn, and a call whose way is
    /// free has its locks: an act stands for each. Takes no memory.
    pub fn release(&mut self, trans: TransId, acts: &mut Vec<Act>)
        requires room { length acts.old.items + length self.old.locks.waiting ≤ vec_capacity acts.old }
        requires none { self.old.locks.woken ≡ [] }
        requires most { map.len self.old.lives ≤ 64 }
        requires part { (t : TransId) (l : ALive) → map.get self.old.lives t ≡ Some l → IsPart l.part }
        ensures after { self.new ≡ let_go self.old trans }
        ensures acts { acts.new.items ≡ acts.old.items ++ grant_acts (granted_behind self.old trans) }
        ensures few { length acts.new.items ≤ length acts.old.items + length self.old.locks.waiting }
        ensures capacity { vec_capacity acts.new ≡ vec_capacity acts.old }
    {
        self.lives.remove(&trans);
        self.locks.release_all(trans);
        self.give(acts);
    }

    // Those who were woken have their locks, in turn.
    fn give(&mut self, acts: &mut Vec<Act>)
        requires room { length acts.old.items + length self.old.locks.woken ≤ vec_capacity acts.old }
        requires most { map.len self.old.lives ≤ 64 }
        requires part { (t : TransId) (l : ALive) → map.get self.old.lives t ≡ Some l → IsPart l.part }
        ensures after { self.new ≡ woken_taken self.old }
        ensures acts { acts.new.items ≡ acts.old.items ++ grant_acts self.old.locks.woken }
        ensures capacity { vec_capacity acts.new ≡ vec_capacity acts.old }
    {
        while let Some(woken) = self.locks.take_woken() {
            self.grant(woken);
            acts.push_reserved(Act::Granted { trans: woken });
        }
    }

    // The waiting call of the live transaction has its locks, and they count.
    fn grant(&mut self, trans: TransId)
        requires few { AreFewTotals (totals_of self.old.lives) }
        requires part { (l : ALive) → map.get self.old.lives trans ≡ Some l → IsPart l.part }
        ensures { self.new ≡ granted_one self.old trans }
    {
        let Some(locks) = self.waits.locks_of(&trans) else {
            return;
        };
        self.waits.grant(&trans);
        let Some(found) = self.lives.get(&trans) else {
            return;
        };
        let blank = found.blank(self.alloc);
        let mut live = self.lives.swap(trans, blank);
        live.locks = locks;
        let _ = self.lives.swap(trans, live);
    }
}
