//! Walks over the live joins.
ghost use Rattle.std.specs.Prelude.{◌≡◌, IfOk, None, flat_map, map as list_map};
ghost use Rattle.std.specs.List.Sorted.{IsPermutation};
ghost use Rattle.alp_journal.specs.Messages.{all_ready};
ghost use Rattle.alp_journal.specs.Moves.{times_out_join};
ghost use Rattle.alp_journal.specs.State.{State};
ghost use Rattle.alp_worker.specs.Joins.{AreJoinsOf};
ghost use Rattle.alp_worker.specs.Walks.{open_of as open_said, timed_out, ready_in, lesser_of, least_from, has_open, IsLeastOf, IsLeastOpen};

use crate::joins::Joins;
use crate::live::{LiveJoin, is_same_trans};
use alp_base::{OutOfMemory, TransId};
use std::alloc::Global;

impl Joins {
    /// The joins of the transaction that have not voted: those that end as time runs out for it.
    pub fn open_of(&self, alloc: Global, trans: &TransId) -> Result<Vec<LiveJoin>, OutOfMemory>
        ensures same { IfOk result (λ v. v.items ≡ open_said trans.now self.now.lives) }
        ensures journal { (s : State) → AreJoinsOf s self.now → IfOk result (λ v. IsPermutation (flat_map (times_out_join s trans.now) s.joined) (list_map timed_out v.items)) }
    {
        let open = open_in(alloc, trans, self.lives.as_slice())?;
        Ok(open)
    }

    /// The least transaction with a join that has not voted, if there is one.
    pub fn least_open(&self) -> Option<TransId>
        ensures same { IsLeastOf (has_open self.now.lives) result }
        ensures journal { (s : State) → AreJoinsOf s self.now → IsLeastOpen s result }
    {
        least_in(self.lives.as_slice())
    }

    /// The transactions of the joins that voted.
    pub fn ready_transactions(&self, alloc: Global) -> Result<Vec<TransId>, OutOfMemory>
        ensures same { IfOk result (λ v. v.items ≡ ready_in self.now.lives) }
        ensures journal { (s : State) → AreJoinsOf s self.now → IfOk result (λ v. IsPermutation (all_ready s) v.items) }
    {
        let ready = ready_of(alloc, self.lives.as_slice())?;
        Ok(ready)
    }
}

fn open_in(alloc: Global, trans: &TransId, lives: &[LiveJoin]) -> Result<Vec<LiveJoin>, OutOfMemory>
    ensures { IfOk result (λ v. v.items ≡ open_said trans.now lives.now) }
{
    let mut open = Vec::new(alloc);
    for live in lives {
        if live.stage.is_open() && is_same_trans(&live.trans, trans) {
            open.push(*live)?;
        }
    }
    Ok(open)
}

fn least_in(lives: &[LiveJoin]) -> Option<TransId>
    ensures { result ≡ least_from None lives.now }
{
    let mut least: Option<TransId> = None;
    for live in lives {
        if live.stage.is_open() {
            least = Some(lesser(least, live.trans));
        }
    }
    least
}

// The lesser of two, or the one that there is.
fn lesser(one: Option<TransId>, other: TransId) -> TransId
    ensures { result ≡ lesser_of one other }
{
    let Some(before) = one else {
        return other;
    };
    if other.cmp(&before).is_lt() {
        return other;
    }
    before
}

fn ready_of(alloc: Global, lives: &[LiveJoin]) -> Result<Vec<TransId>, OutOfMemory>
    ensures { IfOk result (λ v. v.items ≡ ready_in lives.now) }
{
    let mut ready = Vec::new(alloc);
    for live in lives {
        if !live.stage.is_open() {
            ready.push(live.trans)?;
        }
    }
    Ok(ready)
}
