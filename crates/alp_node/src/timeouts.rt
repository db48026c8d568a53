//! Transactions time out: those of this server, and the parts here of other servers' that did not vote.
ghost use Rattle.std.specs.Prelude.{◌≡◌, None, true, false, flat_map, map as list_map};
ghost use Rattle.std.specs.List.Sorted.{IsPermutation};
ghost use Rattle.alp_journal.specs.declared.event.Event.TheVariants as event;
ghost use Rattle.alp_journal.specs.Coordinator.{client_of};
ghost use Rattle.alp_journal.specs.Moves.{times_out_join};
ghost use Rattle.alp_journal.specs.State.{State};
ghost use Rattle.alp_coord.specs.Coordinators.{fate_in};
ghost use Rattle.alp_worker.specs.Joins.{AreJoinsOf};
ghost use Rattle.alp_worker.specs.Walks.{open_of, timed_out};
ghost use Rattle.alp_node.specs.ServerState.{IsReadyForMore};
ghost use Rattle.alp_node.specs.Steps.{IsStepAs};
ghost use Rattle.alp_node.specs.Timeouts.{is_active as is_active_said, has_active as has_active_said, quitted_all};

use crate::answer::Answer;
use crate::server_state::ServerState;
use alp_base::{OutOfMemory, TransId};
use alp_files::Cause;
use alp_journal::Acts;
use alp_vault::Vault;
use alp_worker::{Joins, LiveJoin, Stage};

impl<V: Vault> ServerState<V> {
    /// A transaction times out: where it runs here, or has parts here that did not vote, it ends without effect, and its clients are
    /// to be told.
    pub(super) fn time_out(&mut self, trans: TransId) -> Result<Answer, OutOfMemory>
        requires up { self.old.is_down ≡ false }
        requires ready { IsReadyForMore (V.serves self.old.vault) self.old }
        ensures { IsStepAs V.Vault None self.old self.new (event.Timeout trans) result }
    {
        if let Some(client) = self.coordinator.client(&trans) {
            return self.time_out_own(trans, client);
        }
        let late = self.joins.open_of(self.alloc, &trans)?;
        if has_active(late.as_slice()) {
            return self.time_out_active(trans, late.as_slice());
        }
        self.time_out_asking(trans, late.as_slice())
    }

    // None of its joins here was let in. Those that ask to be are over.
    fn time_out_asking(&mut self, trans: TransId, late: &[LiveJoin]) -> Result<Answer, OutOfMemory>
        requires foreign { client_of (fate_in self.old.coordinator trans) ≡ None }
        requires late { late.now ≡ open_of trans self.old.joins.lives }
        requires told { (s : State) → AreJoinsOf s self.old.joins → IsPermutation (flat_map (times_out_join s trans) s.joined) (list_map timed_out late.now) }
        requires asking { has_active_said late.now ≡ false }
        requires up { self.old.is_down ≡ false }
        requires ready { IsReadyForMore (V.serves self.old.vault) self.old }
        ensures { IsStepAs V.Vault None self.old self.new (event.Timeout trans) result }
    {
        self.dead.add_all(trans, late, Cause::TimedOut)?;
        quit_all(&mut self.joins, late);
        Ok(self.silence())
    }

    // One was let in: its part lets go of its locks. All that did not vote are over.
    fn time_out_active(&mut self, trans: TransId, late: &[LiveJoin]) -> Result<Answer, OutOfMemory>
        requires late { late.now ≡ open_of trans self.old.joins.lives }
        requires told { (s : State) → AreJoinsOf s self.old.joins → IsPermutation (flat_map (times_out_join s trans) s.joined) (list_map timed_out late.now) }
        requires active { has_active_said late.now ≡ true }
        requires up { self.old.is_down ≡ false }
        requires ready { IsReadyForMore (V.serves self.old.vault) self.old }
        ensures { IsStepAs V.Vault None self.old self.new (event.Timeout trans) result }
    {
        let mut acts = self.released(trans, 0)?;
        self.dead.add_all(trans, late, Cause::TimedOut)?;
        self.release(trans, &mut acts);
        quit_all(&mut self.joins, late);
        Ok(Answer::silence(Acts::new(acts)))
    }
}

// These joins are over.
fn quit_all(joins: &mut Joins, late: &[LiveJoin])
    ensures { joins.new ≡ quitted_all joins.old late.now }
{
    for live in late {
        joins.quit(&live.join);
    }
}

// Whether one of them was let in.
fn has_active(late: &[LiveJoin]) -> bool
    ensures { result ≡ has_active_said late.now }
{
    late.iter().any(|live| is_active(&live.stage))
}

fn is_active(stage: &Stage) -> bool
    ensures { result ≡ is_active_said stage.now }
{
    match stage {
        Stage::Joining(_) => false,
        Stage::Active(_) => true,
        Stage::Ready(_) => false,
    }
}
