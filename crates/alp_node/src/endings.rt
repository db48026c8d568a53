//! How parts of other servers' transactions end, and how this server's own are forgotten.
ghost use Rattle.std.specs.Prelude.{◌≡◌, ◌≤◌, ◌^◌, ℕ, List, IsTrue, IfOk, Ok, None, Some, false};
ghost use Rattle.alp_journal.specs.declared.event.Event.TheVariants as event;
ghost use Rattle.alp_journal.specs.declared.message.Message.TheVariants as msg;
ghost use Rattle.alp_coord.specs.Coordinators.{fate_in, receipt_of};
ghost use Rattle.alp_coord.specs.declared.answers.Receipt.TheVariants as receipt;
ghost use Rattle.alp_node.specs.Arrivals.{join_of};
ghost use Rattle.alp_node.specs.ServerState.{IsReadyForMore, IsOfJournal};
ghost use Rattle.alp_node.specs.Served.{AreLivesSound};
ghost use Rattle.alp_node.specs.Steps.{IsStepAs, IsNoted, IsOn};
ghost use Rattle.alp_worker.specs.Lives.{join_at};
ghost use Rattle.alp_worker.specs.declared.live.Stage.TheVariants as stage;

use crate::answer::Answer;
use crate::dead::is_same;
use crate::noting::{applied_notes, decision_end_notes, ready_end_notes};
use crate::server_state::ServerState;
use alp_base::{JoinNo, OutOfMemory, Stamp, TransId};
use alp_coord::Receipt;
use alp_fields::ClockNote;
use alp_files::Cause;
use alp_journal::{Act, Acts, Message};
use alp_vault::Vault;
use alp_worker::Stage;

impl<V: Vault> ServerState<V> {
    /// The coordinator says that the transaction is committed.
    pub(super) fn committed(
        &mut self,
        trans: TransId,
        join: JoinNo,
        stamp: Stamp,
    ) -> Result<Answer, OutOfMemory>
        requires time { stamp.ts ≤ 2 ^ 62 }
        requires up { self.old.is_down ≡ false }
        requires ready { IsReadyForMore (V.serves self.old.vault) self.old }
        requires known { IsTrue (V.tells self.old.vault) → IsOfJournal (V.held self.old.vault) self.old }
        requires noted { IsNoted V.Vault self.old }
        requires on { IsOn V.Vault self.old }
        requires sound { IsTrue (V.tells self.old.vault) → AreLivesSound (V.held self.old.vault) self.old }
        ensures { (from : ℕ) → IsStepAs V.Vault None self.old self.new (event.Arrive from (msg.Commit trans join stamp)) result }
    {
        let Some(found) = self.joins.get(&join) else {
            return self.done_before(trans, join, stamp);
        };
        let live = *found;
        let Stage::Ready(_) = &live.stage else {
            return Ok(self.silence());
        };
        if !is_same(&live.trans, &trans) {
            return Ok(self.silence());
        }
        if !is_same(&stamp.trans, &trans) {
            return Ok(self.silence());
        }
        self.apply(trans, join, stamp)
    }

    // A join that was drawn here and is not live has applied it, or nothing.
    fn done_before(&self, trans: TransId, join: JoinNo, stamp: Stamp) -> Result<Answer, OutOfMemory>
        requires none { join_at self.now.joins.lives join ≡ None }
        requires up { self.now.is_down ≡ false }
        ensures { (from : ℕ) → IsStepAs V.Vault None self.now self.now (event.Arrive from (msg.Commit trans join stamp)) result }
    {
        let _ = stamp;
        if !self.joins.is_drawn(&join) {
            return Ok(self.silence());
        }
        self.word(trans.server, Message::Done { trans, join })
    }

    // A ready part is applied: its intents, the clock and the end of its note stand in one write. Then it lets go.
    fn apply(&mut self, trans: TransId, join: JoinNo, stamp: Stamp) -> Result<Answer, OutOfMemory>
        requires voted { (client : ℕ) × (ts : ℕ) × (join_at self.old.joins.lives join ≡ Some (record { join = join; trans = trans; client = client; stage = stage.Ready ts })) }
        requires of { stamp.trans ≡ trans }
        requires time { stamp.ts ≤ 2 ^ 62 }
        requires up { self.old.is_down ≡ false }
        requires ready { IsReadyForMore (V.serves self.old.vault) self.old }
        requires known { IsTrue (V.tells self.old.vault) → IsOfJournal (V.held self.old.vault) self.old }
        requires noted { IsNoted V.Vault self.old }
        requires on { IsOn V.Vault self.old }
        requires sound { IsTrue (V.tells self.old.vault) → AreLivesSound (V.held self.old.vault) self.old }
        ensures { (from : ℕ) → IsStepAs V.Vault None self.old self.new (event.Arrive from (msg.Commit trans join stamp)) result }
    {
        let clock = ClockNote {
            epoch: self.epoch,
            clock: self.clock.max(stamp.ts),
        };
        let notes = applied_notes(self.alloc, clock, join)?;
        let mut acts = Vec::with_capacity(self.alloc, self.locks.waiters() + 3)?;
        acts.push_reserved(Act::Applied { join, stamp });
        acts.push_reserved(Act::Released { trans });
        let mut halted = Vec::with_capacity(self.alloc, 2)?;
        halted.push_reserved(Act::Applied { join, stamp });
        match self.make(trans, notes.as_slice(), &mut acts) {
            Ok(()) => {}
            Err(fault) => return self.fallen(fault, halted),
        }
        self.clock = clock.clock;
        self.joins.apply(&join, &stamp);
        self.say(&mut acts, trans.server, Message::Done { trans, join });
        Ok(Answer::silence(Acts::new(acts)))
    }

    /// The coordinator says that the transaction ended without effect.
    pub(super) fn aborted(
        &mut self,
        trans: TransId,
        join: JoinNo,
        cause: Cause,
    ) -> Result<Answer, OutOfMemory>
        requires up { self.old.is_down ≡ false }
        requires ready { IsReadyForMore (V.serves self.old.vault) self.old }
        requires known { IsTrue (V.tells self.old.vault) → IsOfJournal (V.held self.old.vault) self.old }
        requires noted { IsNoted V.Vault self.old }
        requires on { IsOn V.Vault self.old }
        ensures { (from : ℕ) → IsStepAs V.Vault None self.old self.new (event.Arrive from (msg.Abort trans join cause)) result }
    {
        let Some(live) = self.join_at(&trans, &join) else {
            return Ok(self.silence());
        };
        match &live.stage {
            Stage::Joining(_) => self.abort_joining(trans, join, live.client, cause),
            Stage::Active(_) => self.abort_active(trans, join, live.client, cause),
            Stage::Ready(_) => self.abort_ready(trans, join, live.client, cause),
        }
    }

    // One that was not let in is over.
    fn abort_joining(
        &mut self,
        trans: TransId,
        join: JoinNo,
        client: u8,
        cause: Cause,
    ) -> Result<Answer, OutOfMemory>
        requires asks { (who : List ℕ) × (join_of trans (join_at self.old.joins.lives join) ≡ Some (record { join = join; trans = trans; client = client; stage = stage.Joining who })) }
        requires up { self.old.is_down ≡ false }
        requires ready { IsReadyForMore (V.serves self.old.vault) self.old }
        ensures { (from : ℕ) → IsStepAs V.Vault None self.old self.new (event.Arrive from (msg.Abort trans join cause)) result }
    {
        self.dead.add(client, trans, cause)?;
        self.joins.quit(&join);
        Ok(self.silence())
    }

    // A part that had not voted lets go of its locks, and is over.
    fn abort_active(
        &mut self,
        trans: TransId,
        join: JoinNo,
        client: u8,
        cause: Cause,
    ) -> Result<Answer, OutOfMemory>
        requires active { (who : List ℕ) × (join_of trans (join_at self.old.joins.lives join) ≡ Some (record { join = join; trans = trans; client = client; stage = stage.Active who })) }
        requires up { self.old.is_down ≡ false }
        requires ready { IsReadyForMore (V.serves self.old.vault) self.old }
        ensures { (from : ℕ) → IsStepAs V.Vault None self.old self.new (event.Arrive from (msg.Abort trans join cause)) result }
    {
        let mut acts = self.released(trans, 0)?;
        self.dead.add(client, trans, cause)?;
        self.release(trans, &mut acts);
        self.joins.abort(&join, &trans);
        Ok(Answer::silence(Acts::new(acts)))
    }

    // One that had voted lets go once the end of its note stands.
    fn abort_ready(
        &mut self,
        trans: TransId,
        join: JoinNo,
        client: u8,
        cause: Cause,
    ) -> Result<Answer, OutOfMemory>
        requires voted { (ts : ℕ) × (join_of trans (join_at self.old.joins.lives join) ≡ Some (record { join = join; trans = trans; client = client; stage = stage.Ready ts })) }
        requires up { self.old.is_down ≡ false }
        requires ready { IsReadyForMore (V.serves self.old.vault) self.old }
        requires known { IsTrue (V.tells self.old.vault) → IsOfJournal (V.held self.old.vault) self.old }
        requires noted { IsNoted V.Vault self.old }
        requires on { IsOn V.Vault self.old }
        ensures { (from : ℕ) → IsStepAs V.Vault None self.old self.new (event.Arrive from (msg.Abort trans join cause)) result }
    {
        let notes = ready_end_notes(self.alloc, join)?;
        let halted = Vec::with_capacity(self.alloc, 1)?;
        let mut acts = self.released(trans, 0)?;
        self.dead.add(client, trans, cause)?;
        match self.note(notes.as_slice()) {
            Ok(()) => {}
            Err(fault) => {
                self.dead.take_back();
                return self.fallen(fault, halted);
            }
        }
        self.release(trans, &mut acts);
        self.joins.abort(&join, &trans);
        Ok(Answer::silence(Acts::new(acts)))
    }

    // ---- this server's own decisions

    /// A part elsewhere has applied the commit. With the last one the decision is forgotten, once the end of its note stands.
    pub(super) fn done(&mut self, trans: TransId, join: JoinNo) -> Result<Answer, OutOfMemory>
        requires up { self.old.is_down ≡ false }
        requires ready { IsReadyForMore (V.serves self.old.vault) self.old }
        requires known { IsTrue (V.tells self.old.vault) → IsOfJournal (V.held self.old.vault) self.old }
        requires noted { IsNoted V.Vault self.old }
        requires on { IsOn V.Vault self.old }
        ensures { (from : ℕ) → IsStepAs V.Vault None self.old self.new (event.Arrive from (msg.Done trans join)) result }
    {
        match self.coordinator.receipt(&trans, &join) {
            Receipt::Dropped => Ok(self.silence()),
            Receipt::Kept => {
                self.coordinator.acknowledge(&trans, &join);
                Ok(self.silence())
            }
            Receipt::Last => self.forget(trans, join),
        }
    }

    // The last part has applied it.
    fn forget(&mut self, trans: TransId, join: JoinNo) -> Result<Answer, OutOfMemory>
        requires last { receipt_of join (fate_in self.old.coordinator trans) ≡ receipt.Last }
        requires up { self.old.is_down ≡ false }
        requires ready { IsReadyForMore (V.serves self.old.vault) self.old }
        requires known { IsTrue (V.tells self.old.vault) → IsOfJournal (V.held self.old.vault) self.old }
        requires noted { IsNoted V.Vault self.old }
        requires on { IsOn V.Vault self.old }
        ensures { (from : ℕ) → IsStepAs V.Vault None self.old self.new (event.Arrive from (msg.Done trans join)) result }
    {
        let notes = decision_end_notes(self.alloc, trans)?;
        let mut acts = Vec::with_capacity(self.alloc, 2)?;
        acts.push_reserved(Act::Forgot { trans });
        match self.note(notes.as_slice()) {
            Ok(()) => {}
            Err(fault) => return self.fallen(fault, acts),
        }
        self.coordinator.acknowledge(&trans, &join);
        self.coordinator.forget(&trans);
        Ok(Answer::silence(Acts::new(acts)))
    }
}
