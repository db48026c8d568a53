//! Transactions are decided: the changes of the part here, the clock, and where parts on other servers are to be told a note of the
//! decision stand in one write.
ghost use Rattle.std.specs.Prelude.{◌≡◌, ◌≢◌, ◌+◌, ◌<◌, ◌≤◌, ◌^◌, ◌++◌, IsTrue, IfOk, OnOk, OnErr, None, Some, true, false, length, nat_le, vec_capacity};
ghost use Rattle.std.specs.FinMap as map;
ghost use Rattle.alp_vault.specs.Volumes.{AreNoteChanges};
ghost use Rattle.alp_journal.specs.declared.act.Act.TheVariants as act;
ghost use Rattle.alp_vault.specs.Contents.{Contents};
ghost use Rattle.alp_journal.specs.Account.{Account, state_of};
ghost use Rattle.alp_journal.specs.Coordinator.{finishing, has_votes, votes_in};
ghost use Rattle.alp_journal.specs.Laws.{latest_vote};
ghost use Rattle.alp_coord.specs.Coordinators.{fate_in};
ghost use Rattle.alp_journal.specs.Messages.{clock_end, why_not as why_not_said, why_not_own};
ghost use Rattle.alp_node.specs.Noted.{ready_room, size_in};
ghost use Rattle.alp_node.specs.Releases.{grant_acts, granted_behind};
ghost use Rattle.alp_node.specs.Served.{AreLivesSound};
ghost use Rattle.alp_node.specs.ServerState.{IsAs, IsReadyForMore, IsOfJournal};
ghost use Rattle.alp_node.specs.Steps.{IsOn};
ghost use Rattle.alp_node.specs.Votes.{own_why, why_against};
ghost use Rattle.alp_node.specs.Writes.{FitDecision, IsPending, HasLogFor, HasMade, HasNone, KeepsPlaces, WasDecided, WasKept, Writes, decision_changes};
ghost use Rattle.alp_node.specs.declared.lives.Live.{Live as ALive};

use crate::server_state::ServerState;
use crate::stored::{StoreFault, store};
use alp_base::{JoinNo, NoteChange, OutOfMemory, Stamp, TransId};
use alp_fields::{ClockNote, Decision, JoinList, clock_change, decision_change};
use alp_files::Why;
use alp_journal::{Act, Parts};
use alp_vault::Vault;
use alp_worker::{PartSize, ReadySum, first_why, votes_look_at_the_sum, walks_are_alike};
use std::alloc::Global;

/// The last time of a clock.
const CLOCK_END: u64 = 1 << 62;

/// A decision that is to be made: its stamp, and all that making it takes of memory.
pub struct Pending {
    stamp: Stamp,
    notes: Vec<NoteChange>,
    acts: Vec<Act>,
    halted: Vec<Act>,
}

/// What came of it: the acts of a decision that was made, or of a server that is down.
pub enum Decided {
    Made(Vec<Act>),
    Halted(Vec<Act>),
}

// That a transaction is committed, with these parts elsewhere.
fn decision_act(alloc: Global, stamp: Stamp, joins: &[JoinNo]) -> Result<Act, OutOfMemory>
    ensures { IfOk result (λ a. a ≡ act.Decided stamp joins.now) }
{
    let parts = Parts::new(Vec::from_slice(alloc, joins)?);
    Ok(Act::Decided { stamp, parts })
}

// The notes that change with it: the clock, and a note of it where it has parts elsewhere.
fn decision_notes(
    alloc: Global,
    epoch: u32,
    stamp: Stamp,
    joins: &[JoinNo],
) -> Result<Vec<NoteChange>, OutOfMemory>
    requires time { stamp.ts ≤ 2 ^ 62 }
    requires few { length joins.now ≤ 7 }
    ensures notes { IfOk result (λ v. v.items ≡ decision_changes epoch stamp joins.now) }
    ensures fits { OnOk result (FitDecision stamp joins.now) }
{
    let clock = ClockNote {
        epoch,
        clock: stamp.ts,
    };
    let mut notes = Vec::with_capacity(alloc, 2)?;
    notes.push_reserved(clock_change(alloc, clock)?);
    if joins.is_empty() {
        return Ok(notes);
    }
    let kept = Decision {
        ts: stamp.ts,
        joins: JoinList::new(Vec::from_slice(alloc, joins)?),
    };
    notes.push_reserved(decision_change(alloc, stamp.trans, &kept)?);
    Ok(notes)
}

impl<V: Vault> ServerState<V> {
    /// What is in the way of the commit of a transaction that began here, at this server.
    pub(super) fn own_vote(&self, trans: &TransId) -> Result<Option<Why>, OutOfMemory>
        requires live { map.get self.now.lives trans.now ≢ None }
        requires ready { IsReadyForMore (V.serves self.now.vault) self.now }
        ensures same { IfOk result (λ w. w ≡ own_why self.now trans.now) }
        ensures journal { (a : Account) (held : Contents) → IsAs a held self.now → why_not_own false (state_of a) trans.now ≡ own_why self.now trans.now }
    {
        walks_are_alike();
        votes_look_at_the_sum();
        let sum = self.ready_sum()?;
        let full = sum.own_room(self.sizes.area, &self.size_of(trans));
        Ok(first_why(false, false, self.is_clock_end(), full))
    }

    /// What is in the way of the vote of the client's part of another server's transaction.
    pub(super) fn why_not(&self, client: u8, trans: &TransId) -> Result<Option<Why>, OutOfMemory>
        requires live { map.get self.now.lives trans.now ≢ None }
        requires ready { IsReadyForMore (V.serves self.now.vault) self.now }
        ensures same { IfOk result (λ w. w ≡ why_against self.now client trans.now) }
        ensures journal { (a : Account) (held : Contents) → IsAs a held self.now → why_not_said false (state_of a) client trans.now ≡ why_against self.now client trans.now }
    {
        walks_are_alike();
        votes_look_at_the_sum();
        let sum = self.ready_sum()?;
        let full = sum.room_for(self.sizes.area, &self.size_of(trans));
        let waits = self.waits.has(client, trans);
        Ok(first_why(false, waits, self.is_clock_end(), full))
    }

    fn is_clock_end(&self) -> bool
        ensures { result ≡ nat_le clock_end self.now.clock }
    {
        self.clock >= CLOCK_END
    }

    // What the ready parts come to in the log.
    fn ready_sum(&self) -> Result<ReadySum, OutOfMemory>
        requires { IsReadyForMore (V.serves self.now.vault) self.now }
        ensures same { IfOk result (λ s. s ≡ ready_room self.now.lives self.now.joins.lives) }
        ensures few { IfOk result (λ s. (s.weights ≤ 2 ^ 52) × (s.greatest ≤ 2 ^ 52)) }
    {
        let ready = self.joins.ready_transactions(self.alloc)?;
        let mut sizes = Vec::with_capacity(self.alloc, ready.len())?;
        for trans in ready.as_slice() {
            sizes.push(self.size_of(trans))?;
        }
        Ok(ReadySum::of(sizes.as_slice()))
    }

    // The cells that the live part changes, and how many resources it has locked.
    fn size_of(&self, trans: &TransId) -> PartSize
        ensures { result ≡ size_in self.now.lives trans.now }
    {
        match self.lives.get(trans) {
            Some(live) => PartSize {
                cells: live.part.counts.cells,
                locks: live.locks,
            },
            None => PartSize { cells: 0, locks: 0 },
        }
    }

    /// What a decision takes of memory.
    pub(super) fn decision(&self, stamp: Stamp, joins: &[JoinNo]) -> Result<Pending, OutOfMemory>
        requires time { stamp.ts ≤ 2 ^ 62 }
        requires few { length joins.now ≤ 7 }
        ensures { IfOk result (λ p. IsPending self.now stamp joins.now p) }
    {
        let notes = decision_notes(self.alloc, self.epoch, stamp, joins)?;
        let mut acts = Vec::with_capacity(self.alloc, self.locks.waiters() + 2 + joins.len())?;
        acts.push_reserved(decision_act(self.alloc, stamp, joins)?);
        acts.push_reserved(Act::Released { trans: stamp.trans });
        let mut halted = Vec::with_capacity(self.alloc, 2)?;
        halted.push_reserved(decision_act(self.alloc, stamp, joins)?);
        Ok(Pending {
            stamp,
            notes,
            acts,
            halted,
        })
    }

    /// One commit of the vault makes the intents of the transaction's part cells. Behind it the part lets go, and the transaction is
    /// decided: each of its parts elsewhere has voted, and no vote is later than the stamp.
    pub(super) fn decide(&mut self, pending: Pending) -> Result<Decided, OutOfMemory>
        requires live { map.get self.old.lives pending.stamp.trans ≢ None }
        requires voted { has_votes (finishing (fate_in self.old.coordinator pending.stamp.trans)) ≡ true }
        requires late { latest_vote 0 (votes_in (finishing (fate_in self.old.coordinator pending.stamp.trans))) ≤ pending.stamp.ts }
        requires up { self.old.is_down ≡ false }
        requires ready { IsReadyForMore (V.serves self.old.vault) self.old }
        requires on { IsOn V.Vault self.old }
        requires changes { AreNoteChanges self.old.server self.old.servers (V.held self.old.vault).notes pending.notes.items }
        requires log { (l : ALive) → map.get self.old.lives pending.stamp.trans ≡ Some l → HasLogFor (V.held self.old.vault).notes self.old.sizes l pending.notes.items }
        requires known { IsTrue (V.tells self.old.vault) → IsOfJournal (V.held self.old.vault) self.old }
        requires sound { IsTrue (V.tells self.old.vault) → AreLivesSound (V.held self.old.vault) self.old }
        requires room { length pending.acts.items + length self.old.locks.waiting ≤ vec_capacity pending.acts }
        requires place { length pending.halted.items < vec_capacity pending.halted }
        ensures made { IfOk result (λ d. WasDecided V.Vault self.old self.new pending d) }
        ensures capacity { IfOk result (λ d. KeepsPlaces pending d) }
        ensures none { OnErr result (HasNone V.Vault self.old self.new pending) }
    {
        let stamp = pending.stamp;
        let kept = self.keep(pending)?;
        match kept {
            Decided::Made(acts) => {
                self.coordinator.finish(&stamp.trans);
                self.coordinator.decide(&stamp.trans, stamp.ts);
                Ok(Decided::Made(acts))
            }
            Decided::Halted(acts) => Ok(Decided::Halted(acts)),
        }
    }

    /// The one commit of a decision: the intents of the part become cells, and its notes change. Behind it the part lets go, and the
    /// clock is not before the stamp. What the coordinator knows of the transaction is as before.
    pub(super) fn keep(&mut self, pending: Pending) -> Result<Decided, OutOfMemory>
        requires live { map.get self.old.lives pending.stamp.trans ≢ None }
        requires up { self.old.is_down ≡ false }
        requires ready { IsReadyForMore (V.serves self.old.vault) self.old }
        requires on { IsOn V.Vault self.old }
        requires changes { AreNoteChanges self.old.server self.old.servers (V.held self.old.vault).notes pending.notes.items }
        requires log { (l : ALive) → map.get self.old.lives pending.stamp.trans ≡ Some l → HasLogFor (V.held self.old.vault).notes self.old.sizes l pending.notes.items }
        requires known { IsTrue (V.tells self.old.vault) → IsOfJournal (V.held self.old.vault) self.old }
        requires sound { IsTrue (V.tells self.old.vault) → AreLivesSound (V.held self.old.vault) self.old }
        requires room { length pending.acts.items + length self.old.locks.waiting ≤ vec_capacity pending.acts }
        requires place { length pending.halted.items < vec_capacity pending.halted }
        ensures made { IfOk result (λ d. WasKept V.Vault self.old self.new pending d) }
        ensures capacity { IfOk result (λ d. KeepsPlaces pending d) }
        ensures none { OnErr result (HasNone V.Vault self.old self.new pending) }
    {
        let Pending {
            stamp,
            notes,
            mut acts,
            mut halted,
        } = pending;
        match self.make(stamp.trans, notes.as_slice(), &mut acts) {
            Ok(()) => {}
            Err(StoreFault::Failed) => {
                self.fall_in(Act::Failed, &mut halted);
                return Ok(Decided::Halted(halted));
            }
            Err(StoreFault::Stopped) => {
                self.fall_in(Act::Stopped, &mut halted);
                return Ok(Decided::Halted(halted));
            }
            Err(StoreFault::OutOfMemory) => return Err(OutOfMemory),
        }
        self.clock = self.clock.max(stamp.ts);
        Ok(Decided::Made(acts))
    }

    /// The intents of a live part become cells, and these notes change, in one write. Then the part lets go of its locks.
    pub(super) fn make(
        &mut self,
        trans: TransId,
        notes: &[NoteChange],
        acts: &mut Vec<Act>,
    ) -> Result<(), StoreFault>
        requires live { map.get self.old.lives trans ≢ None }
        requires up { self.old.is_down ≡ false }
        requires ready { IsReadyForMore (V.serves self.old.vault) self.old }
        requires on { IsOn V.Vault self.old }
        requires changes { AreNoteChanges self.old.server self.old.servers (V.held self.old.vault).notes notes.now }
        requires log { (l : ALive) → map.get self.old.lives trans ≡ Some l → HasLogFor (V.held self.old.vault).notes self.old.sizes l notes.now }
        requires known { IsTrue (V.tells self.old.vault) → IsOfJournal (V.held self.old.vault) self.old }
        requires sound { IsTrue (V.tells self.old.vault) → AreLivesSound (V.held self.old.vault) self.old }
        requires room { length acts.old.items + length self.old.locks.waiting ≤ vec_capacity acts.old }
        ensures made { OnOk result (HasMade (V.tells self.old.vault) (V.held self.old.vault).cells self.old self.new trans) }
        ensures writes { (l : ALive) → map.get self.old.lives trans ≡ Some l → Writes V.Vault self.old.vault self.new.vault l.part notes.now result }
        ensures acts { OnOk result (acts.new.items ≡ acts.old.items ++ grant_acts (granted_behind self.old trans)) }
        ensures capacity { vec_capacity acts.new ≡ vec_capacity acts.old }
        ensures none { OnErr result (self.new ≡ record self.old { vault = self.new.vault }) }
    {
        let others = self.lives.ids(self.alloc)?;
        let blocks = self.blocks_of(trans)?;
        let Some(live) = self.lives.get(&trans) else {
            unreachable!()
        };
        self.vault.knows();
        store(self.alloc, &mut self.vault, &live.part, notes)?;
        self.release(trans, acts);
        self.ease_all(others.as_slice(), blocks.as_slice());
        Ok(())
    }
}
