//! Calls that waited are collected.
ghost use Rattle.std.specs.Prelude.{◌≡◌, ◌+◌, ◌<◌, ◌≤◌, ◌^◌, [], IsTrue, Ok, None, Some, true, false, is_some, IfSome};
ghost use Rattle.std.specs.FinMap as map;
ghost use Rattle.alp_files.specs.declared.call.Call.TheVariants as calls;
ghost use Rattle.alp_journal.specs.declared.event.Event.TheVariants as event;
ghost use Rattle.alp_locks.specs.Sound.{IsPrepared};
ghost use Rattle.alp_node.specs.Asks.{count_made, with_made};
ghost use Rattle.alp_node.specs.Outcomes.{stamp_in as stamp_in_said, stamp_of as stamp_of_said};
ghost use Rattle.alp_node.specs.ServerState.{IsReadyForMore, IsOfJournal};
ghost use Rattle.alp_node.specs.Served.{AreLivesSound};
ghost use Rattle.alp_files.specs.declared.reply.Reply.TheVariants as reply;
ghost use Rattle.alp_journal.specs.Desk.{part_trans};
ghost use Rattle.alp_node.specs.Standings.{standing_of};
ghost use Rattle.alp_node.specs.declared.served.Standing.TheVariants as standing;
ghost use Rattle.alp_node.specs.Steps.{IsStep, IsTurn, counted_in, told_answer};
ghost use Rattle.alp_node.specs.Waits.{call_at, finish_trans, join_trans, without_other_at, HasOtherAt};

use crate::answer::Answer;
use crate::lock_counts::LockCounts;
use crate::served::Standing;
use crate::server_state::ServerState;
use crate::sessions::Turn;
use crate::waits::copy_of;
use alp_base::{OutOfMemory, Stamp, TransId};
use alp_calls::CallFault;
use alp_files::{Call, Ended, Refusal, Reply};
use alp_journal::Acts;
use alp_locks::Plan;
use alp_queue::Needs;
use alp_vault::Vault;
use std::alloc::Global;

impl<V: Vault> ServerState<V> {
    /// The reply to the client's call with this number, if it waits: where it has its locks it is performed, and known no more.
    /// That of a part that ended is told why, and stays known as long as the part.
    pub fn collect(&mut self, turn: &Turn, number: u32) -> Result<Answer, OutOfMemory>
        requires turn { IsTurn self.old.sessions turn.now }
        requires up { self.old.is_down ≡ false }
        requires ready { IsReadyForMore (V.serves self.old.vault) self.old }
        requires known { IsTrue (V.tells self.old.vault) → IsOfJournal (V.held self.old.vault) self.old }
        requires sound { IsTrue (V.tells self.old.vault) → AreLivesSound (V.held self.old.vault) self.old }
        ensures { IsStep V.Vault self.old self.new (event.Call turn.now.client self.old.epoch turn.now.number (calls.Collect number)) result }
    {
        let Some(waiting) = self.waits.get(turn.client, number) else {
            return Ok(self.refuse(turn, Refusal::UnknownTrans));
        };
        let trans = waiting.trans;
        let Some(counts) = waiting.counts else {
            return Ok(self.collect_other(turn, number, trans));
        };
        match self.standing(turn.client, &trans) {
            Standing::Work => {}
            Standing::Ended(cause) => return Ok(self.refuse(turn, Refusal::Aborted { cause })),
            // A file call that waits is of a part that works, or has ended.
            Standing::Unknown => return Ok(self.refuse(turn, Refusal::UnknownTrans)),
            Standing::Joining => return Ok(self.refuse(turn, Refusal::UnknownTrans)),
            Standing::Finishing => return Ok(self.refuse(turn, Refusal::UnknownTrans)),
        }
        if !waiting.is_granted {
            return Ok(self.refuse(turn, Refusal::NotYet));
        }
        let call = copy_of(&waiting.call)?;
        self.collect_granted(turn, number, trans, &call, counts)
    }

    // A Finish or a Join.
    fn collect_other(&mut self, turn: &Turn, number: u32, trans: TransId) -> Answer
        requires turn { IsTurn self.old.sessions turn.now }
        requires waiting { HasOtherAt part_trans turn.now.client number trans self.old.waits }
        requires up { self.old.is_down ≡ false }
        requires ready { IsReadyForMore (V.serves self.old.vault) self.old }
        ensures { IsStep V.Vault self.old self.new (event.Call turn.now.client self.old.epoch turn.now.number (calls.Collect number)) (Ok result) }
    {
        let Some(waiting) = self.waits.get(turn.client, number) else {
            unreachable!()
        };
        match &waiting.call {
            Call::Finish { .. } => self.collect_finish(turn, number, trans),
            Call::Join { .. } => self.collect_join(turn, number, trans),
            _ => unreachable!(),
        }
    }

    // A Finish: it is answered once the transaction is decided, or has ended.
    fn collect_finish(&mut self, turn: &Turn, number: u32, trans: TransId) -> Answer
        requires turn { IsTurn self.old.sessions turn.now }
        requires waiting { HasOtherAt finish_trans turn.now.client number trans self.old.waits }
        requires up { self.old.is_down ≡ false }
        requires ready { IsReadyForMore (V.serves self.old.vault) self.old }
        ensures { IsStep V.Vault self.old self.new (event.Call turn.now.client self.old.epoch turn.now.number (calls.Collect number)) (Ok result) }
    {
        match self.stamp_of(&trans) {
            Some(stamp) => self.collect_committed(turn, number, stamp),
            None => self.collect_undecided(turn, number, trans),
        }
    }

    // It is not decided.
    fn collect_undecided(&mut self, turn: &Turn, number: u32, trans: TransId) -> Answer
        requires turn { IsTurn self.old.sessions turn.now }
        requires waiting { HasOtherAt finish_trans turn.now.client number trans self.old.waits }
        requires none { stamp_of_said self.old trans ≡ None }
        requires up { self.old.is_down ≡ false }
        requires ready { IsReadyForMore (V.serves self.old.vault) self.old }
        ensures { IsStep V.Vault self.old self.new (event.Call turn.now.client self.old.epoch turn.now.number (calls.Collect number)) (Ok result) }
    {
        match self.dead.cause(turn.client, &trans) {
            Some(cause) => self.refuse(turn, Refusal::Aborted { cause }),
            None => self.refuse(turn, Refusal::NotYet),
        }
    }

    // When the transaction was decided, if it was.
    fn stamp_of(&self, trans: &TransId) -> Option<Stamp>
        ensures { result ≡ stamp_of_said self.now trans.now }
    {
        let Some(ended) = self.coordinator.outcome(trans) else {
            return None;
        };
        stamp_in(ended)
    }

    // A Join: it is answered once the part was let in, or has ended.
    fn collect_join(&mut self, turn: &Turn, number: u32, trans: TransId) -> Answer
        requires turn { IsTurn self.old.sessions turn.now }
        requires waiting { HasOtherAt join_trans turn.now.client number trans self.old.waits }
        requires up { self.old.is_down ≡ false }
        requires ready { IsReadyForMore (V.serves self.old.vault) self.old }
        ensures { IsStep V.Vault self.old self.new (event.Call turn.now.client self.old.epoch turn.now.number (calls.Collect number)) (Ok result) }
    {
        match self.standing(turn.client, &trans) {
            Standing::Work => self.collect_joined(turn, number),
            Standing::Ended(cause) => self.refuse(turn, Refusal::Aborted { cause }),
            Standing::Unknown => self.refuse(turn, Refusal::NotYet),
            Standing::Joining => self.refuse(turn, Refusal::NotYet),
            Standing::Finishing => self.refuse(turn, Refusal::NotYet),
        }
    }

    // It is decided, and the Finish waits no more.
    fn collect_committed(&mut self, turn: &Turn, number: u32, stamp: Stamp) -> Answer
        requires { turn.now.client ≤ 16 }
        ensures kept { self.new ≡ record self.old { waits = without_other_at turn.now.client number self.old.waits; sessions = counted_in self.old.sessions turn.now (reply.Committed stamp) } }
        ensures answer { result ≡ told_answer (Some (reply.Committed stamp)) [] }
    {
        self.waits.remove_other(turn.client, number);
        self.sessions.count(turn, Reply::Committed { stamp });
        Answer::committed(stamp, no_acts(self.alloc))
    }

    // The part was let in, and the Join waits no more.
    fn collect_joined(&mut self, turn: &Turn, number: u32) -> Answer
        requires { turn.now.client ≤ 16 }
        ensures kept { self.new ≡ record self.old { waits = without_other_at turn.now.client number self.old.waits; sessions = counted_in self.old.sessions turn.now reply.Joined } }
        ensures answer { result ≡ told_answer (Some reply.Joined) [] }
    {
        self.waits.remove_other(turn.client, number);
        self.sessions.count(turn, Reply::Joined);
        Answer::joined(no_acts(self.alloc))
    }

    // The call is performed under the locks that its part has, and waits no more.
    fn collect_granted(
        &mut self,
        turn: &Turn,
        number: u32,
        trans: TransId,
        call: &Call,
        counts: LockCounts,
    ) -> Result<Answer, OutOfMemory>
        requires turn { IsTurn self.old.sessions turn.now }
        requires works { standing_of self.old turn.now.client trans ≡ standing.Work }
        requires waiting { call_at turn.now.client number self.old.waits ≡ Some (record { client = turn.now.client; number = number; trans = trans; call = call.now; counts = Some counts; is_granted = true }) }
        requires up { self.old.is_down ≡ false }
        requires ready { IsReadyForMore (V.serves self.old.vault) self.old }
        requires known { IsTrue (V.tells self.old.vault) → IsOfJournal (V.held self.old.vault) self.old }
        requires sound { IsTrue (V.tells self.old.vault) → AreLivesSound (V.held self.old.vault) self.old }
        ensures { IsStep V.Vault self.old self.new (event.Call turn.now.client self.old.epoch turn.now.number (calls.Collect number)) result }
    {
        let halted = Vec::with_capacity(self.alloc, 1)?;
        let needs = no_needs(self.alloc);
        let made = self.plan_made(trans, call, &needs)?;
        match self.perform(trans, call, counts, no_acts(self.alloc)) {
            Ok(given) => {
                self.waits.remove_of(turn.client, &trans);
                self.keep_made(given.is_made(), made);
                self.sessions.count(turn, given.reply);
                Ok(given.answer)
            }
            Err(CallFault::Failed) => {
                self.waits.remove_of(turn.client, &trans);
                Ok(self.refuse(turn, Refusal::ReadFault))
            }
            Err(CallFault::Stopped) => self.without_answer(turn, CallFault::Stopped, halted),
            Err(CallFault::OutOfMemory) => Err(OutOfMemory),
        }
    }

    // The part keeps the lock of a file that it made.
    fn keep_made(&mut self, has_made: bool, made: Option<Plan>)
        requires room { self.old.given + 1 < 2 ^ 32 }
        requires entered { IfSome made (λ w. is_some (map.get self.old.locks.held w.trans) ≡ true) }
        requires prepared { IfSome made (λ w. IsPrepared self.old.locks.held w) }
        ensures kept { self.new ≡ record self.old { given = count_made self.old.given has_made; locks = with_made has_made self.old.locks made } }
    {
        if !has_made {
            return;
        }
        self.given += 1;
        if let Some(made) = made {
            self.locks.take(made);
        }
    }
}

fn stamp_in(ended: Ended) -> Option<Stamp>
    ensures { result ≡ stamp_in_said ended }
{
    match ended {
        Ended::Committed { stamp } => Some(stamp),
        Ended::Aborted => None,
        Ended::Running => None,
        Ended::Unknown => None,
    }
}

// What a call asks for that has its locks: nothing.
fn no_needs(alloc: Global) -> Needs
    ensures { result ≡ [] }
{
    Needs::new(Vec::new(alloc))
}

// What is granted to it then: nothing.
fn no_acts(alloc: Global) -> Acts
    ensures { result ≡ [] }
{
    Acts::new(Vec::new(alloc))
}
