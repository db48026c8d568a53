//! Messages of other servers about transactions that run on several: who takes part (the coordinator's half is `Coordinator`, the
//! worker's `Joins`), and what is said again. Two-phase commit with presumed abort is told by Mohan, Lindsay and Obermarck (1986).
ghost use Rattle.std.specs.Prelude.{◌≡◌, ◌+◌, ◌<◌, ◌≤◌, ◌++◌, [], ℕ, None, IfOk, IsTrue, false, length, vec_capacity};
ghost use Rattle.alp_journal.specs.declared.event.Event.TheVariants as event;
ghost use Rattle.alp_journal.specs.declared.message.Message.TheVariants as msg;
ghost use Rattle.alp_node.specs.Says.{said_to, said_each, is_away, register_acts};
ghost use Rattle.alp_node.specs.ServerState.{IsReadyForMore};
ghost use Rattle.alp_node.specs.Steps.{IsStepAs, told_answer};
ghost use Rattle.alp_worker.specs.Lives.{join_at};
ghost use Rattle.alp_node.specs.Arrivals.{join_of, unknown_acts};

use crate::answer::Answer;
use crate::dead::is_same;
use crate::lives::Live;
use crate::server_state::ServerState;
use alp_base::{JoinNo, OutOfMemory, Stamp, TransId};
use alp_coord::Registration;
use alp_files::{Cause, Why};
use alp_journal::{Act, Acts, Message};
use alp_trans::Part;
use alp_vault::Vault;
use alp_worker::{LiveJoin, Stage};

/// The parts of a transaction elsewhere are told that it ended without effect.
pub fn tell_aborts(acts: &mut Vec<Act>, trans: TransId, joins: &[JoinNo], cause: Cause)
    requires room { length acts.old.items + length joins.now ≤ vec_capacity acts.old }
    ensures said { acts.new.items ≡ acts.old.items ++ said_each (λ j. msg.Abort trans j cause) joins.now }
{
    for join in joins {
        acts.push_reserved(Act::Sent {
            to: join.server,
            message: Message::Abort {
                trans,
                join: *join,
                cause,
            },
        });
    }
}

/// They are asked for their votes.
pub fn tell_asks(acts: &mut Vec<Act>, trans: TransId, joins: &[JoinNo])
    requires room { length acts.old.items + length joins.now ≤ vec_capacity acts.old }
    ensures said { acts.new.items ≡ acts.old.items ++ said_each (msg.Ask trans) joins.now }
{
    for join in joins {
        acts.push_reserved(Act::Sent {
            to: join.server,
            message: Message::Ask { trans, join: *join },
        });
    }
}

/// They are told that it is committed.
pub fn tell_commits(acts: &mut Vec<Act>, stamp: Stamp, joins: &[JoinNo])
    requires room { length acts.old.items + length joins.now ≤ vec_capacity acts.old }
    ensures said { acts.new.items ≡ acts.old.items ++ said_each (λ j. msg.Commit stamp.trans j stamp) joins.now }
{
    for join in joins {
        acts.push_reserved(Act::Sent {
            to: join.server,
            message: Message::Commit {
                trans: stamp.trans,
                join: *join,
                stamp,
            },
        });
    }
}

impl<V: Vault> ServerState<V> {
    /// An answer to an event at which there is nothing to do.
    pub(super) fn silence(&self) -> Answer
        ensures { result ≡ told_answer None [] }
    {
        Answer::silence(Acts::new(Vec::new(self.alloc)))
    }

    // Another server of the run.
    pub(super) fn is_other(&self, server: u8) -> bool
        ensures { result ≡ is_away self.now server }
    {
        0 < server && server <= self.servers && server != self.server
    }

    /// A message goes to a server, where that is another one of the run.
    pub(super) fn say(&self, acts: &mut Vec<Act>, to: u8, message: Message)
        requires room { length acts.old.items < vec_capacity acts.old }
        ensures { acts.new.items ≡ acts.old.items ++ said_to self.now to message }
    {
        if self.is_other(to) {
            acts.push_reserved(Act::Sent { to, message });
        }
    }

    /// That message alone comes of an event.
    pub(super) fn word(&self, to: u8, message: Message) -> Result<Answer, OutOfMemory>
        ensures { IfOk result (λ x. x ≡ told_answer None (said_to self.now to message)) }
    {
        let mut acts = Vec::with_capacity(self.alloc, 1)?;
        self.say(&mut acts, to, message);
        Ok(Answer::silence(Acts::new(acts)))
    }

    // ---- who takes part

    /// A part of the client on another server asks to be let in.
    pub(super) fn register(
        &mut self,
        trans: TransId,
        join: JoinNo,
        client: u8,
    ) -> Result<Answer, OutOfMemory>
        requires up { self.old.is_down ≡ false }
        requires ready { IsReadyForMore (V.serves self.old.vault) self.old }
        ensures { (from : ℕ) → IsStepAs V.Vault None self.old self.new (event.Arrive from (msg.Register trans join client)) result }
    {
        let acts = Vec::with_capacity(self.alloc, 2)?;
        let answer = self
            .coordinator
            .register(&trans, join, client, self.servers)?;
        Ok(self.register_answer(answer, trans, join, acts))
    }

    // What is said of that.
    fn register_answer(
        &self,
        answer: Registration,
        trans: TransId,
        join: JoinNo,
        acts: Vec<Act>,
    ) -> Answer
        requires room { 2 ≤ vec_capacity acts }
        requires none { acts.items ≡ [] }
        ensures { result ≡ told_answer None (register_acts (is_away self.now join.server) trans join answer) }
    {
        let mut acts = acts;
        match answer {
            Registration::Silence => Answer::silence(Acts::new(acts)),
            Registration::Refused => {
                self.say(&mut acts, join.server, Message::JoinRefused { trans, join });
                Answer::silence(Acts::new(acts))
            }
            Registration::Known => {
                self.say(&mut acts, join.server, Message::Joined { trans, join });
                Answer::silence(Acts::new(acts))
            }
            Registration::Registered => {
                acts.push_reserved(Act::Registered { trans, join });
                self.say(&mut acts, join.server, Message::Joined { trans, join });
                Answer::silence(Acts::new(acts))
            }
        }
    }

    /// The live join of that number, if it is the transaction's.
    pub(super) fn join_at(&self, trans: &TransId, join: &JoinNo) -> Option<LiveJoin>
        ensures { result ≡ join_of trans.now (join_at self.now.joins.lives join.now) }
    {
        let found = *self.joins.get(join)?;
        if !is_same(&found.trans, trans) {
            return None;
        }
        Some(found)
    }

    /// A part here was let in, and is live from now on. Only of a word that no coordinator gives is another part of the transaction
    /// here, or a call of one.
    pub(super) fn joined(&mut self, trans: TransId, join: &JoinNo) -> Result<Answer, OutOfMemory>
        requires up { self.old.is_down ≡ false }
        requires ready { IsReadyForMore (V.serves self.old.vault) self.old }
        ensures { (from : ℕ) → IsStepAs V.Vault None self.old self.new (event.Arrive from (msg.Joined trans join.now)) result }
    {
        let Some(found) = self.join_at(&trans, join) else {
            return Ok(self.silence());
        };
        let Stage::Joining(who) = &found.stage else {
            return Ok(self.silence());
        };
        if self.lives.get(&trans).is_some() {
            return Ok(self.silence());
        }
        if self.waits.has_on(&trans) {
            return Ok(self.silence());
        }
        let live = Live {
            client: found.client,
            who: Some(*who),
            part: Part::new(self.alloc),
            locks: 0,
            join: Some(*join),
        };
        self.enter(trans, live)?;
        self.joins.enter(join);
        Ok(self.silence())
    }

    /// A part here was not let in. Nothing of it stays.
    pub(super) fn join_refused(&mut self, trans: TransId, join: &JoinNo) -> Answer
        requires up { self.old.is_down ≡ false }
        requires ready { IsReadyForMore (V.serves self.old.vault) self.old }
        ensures { (from : ℕ) → IsStepAs V.Vault None self.old self.new (event.Arrive from (msg.JoinRefused trans join.now)) (Ok result) }
    {
        let Some(live) = self.join_at(&trans, join) else {
            return self.silence();
        };
        let Stage::Joining(_) = &live.stage else {
            return self.silence();
        };
        self.joins.quit(join);
        self.waits.remove_of(live.client, &trans);
        self.silence()
    }

    // ---- how it ended

    /// A part elsewhere that voted asks.
    pub(super) fn inquire(&self, trans: TransId, join: JoinNo) -> Result<Answer, OutOfMemory>
        requires up { self.now.is_down ≡ false }
        requires ready { IsReadyForMore (V.serves self.now.vault) self.now }
        ensures { (from : ℕ) → IsStepAs V.Vault None self.now self.now (event.Arrive from (msg.Inquire trans join)) result }
    {
        match self.coordinator.inquire(&trans, &join) {
            Some(message) => self.word(join.server, message),
            None => Ok(self.silence()),
        }
    }

    /// A join that is not here votes against the commit, where it was drawn here.
    pub(super) fn unknown_join(&self, trans: TransId, join: JoinNo) -> Result<Answer, OutOfMemory>
        ensures { IfOk result (λ x. x ≡ told_answer None (unknown_acts self.now trans join)) }
    {
        if !self.joins.is_drawn(&join) {
            return Ok(self.silence());
        }
        let why = Why::UnknownJoin;
        self.word(trans.server, Message::No { trans, join, why })
    }
}
