//! Votes: of the parts here of other servers' transactions, and those that arrive for this server's own.
ghost use Rattle.std.specs.Prelude.{◌≡◌, ◌+◌, ◌≤◌, ◌^◌, ◌++◌, ◌∷◌, [], IfOk, OnOk, OnErr, ℕ, List, IsTrue, Ok, None, Some, false};
ghost use Rattle.alp_journal.specs.declared.event.Event.TheVariants as event;
ghost use Rattle.alp_journal.specs.declared.message.Message.TheVariants as msg;
ghost use Rattle.alp_coord.specs.Coordinators.{IsAlong, Comes, ballot_of, fate_in};
ghost use Rattle.alp_journal.specs.declared.act.Act.TheVariants as act;
ghost use Rattle.alp_journal.specs.Coordinator.{client_of};
ghost use Rattle.alp_journal.specs.Deeds.{Ends};
ghost use Rattle.alp_journal.specs.Ids.{has_join as has_join_said};
ghost use Rattle.alp_node.specs.Releases.{grant_acts, granted_behind, let_go};
ghost use Rattle.alp_node.specs.Says.{said_each};
ghost use Rattle.alp_coord.specs.declared.answers.Ballot.TheVariants as ballot;
ghost use Rattle.alp_node.specs.Arrivals.{join_of};
ghost use Rattle.alp_journal.specs.Account.{Account, state_of};
ghost use Rattle.alp_journal.specs.Messages.{why_not, why_not_own};
ghost use Rattle.alp_node.specs.ServerState.{IsAs, IsReadyForMore, IsOfJournal};
ghost use Rattle.alp_vault.specs.Contents.{Contents};
ghost use Rattle.alp_node.specs.Served.{AreLivesSound};
ghost use Rattle.alp_node.specs.Steps.{IsStepAs, IsNoted, IsOn, told_answer};
ghost use Rattle.alp_node.specs.Votes.{own_why, why_against};
ghost use Rattle.alp_worker.specs.Lives.{join_at};
ghost use Rattle.alp_worker.specs.declared.live.Stage.TheVariants as stage;

use crate::answer::Answer;
use crate::decide::Decided;
use crate::messages::{tell_aborts, tell_commits};
use crate::noting::ready_notes;
use crate::server_state::ServerState;
use alp_base::{JoinNo, OutOfMemory, Stamp, TransId};
use alp_coord::Ballot;
use alp_files::{Cause, Refusal, Why};
use alp_journal::{Act, Acts, Message};
use alp_vault::Vault;
use alp_worker::{LiveJoin, Stage};

impl<V: Vault> ServerState<V> {
    // ---- the vote of a part here

    /// The part is asked for its vote.
    pub(super) fn ask(&mut self, trans: TransId, join: JoinNo) -> Result<Answer, OutOfMemory>
        requires up { self.old.is_down ≡ false }
        requires ready { IsReadyForMore (V.serves self.old.vault) self.old }
        requires known { IsTrue (V.tells self.old.vault) → IsOfJournal (V.held self.old.vault) self.old }
        requires noted { IsNoted V.Vault self.old }
        requires on { IsOn V.Vault self.old }
        requires sound { IsTrue (V.tells self.old.vault) → AreLivesSound (V.held self.old.vault) self.old }
        ensures { (from : ℕ) → IsStepAs V.Vault None self.old self.new (event.Arrive from (msg.Ask trans join)) result }
    {
        let Some(live) = self.join_at(&trans, &join) else {
            return self.unknown_join(trans, join);
        };
        match &live.stage {
            Stage::Ready(ts) => {
                let ts = *ts;
                self.word(trans.server, Message::Ready { trans, join, ts })
            }
            Stage::Joining(_) => self.vote_early(trans, join, live.client),
            Stage::Active(_) => match self.why_not(live.client, &trans)? {
                Some(why) => self.vote_against(trans, join, live.client, why),
                None => self.vote_for(trans, join, live.client),
            },
        }
    }

    // A join that was not let in votes against the commit, and is over.
    fn vote_early(
        &mut self,
        trans: TransId,
        join: JoinNo,
        client: u8,
    ) -> Result<Answer, OutOfMemory>
        requires asks { (who : List ℕ) × (join_of trans (join_at self.old.joins.lives join) ≡ Some (record { join = join; trans = trans; client = client; stage = stage.Joining who })) }
        requires up { self.old.is_down ≡ false }
        requires ready { IsReadyForMore (V.serves self.old.vault) self.old }
        ensures { (from : ℕ) → IsStepAs V.Vault None self.old self.new (event.Arrive from (msg.Ask trans join)) result }
    {
        let why = Why::Waiting;
        let answer = self.word(trans.server, Message::No { trans, join, why })?;
        let server = self.server;
        self.dead.add(client, trans, Cause::Voted { server, why })?;
        self.joins.quit(&join);
        Ok(answer)
    }

    // An active part votes against it, and is over.
    fn vote_against(
        &mut self,
        trans: TransId,
        join: JoinNo,
        client: u8,
        why: Why,
    ) -> Result<Answer, OutOfMemory>
        requires active { (who : List ℕ) × (join_of trans (join_at self.old.joins.lives join) ≡ Some (record { join = join; trans = trans; client = client; stage = stage.Active who })) }
        requires against { why_against self.old client trans ≡ Some why }
        requires told { (a : Account) (held : Contents) → IsAs a held self.old → why_not false (state_of a) client trans ≡ Some why }
        requires up { self.old.is_down ≡ false }
        requires ready { IsReadyForMore (V.serves self.old.vault) self.old }
        ensures { (from : ℕ) → IsStepAs V.Vault None self.old self.new (event.Arrive from (msg.Ask trans join)) result }
    {
        let mut acts = self.released(trans, 1)?;
        let server = self.server;
        self.dead.add(client, trans, Cause::Voted { server, why })?;
        self.release(trans, &mut acts);
        self.joins.quit(&join);
        self.say(&mut acts, trans.server, Message::No { trans, join, why });
        Ok(Answer::silence(Acts::new(acts)))
    }

    // An active part votes for the commit, once its note stands. From then on it does what its coordinator says.
    fn vote_for(&mut self, trans: TransId, join: JoinNo, client: u8) -> Result<Answer, OutOfMemory>
        requires active { (who : List ℕ) × (join_of trans (join_at self.old.joins.lives join) ≡ Some (record { join = join; trans = trans; client = client; stage = stage.Active who })) }
        requires may { why_against self.old client trans ≡ None }
        requires told { (a : Account) (held : Contents) → IsAs a held self.old → why_not false (state_of a) client trans ≡ None }
        requires up { self.old.is_down ≡ false }
        requires ready { IsReadyForMore (V.serves self.old.vault) self.old }
        requires known { IsTrue (V.tells self.old.vault) → IsOfJournal (V.held self.old.vault) self.old }
        requires noted { IsNoted V.Vault self.old }
        requires on { IsOn V.Vault self.old }
        requires sound { IsTrue (V.tells self.old.vault) → AreLivesSound (V.held self.old.vault) self.old }
        ensures { (from : ℕ) → IsStepAs V.Vault None self.old self.new (event.Arrive from (msg.Ask trans join)) result }
    {
        let Some(live) = self.lives.get(&trans) else {
            unreachable!()
        };
        let locks = self.locks.list_of(trans)?;
        // The table has as many locks of it as it counts. Of a vault that tells what it holds this is proved, and the branch is never
        // taken; of any other no clause says so, and a part of which they differed would not be answered.
        if locks.len() != live.locks as usize {
            return Ok(self.silence());
        }
        let ts = self.clock + 1;
        let notes = ready_notes(self.alloc, join, trans, client, ts, &live.part, locks)?;
        let mut acts = Vec::with_capacity(self.alloc, 2)?;
        acts.push_reserved(Act::Readied { trans, join, ts });
        match self.note(notes.as_slice()) {
            Ok(()) => {}
            Err(fault) => return self.fallen(fault, acts),
        }
        self.joins.ready(&join, ts);
        self.say(&mut acts, trans.server, Message::Ready { trans, join, ts });
        Ok(Answer::silence(Acts::new(acts)))
    }

    // ---- votes for a transaction of this server

    /// A part elsewhere votes for the commit.
    pub(super) fn ready(
        &mut self,
        trans: TransId,
        join: JoinNo,
        ts: u64,
    ) -> Result<Answer, OutOfMemory>
        requires time { ts ≤ 2 ^ 62 }
        requires up { self.old.is_down ≡ false }
        requires ready { IsReadyForMore (V.serves self.old.vault) self.old }
        requires known { IsTrue (V.tells self.old.vault) → IsOfJournal (V.held self.old.vault) self.old }
        requires noted { IsNoted V.Vault self.old }
        requires on { IsOn V.Vault self.old }
        requires sound { IsTrue (V.tells self.old.vault) → AreLivesSound (V.held self.old.vault) self.old }
        ensures { (from : ℕ) → IsStepAs V.Vault None self.old self.new (event.Arrive from (msg.Ready trans join ts)) result }
    {
        // The time of the decision is above the clock and no vote is above it.
        let least = self.clock + 1;
        match self.coordinator.ballot(&trans, &join, ts, least) {
            Ballot::Dropped => Ok(self.silence()),
            Ballot::Kept => {
                self.coordinator.hear(&trans, &join, ts);
                Ok(self.silence())
            }
            Ballot::Last { latest } => self.last_vote(trans, join, ts, latest),
        }
    }

    // With the last vote this server votes too: its transaction is committed, or ends.
    fn last_vote(
        &mut self,
        trans: TransId,
        join: JoinNo,
        ts: u64,
        latest: u64,
    ) -> Result<Answer, OutOfMemory>
        requires last { ballot_of join ts (self.old.clock + 1) (fate_in self.old.coordinator trans) ≡ ballot.Last latest }
        requires time { ts ≤ 2 ^ 62 }
        requires up { self.old.is_down ≡ false }
        requires ready { IsReadyForMore (V.serves self.old.vault) self.old }
        requires known { IsTrue (V.tells self.old.vault) → IsOfJournal (V.held self.old.vault) self.old }
        requires noted { IsNoted V.Vault self.old }
        requires on { IsOn V.Vault self.old }
        requires sound { IsTrue (V.tells self.old.vault) → AreLivesSound (V.held self.old.vault) self.old }
        ensures { (from : ℕ) → IsStepAs V.Vault None self.old self.new (event.Arrive from (msg.Ready trans join ts)) result }
    {
        let Some(client) = self.coordinator.client(&trans) else {
            unreachable!()
        };
        let joins = self.joins_of(&trans)?;
        match self.own_vote(&trans)? {
            Some(why) => {
                let server = self.server;
                self.lapse(
                    trans,
                    client,
                    joins.as_slice(),
                    Cause::Voted { server, why },
                )
            }
            None => self.commit_all(trans, join, ts, latest),
        }
    }

    // It is committed at the time of the latest vote, and its parts elsewhere are told. The vote is heard behind the write: where
    // memory is wanting all is as before.
    fn commit_all(
        &mut self,
        trans: TransId,
        join: JoinNo,
        ts: u64,
        latest: u64,
    ) -> Result<Answer, OutOfMemory>
        requires last { ballot_of join ts (self.old.clock + 1) (fate_in self.old.coordinator trans) ≡ ballot.Last latest }
        requires may { own_why self.old trans ≡ None }
        requires journal { (a : Account) (held : Contents) → IsAs a held self.old → why_not_own false (state_of a) trans ≡ own_why self.old trans }
        requires time { ts ≤ 2 ^ 62 }
        requires up { self.old.is_down ≡ false }
        requires ready { IsReadyForMore (V.serves self.old.vault) self.old }
        requires known { IsTrue (V.tells self.old.vault) → IsOfJournal (V.held self.old.vault) self.old }
        requires noted { IsNoted V.Vault self.old }
        requires on { IsOn V.Vault self.old }
        requires sound { IsTrue (V.tells self.old.vault) → AreLivesSound (V.held self.old.vault) self.old }
        ensures { (from : ℕ) → IsStepAs V.Vault None self.old self.new (event.Arrive from (msg.Ready trans join ts)) result }
    {
        self.vault.knows();
        let joins = self.joins_of(&trans)?;
        let stamp = Stamp { ts: latest, trans };
        let pending = self.decision(stamp, joins.as_slice())?;
        let mut acts = match self.keep(pending)? {
            Decided::Made(acts) => acts,
            Decided::Halted(acts) => return Ok(Answer::refused(Refusal::Down, Acts::new(acts))),
        };
        self.coordinator.hear(&trans, &join, ts);
        self.coordinator.decide(&trans, latest);
        tell_commits(&mut acts, stamp, joins.as_slice());
        Ok(Answer::silence(Acts::new(acts)))
    }

    /// A part elsewhere votes against it.
    pub(super) fn no(
        &mut self,
        trans: TransId,
        join: JoinNo,
        why: Why,
    ) -> Result<Answer, OutOfMemory>
        requires up { self.old.is_down ≡ false }
        requires ready { IsReadyForMore (V.serves self.old.vault) self.old }
        ensures { (from : ℕ) → IsStepAs V.Vault None self.old self.new (event.Arrive from (msg.No trans join why)) result }
    {
        if !self.coordinator.is_finishing(&trans) {
            return Ok(self.silence());
        }
        let Some(client) = self.coordinator.client(&trans) else {
            return Ok(self.silence());
        };
        let joins = self.joins_of(&trans)?;
        if !has_join(&join, joins.as_slice()) {
            return Ok(self.silence());
        }
        let server = join.server;
        self.lapse(
            trans,
            client,
            joins.as_slice(),
            Cause::Voted { server, why },
        )
    }

    /// Time runs out for a transaction of this server.
    pub(super) fn time_out_own(&mut self, trans: TransId, client: u8) -> Result<Answer, OutOfMemory>
        requires runs { client_of (fate_in self.old.coordinator trans) ≡ Some client }
        requires up { self.old.is_down ≡ false }
        requires ready { IsReadyForMore (V.serves self.old.vault) self.old }
        ensures { IsStepAs V.Vault None self.old self.new (event.Timeout trans) result }
    {
        let joins = self.joins_of(&trans)?;
        self.lapse(trans, client, joins.as_slice(), Cause::TimedOut)
    }

    // A transaction that is not decided ends: its client is to be told, and its parts elsewhere are.
    pub(super) fn lapse(
        &mut self,
        trans: TransId,
        client: u8,
        joins: &[JoinNo],
        cause: Cause,
    ) -> Result<Answer, OutOfMemory>
        requires up { self.old.is_down ≡ false }
        requires ready { IsReadyForMore (V.serves self.old.vault) self.old }
        ensures kept { OnOk result (self.new ≡ record (let_go self.old trans) { dead = self.old.dead ++ (record { client = client; trans = trans; cause = cause }) ∷ []; coordinator = self.new.coordinator }) }
        ensures along { OnOk result (IsAlong self.old.coordinator self.new.coordinator) }
        ensures ends { OnOk result ((n : ℕ) → Comes (Ends trans n cause) self.old.coordinator self.new.coordinator) }
        ensures said { IfOk result (λ x. x ≡ told_answer None ((act.Released trans ∷ grant_acts (granted_behind self.old trans)) ++ said_each (λ j. msg.Abort trans j cause) joins.now)) }
        ensures wanting { OnErr result (self.new ≡ self.old) }
    {
        let mut acts = self.released(trans, joins.len())?;
        self.dead.add(client, trans, cause)?;
        self.release(trans, &mut acts);
        self.coordinator.end(&trans, cause);
        tell_aborts(&mut acts, trans, joins, cause);
        Ok(Answer::silence(Acts::new(acts)))
    }
}

// Whether the join is one of them.
fn has_join(join: &JoinNo, joins: &[JoinNo]) -> bool
    ensures { result ≡ has_join_said join.now joins.now }
{
    joins.iter().any(|other| *other == *join)
}
