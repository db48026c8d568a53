//! Transactions end.
ghost use Rattle.std.specs.Prelude.{◌≡◌, ◌≢◌, ℕ, ◌+◌, ◌<◌, ◌≤◌, [], ◌∷◌, ◌++◌, IsTrue, IfOk, Ok, Some, true, false, length, vec_capacity};
ghost use Rattle.std.specs.FinMap as map;
ghost use Rattle.alp_calls.specs.declared.fault.CallFault.TheVariants as call_fault;
ghost use Rattle.alp_files.specs.declared.call.Call.TheVariants as call;
ghost use Rattle.alp_journal.specs.declared.act.Act.TheVariants as act;
ghost use Rattle.alp_journal.specs.declared.event.Event.TheVariants as event;
ghost use Rattle.alp_journal.specs.Deeds.{Ends};
ghost use Rattle.alp_coord.specs.Coordinators.{IsAlong, Comes, fate_in};
ghost use Rattle.alp_journal.specs.Coordinator.{joins_of as joins_of_said};
ghost use Rattle.alp_node.specs.Served.{AreLivesSound};
ghost use Rattle.alp_node.specs.Votes.{own_why};
ghost use Rattle.alp_vault.specs.Contents.{Contents};
ghost use Rattle.alp_journal.specs.Account.{Account, state_of};
ghost use Rattle.alp_journal.specs.Messages.{why_not_own};
ghost use Rattle.alp_node.specs.declared.lives.Live.{Live as ALive};
ghost use Rattle.alp_node.specs.Standings.{standing_of};
ghost use Rattle.alp_node.specs.declared.served.Standing.TheVariants as standing;
ghost use Rattle.alp_node.specs.ServerState.{IsAs, IsReadyForMore, IsOfJournal};
ghost use Rattle.alp_files.specs.declared.reply.Reply.TheVariants as reply;
ghost use Rattle.std.specs.Result.{IsErr};
ghost use Rattle.alp_files.specs.declared.refusal.Refusal.TheVariants as refusal;
ghost use Rattle.alp_files.specs.declared.refusal.Cause.TheVariants as cause;
ghost use Rattle.alp_calls.specs.Parts.{IsPart};
ghost use Rattle.alp_node.specs.Releases.{grant_acts, granted_behind};
ghost use Rattle.alp_node.specs.Waits.{has_waiting};
ghost use Rattle.alp_node.specs.Steps.{IsStep, IsNoted, IsOn, IsTurn, IsRefused, IsDown, counted_in, ended, refused_answer};

use crate::answer::Answer;
use crate::decide::Decided;
use crate::messages::{tell_aborts, tell_asks};
use crate::server_state::ServerState;
use crate::sessions::Turn;
use crate::waits::WaitingCall;
use alp_base::{JoinNo, OutOfMemory, Stamp, TransId};
use alp_calls::CallFault;
use alp_files::{Call, Cause, Refusal, Reply, Why};
use alp_journal::{Act, Acts};
use alp_vault::Vault;

impl<V: Vault> ServerState<V> {
    // The part ends without effect, its client is told why, and nothing of it is to be told any more.
    fn end(&mut self, turn: &Turn, trans: TransId, cause: Cause, acts: &mut Vec<Act>)
        requires client { turn.now.client ≤ 16 }
        requires room { length acts.old.items + length self.old.locks.waiting ≤ vec_capacity acts.old }
        requires none { self.old.locks.woken ≡ [] }
        requires most { map.len self.old.lives ≤ 64 }
        requires part { (t : TransId) (l : ALive) → map.get self.old.lives t ≡ Some l → IsPart l.part }
        ensures kept { self.new ≡ record (ended self.old turn.now trans (reply.Refused (refusal.Aborted cause))) { coordinator = self.new.coordinator } }
        ensures along { IsAlong self.old.coordinator self.new.coordinator }
        ensures ends { (client : ℕ) → Comes (Ends trans client cause) self.old.coordinator self.new.coordinator }
        ensures acts { acts.new.items ≡ acts.old.items ++ grant_acts (granted_behind self.old trans) }
        ensures few { length acts.new.items ≤ length acts.old.items + length self.old.locks.waiting }
        ensures capacity { vec_capacity acts.new ≡ vec_capacity acts.old }
    {
        self.release(trans, acts);
        self.coordinator.end(&trans, cause);
        self.waits.remove_of(turn.client, &trans);
        self.dead.remove(turn.client, trans);
        self.sessions
            .count(turn, Reply::Refused(Refusal::Aborted { cause }));
    }

    // The parts of a transaction on other servers.
    pub(super) fn joins_of(&self, trans: &TransId) -> Result<Vec<JoinNo>, OutOfMemory>
        ensures { IfOk result (λ v. v.items ≡ joins_of_said (fate_in self.now.coordinator trans.now)) }
    {
        let members = self.coordinator.members(trans);
        let mut joins = Vec::with_capacity(self.alloc, members.len())?;
        for member in members {
            joins.push(member.join)?;
        }
        Ok(joins)
    }

    /// A running transaction of the client ends without effect, as its client asked.
    pub fn abort(&mut self, turn: &Turn, trans: TransId) -> Result<Answer, OutOfMemory>
        requires turn { IsTurn self.old.sessions turn.now }
        requires works { standing_of self.old turn.now.client trans ≡ standing.Work }
        requires here { trans.server ≡ self.old.server }
        requires up { self.old.is_down ≡ false }
        requires ready { IsReadyForMore (V.serves self.old.vault) self.old }
        ensures { IsStep V.Vault self.old self.new (event.Call turn.now.client self.old.epoch turn.now.number (call.Finish trans false)) result }
    {
        let joins = self.joins_of(&trans)?;
        let mut acts = self.released(trans, joins.len())?;
        self.end(turn, trans, Cause::Asked, &mut acts);
        tell_aborts(&mut acts, trans, joins.as_slice(), Cause::Asked);
        let refusal = Refusal::Aborted {
            cause: Cause::Asked,
        };
        Ok(Answer::refused(refusal, Acts::new(acts)))
    }

    /// A part of the client that ended for that cause is known of from now on.
    pub fn tell_dead(&mut self, turn: &Turn, trans: TransId, commit: bool, cause: Cause) -> Answer
        requires turn { IsTurn self.old.sessions turn.now }
        requires dead { standing_of self.old turn.now.client trans ≡ standing.Ended cause }
        requires here { trans.server ≡ self.old.server }
        requires up { self.old.is_down ≡ false }
        requires ready { IsReadyForMore (V.serves self.old.vault) self.old }
        ensures { IsStep V.Vault self.old self.new (event.Call turn.now.client self.old.epoch turn.now.number (call.Finish trans commit)) (Ok result) }
    {
        self.waits.remove_of(turn.client, &trans);
        self.dead.remove(turn.client, trans);
        self.refuse(turn, Refusal::Aborted { cause })
    }

    /// A running transaction of the client is to be committed. Where it has parts on other servers they are asked for their votes,
    /// and the call waits; else it is committed at once, or this server's own vote is against it.
    pub fn commit(&mut self, turn: &Turn, trans: TransId) -> Result<Answer, OutOfMemory>
        requires turn { IsTurn self.old.sessions turn.now }
        requires works { standing_of self.old turn.now.client trans ≡ standing.Work }
        requires idle { has_waiting turn.now.client trans self.old.waits ≡ false }
        requires here { trans.server ≡ self.old.server }
        requires up { self.old.is_down ≡ false }
        requires ready { IsReadyForMore (V.serves self.old.vault) self.old }
        requires noted { IsNoted V.Vault self.old }
        requires on { IsOn V.Vault self.old }
        requires known { IsTrue (V.tells self.old.vault) → IsOfJournal (V.held self.old.vault) self.old }
        requires sound { IsTrue (V.tells self.old.vault) → AreLivesSound (V.held self.old.vault) self.old }
        ensures { IsStep V.Vault self.old self.new (event.Call turn.now.client self.old.epoch turn.now.number (call.Finish trans true)) result }
    {
        let joins = self.joins_of(&trans)?;
        if !joins.is_empty() {
            return self.ask_for_votes(turn, trans, joins.as_slice());
        }
        match self.own_vote(&trans)? {
            Some(why) => self.vote_against_own(turn, trans, why),
            None => self.commit_alone(turn, trans),
        }
    }

    // A transaction without parts elsewhere is committed at the next time.
    fn commit_alone(&mut self, turn: &Turn, trans: TransId) -> Result<Answer, OutOfMemory>
        requires turn { IsTurn self.old.sessions turn.now }
        requires works { standing_of self.old turn.now.client trans ≡ standing.Work }
        requires alone { joins_of_said (fate_in self.old.coordinator trans) ≡ [] }
        requires may { own_why self.old trans ≡ None }
        requires journal { (a : Account) (held : Contents) → IsAs a held self.old → why_not_own false (state_of a) trans ≡ own_why self.old trans }
        requires idle { has_waiting turn.now.client trans self.old.waits ≡ false }
        requires here { trans.server ≡ self.old.server }
        requires up { self.old.is_down ≡ false }
        requires ready { IsReadyForMore (V.serves self.old.vault) self.old }
        requires noted { IsNoted V.Vault self.old }
        requires on { IsOn V.Vault self.old }
        requires known { IsTrue (V.tells self.old.vault) → IsOfJournal (V.held self.old.vault) self.old }
        requires sound { IsTrue (V.tells self.old.vault) → AreLivesSound (V.held self.old.vault) self.old }
        ensures { IsStep V.Vault self.old self.new (event.Call turn.now.client self.old.epoch turn.now.number (call.Finish trans true)) result }
    {
        let stamp = Stamp {
            ts: self.clock + 1,
            trans,
        };
        let pending = self.decision(stamp, &[])?;
        let acts = match self.decide(pending)? {
            Decided::Made(acts) => acts,
            Decided::Halted(acts) => return Ok(Answer::refused(Refusal::Down, Acts::new(acts))),
        };
        self.sessions.count(turn, Reply::Committed { stamp });
        Ok(Answer::committed(stamp, Acts::new(acts)))
    }

    // This server's own vote is against a transaction that has no parts elsewhere.
    fn vote_against_own(
        &mut self,
        turn: &Turn,
        trans: TransId,
        why: Why,
    ) -> Result<Answer, OutOfMemory>
        requires turn { IsTurn self.old.sessions turn.now }
        requires works { standing_of self.old turn.now.client trans ≡ standing.Work }
        requires alone { joins_of_said (fate_in self.old.coordinator trans) ≡ [] }
        requires against { own_why self.old trans ≡ Some why }
        requires journal { (a : Account) (held : Contents) → IsAs a held self.old → why_not_own false (state_of a) trans ≡ own_why self.old trans }
        requires idle { has_waiting turn.now.client trans self.old.waits ≡ false }
        requires here { trans.server ≡ self.old.server }
        requires up { self.old.is_down ≡ false }
        requires ready { IsReadyForMore (V.serves self.old.vault) self.old }
        ensures { IsStep V.Vault self.old self.new (event.Call turn.now.client self.old.epoch turn.now.number (call.Finish trans true)) result }
    {
        let mut acts = self.released(trans, 0)?;
        let cause = against(self.server, why);
        self.end(turn, trans, cause, &mut acts);
        Ok(Answer::refused(Refusal::Aborted { cause }, Acts::new(acts)))
    }

    // Each part of the transaction is asked for its vote, and the call waits for them.
    fn ask_for_votes(
        &mut self,
        turn: &Turn,
        trans: TransId,
        joins: &[JoinNo],
    ) -> Result<Answer, OutOfMemory>
        requires turn { IsTurn self.old.sessions turn.now }
        requires works { standing_of self.old turn.now.client trans ≡ standing.Work }
        requires joins { joins_of_said (fate_in self.old.coordinator trans) ≡ joins.now }
        requires some { joins.now ≢ [] }
        requires idle { has_waiting turn.now.client trans self.old.waits ≡ false }
        requires here { trans.server ≡ self.old.server }
        requires up { self.old.is_down ≡ false }
        requires ready { IsReadyForMore (V.serves self.old.vault) self.old }
        ensures { IsStep V.Vault self.old self.new (event.Call turn.now.client self.old.epoch turn.now.number (call.Finish trans true)) result }
    {
        let mut acts = Vec::with_capacity(self.alloc, joins.len())?;
        self.waits.push(WaitingCall {
            client: turn.client,
            number: turn.number,
            trans,
            call: Call::Finish {
                trans,
                commit: true,
            },
            counts: None,
            is_granted: false,
        })?;
        self.coordinator.finish(&trans);
        tell_asks(&mut acts, trans, joins);
        self.sessions.count(turn, Reply::Refused(Refusal::NotYet));
        Ok(Answer::refused(Refusal::NotYet, Acts::new(acts)))
    }

    /// The vault gave no answer in a file call: a read failed, and the server goes on, or the vault was stopped, and the server is
    /// down; or there was no memory.
    pub fn without_answer(
        &mut self,
        turn: &Turn,
        fault: CallFault,
        acts: Vec<Act>,
    ) -> Result<Answer, OutOfMemory>
        requires client { turn.now.client ≤ 16 }
        requires none { acts.items ≡ [] }
        requires room { 0 < vec_capacity acts }
        ensures failed { fault ≡ call_fault.Failed → IsRefused self.old self.new turn.now refusal.ReadFault result }
        ensures stopped { fault ≡ call_fault.Stopped → IsDown self.old self.new (act.Stopped ∷ []) result }
        ensures memory { fault ≡ call_fault.OutOfMemory → (self.new ≡ self.old) × IsErr result }
    {
        match fault {
            CallFault::Failed => Ok(self.refuse(turn, Refusal::ReadFault)),
            CallFault::Stopped => Ok(self.halt(Act::Stopped, acts)),
            CallFault::OutOfMemory => Err(OutOfMemory),
        }
    }

    /// The vault was stopped, or failed in a commit: the server is down, and the acts name what the commit would have written. The
    /// session does not count the call.
    pub(super) fn halt(&mut self, fault: Act, mut acts: Vec<Act>) -> Answer
        requires room { length acts.items < vec_capacity acts }
        ensures kept { self.new ≡ record self.old { is_down = true } }
        ensures answer { result ≡ refused_answer refusal.Down (acts.items ++ fault ∷ []) }
    {
        self.fall_in(fault, &mut acts);
        Answer::refused(Refusal::Down, Acts::new(acts))
    }

    /// The vault was stopped, or failed in a commit: the server is down.
    pub(super) fn fall_in(&mut self, fault: Act, acts: &mut Vec<Act>)
        requires room { length acts.old.items < vec_capacity acts.old }
        ensures kept { self.new ≡ record self.old { is_down = true } }
        ensures acts { acts.new.items ≡ acts.old.items ++ fault ∷ [] }
    {
        acts.push_reserved(fault);
        self.is_down = true;
    }

    /// A call is refused and not performed.
    pub fn refuse(&mut self, turn: &Turn, refusal: Refusal) -> Answer
        requires { turn.now.client ≤ 16 }
        ensures kept { self.new ≡ record self.old { sessions = counted_in self.old.sessions turn.now (reply.Refused refusal) } }
        ensures answer { result ≡ refused_answer refusal [] }
    {
        self.sessions.count(turn, Reply::Refused(refusal));
        Answer::refused(refusal, Acts::new(Vec::new(self.alloc)))
    }
}

// This server's own vote against a transaction.
fn against(server: u8, why: Why) -> Cause
    ensures { result ≡ cause.Voted server why }
{
    Cause::Voted { server, why }
}
