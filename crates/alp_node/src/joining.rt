//! Clients join transactions.
ghost use Rattle.std.specs.Prelude.{◌≡◌, ◌<◌, ◌≤◌, ◌+◌, ◌-◌, ◌^◌, [], length, true, false, None, Ok, IfOk, OnOk, OnErr};
ghost use Rattle.alp_files.specs.declared.call.Call.TheVariants as call;
ghost use Rattle.alp_files.specs.declared.reply.Reply.TheVariants as reply;
ghost use Rattle.alp_coord.specs.Coordinators.{counted_of};
ghost use Rattle.alp_journal.specs.declared.event.Event.TheVariants as event;
ghost use Rattle.alp_journal.specs.Deeds as deed;
ghost use Rattle.alp_journal.specs.Moves.{next_join};
ghost use Rattle.alp_journal.specs.State.{State, state_deed};
ghost use Rattle.alp_worker.specs.Joins.{AreJoinsOf, next_of};
ghost use Rattle.alp_worker.specs.Lives.{part_of};
ghost use Rattle.alp_node.specs.Draws.{with_joining};
ghost use Rattle.alp_node.specs.Releases.{buried};
ghost use Rattle.alp_node.specs.Says.{is_away};
ghost use Rattle.alp_node.specs.ServerState.{IsReadyForMore};
ghost use Rattle.alp_node.specs.Standings.{standing_of, is_no_standing};
ghost use Rattle.alp_node.specs.Steps.{IsStep, IsTurn, counted_in, refused_answer};
ghost use Rattle.alp_node.specs.declared.served.Standing.TheVariants as standing;

use crate::answer::Answer;
use crate::served::Standing;
use crate::server_state::ServerState;
use crate::sessions::Turn;
use crate::waits::WaitingCall;
use alp_base::{JoinNo, OutOfMemory, TransId};
use alp_files::{Call, Refusal, Reply};
use alp_journal::{Act, Acts, Message};
use alp_vault::Vault;

impl<V: Vault> ServerState<V> {
    /// A client is to have a part of a transaction here. It has one from the begin on where the transaction began here; at another
    /// server of the run a part is made, and the call waits until the transaction's server lets it in. The client asks for no dead
    /// part any more, unless nothing is known of the transaction and nobody can be asked.
    pub fn join(&mut self, turn: &Turn, trans: TransId) -> Result<Answer, OutOfMemory>
        requires turn { IsTurn self.old.sessions turn.now }
        requires up { self.old.is_down ≡ false }
        requires ready { IsReadyForMore (V.serves self.old.vault) self.old }
        ensures { IsStep V.Vault self.old self.new (event.Call turn.now.client self.old.epoch turn.now.number (call.Join trans)) result }
    {
        match self.standing(turn.client, &trans) {
            Standing::Work => Ok(self.join_again(turn, trans)),
            Standing::Finishing => Ok(self.refuse_joining(turn, Refusal::Finishing)),
            Standing::Joining => Ok(self.refuse_joining(turn, Refusal::NotYet)),
            Standing::Unknown => self.join_new(turn, trans),
            Standing::Ended(_) => self.join_new(turn, trans),
        }
    }

    // The part is here: it stands, unless a call of it waits or is to be collected.
    fn join_again(&mut self, turn: &Turn, trans: TransId) -> Answer
        requires turn { IsTurn self.old.sessions turn.now }
        requires works { standing_of self.old turn.now.client trans ≡ standing.Work }
        requires up { self.old.is_down ≡ false }
        requires ready { IsReadyForMore (V.serves self.old.vault) self.old }
        ensures { IsStep V.Vault self.old self.new (event.Call turn.now.client self.old.epoch turn.now.number (call.Join trans)) (Ok result) }
    {
        if self.waits.has(turn.client, &trans) {
            return self.refuse_joining(turn, Refusal::NotYet);
        }
        self.bury(turn.client);
        self.sessions.count(turn, Reply::Joined);
        Answer::joined(Acts::new(Vec::new(self.alloc)))
    }

    // The client asks for no dead part any more.
    fn refuse_joining(&mut self, turn: &Turn, refusal: Refusal) -> Answer
        requires { turn.now.client ≤ 16 }
        ensures kept { self.new ≡ record (buried self.old turn.now.client) { sessions = counted_in self.old.sessions turn.now (reply.Refused refusal) } }
        ensures answer { result ≡ refused_answer refusal [] }
    {
        self.bury(turn.client);
        self.refuse(turn, refusal)
    }

    // A part is made where the transaction is another server's of the run.
    fn join_new(&mut self, turn: &Turn, trans: TransId) -> Result<Answer, OutOfMemory>
        requires turn { IsTurn self.old.sessions turn.now }
        requires none { is_no_standing (standing_of self.old turn.now.client trans) ≡ true }
        requires up { self.old.is_down ≡ false }
        requires ready { IsReadyForMore (V.serves self.old.vault) self.old }
        ensures { IsStep V.Vault self.old self.new (event.Call turn.now.client self.old.epoch turn.now.number (call.Join trans)) result }
    {
        if !self.is_other(trans.server) {
            return Ok(self.refuse(turn, Refusal::UnknownTrans));
        }
        if let Some(refusal) = self.too_many() {
            return Ok(self.refuse_joining(turn, refusal));
        }
        self.ask_in(turn, trans)
    }

    // The transaction's server is asked to let the part in.
    fn ask_in(&mut self, turn: &Turn, trans: TransId) -> Result<Answer, OutOfMemory>
        requires turn { IsTurn self.old.sessions turn.now }
        requires none { is_no_standing (standing_of self.old turn.now.client trans) ≡ true }
        requires far { is_away self.old trans.server ≡ true }
        requires few { counted_of self.old.coordinator + length self.old.joins.lives < 64 }
        requires up { self.old.is_down ≡ false }
        requires ready { IsReadyForMore (V.serves self.old.vault) self.old }
        ensures { IsStep V.Vault self.old self.new (event.Call turn.now.client self.old.epoch turn.now.number (call.Join trans)) result }
    {
        let mut acts = Vec::with_capacity(self.alloc, 1)?;
        let join = self.draw_join(turn, trans)?;
        let client = turn.client;
        acts.push_reserved(Act::Sent {
            to: trans.server,
            message: Message::Register {
                trans,
                join,
                client,
            },
        });
        self.sessions.count(turn, Reply::Refused(Refusal::NotYet));
        Ok(Answer::refused(Refusal::NotYet, Acts::new(acts)))
    }

    // The next join is drawn, and the call waits for it to be let in.
    fn draw_join(&mut self, turn: &Turn, trans: TransId) -> Result<JoinNo, OutOfMemory>
        requires room { self.old.joins.drawn < 2 ^ 32 - 1 }
        ensures number { IfOk result (λ j. j ≡ next_of self.old.joins) }
        ensures ok { OnOk result (self.new ≡ with_joining self.old turn.now trans) }
        ensures err { OnErr result (self.new ≡ self.old) }
        ensures deed { (s : State) → AreJoinsOf s self.old.joins → part_of turn.now.client trans self.old.joins.lives ≡ None → OnOk result (AreJoinsOf (state_deed s (deed.Joins (next_join s) trans turn.now.client turn.now.who)) self.new.joins) }
    {
        let join = self.joins.draw(trans, turn.client, turn.who)?;
        let waiting = WaitingCall {
            client: turn.client,
            number: turn.number,
            trans,
            call: Call::Join { trans },
            counts: None,
            is_granted: false,
        };
        if self.waits.push_and_bury(waiting, &self.dead).is_err() {
            self.joins.take_back();
            return Err(OutOfMemory);
        }
        self.dead.bury(turn.client);
        Ok(join)
    }
}
