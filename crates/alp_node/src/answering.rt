//! The answer to an event, whatever it is.
ghost use Rattle.std.specs.Prelude.{◌≡◌, ◌≢◌, ◌≤◌, IsTrue, IfOk, IfSome, None, Ok, Some, false, []};
ghost use Rattle.alp_files.specs.declared.call.Call.TheVariants as call;
ghost use Rattle.alp_journal.specs.declared.event.Event.TheVariants as event;
ghost use Rattle.alp_journal.specs.Desk.{file_trans};
ghost use Rattle.alp_files.specs.declared.refusal.Refusal.TheVariants as refusal;
ghost use Rattle.alp_node.specs.Calls.{IsServedCall};
ghost use Rattle.alp_node.specs.Orders.{order_of, order_in};
ghost use Rattle.alp_node.specs.ServerState.{IsReadyForMore, IsOfJournal};
ghost use Rattle.alp_node.specs.Served.{IsServed, IsAskable, IsTurnCall, AreLivesSound};
ghost use Rattle.alp_node.specs.Sessions.{session_at};
ghost use Rattle.alp_node.specs.Standings.{standing_of};
ghost use Rattle.alp_node.specs.declared.served.Standing.TheVariants as standing;
ghost use Rattle.alp_node.specs.Steps.{IsStep, IsStepAs, IsNoted, IsOn, IsTurn, told_answer, refused_answer};
ghost use Rattle.alp_node.specs.declared.sessions.CallOrder.TheVariants as order;

use crate::answer::Answer;
use crate::served::Standing;
use crate::server_state::ServerState;
use crate::sessions::{CallOrder, Turn};
use alp_base::{OutOfMemory, TransId};
use alp_files::{Call, Refusal};
use alp_journal::{Acts, Event};
use alp_vault::Vault;

impl<V: Vault> ServerState<V> {
    // A live transaction of the client ends as it asks.
    fn finish_own(
        &mut self,
        turn: &Turn,
        trans: TransId,
        commit: bool,
    ) -> Result<Answer, OutOfMemory>
        requires turn { IsTurn self.old.sessions turn.now }
        requires works { standing_of self.old turn.now.client trans ≡ standing.Work }
        requires here { trans.server ≡ self.old.server }
        requires up { self.old.is_down ≡ false }
        requires ready { IsReadyForMore (V.serves self.old.vault) self.old }
        requires noted { IsNoted V.Vault self.old }
        requires on { IsOn V.Vault self.old }
        requires known { IsTrue (V.tells self.old.vault) → IsOfJournal (V.held self.old.vault) self.old }
        requires sound { IsTrue (V.tells self.old.vault) → AreLivesSound (V.held self.old.vault) self.old }
        ensures { IsStep V.Vault self.old self.new (event.Call turn.now.client self.old.epoch turn.now.number (call.Finish trans commit)) result }
    {
        if !commit {
            return self.abort(turn, trans);
        }
        if self.waits.has(turn.client, &trans) {
            return Ok(self.refuse(turn, Refusal::NotYet));
        }
        self.commit(turn, trans)
    }

    // A transaction ends as its client asks, where the client has a part of it here.
    fn finish(&mut self, turn: &Turn, trans: TransId, commit: bool) -> Result<Answer, OutOfMemory>
        requires turn { IsTurn self.old.sessions turn.now }
        requires up { self.old.is_down ≡ false }
        requires ready { IsReadyForMore (V.serves self.old.vault) self.old }
        requires noted { IsNoted V.Vault self.old }
        requires on { IsOn V.Vault self.old }
        requires known { IsTrue (V.tells self.old.vault) → IsOfJournal (V.held self.old.vault) self.old }
        requires sound { IsTrue (V.tells self.old.vault) → AreLivesSound (V.held self.old.vault) self.old }
        ensures { IsStep V.Vault self.old self.new (event.Call turn.now.client self.old.epoch turn.now.number (call.Finish trans commit)) result }
    {
        if trans.server != self.server {
            return Ok(self.refuse(turn, Refusal::UnknownTrans));
        }
        match self.standing(turn.client, &trans) {
            Standing::Work => self.finish_own(turn, trans, commit),
            Standing::Ended(cause) => Ok(self.tell_dead(turn, trans, commit, cause)),
            Standing::Finishing => Ok(self.refuse(turn, Refusal::Finishing)),
            Standing::Unknown => Ok(self.refuse(turn, Refusal::UnknownTrans)),
            Standing::Joining => unreachable!(),
        }
    }

    // A call in its turn, other than a greeting.
    fn call_in_turn(&mut self, turn: &Turn, call: &Call) -> Result<Answer, OutOfMemory>
        requires turn { IsTurn self.old.sessions turn.now }
        requires asked { IsTurnCall call.now }
        requires up { self.old.is_down ≡ false }
        requires ready { IsReadyForMore (V.serves self.old.vault) self.old }
        requires known { IsTrue (V.tells self.old.vault) → IsOfJournal (V.held self.old.vault) self.old }
        requires noted { IsNoted V.Vault self.old }
        requires on { IsOn V.Vault self.old }
        requires sound { IsTrue (V.tells self.old.vault) → AreLivesSound (V.held self.old.vault) self.old }
        ensures { IsStep V.Vault self.old self.new (event.Call turn.now.client self.old.epoch turn.now.number call.now) result }
    {
        if let Call::Begin { seen } = call {
            return self.begin(turn, *seen);
        }
        if let Call::Finish { trans, commit } = call {
            return self.finish(turn, *trans, *commit);
        }
        if let Call::Collect { number } = call {
            return self.collect(turn, *number);
        }
        if let Call::Outcome { trans } = call {
            return Ok(self.outcome(turn, *trans));
        }
        if let Call::Join { trans } = call {
            return self.join(turn, *trans);
        }
        let Some(trans) = trans_of(call) else {
            unreachable!()
        };
        self.file_call(turn, trans, call)
    }

    // The next call of the client's session.
    fn next_call(&mut self, client: u8, number: u32, call: &Call) -> Result<Answer, OutOfMemory>
        requires client { client ≤ 16 }
        requires some { 1 ≤ client }
        requires asked { IsAskable call.now }
        requires next { order_of self.old.epoch self.old.epoch number call.now (session_at self.old.sessions client) ≡ order.Next }
        requires up { self.old.is_down ≡ false }
        requires ready { IsReadyForMore (V.serves self.old.vault) self.old }
        requires known { IsTrue (V.tells self.old.vault) → IsOfJournal (V.held self.old.vault) self.old }
        requires noted { IsNoted V.Vault self.old }
        requires on { IsOn V.Vault self.old }
        requires sound { IsTrue (V.tells self.old.vault) → AreLivesSound (V.held self.old.vault) self.old }
        ensures { IsStep V.Vault self.old self.new (event.Call client self.old.epoch number call.now) result }
    {
        let Some(session) = self.sessions.get(client) else {
            unreachable!()
        };
        let turn = Turn {
            client,
            number,
            who: session.who,
        };
        self.call_in_turn(&turn, call)
    }

    // The reply that the client's session keeps, again.
    fn repeat(&self, client: u8) -> Result<Answer, OutOfMemory>
        requires { session_at self.now.sessions client ≢ None }
        ensures { IfOk result (λ a. IfSome (session_at self.now.sessions client) (λ w. a ≡ told_answer (Some w.reply) [])) }
    {
        let Some(session) = self.sessions.get(client) else {
            unreachable!()
        };
        Answer::new(&session.reply, Acts::new(Vec::new(self.alloc)))
    }

    // No session of the client stands in the epoch of its call. It learns that of the server.
    fn stale(&self) -> Answer
        ensures { result ≡ refused_answer (refusal.StaleSession self.now.epoch) [] }
    {
        let refusal = Refusal::StaleSession { epoch: self.epoch };
        Answer::refused(refusal, Acts::new(Vec::new(self.alloc)))
    }

    // A call of a client, by what it is among those of its session. Only the first and the next one bring anything about.
    fn call(
        &mut self,
        client: u8,
        epoch: u32,
        number: u32,
        call: &Call,
    ) -> Result<Answer, OutOfMemory>
        requires client { client ≤ 16 }
        requires some { 1 ≤ client }
        requires asked { IsAskable call.now }
        requires up { self.old.is_down ≡ false }
        requires ready { IsReadyForMore (V.serves self.old.vault) self.old }
        requires known { IsTrue (V.tells self.old.vault) → IsOfJournal (V.held self.old.vault) self.old }
        requires noted { IsNoted V.Vault self.old }
        requires on { IsOn V.Vault self.old }
        requires sound { IsTrue (V.tells self.old.vault) → AreLivesSound (V.held self.old.vault) self.old }
        ensures { IsStepAs V.Vault (Some (order_of self.old.epoch epoch number call.now (session_at self.old.sessions client))) self.old self.new (event.Call client epoch number call.now) result }
    {
        match self.sessions.order(client, self.epoch, epoch, number, call) {
            CallOrder::First => {
                let Call::Hello { name } = call else {
                    unreachable!()
                };
                self.hello(client, *name)
            }
            CallOrder::Next => self.next_call(client, number, call),
            CallOrder::Repeat => self.repeat(client),
            CallOrder::Stale => Ok(self.stale()),
            CallOrder::Astray => Ok(Answer::silence(Acts::new(Vec::new(self.alloc)))),
        }
    }

    /// The answer to an event that is served.
    pub fn answer(&mut self, event: &Event) -> Result<Answer, OutOfMemory>
        requires served { IsServed event.now }
        requires up { self.old.is_down ≡ false }
        requires ready { IsReadyForMore (V.serves self.old.vault) self.old }
        requires known { IsTrue (V.tells self.old.vault) → IsOfJournal (V.held self.old.vault) self.old }
        requires noted { IsNoted V.Vault self.old }
        requires on { IsOn V.Vault self.old }
        requires sound { IsTrue (V.tells self.old.vault) → AreLivesSound (V.held self.old.vault) self.old }
        ensures { IsStepAs V.Vault (order_in self.old event.now) self.old self.new event.now result }
    {
        match event {
            Event::Call {
                client,
                epoch,
                number,
                call,
            } => self.call(*client, *epoch, *number, call),
            Event::Timeout { trans } => self.time_out(*trans),
            Event::Arrive { message, .. } => self.arrive(message),
            Event::Tick => self.tick(),
            // Each commit is forced as it is made.
            Event::Force => Ok(self.silence()),
            Event::Restart => unreachable!(),
        }
    }
}

// The transaction of a file call that is served.
fn trans_of(call: &Call) -> Option<TransId>
    ensures { IsServedCall call.now → result ≡ file_trans call.now }
{
    match call {
        Call::CreateFile { trans, .. } => Some(*trans),
        Call::OpenFile { trans, .. } => Some(*trans),
        Call::CloseFile { trans, .. } => Some(*trans),
        Call::DeleteFile { trans, .. } => Some(*trans),
        Call::ReadPages { trans, .. } => Some(*trans),
        Call::WritePages { trans, .. } => Some(*trans),
        Call::LockPages { trans, .. } => Some(*trans),
        Call::SetSize { trans, .. } => Some(*trans),
        Call::ReadProps { trans, .. } => Some(*trans),
        Call::WriteProps { trans, .. } => Some(*trans),
        Call::ReadOwner { trans, .. } => Some(*trans),
        Call::MakeOwner { trans, .. } => Some(*trans),
        Call::SetQuota { trans, .. } => Some(*trans),
        _ => None,
    }
}
