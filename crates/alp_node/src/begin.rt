//! Sessions and transactions begin.
ghost use Rattle.std.specs.Prelude.{◌≡◌, ◌+◌, ◌≤◌, ◌^◌, None, false, nat_le, length, IfOk, OnOk, OnErr};
ghost use Rattle.std.specs.FinMap as map;
ghost use Rattle.alp_files.specs.declared.call.Call.TheVariants as call;
ghost use Rattle.alp_files.specs.declared.refusal.Refusal.TheVariants as refusal;
ghost use Rattle.alp_files.specs.declared.refusal.What.TheVariants as what;
ghost use Rattle.alp_journal.specs.Answers.{if_over};
ghost use Rattle.alp_journal.specs.declared.event.Event.TheVariants as event;
ghost use Rattle.alp_trans.specs.Counting.{no_counts};
ghost use Rattle.alp_coord.specs.Coordinators.{counted_of};
ghost use Rattle.alp_node.specs.Draws.{HasDrawn, IsBackAgain};
ghost use Rattle.alp_node.specs.Releases.{buried, cleared, with_trans};
ghost use Rattle.alp_node.specs.Sessions.{session_at};
ghost use Rattle.alp_node.specs.ServerState.{IsReadyForMore};
ghost use Rattle.alp_node.specs.Steps.{IsStep, IsStepAs, IsTurn};
ghost use Rattle.alp_node.specs.declared.sessions.CallOrder.TheVariants as order;

use crate::answer::Answer;
use crate::lives::Live;
use crate::server_state::ServerState;
use crate::sessions::{Session, Turn};
use alp_base::{CLIENTS, Name, OutOfMemory, Stamp, TransId};
use alp_files::{Refusal, Reply, What};
use alp_journal::{Act, Acts};
use alp_trans::Part;
use alp_vault::Vault;

/// So many transactions may count at a server.
const MOST_TRANSACTIONS: usize = 64;

impl<V: Vault> ServerState<V> {
    /// A client's session begins.
    pub fn hello(&mut self, client: u8, name: Name) -> Result<Answer, OutOfMemory>
        requires client { client ≤ CLIENTS }
        requires first { session_at self.old.sessions client ≡ None }
        requires up { self.old.is_down ≡ false }
        ensures { IsStepAs V.Vault (Some order.First) self.old self.new (event.Call client 0 1 (call.Hello name)) result }
    {
        let reply = Reply::Welcome { epoch: self.epoch };
        let answer = Answer::new(&reply, Acts::new(Vec::new(self.alloc)))?;
        let session = Session {
            who: name,
            last: 1,
            reply,
        };
        self.sessions.set(client, session);
        Ok(answer)
    }

    /// A transaction begins, where not too many count. Its id is the next one, and the clock is at least what the client saw.
    /// The client asks for no dead part any more.
    pub fn begin(&mut self, turn: &Turn, seen: Stamp) -> Result<Answer, OutOfMemory>
        requires turn { IsTurn self.old.sessions turn.now }
        requires up { self.old.is_down ≡ false }
        requires ready { IsReadyForMore (V.serves self.old.vault) self.old }
        requires time { seen.ts ≤ 2 ^ 62 }
        ensures { IsStep V.Vault self.old self.new (event.Call turn.now.client self.old.epoch turn.now.number (call.Begin seen)) result }
    {
        if let Some(refusal) = self.too_many() {
            self.clear(turn.client);
            return Ok(self.refuse(turn, refusal));
        }
        let mut acts = Vec::with_capacity(self.alloc, 1)?;
        let trans = self.draw(turn)?;
        acts.push_reserved(Act::Drawn { trans });
        self.clock = self.clock.max(seen.ts);
        self.clear(turn.client);
        self.sessions.count(turn, Reply::Begun { trans });
        Ok(Answer::begun(trans, Acts::new(acts)))
    }

    /// That as many transactions as there may be count here already, if it is so.
    pub(super) fn too_many(&self) -> Option<Refusal>
        requires { counted_of self.now.coordinator + length self.now.joins.lives ≤ 64 }
        ensures { result ≡ if_over (nat_le 64 (counted_of self.now.coordinator + length self.now.joins.lives)) (refusal.TooMany what.Transactions 64) }
    {
        let own = self.coordinator.counted();
        if own + self.joins.len() < MOST_TRANSACTIONS {
            return None;
        }
        Some(Refusal::TooMany {
            what: What::Transactions,
            limit: MOST_TRANSACTIONS as u32,
        })
    }

    // The next id is given to a transaction of the client, which is live from now on.
    fn draw(&mut self, turn: &Turn) -> Result<TransId, OutOfMemory>
        requires ready { IsReadyForMore (V.serves self.old.vault) self.old }
        ensures drawn { IfOk result (λ t. HasDrawn turn.now t self.old self.new) }
        ensures err { OnErr result (IsBackAgain self.old self.new) }
    {
        let trans = self.coordinator.begin(turn.client)?;
        let live = Live {
            client: turn.client,
            who: Some(turn.who),
            part: Part::new(self.alloc),
            locks: 0,
            join: None,
        };
        if self.enter(trans, live).is_err() {
            self.coordinator.take_back();
            return Err(OutOfMemory);
        }
        Ok(trans)
    }

    /// The part is live from now on. It holds no lock.
    pub(super) fn enter(&mut self, trans: TransId, live: Live) -> Result<(), OutOfMemory>
        requires new { map.get self.old.lives trans ≡ None }
        requires idle { live.part.counts ≡ no_counts }
        ensures ok { OnOk result (self.new ≡ with_trans self.old trans live) }
        ensures err { OnErr result (self.new ≡ self.old) }
    {
        self.lives.add(trans, live)?;
        if self.locks.enter(trans).is_err() {
            self.lives.remove(&trans);
            return Err(OutOfMemory);
        }
        Ok(())
    }

    /// The client asks for no dead part any more, and for no call of one.
    pub fn bury(&mut self, client: u8)
        ensures { self.new ≡ buried self.old client }
    {
        self.waits.bury(client, &self.dead);
        self.dead.bury(client);
    }

    // Nor for a call of any other part that is not live.
    fn clear(&mut self, client: u8)
        ensures { self.new ≡ cleared self.old client }
    {
        self.bury(client);
        self.waits.clear(client, &self.coordinator, &self.joins);
    }
}
