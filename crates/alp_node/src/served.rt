//! Which file calls are performed, and the answer to each.
ghost use Rattle.std.specs.Prelude.{◌≡◌, if◌then◌else◌, IsTrue, None, Some, false};
ghost use Rattle.alp_files.specs.Locks.{IsFormed};
ghost use Rattle.alp_journal.specs.declared.event.Event.TheVariants as event;
ghost use Rattle.alp_journal.specs.Desk.{file_trans};
ghost use Rattle.alp_node.specs.Calls.{IsServedCall};
ghost use Rattle.alp_node.specs.Shapes.{ReadsSome};
ghost use Rattle.alp_node.specs.ServerState.{IsReadyForMore, IsOfJournal};
ghost use Rattle.alp_node.specs.Dead.{cause_in};
ghost use Rattle.alp_coord.specs.Coordinators.{fate_in};
ghost use Rattle.alp_files.specs.declared.refusal.Refusal.TheVariants as refusal;
ghost use Rattle.alp_node.specs.Standings.{ended_standing as ended_standing_of, own_standing as own_standing_of, stage_standing as stage_standing_of, standing_of, refusal_at};
ghost use Rattle.alp_node.specs.Waits.{has_waiting};
ghost use Rattle.alp_node.specs.Served.{AreLivesSound};
ghost use Rattle.alp_node.specs.Steps.{IsStep, IsTurn};

use crate::answer::Answer;
use crate::server_state::ServerState;
use crate::sessions::Turn;
use alp_base::{OutOfMemory, TransId};
use alp_files::{Call, Cause, Refusal};
use alp_vault::Vault;
use alp_worker::Stage;

/// What a client has here of a transaction.
#[derive(Clone, Copy, PartialEq, Eq)]
pub enum Standing {
    Unknown,
    /// Its part asks the transaction's server to be let in.
    Joining,
    /// Its part performs calls.
    Work,
    /// Its part voted, or its transaction is being finished.
    Finishing,
    /// Its part ended, and it is to be told why.
    Ended(Cause),
}

impl<V: Vault> ServerState<V> {
    /// What the client has here of a transaction.
    pub fn standing(&self, client: u8, trans: &TransId) -> Standing
        ensures { result ≡ standing_of self.now client trans.now }
    {
        if trans.server == self.server {
            return self.own_standing(client, trans);
        }
        match self.joins.part_of(client, trans) {
            Some(join) => stage_standing(&join.stage),
            None => self.ended_standing(client, trans),
        }
    }

    // Of a transaction that began here.
    fn own_standing(&self, client: u8, trans: &TransId) -> Standing
        ensures { result ≡ own_standing_of client (cause_in self.now.dead client trans.now) (fate_in self.now.coordinator trans.now) }
    {
        let Some(owner) = self.coordinator.client(trans) else {
            return self.ended_standing(client, trans);
        };
        if owner != client {
            return Standing::Unknown;
        }
        if self.coordinator.is_finishing(trans) {
            return Standing::Finishing;
        }
        Standing::Work
    }

    // Where it has no live part.
    fn ended_standing(&self, client: u8, trans: &TransId) -> Standing
        ensures { result ≡ ended_standing_of (cause_in self.now.dead client trans.now) }
    {
        match self.dead.cause(client, trans) {
            Some(cause) => Standing::Ended(cause),
            None => Standing::Unknown,
        }
    }

    // How a call of the part is refused at once, if it is.
    fn part_refusal(&self, client: u8, trans: &TransId) -> Option<Refusal>
        ensures { result ≡ refusal_at (has_waiting client trans.now self.now.waits) (standing_of self.now client trans.now) }
    {
        match self.standing(client, trans) {
            Standing::Unknown => Some(Refusal::UnknownTrans),
            Standing::Joining => Some(Refusal::NotYet),
            Standing::Finishing => Some(Refusal::Finishing),
            Standing::Ended(cause) => Some(Refusal::Aborted { cause }),
            Standing::Work => self.busy_refusal(client, trans),
        }
    }

    // A part does one call after the other.
    fn busy_refusal(&self, client: u8, trans: &TransId) -> Option<Refusal>
        ensures { result ≡ (if has_waiting client trans.now self.now.waits then Some refusal.NotYet else None) }
    {
        if self.waits.has(client, trans) {
            return Some(Refusal::NotYet);
        }
        None
    }

    /// A file call: of a live transaction of the client, and of a shape that is within the limits.
    pub fn file_call(
        &mut self,
        turn: &Turn,
        trans: TransId,
        call: &Call,
    ) -> Result<Answer, OutOfMemory>
        requires turn { IsTurn self.old.sessions turn.now }
        requires up { self.old.is_down ≡ false }
        requires served { IsServedCall call.now }
        requires named { file_trans call.now ≡ Some trans }
        requires formed { IsFormed call.now }
        requires some { ReadsSome call.now }
        requires ready { IsReadyForMore (V.serves self.old.vault) self.old }
        requires known { IsTrue (V.tells self.old.vault) → IsOfJournal (V.held self.old.vault) self.old }
        requires sound { IsTrue (V.tells self.old.vault) → AreLivesSound (V.held self.old.vault) self.old }
        ensures { IsStep V.Vault self.old self.new (event.Call turn.now.client self.old.epoch turn.now.number call.now) result }
    {
        if let Some(refusal) = self.part_refusal(turn.client, &trans) {
            return Ok(self.refuse(turn, refusal));
        }
        let Some(live) = self.lives.get(&trans) else {
            unreachable!()
        };
        if let Some(refusal) = self.shape_refusal(call, live.part.opens.len()) {
            return Ok(self.refuse(turn, refusal));
        }
        let halted = Vec::with_capacity(self.alloc, 1)?;
        match self.asks(trans, call) {
            Ok(needs) => self.lock_call(turn, trans, call, needs, halted),
            Err(fault) => self.without_answer(turn, fault, halted),
        }
    }
}

// That of a live join.
fn stage_standing(stage: &Stage) -> Standing
    ensures { result ≡ stage_standing_of stage.now }
{
    match stage {
        Stage::Joining(_) => Standing::Joining,
        Stage::Active(_) => Standing::Work,
        Stage::Ready(_) => Standing::Finishing,
    }
}
