//! Questions how a transaction stands.
ghost use Rattle.std.specs.Prelude.{◌≡◌, Ok, false};
ghost use Rattle.alp_files.specs.declared.call.Call.TheVariants as call;
ghost use Rattle.alp_journal.specs.declared.event.Event.TheVariants as event;
ghost use Rattle.alp_node.specs.ServerState.{IsReadyForMore};
ghost use Rattle.alp_node.specs.Steps.{IsStep, IsTurn};

use crate::answer::Answer;
use crate::server_state::ServerState;
use crate::sessions::Turn;
use alp_base::TransId;
use alp_files::{Refusal, Reply};
use alp_journal::Acts;
use alp_vault::Vault;

impl<V: Vault> ServerState<V> {
    /// How a transaction stands that began here. Any client may ask, with a part of it or without.
    pub fn outcome(&mut self, turn: &Turn, trans: TransId) -> Answer
        requires turn { IsTurn self.old.sessions turn.now }
        requires up { self.old.is_down ≡ false }
        requires ready { IsReadyForMore (V.serves self.old.vault) self.old }
        ensures { IsStep V.Vault self.old self.new (event.Call turn.now.client self.old.epoch turn.now.number (call.Outcome trans)) (Ok result) }
    {
        let Some(ended) = self.coordinator.outcome(&trans) else {
            return self.refuse(turn, Refusal::UnknownTrans);
        };
        self.sessions.count(turn, Reply::Ended(ended));
        Answer::ended(ended, Acts::new(Vec::new(self.alloc)))
    }
}
