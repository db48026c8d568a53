//! What other servers of the run say.
ghost use Rattle.std.specs.Prelude.{◌≡◌, ℕ, IsTrue, None, false};
ghost use Rattle.alp_journal.specs.declared.event.Event.TheVariants as event;
ghost use Rattle.alp_journal.specs.Timely.{IsTimelyMessage};
ghost use Rattle.alp_node.specs.Served.{AreLivesSound};
ghost use Rattle.alp_node.specs.ServerState.{IsReadyForMore, IsOfJournal};
ghost use Rattle.alp_node.specs.Steps.{IsStepAs, IsNoted, IsOn};

use crate::answer::Answer;
use crate::server_state::ServerState;
use alp_base::OutOfMemory;
use alp_journal::Message;
use alp_vault::Vault;

impl<V: Vault> ServerState<V> {
    /// A message arrives, whoever sent it.
    pub(super) fn arrive(&mut self, message: &Message) -> Result<Answer, OutOfMemory>
        requires timely { IsTimelyMessage message.now }
        requires up { self.old.is_down ≡ false }
        requires ready { IsReadyForMore (V.serves self.old.vault) self.old }
        requires known { IsTrue (V.tells self.old.vault) → IsOfJournal (V.held self.old.vault) self.old }
        requires noted { IsNoted V.Vault self.old }
        requires on { IsOn V.Vault self.old }
        requires sound { IsTrue (V.tells self.old.vault) → AreLivesSound (V.held self.old.vault) self.old }
        ensures { (from : ℕ) → IsStepAs V.Vault None self.old self.new (event.Arrive from message.now) result }
    {
        match message {
            Message::Register {
                trans,
                join,
                client,
            } => self.register(*trans, *join, *client),
            Message::Joined { trans, join } => self.joined(*trans, join),
            Message::JoinRefused { trans, join } => Ok(self.join_refused(*trans, join)),
            Message::Ask { trans, join } => self.ask(*trans, *join),
            Message::Ready { trans, join, ts } => self.ready(*trans, *join, *ts),
            Message::No { trans, join, why } => self.no(*trans, *join, *why),
            Message::Commit { trans, join, stamp } => self.committed(*trans, *join, *stamp),
            Message::Abort { trans, join, cause } => self.aborted(*trans, *join, *cause),
            Message::Done { trans, join } => self.done(*trans, *join),
            Message::Inquire { trans, join } => self.inquire(*trans, *join),
        }
    }
}
