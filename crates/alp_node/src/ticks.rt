//! What is said again at each tick.
ghost use Rattle.std.specs.Prelude.{◌≡◌, ◌++◌, OnOk, IfOk, None, false};
ghost use Rattle.alp_journal.specs.declared.event.Event.TheVariants as event;
ghost use Rattle.alp_node.specs.ServerState.{IsReadyForMore};
ghost use Rattle.alp_node.specs.Steps.{IsStepAs};
ghost use Rattle.alp_node.specs.Ticks.{AreSaidAgain, said_all};

use crate::answer::Answer;
use crate::server_state::ServerState;
use alp_base::OutOfMemory;
use alp_journal::{Act, Acts, Envelope};
use alp_vault::Vault;

impl<V: Vault> ServerState<V> {
    /// What was not answered is said again: registers, then asks, then commits, then inquiries, each by their transactions. Nothing
    /// else comes of a tick.
    pub(super) fn tick(&self) -> Result<Answer, OutOfMemory>
        requires up { self.now.is_down ≡ false }
        requires ready { IsReadyForMore (V.serves self.now.vault) self.now }
        ensures { IsStepAs V.Vault None self.now self.now event.Tick result }
    {
        let acts = self.said_again()?;
        Ok(Answer::silence(Acts::new(acts)))
    }

    fn said_again(&self) -> Result<Vec<Act>, OutOfMemory>
        ensures { IfOk result (λ v. AreSaidAgain self.now v.items) }
    {
        let mut mails = self.joins.registers_again(self.alloc, self.servers)?;
        self.coordinator.asks_again(self.servers, &mut mails)?;
        self.coordinator.commits_again(self.servers, &mut mails)?;
        let inquiries = self.joins.inquiries_again(self.alloc, self.servers)?;
        let mut acts = Vec::new(self.alloc);
        say_all(&mut acts, mails.as_slice())?;
        say_all(&mut acts, inquiries.as_slice())?;
        Ok(acts)
    }
}

// These messages are said.
fn say_all(acts: &mut Vec<Act>, mails: &[Envelope]) -> Result<(), OutOfMemory>
    ensures { OnOk result (acts.new.items ≡ acts.old.items ++ said_all mails.now) }
{
    for mail in mails {
        acts.push(Act::Sent {
            to: mail.to,
            message: mail.message,
        })?;
    }
    Ok(())
}
