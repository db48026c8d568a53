//! What is said again at each tick until it is answered: the joins that ask to be let in register, and those that voted inquire.
ghost use Rattle.std.specs.Prelude.{◌≡◌, ◌++◌, ◌+◌, ◌&&◌, true, IfOk, OnOk, flat_map};
ghost use Rattle.std.specs.List.Sorted.{IsPermutation, IsSortedByKey};
ghost use Rattle.alp_base.specs.Orders.{trans_cmp};
ghost use Rattle.alp_journal.specs.Messages.{register_again, inquire_again, to_others, trans_in, are_in_order};
ghost use Rattle.alp_journal.specs.State.{State};
ghost use Rattle.alp_worker.specs.Again.{mails, is_other as is_other_said, trans_at, register_of as register_said, inquiry_of as inquiry_said, addressed, registers_in as registers_said, inquiries_in as inquiries_said};
ghost use Rattle.alp_worker.specs.Joins.{AreJoinsOf};

use crate::joins::Joins;
use crate::live::{LiveJoin, Stage};
use alp_base::{OutOfMemory, TransId};
use alp_journal::{Envelope, Message};
use std::alloc::Global;

impl Joins {
    /// The register of each join that asks to be let in, where its coordinator is another server of the run, which has so many.
    /// They go by their transactions.
    pub fn registers_again(&self, alloc: Global, servers: u8) -> Result<Vec<Envelope>, OutOfMemory>
        ensures same { IfOk result (λ v. IsPermutation (registers_said servers self.now.server self.now.lives) v.items) }
        ensures order { IfOk result (λ v. are_in_order (mails v.items) ≡ true) }
        ensures journal { (s : State) → AreJoinsOf s self.now → s.servers ≡ servers → IfOk result (λ v. IsPermutation (to_others s (flat_map (λ j. register_again j (s.phases j)) s.joined)) (mails v.items)) }
    {
        let mut out = registers_in(alloc, servers, self.server, self.lives.as_slice())?;
        by_transaction(&mut out);
        Ok(out)
    }

    /// The inquiry of each join that voted, where its coordinator is another server of the run, which has so many. They go by
    /// their transactions.
    pub fn inquiries_again(&self, alloc: Global, servers: u8) -> Result<Vec<Envelope>, OutOfMemory>
        ensures same { IfOk result (λ v. IsPermutation (inquiries_said servers self.now.server self.now.lives) v.items) }
        ensures order { IfOk result (λ v. are_in_order (mails v.items) ≡ true) }
        ensures journal { (s : State) → AreJoinsOf s self.now → s.servers ≡ servers → IfOk result (λ v. IsPermutation (to_others s (flat_map (λ j. inquire_again j (s.phases j)) s.joined)) (mails v.items)) }
    {
        let mut out = inquiries_in(alloc, servers, self.server, self.lives.as_slice())?;
        by_transaction(&mut out);
        Ok(out)
    }
}

fn registers_in(
    alloc: Global,
    servers: u8,
    here: u8,
    lives: &[LiveJoin],
) -> Result<Vec<Envelope>, OutOfMemory>
    ensures { IfOk result (λ v. v.items ≡ registers_said servers here lives.now) }
{
    let mut out = Vec::new(alloc);
    for live in lives {
        let is_other = is_other(servers, here, live.trans.server);
        push_to(&mut out, is_other, live.trans.server, register_of(live))?;
    }
    Ok(out)
}

fn inquiries_in(
    alloc: Global,
    servers: u8,
    here: u8,
    lives: &[LiveJoin],
) -> Result<Vec<Envelope>, OutOfMemory>
    ensures { IfOk result (λ v. v.items ≡ inquiries_said servers here lives.now) }
{
    let mut out = Vec::new(alloc);
    for live in lives {
        let is_other = is_other(servers, here, live.trans.server);
        push_to(&mut out, is_other, live.trans.server, inquiry_of(live))?;
    }
    Ok(out)
}

// The message goes there, if there is one and that is another server.
fn push_to(
    out: &mut Vec<Envelope>,
    is_other: bool,
    to: u8,
    message: Option<Message>,
) -> Result<(), OutOfMemory>
    ensures { OnOk result (out.new.items ≡ out.old.items ++ addressed is_other to message) }
{
    let Some(message) = message else {
        return Ok(());
    };
    if is_other {
        out.push(Envelope { to, message })?;
    }
    Ok(())
}

// Whether it is a server of the run, which has so many, and another one than this.
fn is_other(servers: u8, here: u8, to: u8) -> bool
    ensures { result ≡ is_other_said servers here to }
{
    to > 0 && to <= servers && to != here
}

fn register_of(live: &LiveJoin) -> Option<Message>
    ensures { result ≡ register_said live.now }
{
    match &live.stage {
        Stage::Joining(_) => Some(Message::Register {
            trans: live.trans,
            join: live.join,
            client: live.client,
        }),
        _ => None,
    }
}

fn inquiry_of(live: &LiveJoin) -> Option<Message>
    ensures { result ≡ inquiry_said live.now }
{
    match &live.stage {
        Stage::Ready(_) => Some(Message::Inquire {
            trans: live.trans,
            join: live.join,
        }),
        _ => None,
    }
}

// Puts them in the order of their transactions.
fn by_transaction(out: &mut Vec<Envelope>)
    ensures moved { IsPermutation out.old.items out.new.items }
    ensures sorted { IsSortedByKey trans_at trans_cmp out.new.items }
{
    out.sort_unstable_by_key(|envelope| trans_of(&envelope.message));
}

// The transaction that the message is about.
fn trans_of(message: &Message) -> TransId
    ensures { result ≡ trans_in message.now }
{
    match message {
        Message::Register { trans, .. }
        | Message::Joined { trans, .. }
        | Message::JoinRefused { trans, .. }
        | Message::Ask { trans, .. }
        | Message::Ready { trans, .. }
        | Message::No { trans, .. }
        | Message::Commit { trans, .. }
        | Message::Abort { trans, .. }
        | Message::Done { trans, .. }
        | Message::Inquire { trans, .. } => *trans,
    }
}
