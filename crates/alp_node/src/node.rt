//! A server with its journal.
ghost use Rattle.std.specs.Prelude.{◌≡◌, ◌+◌, ◌≤◌, max, IsTrue, List, [], ◌∷◌, ◌++◌, IfOk, OnErr, MatchResult, Ok, Some, true, false, if◌then◌else◌};
ghost use Rattle.std.specs.Ordering.{is_lt};
ghost use Rattle.alp_base.specs.Orders.{trans_cmp};
ghost use Rattle.alp_files.specs.declared.refusal.Refusal.TheVariants as refusal;
ghost use Rattle.alp_files.specs.declared.reply.Reply.TheVariants as reply;
ghost use Rattle.alp_journal.specs.declared.entry.Entry.{Entry as AnEntry};
ghost use Rattle.alp_journal.specs.Account.{Account};
ghost use Rattle.alp_coord.specs.Coordinators.{count_of, fate_in};
ghost use Rattle.alp_node.specs.ServerState.{IsAs, IsReadyForMore, IsOfJournal};
ghost use Rattle.alp_base.specs.Allowances.{Sets};
ghost use Rattle.alp_base.specs.Crashes.{SameOutcomes, Adds};
ghost use Rattle.alp_vault.specs.Vault.{IsSameVault};
ghost use Rattle.alp_node.specs.Durable.{Leaves, IsSettled, HeldOr, IsSaidThen};
ghost use Rattle.alp_node.specs.Nodes.{IsConsistent, Answered, HasNoEntry, HasRoom, IsFull, state_of, start_in};
ghost use Rattle.alp_node.specs.Opens.{IsLeastOpen, IsRestOf, lesser_if};
ghost use Rattle.alp_node.specs.Orders.{order_in};
ghost use Rattle.alp_node.specs.Served.{IsServed, AreLivesSound};
ghost use Rattle.alp_node.specs.Steps.{IsEntered, IsNoted, IsOn, IsSeated, seen_with};
ghost use Rattle.alp_node.specs.Turns.{HasTurned};

use crate::answer::Answer;
use crate::opened::Opened;
use crate::server_state::ServerState;
use alp_base::{OutOfMemory, TransId};
use alp_files::{Refusal, Reply};
use alp_journal::{Entry, Event, Journal};
use alp_vault::Vault;
use std::alloc::Global;
use std::marker::Model;

/// So many entries the steps of a server make at most. A restart adds its entry at any count.
const MOST_ENTRIES: usize = 65_536;

/// A server: what it was started on, what it keeps, and what it did. Of a vault that tells what it holds, its journal is lawful, each
/// entry has its cause, and its vault and tables hold what the journal says.
#[derive(Drop)]
pub struct Node<V: Vault> {
    pub(super) opening: Opened<V>,
    pub(super) kept: ServerState<V>,
    pub(super) journal: Journal,
}

impl<V: Vault> Model for Node<V> {
    ghost use Rattle.std.specs.Coded.{codes};
    ghost use Rattle.alp_coord.specs.contracts.coordinator.Coordinator as coordinator_type;
    ghost use Rattle.alp_locks.specs.contracts.table.LockTable as table_type;
    ghost use Rattle.alp_node.specs.contracts.lives.Lives as lives_type;
    ghost use Rattle.alp_node.specs.NodeStates.{NodeState};

    ghost Value = { NodeState V };

    ghost coded = { Prim.hlevel (codes, V.code, table_type.the_row.coded, coordinator_type.the_row.coded, lives_type.the_row.coded) };

    ghost use Rattle.alp_node.specs.Nodes.{IsConsistent};

    ghost view = { λ n. record { opening = n.opening; kept = n.kept; journal = n.journal } };

    ghost invariant = { λ n. IsConsistent V.Vault (record { opening = n.opening; kept = n.kept; journal = n.journal }) };
}

impl<V: Vault> Node<V> {
    /// Answers an event in one step, with one entry more of the journal. No reply is silence.
    ///
    /// A step in which the vault fails or is stopped takes the server down. From then on it answers that it is down, and
    /// makes no entry. Where its journal is full it says so, and makes no entry. Want of memory makes none either, and leaves the
    /// vault, the sessions and the clock as they were; of a vault that tells, all is as the journal says.
    ///
    /// A call is answered by what it is among those of its client: a first greeting begins a session, the next call is performed,
    /// a repeat of the last one gets the same reply again, and one of no session that stands here in its epoch is told the
    /// epoch of the server. To any other call there is no reply.
    pub fn step(&mut self, event: Event) -> Result<Option<Reply>, OutOfMemory>
        requires served { IsServed event }
        ensures answered { self.old.kept.is_down ≡ false → HasRoom self.old → IfOk result (λ r. Answered (order_in self.old.kept event) (V.tells self.old.kept.vault) (state_of (start_in V.Vault self.old) self.old.journal) self.old.journal self.new.journal event r (V.faults self.old.kept.vault) (V.faults self.new.kept.vault) (V.allowance self.new.kept.vault) self.new.kept.is_down) }
        ensures down { self.old.kept.is_down ≡ true → (result ≡ Ok (Some (reply.Refused refusal.Down))) × (self.new ≡ self.old) }
        ensures full { self.old.kept.is_down ≡ false → IsFull self.old → (result ≡ Ok (Some (reply.Refused refusal.JournalFull))) × (self.new ≡ self.old) }
        ensures err { OnErr result (HasNoEntry V.Vault self.old self.new) }
        ensures still { (a : Account) → IsAs a (V.held self.old.kept.vault) self.old.kept → OnErr result (IsAs a (V.held self.new.kept.vault) self.new.kept) }
        ensures opening { self.new.opening ≡ self.old.opening }
        ensures seat { IsSeated V.Vault self.old.kept self.new.kept }
        ensures turned { HasRoom self.old → self.new.kept.is_down ≡ false → IfOk result (λ r. HasTurned (order_in self.old.kept event) self.old.kept self.new.kept event r) }
        ensures clock { IsTrue (V.tells self.old.kept.vault) → self.new.kept.clock ≤ max self.old.kept.clock (seen_with (fate_in self.old.kept.coordinator) event) + 1 }
        // Through the step a crash leaves what the vault held before it, or all that its one write makes of that; where memory was
        // wanting, just what the vault held.
        ensures durable { IsTrue (V.tells self.old.kept.vault) → self.old.kept.is_down ≡ false → HasRoom self.old → MatchResult result (λ _. Leaves V.Vault self.old.kept.vault self.new.kept.vault (HeldOr (V.held self.old.kept.vault) (IsSaidThen (state_of (start_in V.Vault self.new) self.new.journal)))) (λ _. Leaves V.Vault self.old.kept.vault self.new.kept.vault (λ c. c ≡ V.held self.old.kept.vault)) }
    {
        if self.kept.is_down {
            return Ok(Some(Reply::Refused(Refusal::Down)));
        }
        if self.journal.entries().len() >= MOST_ENTRIES {
            return Ok(Some(Reply::Refused(Refusal::JournalFull)));
        }
        self.kept.vault.knows();
        self.journal.make_place(self.kept.alloc)?;
        answer(&mut self.kept, &mut self.journal, event)
    }

    /// What holds of each server.
    pub fn knows(&self)
        ensures { IsConsistent V.Vault self.now }
    {
        let _ = &self.kept;
    }

    /// What the server did since it was started.
    pub fn journal(&self) -> &Journal
        ensures { result.now ≡ self.now.journal }
    {
        &self.journal
    }

    /// Whether the vault failed in a step, or was stopped.
    pub fn is_down(&self) -> bool
        ensures { result ≡ self.now.kept.is_down }
    {
        self.kept.is_down
    }

    /// Its number.
    pub fn server(&self) -> u8
        ensures { result ≡ self.now.kept.server }
    {
        self.kept.server
    }

    /// How many servers its run has.
    pub fn servers(&self) -> u8
        ensures { result ≡ self.now.kept.servers }
    {
        self.kept.servers
    }

    pub fn epoch(&self) -> u32
        ensures { result ≡ self.now.kept.epoch }
    {
        self.kept.epoch
    }

    pub fn clock(&self) -> u64
        ensures { result ≡ self.now.kept.clock }
    {
        self.kept.clock
    }

    /// How many transactions began here since it was started, or started again.
    pub fn begun(&self) -> usize
        ensures { result ≡ count_of self.now.kept.coordinator }
    {
        self.kept.coordinator.count()
    }

    /// Of a vault that tells, the least transaction that runs here, or has a part here that did not vote, if there is one.
    pub fn open_part(&self) -> Option<TransId>
        ensures { IsTrue (V.tells self.now.kept.vault) → IsLeastOpen (state_of (start_in V.Vault self.now) self.now.journal) result }
    {
        let own = self.kept.coordinator.least_running();
        lesser(own, self.kept.joins.least_open())
    }

    /// Of a vault that tells, whether no part is at work here, none is ready, and no decision stands. A part that asks to be let in is
    /// passed over.
    pub fn is_settled(&self) -> bool
        ensures { IsTrue (V.tells self.now.kept.vault) → IsRestOf result (state_of (start_in V.Vault self.now) self.now.journal) }
    {
        let counted = self.kept.coordinator.counted();
        counted == 0 && self.kept.lives.least().is_none()
    }

    /// Lets so many further changing calls of its vault pass, or all of them.
    pub fn stop_after(&mut self, calls: Option<u32>)
        ensures kept { self.new ≡ record (self.old) { kept = record (self.old.kept) { vault = self.new.kept.vault } } }
        ensures same { IsSameVault V.tells V.volume V.server V.servers self.old.kept.vault self.new.kept.vault }
        ensures serves { V.serves self.new.kept.vault ≡ V.serves self.old.kept.vault }
        ensures held { V.held self.new.kept.vault ≡ V.held self.old.kept.vault }
        ensures crash { SameOutcomes (V.may_leave self.old.kept.vault) (V.may_leave self.new.kept.vault) }
        ensures time { Adds V.left_since self.old.kept.vault self.new.kept.vault (V.may_leave self.new.kept.vault) }
        ensures faults { V.faults self.new.kept.vault ≡ V.faults self.old.kept.vault }
        ensures allowance { Sets calls (V.allowance self.old.kept.vault) (V.allowance self.new.kept.vault) }
    {
        self.kept.vault.stop_after(calls);
    }

    pub fn vault(&self) -> &V
        ensures { result.now ≡ self.now.kept.vault }
    {
        &self.kept.vault
    }

    /// What it was started on, its vault, and its journal.
    pub fn into_parts(self) -> (Opened<V>, V, Journal)
        ensures { result ≡ (self.opening, self.kept.vault, self.journal) }
    {
        let Node {
            opening,
            kept,
            journal,
            ..
        } = self;
        let ServerState { vault, .. } = kept;
        (opening, vault, journal)
    }
}

// The lesser of two, or the one that there is.
fn lesser(one: Option<TransId>, other: Option<TransId>) -> Option<TransId>
    ensures { result ≡ lesser_if one other }
{
    match (one, other) {
        (Some(a), Some(b)) => Some(least_of(a, b)),
        (Some(a), None) => Some(a),
        (None, b) => b,
    }
}

fn least_of(a: TransId, b: TransId) -> TransId
    ensures { result ≡ (if is_lt (trans_cmp b a) then b else a) }
{
    if b.cmp(&a).is_lt() {
        return b;
    }
    a
}

// Answers an event whose entry has its place: it is filled, or taken back where there is no memory.
fn answer<V: Vault>(
    kept: &mut ServerState<V>,
    journal: &mut Journal,
    event: Event,
) -> Result<Option<Reply>, OutOfMemory>
    requires served { IsServed event }
    requires up { kept.old.is_down ≡ false }
    requires ready { IsReadyForMore (V.serves kept.old.vault) kept.old }
    requires known { IsTrue (V.tells kept.old.vault) → IsOfJournal (V.held kept.old.vault) kept.old }
    requires noted { IsNoted V.Vault kept.old }
    requires on { IsOn V.Vault kept.old }
    requires sound { IsTrue (V.tells kept.old.vault) → AreLivesSound (V.held kept.old.vault) kept.old }
    ensures entered { (before : List AnEntry) (last : AnEntry) → journal.old ≡ before ++ last ∷ [] → IsEntered V.Vault (order_in kept.old event) kept.old kept.new before journal.new event result }
    ensures settled { IsSettled V.Vault kept.old.vault × IsSettled V.Vault kept.new.vault }
{
    kept.vault.knows();
    let answered = kept.answer(&event);
    kept.vault.knows();
    match answered {
        Ok(answer) => Ok(enter(journal, event, answer)),
        Err(OutOfMemory) => {
            journal.take_back();
            Err(OutOfMemory)
        }
    }
}

// The event with its answer fills the place of its entry, and the caller gets the reply.
fn enter(journal: &mut Journal, event: Event, answer: Answer) -> Option<Reply>
    ensures filled { (before : List AnEntry) (last : AnEntry) → journal.old ≡ before ++ last ∷ [] → journal.new ≡ before ++ (record { event = event; reply = answer.kept; acts = answer.acts }) ∷ [] }
    ensures handed { result ≡ answer.handed }
{
    let Answer { kept, handed, acts } = answer;
    journal.fill_place(Entry {
        event,
        reply: kept,
        acts,
    });
    handed
}
