//! A berth: a server of a storm, with the ranks of its entries.
ghost use Rattle.std.specs.Prelude.{◌≡◌, ◌≤◌, ◌<◌, ◌^◌, ◌∷◌, ◌++◌, [], true, false, length, min, IfOk, IfErr, IfSome, IfNone, OnErr, Ok, Some};
ghost use Rattle.std.specs.List.{list_any};
ghost use Rattle.alp_journal.specs.Answered.{is_read_fault};
ghost use Rattle.alp_storm.specs.Logs.{is_failure, shows_fault};
ghost use Rattle.alp_node.specs.Nodes.{HasRoom};
ghost use Rattle.alp_node.specs.Served.{IsServed};
ghost use Rattle.alp_berth.specs.Berths.{IsBerthState, MayBerth, HasStepped, IsUnstepped, entries_of, last_in, IsShut};
ghost use Rattle.alp_berth.specs.Sends.{sent_by, counts_from, count_in, capped};

use crate::counts::{count_at, count_sent, entry_at, find, sent_at};
use crate::made::{Made, Ranked};
use alp_base::OutOfMemory;
use alp_carrier::Station;
use alp_files::{Refusal, Reply};
use alp_journal::{Act, Entry, Envelope, Event, Message};
use alp_monitor::Story;
use alp_node::Node;
use alp_storm::{Answer, Host, StormFault};
use alp_vault::Vault;
use std::alloc::Global;
use std::marker::Model;
use std::snapshot::Snapshot;

/// So many entries the steps of a server make at most.
const MOST_ENTRIES: usize = 65_536;

/// A server of a storm. Its further entries are those since it got its berth.
#[derive(Drop)]
pub struct Berth<V: Vault> {
    node: Node<V>,
    ranks: Vec<u64>,
    // How many messages were sent before each entry, and by all of them.
    counts: Vec<u64>,
    all: u64,
    // How many entries stood when it was made.
    since: usize,
    made: Made<V>,
}

impl<V: Vault> Model for Berth<V> {
    ghost use Rattle.std.specs.Coded.{codes};
    ghost use Rattle.alp_coord.specs.contracts.coordinator.Coordinator as coordinator_type;
    ghost use Rattle.alp_locks.specs.contracts.table.LockTable as table_type;
    ghost use Rattle.alp_node.specs.contracts.lives.Lives as lives_type;
    ghost use Rattle.alp_berth.specs.BerthStates.{BerthState};

    ghost Value = { BerthState V };

    ghost coded = { Prim.hlevel (codes, V.code, table_type.the_row.coded, coordinator_type.the_row.coded, lives_type.the_row.coded) };

    ghost use Rattle.alp_berth.specs.Berths.{IsSound};

    ghost view = { λ b. record { node = b.node; ranks = b.ranks.items; made = b.made } };

    ghost invariant = { λ b. IsSound V.Vault b.made b.node b.ranks.items b.since b.counts.items b.all };
}

// The last of these, or 0.
fn last_of(ranks: &[u64]) -> u64
    ensures { result ≡ last_in ranks.now }
{
    match ranks {
        [] => 0,
        [.., last] => *last,
    }
}

// Counts the messages that were sent before each entry, and by all of them.
fn count_all(alloc: Global, entries: &[Entry]) -> Result<(Vec<u64>, u64), OutOfMemory>
    ensures counts { IfOk result (λ r. r.0.items ≡ counts_from 0 entries.now) }
    ensures all { IfOk result (λ r. r.1 ≡ capped (count_in entries.now)) }
{
    let mut counts = Vec::with_capacity(alloc, entries.len())?;
    let mut all = 0u64;
    for entry in entries {
        counts.push_reserved(all);
        all = all.saturating_add(count_sent(entry.acts.as_slice()));
    }
    Ok((counts, all))
}

// How many messages the last entry sent.
fn count_last(entries: &[Entry]) -> u64
    ensures { (before : _) (last : _) → entries.now ≡ before ++ last ∷ [] → result ≡ length (sent_by last.acts) }
{
    match entries {
        [] => 0,
        [.., last] => count_sent(last.acts.as_slice()),
    }
}

// Whether a reply shows that a read of the device failed.
fn shows_read_fault(reply: &Option<Reply>) -> bool
    ensures { result ≡ is_read_fault reply.now }
{
    match reply {
        Some(Reply::Refused(Refusal::ReadFault)) => true,
        _ => false,
    }
}

fn is_failed(act: &Act) -> bool
    ensures { result ≡ is_failure act.now }
{
    matches!(act, Act::Failed)
}

// Whether one of the acts says that the device failed.
fn any_failed(acts: &[Act]) -> bool
    ensures { result ≡ list_any is_failure acts.now }
{
    acts.iter().any(|act| is_failed(act))
}

// Whether an entry shows that the device failed in it.
fn has_failed(entry: &Entry) -> bool
    ensures { result ≡ shows_fault entry.now }
{
    let failed = any_failed(entry.acts.as_slice());
    shows_read_fault(&entry.reply) || failed
}

// The same of the last entry.
fn has_failed_last(entries: &[Entry]) -> bool
    ensures { (before : _) (last : _) → entries.now ≡ before ++ last ∷ [] → result ≡ shows_fault last }
{
    match entries {
        [] => false,
        [.., last] => has_failed(last),
    }
}

impl<V: Vault> Berth<V> {
    /// A berth of a server that is up and that nobody stops, with a rank for each of its entries. Where memory is refused they come back.
    pub fn new(
        alloc: Global,
        node: Node<V>,
        ranks: Vec<u64>,
    ) -> Result<Berth<V>, (Node<V>, Vec<u64>)>
        requires { MayBerth V.Vault node ranks.items }
        ensures ok { IfOk result (λ b. (b.node ≡ node) × (b.ranks ≡ ranks.items) × (b.made.node.value ≡ node) × (b.made.ranks.value ≡ ranks)) }
        ensures none_yet { IfOk result (λ b. entries_of b ≡ []) }
        ensures err { IfErr result (λ e. e ≡ (node, ranks)) }
    {
        let Ok((counts, all)) = count_all(alloc, node.journal().entries()) else {
            return Err((node, ranks));
        };
        let since = node.journal().entries().len();
        let made = Made {
            node: Snapshot::of(&node),
            ranks: Snapshot::of(&ranks),
        };
        Ok(Berth {
            node,
            ranks,
            counts,
            all,
            since,
            made,
        })
    }

    /// What holds of each berth.
    pub fn knows(&self)
        ensures { IsBerthState V.Vault self.now }
    {
        let _ = &self.made;
    }

    /// Its server.
    pub fn node(&self) -> &Node<V>
        ensures { result.now ≡ self.now.node }
    {
        &self.node
    }

    /// Its server, and the ranks of the server's entries.
    pub fn into_parts(self) -> (Node<V>, Vec<u64>)
        ensures node { result.0 ≡ self.node }
        ensures ranks { result.1.items ≡ self.ranks }
    {
        let Berth { node, ranks, .. } = self;
        (node, ranks)
    }

    // Whether it takes no step more: it is down, or its journal is full.
    fn is_shut(&self) -> bool
        ensures shut { result ≡ true → IsShut self.now.made (entries_of self.now) }
        ensures up { result ≡ false → (self.now.node.kept.is_down ≡ false) × HasRoom self.now.node }
    {
        if self.node.is_down() {
            return true;
        }
        self.node.journal().entries().len() >= MOST_ENTRIES
    }

    // It takes a step, which saw that rank. There is room for the rank and the count before it.
    fn advance(&mut self, event: Event, seen: u64) -> Result<Option<Reply>, OutOfMemory>
        requires served { IsServed event }
        requires up { self.old.node.kept.is_down ≡ false }
        requires room { HasRoom self.old.node }
        requires early { seen < 2 ^ 62 }
        ensures ok { IfOk result (HasStepped V.Vault self.old self.new event seen) }
        ensures err { OnErr result (IsUnstepped self.old self.new) }
    {
        self.ranks.reserve(1)?;
        self.counts.reserve(1)?;
        let rank = last_of(&self.ranks).max(seen) + 1;
        self.node.knows();
        let reply = self.node.step(event)?;
        self.node.knows();
        let sent = count_last(self.node.journal().entries());
        self.ranks.push_reserved(rank);
        self.counts.push_reserved(self.all);
        self.all = self.all.saturating_add(sent);
        Ok(reply)
    }
}

impl<V: Vault> Story for Berth<V> {
    type Base = Made<V>;

    type Entry = Ranked;

    ghost use Rattle.alp_berth.specs.Berths.{made_of, entries_of};

    ghost base = { made_of };

    ghost entries = { entries_of };

    fn count(&self) -> u64 {
        (self.node.journal().entries().len() - self.since) as u64
    }
}

impl<V: Vault> Station for Berth<V> {
    ghost use Rattle.alp_berth.specs.Berths.{sight_of};

    ghost sight = { sight_of };

    fn emitted(&self, place: u32) -> Option<Envelope> {
        let Some(at) = find(self.counts.as_slice(), u64::from(place)) else {
            return None;
        };
        let entry = entry_at(self.node.journal().entries(), at);
        let before = count_at(self.counts.as_slice(), at);
        self.node.knows();
        sent_at(entry.acts.as_slice(), u64::from(place) - before)
    }

    fn last_rank(&self) -> u64 {
        last_of(&self.ranks)
    }

    fn deliver(&mut self, from: u8, message: Message, seen: u64) -> Result<(), OutOfMemory> {
        self.knows();
        if self.is_shut() {
            return Ok(());
        }
        self.advance(Event::Arrive { from, message }, seen)?;
        Ok(())
    }
}

impl<V: Vault> Host for Berth<V> {
    ghost use Rattle.alp_berth.specs.Berths.{log_of};

    ghost log = { log_of };

    fn step(&mut self, event: Event) -> Result<Answer, StormFault> {
        self.knows();
        let server = self.node.server();
        if self.node.is_down() {
            return Err(StormFault::DiskFault { server });
        }
        let place = self.node.journal().entries().len();
        if place >= MOST_ENTRIES {
            return Err(StormFault::JournalFull { server });
        }
        let epoch = self.node.epoch();
        let Ok(reply) = self.advance(event, 0) else {
            return Err(StormFault::OutOfMemory);
        };
        if has_failed_last(self.node.journal().entries()) {
            return Err(StormFault::DiskFault { server });
        }
        Ok(Answer {
            reply,
            place: place as u32,
            epoch,
        })
    }

    fn server(&self) -> u8 {
        self.node.server()
    }

    fn is_down(&self) -> bool {
        self.node.is_down()
    }

    fn sent_count(&self) -> u32 {
        if self.all > u64::from(u32::MAX) {
            return u32::MAX;
        }
        self.all as u32
    }
}
