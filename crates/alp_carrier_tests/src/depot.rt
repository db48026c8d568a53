//! A depot: the least that a carrier can take for a server.
ghost use Rattle.std.specs.Prelude.{◌≡◌, ◌⊎◌, ◌≤◌, ◌<◌, ◌^◌, ◌++◌, ◌∷◌, [], length, IfSome, IfNone, OnOk, OnErr, true, false, max};
ghost use Rattle.alp_monitor.specs.History.{AddsAtMostOne};
ghost use Rattle.alp_carrier_tests.specs.Records.{last_in, depot_sight};

use crate::record::{Deed, Outgoing, Record};
use alp_base::OutOfMemory;
use alp_carrier::Station;
use alp_journal::{Envelope, Message};
use alp_monitor::Story;
use std::alloc::Global;
use std::marker::Model;

/// Records, each with a rank above the one before. A depot that is not open takes no message.
#[derive(Drop)]
pub struct Depot {
    is_open: bool,
    records: Vec<Record>,
    outgoing: Vec<Outgoing>,
}

impl Model for Depot {
    ghost use Rattle.std.specs.Coded.{codes};
    ghost use Rattle.alp_carrier_tests.specs.Depots.{DepotState};
    ghost use Rattle.alp_carrier_tests.specs.Records.{IsDepot};

    ghost Value = { DepotState };

    ghost coded = { Prim.hlevel codes };

    ghost view = { λ s. record { is_open = s.is_open; records = s.records.items } };

    ghost invariant = { λ s. IsDepot s.records.items s.outgoing.items };
}

// The rank of the last record, or 0.
fn last_of(records: &[Record]) -> u64
    ensures { result ≡ last_in records.now }
{
    match records {
        [] => 0,
        [.., last] => last.rank,
    }
}

impl Depot {
    pub fn new(alloc: Global, is_open: bool) -> Depot
        ensures { (result.is_open ≡ is_open) × (result.records ≡ []) }
    {
        Depot {
            is_open,
            records: Vec::new(alloc),
            outgoing: Vec::new(alloc),
        }
    }

    pub fn records(&self) -> &[Record]
        ensures { result.now ≡ self.now.records }
    {
        &self.records
    }

    fn last(&self) -> u64
        ensures rank { result ≡ last_in self.now.records }
        ensures count { length self.now.records ≤ result }
    {
        last_of(&self.records)
    }

    // One record more.
    fn put(&mut self, rank: u64, deed: Deed) -> Result<(), OutOfMemory>
        requires { last_in self.old.records < rank }
        ensures ok { OnOk result (self.new ≡ record (self.old) { records = self.old.records ++ record { rank = rank; deed = deed } ∷ [] }) }
        ensures err { OnErr result (self.new ≡ self.old) }
    {
        self.records.reserve(1)?;
        self.outgoing.reserve(1)?;
        self.records.push_reserved(Record { rank, deed });
        if let Deed::Sent { envelope } = deed {
            self.outgoing.push_reserved(Outgoing { rank, envelope });
        }
        Ok(())
    }

    /// Something is sent, where there is memory and ranks do not end.
    pub fn send(&mut self, envelope: Envelope) -> Result<(), OutOfMemory>
        ensures open { self.new.is_open ≡ self.old.is_open }
        ensures records { AddsAtMostOne self.old.records self.new.records }
    {
        let last = self.last();
        if last >= 1 << 62 {
            return Ok(());
        }
        self.put(last + 1, Deed::Sent { envelope })
    }
}

impl Story for Depot {
    type Base = bool;

    type Entry = Record;

    ghost base = { λ s. s.is_open };

    ghost entries = { λ s. s.records };

    fn count(&self) -> u64 {
        self.records.len() as u64
    }
}

impl Station for Depot {
    ghost sight = { depot_sight };

    fn emitted(&self, place: u32) -> Option<Envelope> {
        let place = place as usize;
        if place >= self.outgoing.len() {
            return None;
        }
        Some(self.outgoing[place].envelope)
    }

    fn last_rank(&self) -> u64 {
        self.last()
    }

    fn deliver(&mut self, from: u8, message: Message, seen: u64) -> Result<(), OutOfMemory> {
        if !self.is_open {
            return Ok(());
        }
        let rank = self.last().max(seen) + 1;
        self.put(rank, Deed::Came { from, message })
    }
}
