//! A client with its session, which asks one call after the other.
ghost use Rattle.std.specs.Prelude.{◌≡◌, ◌≤◌, [], IfOk, OnOk, false};
ghost use Rattle.alp_node.specs.Served.{IsTurnCall};
ghost use Rattle.alp_node.specs.Turns.{TellsUpTo};
ghost use Rattle.alp_acknowledge.specs.Turns.{IsFresh, InStep, HasAsked, HasCommitted};

use crate::ServeFault;
use alp_base::{Name, Stamp, TransId};
use alp_files::{Call, Reply};
use alp_journal::Event;
use alp_node::Node;
use alp_vault::Vault;
use std::alloc::Global;

/// The number of the client.
const CLIENT: u8 = 1;

/// The most entries of a journal.
const MOST_ENTRIES: usize = 65536;

/// A client that was told nothing yet.
const NO_STAMP: Stamp = Stamp {
    ts: 0,
    trans: TransId {
        server: 0,
        epoch: 0,
        counter: 0,
    },
};

/// The one client of a server. It knows the epoch of its session, the number of its last call there, and the stamp that it was
/// told last.
#[derive(Drop)]
pub struct Caller<V: Vault> {
    pub(crate) alloc: Global,
    node: Node<V>,
    epoch: u32,
    last: u32,
    told: Stamp,
}

impl<V: Vault> Caller<V> {
    /// Greets a server that did nothing yet.
    pub fn greet(alloc: Global, node: Node<V>) -> Result<Caller<V>, ServeFault>
        requires { IsFresh node }
        ensures { IfOk result InStep }
    {
        let mut node = node;
        let name = Name::spelled(b"Admin");
        let greeting = Event::Call {
            client: CLIENT,
            epoch: 0,
            number: 1,
            call: Call::Hello { name },
        };
        let reply = node.step(greeting)?;
        if node.is_down() {
            return Err(ServeFault::Down);
        }
        let Some(Reply::Welcome { epoch }) = reply else {
            return Err(ServeFault::Refused);
        };
        Ok(Caller {
            alloc,
            node,
            epoch,
            last: 1,
            told: NO_STAMP,
        })
    }

    /// Asks for a call, and hears the reply. The journal of a server has 65,536 entries at most, one for each call.
    pub(crate) fn ask(&mut self, call: Call) -> Result<Reply, ServeFault>
        requires step { InStep self.old }
        requires call { IsTurnCall call }
        ensures step { OnOk result (InStep self.new) }
        ensures asked { IfOk result (HasAsked self.old self.new call) }
        ensures told { IfOk result (TellsUpTo self.new.node.kept.clock) }
    {
        if MOST_ENTRIES <= self.node.journal().entries().len() {
            return Err(ServeFault::JournalFull);
        }
        self.node.knows();
        let number = self.last + 1;
        let asked = Event::Call {
            client: CLIENT,
            epoch: self.epoch,
            number,
            call,
        };
        let reply = self.node.step(asked)?;
        if self.node.is_down() {
            return Err(ServeFault::Down);
        }
        self.last = number;
        reply.ok_or(ServeFault::Refused)
    }

    /// Begins a transaction.
    pub(crate) fn begin(&mut self) -> Result<TransId, ServeFault>
        requires { InStep self.old }
        ensures { OnOk result (InStep self.new) }
    {
        self.node.knows();
        let seen = self.told;
        match self.ask(Call::Begin { seen })? {
            Reply::Begun { trans } => Ok(trans),
            _ => Err(ServeFault::Refused),
        }
    }

    /// Commits a transaction, and is told its stamp.
    pub(crate) fn commit(&mut self, trans: TransId) -> Result<Stamp, ServeFault>
        requires { InStep self.old }
        ensures step { OnOk result (InStep self.new) }
        ensures told { IfOk result (HasCommitted self.old self.new trans) }
    {
        match self.ask(Call::Finish {
            trans,
            commit: true,
        })? {
            Reply::Committed { stamp } => {
                self.told = stamp;
                Ok(stamp)
            }
            _ => Err(ServeFault::Refused),
        }
    }
}
