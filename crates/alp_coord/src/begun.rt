//! What became of the transactions of an epoch.
ghost use Rattle.std.specs.Prelude.{◌≡◌, ◌<◌, ◌≤◌, ◌∷◌, ◌++◌, [], List, length, OnOk, OnErr};
ghost use Rattle.std.specs.Option.{option_copied as copied};
ghost use Rattle.alp_coord.specs.declared.begun.Settled.{Settled as ASettled};
ghost use Rattle.alp_coord.specs.Begun.{settled_at, with_settled};

use crate::members::Members;
use alp_base::OutOfMemory;
use alp_files::Cause;
use std::alloc::Global;
use std::marker::Model;

/// What became of a transaction that began in this epoch.
#[derive(Drop)]
pub enum Settled {
    /// It is not settled, and has a course.
    Open,
    /// It was committed without parts on other servers.
    Committed { ts: u64 },
    /// It was committed, and all its parts on other servers have applied it.
    Forgotten { ts: u64, members: Members },
    Ended { cause: Cause },
}

/// What became of each transaction that began in the epoch, by its counter.
#[derive(Drop)]
pub struct Begun {
    settled: Vec<Settled>,
}

impl Model for Begun {
    ghost use Rattle.std.specs.Prelude.{List};
    ghost use Rattle.alp_coord.specs.declared.begun.Settled.{Settled};

    ghost Value = { List Settled };

    ghost view = { λ b. b.settled.items };
}

impl Begun {
    pub fn new(alloc: Global) -> Begun
        ensures { result ≡ [] }
    {
        Begun {
            settled: Vec::new(alloc),
        }
    }

    pub fn len(&self) -> usize
        ensures { result ≡ length self.now }
    {
        self.settled.len()
    }

    /// What became of the one with that counter.
    pub fn get(&self, counter: u32) -> Option<&Settled>
        ensures { copied result ≡ settled_at self.now counter }
    {
        if counter == 0 {
            return None;
        }
        self.settled.get(counter as usize - 1)
    }

    /// One more, with this.
    pub fn push(&mut self, settled: Settled) -> Result<(), OutOfMemory>
        ensures ok { OnOk result (self.new ≡ self.old ++ settled ∷ []) }
        ensures err { OnErr result (self.new ≡ self.old) }
    {
        self.settled.push(settled)?;
        Ok(())
    }

    /// The last one goes.
    pub fn pop(&mut self)
        ensures { (before : List ASettled) (last : ASettled) → self.old ≡ before ++ last ∷ [] → self.new ≡ before }
    {
        let _ = self.settled.pop();
    }

    /// This became of the one with that counter. Takes no memory.
    pub fn settle(&mut self, counter: u32, settled: Settled)
        requires some { 0 < counter }
        requires begun { counter ≤ length self.old }
        ensures { self.new ≡ with_settled self.old counter settled }
    {
        self.settled[counter as usize - 1] = settled;
    }
}
