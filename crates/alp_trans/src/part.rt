//! A transaction's part at one server: its intents and its opens.
ghost use Rattle.std.specs.Prelude.{◌≡◌, IfOk};
ghost use Rattle.alp_files.specs.Act.{no_opens, open_at};
ghost use Rattle.alp_files.specs.Needs.{no_intents};
ghost use Rattle.alp_trans.specs.Counting.{no_counts};
ghost use Rattle.alp_trans.specs.Parts.{own_of, change_of};

use crate::{Counts, Intents};
use alp_base::{Change, OutOfMemory};
use alp_files::Open;
use std::alloc::Global;

/// What a transaction intends at one server, what it has opened there, and what is counted of it, which is kept as it changes.
#[derive(Drop)]
pub struct Part {
    /// What its commit makes of the cells.
    pub intents: Intents,
    /// The last open number.
    pub last: u32,
    pub opens: Vec<Open>,
    pub counts: Counts,
}

impl Part {
    /// A part that did nothing yet.
    pub fn new(alloc: Global) -> Part
        ensures own { own_of result ≡ no_opens }
        ensures intents { result.intents ≡ no_intents }
        ensures counts { result.counts ≡ no_counts }
    {
        Part {
            intents: Intents::new(alloc),
            last: 0,
            opens: Vec::new(alloc),
            counts: Counts::none(),
        }
    }

    /// The open with that number.
    pub fn open_of(&self, number: u32) -> Option<Open>
        ensures { result ≡ open_at self.now.opens.items number }
    {
        self.opens
            .iter()
            .copied()
            .find(|open| open.number == number)
    }

    /// What the part's commit makes of the cells. Pages are shared.
    pub fn change(&self, alloc: Global) -> Result<Change, OutOfMemory>
        ensures { IfOk result (λ c. c ≡ change_of self.now.intents) }
    {
        self.intents.to_change(alloc)
    }
}
