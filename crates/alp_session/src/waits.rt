//! The calls of a client that wait.
ghost use Rattle.std.specs.Prelude.{◌≡◌, ◌∷◌, [], OnOk, OnErr};
ghost use Rattle.alp_session.specs.Clients.{first_of};
ghost use Rattle.alp_session.specs.Heard.{is_waiting_at, others, one_more, times_asked};

use crate::{Purpose, Waiting};
use alp_base::OutOfMemory;
use std::alloc::Global;
use std::marker::Model;

/// The calls of a client that wait, at most one at each server, the last that came to wait first.
#[derive(Drop)]
pub struct Waits {
    calls: Vec<Waiting>,
}

impl Model for Waits {
    ghost use Rattle.std.specs.Prelude.{List};
    ghost use Rattle.std.specs.Coded.{coded_list};
    ghost use Rattle.alp_session.specs.declared.waiting.Waiting.{Waiting};
    ghost use Rattle.alp_session.specs.contracts.waiting.Waiting as waiting_type;

    ghost Value = { List Waiting };

    ghost coded = { coded_list waiting_type.the_row.coded };

    ghost view = { λ w. w.calls.items };
}

impl Waits {
    pub fn new(alloc: Global) -> Waits
        ensures { result ≡ [] }
    {
        Waits {
            calls: Vec::new(alloc),
        }
    }

    /// Whether a call waits at the server.
    pub fn has(&self, server: u8) -> bool
        ensures { result ≡ is_waiting_at self.now server }
    {
        self.calls.iter().any(|call| call.server == server)
    }

    /// The call that came to wait last.
    #[tactic(auto, using(crate::proofs::WaitLemmas::first_got))]
    pub fn first(&self) -> Option<Waiting>
        ensures { result ≡ first_of self.now }
    {
        self.calls.first().copied()
    }

    /// A call of that number waits at the server from now on, whose answer is good for this. It was not asked for yet.
    pub fn put(&mut self, server: u8, number: u32, purpose: Purpose) -> Result<(), OutOfMemory>
        ensures ok { OnOk result (self.new ≡ record { server = server; number = number; purpose = purpose; asked = 0 } ∷ self.old) }
        ensures err { OnErr result (self.new ≡ self.old) }
    {
        let call = Waiting {
            server,
            number,
            purpose,
            asked: 0,
        };
        self.calls.insert(0, call)?;
        Ok(())
    }

    /// The call that came to wait last waits no more.
    #[tactic(auto, using(crate::proofs::WaitLemmas::behind_first, crate::proofs::WaitLemmas::none_behind))]
    pub fn take(&mut self)
        ensures { self.new ≡ others self.old }
    {
        if !self.calls.is_empty() {
            let _ = self.calls.remove(0);
        }
    }

    /// One collect more of that call was answered that it waits. Gives how many were.
    #[tactic(auto, using(crate::proofs::WaitLemmas::none_more, crate::proofs::WaitLemmas::none_asked, crate::proofs::WaitLemmas::first_asked, crate::proofs::WaitLemmas::first_count))]
    pub fn ask_again(&mut self) -> Option<u32>
        ensures calls { self.new ≡ one_more self.old }
        ensures count { result ≡ times_asked self.old }
    {
        if self.calls.is_empty() {
            return None;
        }
        let first = self.calls[0];
        let asked = first.asked.saturating_add(1);
        self.calls[0] = Waiting {
            server: first.server,
            number: first.number,
            purpose: first.purpose,
            asked,
        };
        Some(asked)
    }

    pub fn clear(&mut self)
        ensures { self.new ≡ [] }
    {
        self.calls.clear();
    }
}
