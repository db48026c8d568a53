//! Waiters in the order in which they are tried.
ghost use Rattle.std.specs.Prelude.{◌≡◌, ◌<◌, [], length, position, not, ◌&&◌, OnOk, OnErr, slice_get, Some};
ghost use Rattle.std.specs.List.{remove as removed};
ghost use Rattle.alp_queue.specs.Order.{placed, place_in, waits, without, IsByArrival};
ghost use Rattle.alp_queue.specs.Conversions.{StaysFirst};

use crate::Waiter;
use alp_base::{OutOfMemory, TransId};
use std::alloc::Global;
use std::marker::Model;

/// Waiters, conversions first and then by arrival, seen as a list.
#[derive(Drop)]
pub struct Queue {
    waiters: Vec<Waiter>,
}

impl Model for Queue {
    ghost use Rattle.std.specs.Prelude.{List};
    ghost use Rattle.alp_queue.specs.declared.waiter.Waiter.{Waiter as TheWaiter};
    ghost use Rattle.alp_queue.specs.contracts.waiter.Waiter as waiter_type;
    ghost use Rattle.std.specs.Coded.{coded_list};

    ghost Value = { List TheWaiter };

    ghost coded = { coded_list waiter_type.the_row.coded };

    ghost view = { λ q. q.waiters.items };
}

impl Queue {
    /// Nobody waits.
    pub fn new(alloc: Global) -> Queue
        ensures { result ≡ [] }
    {
        Queue {
            waiters: Vec::new(alloc),
        }
    }

    /// Those who wait, in the order in which they are walked: conversions first, then by arrival.
    pub fn waiters(&self) -> &[Waiter]
        ensures { result.now ≡ self.now }
    {
        self.waiters.as_slice()
    }

    /// Whether a request of that transaction waits.
    pub fn has(&self, trans: &TransId) -> bool
        ensures { result ≡ waits self.now trans.now }
    {
        self.waiters
            .iter()
            .any(|waiter| trans.cmp(&waiter.trans).is_eq())
    }

    /// Lets a waiter in, behind those of its kind.
    pub fn enter(&mut self, waiter: Waiter) -> Result<(), OutOfMemory>
        ensures ok { OnOk result (self.new ≡ placed self.old waiter) }
        ensures err { OnErr result (self.new ≡ self.old) }
    {
        let at = place_of(self.waiters.as_slice(), waiter.converts);
        self.waiters.insert(at, waiter)?;
        Ok(())
    }

    /// Takes the waiter at that place out, and takes no memory.
    pub fn take(&mut self, at: usize) -> Waiter
        requires { at < length self.old }
        ensures taken { slice_get self.old at ≡ Some result }
        ensures others { self.new ≡ removed self.old at }
    {
        self.waiters.remove(at)
    }

    /// Takes the request of that transaction out, if one waits, and takes no memory.
    pub fn withdraw(&mut self, trans: &TransId)
        ensures { self.new ≡ without self.old trans.now }
    {
        self.waiters
            .retain(|waiter| !trans.cmp(&waiter.trans).is_eq());
    }
}

// The first that a waiter comes before, which converts or does not.
fn first_behind(waiters: &[Waiter], converts: bool) -> Option<usize>
    ensures { result ≡ position (λ w. converts && not w.converts) waiters.now }
{
    waiters
        .iter()
        .position(|waiter| converts && !waiter.converts)
}

// Where it comes.
fn place_of(waiters: &[Waiter], converts: bool) -> usize
    ensures { result ≡ place_in waiters.now converts }
{
    first_behind(waiters, converts).unwrap_or(waiters.len())
}

/// Waiters that come one after another are tried conversions first, and those of each kind in the
/// order in which they came.
pub fn conversions_come_first()
    ensures { IsByArrival }
{}

/// Conversions stand first and the others behind them: where nobody waits, and after each call that lets a waiter in or
/// out, whoever leaves and from whatever place.
pub fn conversions_stay_first()
    ensures { StaysFirst }
{}
