//! Calls that wait for their locks, or have them and are not collected.
ghost use Rattle.std.specs.Prelude.{◌≡◌, ◌≤◌, ◌++◌, ◌∷◌, [], IfOk, OnOk, OnErr, List, find, length, vec_capacity};
ghost use Rattle.std.specs.Option.{option_copied as copied};
ghost use Rattle.alp_journal.specs.State.{is_this};
ghost use Rattle.alp_node.specs.Waits.{is_of as is_of_said, is_other_at as is_other_at_said, is_file_on, has_waiting, has_file_on, call_at, count_asked, locks_of as locks_of_said, grant_of, without_calls_of, without_other_at, without_dead, has_part as has_part_said, live_calls};
ghost use Rattle.alp_node.specs.declared.waits.WaitingCall.{WaitingCall as ACall};

use crate::dead::{Dead, is_same};
use crate::lock_counts::LockCounts;
use alp_base::{OutOfMemory, TransId};
use alp_coord::Coordinator;
use alp_files::Call;
use alp_worker::Joins;
use std::alloc::Global;
use std::marker::Model;

/// A call that waits: whose it is, its number, the transaction of its part, and of a file call how many resources the part has
/// locked once it has the locks of the call.
#[derive(Drop)]
pub struct WaitingCall {
    pub client: u8,
    pub number: u32,
    pub trans: TransId,
    pub call: Call,
    pub counts: Option<LockCounts>,
    pub is_granted: bool,
}

/// A call that shares the pages of the other.
pub fn copy_of(call: &Call) -> Result<Call, OutOfMemory>
    ensures { IfOk result (λ copy. copy ≡ call.now) }
{
    let copy = call.clone()?;
    Ok(copy)
}

/// The calls that wait, in the order in which they came, at most one of each part.
#[derive(Drop)]
pub struct Waits {
    calls: Vec<WaitingCall>,
}

impl Model for Waits {
    ghost use Rattle.std.specs.Prelude.{List};
    ghost use Rattle.alp_node.specs.declared.waits.WaitingCall.{WaitingCall};

    ghost Value = { List WaitingCall };

    ghost view = { λ w. w.calls.items };
}

impl Waits {
    pub fn new(alloc: Global) -> Waits
        ensures { result ≡ [] }
    {
        Waits {
            calls: Vec::new(alloc),
        }
    }

    /// Whether a call of the client's part of the transaction waits.
    pub fn has(&self, client: u8, trans: &TransId) -> bool
        ensures { result ≡ has_waiting client trans.now self.now }
    {
        self.calls.iter().any(|call| is_of(call, client, trans))
    }

    /// The client's call with this number, if it waits.
    pub fn get(&self, client: u8, number: u32) -> Option<&WaitingCall>
        ensures { copied result ≡ call_at client number self.now }
    {
        self.calls
            .iter()
            .find(|call| call.client == client && call.number == number)
    }

    /// How many resources the transaction has locked once its call has its locks.
    pub fn locks_of(&self, trans: &TransId) -> Option<u32>
        ensures { result ≡ locks_of_said trans.now self.now }
    {
        match self.file_on(trans) {
            Some(call) => call.asked(),
            None => None,
        }
    }

    // The first file call of the transaction that waits.
    fn file_on(&self, trans: &TransId) -> Option<&WaitingCall>
        ensures { copied result ≡ find (is_file_on trans.now) self.now }
    {
        self.calls.iter().find(|call| is_on(call, trans))
    }

    /// A call waits from now on.
    pub fn push(&mut self, call: WaitingCall) -> Result<(), OutOfMemory>
        ensures ok { OnOk result (self.new ≡ self.old ++ call ∷ []) }
        ensures err { OnErr result (self.new ≡ self.old) }
    {
        self.calls.push(call)?;
        Ok(())
    }

    /// Takes the last push back.
    pub fn take_back(&mut self)
        ensures { (before : List ACall) (last : ACall) → self.old ≡ before ++ last ∷ [] → self.new ≡ before }
    {
        let _ = self.calls.pop();
    }

    /// The file call of the transaction has its locks.
    pub fn grant(&mut self, trans: &TransId)
        ensures { self.new ≡ grant_of trans.now self.old }
    {
        for call in self.calls.iter_mut() {
            if is_on(call, trans) {
                call.is_granted = true;
            }
        }
    }

    /// No call of the client's part waits any more.
    pub fn remove_of(&mut self, client: u8, trans: &TransId)
        ensures { self.new ≡ without_calls_of client trans.now self.old }
    {
        self.calls.retain(|call| !is_of(call, client, trans));
    }

    /// Whether a file call of the transaction waits, whosever it is.
    pub fn has_on(&self, trans: &TransId) -> bool
        ensures { result ≡ has_file_on trans.now self.now }
    {
        self.calls.iter().any(|call| is_on(call, trans))
    }

    /// The client's Join or Finish with this number waits no more.
    pub fn remove_other(&mut self, client: u8, number: u32)
        ensures { self.new ≡ without_other_at client number self.old }
    {
        self.calls.retain(|call| !is_other_at(call, client, number));
    }

    /// A call waits from now on, and the calls of the client's parts that ended wait no more.
    pub fn push_and_bury(&mut self, call: WaitingCall, dead: &Dead) -> Result<(), OutOfMemory>
        ensures ok { OnOk result (self.new ≡ without_dead call.client dead.now self.old ++ call ∷ []) }
        ensures err { OnErr result (self.new ≡ self.old) }
    {
        self.calls.reserve(1)?;
        bury_in(&mut self.calls, call.client, dead);
        self.calls.push_reserved(call);
        Ok(())
    }

    /// The calls of the client's parts that ended wait no more.
    pub fn bury(&mut self, client: u8, dead: &Dead)
        ensures { self.new ≡ without_dead client dead.now self.old }
    {
        bury_in(&mut self.calls, client, dead);
    }

    /// Of the client's calls those alone wait on whose parts are live.
    pub fn clear(&mut self, client: u8, coordinator: &Coordinator, joins: &Joins)
        ensures { self.new ≡ live_calls client coordinator.now joins.now self.old }
    {
        self.calls.retain(|call| call.client != client
            || has_part(coordinator, joins, client, &call.trans));
    }
}

impl WaitingCall {
    // How many resources the part has locked once it has the locks of the call, where it is a file call.
    fn asked(&self) -> Option<u32>
        ensures { result ≡ count_asked self.now.counts }
    {
        match &self.counts {
            Some(counts) => Some(counts.asked),
            None => None,
        }
    }
}

// Whether the client has a live part of the transaction here.
fn has_part(coordinator: &Coordinator, joins: &Joins, client: u8, trans: &TransId) -> bool
    ensures { result ≡ has_part_said client coordinator.now joins.now trans.now }
{
    is_this(coordinator.client(trans), client) || joins.part_of(client, trans).is_some()
}

// Whether it is this client.
fn is_this(owner: Option<u8>, client: u8) -> bool
    ensures { result ≡ is_this client owner }
{
    match owner {
        Some(owner) => owner == client,
        None => false,
    }
}

// Whether it is a file call of the transaction.
fn is_on(call: &WaitingCall, trans: &TransId) -> bool
    ensures { result ≡ is_file_on trans.now call.now }
{
    call.counts.is_some() && is_same(&call.trans, trans)
}

// Whether it is the client's Join or Finish with this number.
fn is_other_at(call: &WaitingCall, client: u8, number: u32) -> bool
    ensures { result ≡ is_other_at_said client number call.now }
{
    call.client == client && call.number == number && call.counts.is_none()
}

// The calls of the client's parts that ended go.
fn bury_in(calls: &mut Vec<WaitingCall>, client: u8, dead: &Dead)
    ensures left { calls.new.items ≡ without_dead client dead.now calls.old.items }
    ensures bound { length calls.new.items ≤ length calls.old.items }
    ensures capacity { vec_capacity calls.new ≡ vec_capacity calls.old }
{
    calls.retain(|call| call.client != client || dead.cause(client, &call.trans).is_none());
}

// Whether it is a call of the client's part of the transaction.
fn is_of(call: &WaitingCall, client: u8, trans: &TransId) -> bool
    ensures { result ≡ is_of_said client trans.now call.now }
{
    call.client == client && is_same(&call.trans, trans)
}
