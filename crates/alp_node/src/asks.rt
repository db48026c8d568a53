//! What is asked of the lock table for what a call needs.
ghost use Rattle.std.specs.Prelude.{◌≡◌, ◌∷◌, ◌++◌, Some, None, IfOk, OnOk, if◌then◌else◌};
ghost use Rattle.std.specs.Ordering.{eq_by_cmp};
ghost use Rattle.alp_base.specs.Orders.{resource_cmp};
ghost use Rattle.alp_files.specs.Holdings.{join_held as join_held_said, covers_held, held_by, file_of as file_of_said, given_to, intention_of as intention_of_said};
ghost use Rattle.alp_files.specs.Locks.{joined, wholes_of, intention_on, asked_on, request_of};
ghost use Rattle.alp_base.specs.declared.key.Resource.TheVariants.{Leaf};
ghost use Rattle.alp_locks.specs.Tables.{holding};
ghost use Rattle.alp_node.specs.Asks.{asks_made as asks_made_of};

use crate::server_state::ServerState;
use alp_base::{FileId, Key, OutOfMemory, Resource, TransId};
use alp_modes::{Mode, covers, join, leaf_of};
use alp_queue::Needs;
use alp_vault::Vault;
use std::alloc::Global;

impl<V: Vault> ServerState<V> {
    /// What is asked for these needs of a transaction: a leaf is not asked that the lock on its file gives, be it held or asked here.
    pub fn request(&self, trans: TransId, needs: &[(Resource, Mode)]) -> Result<Needs, OutOfMemory>
        ensures { IfOk result (λ ns. ns ≡ request_of (holding self.now.locks.held trans) needs.now) }
    {
        let wholes = wholes_in(self.alloc, needs)?;
        let mut asked = Vec::new(self.alloc);
        for (resource, mode) in needs {
            self.push_asked(&mut asked, trans, wholes.as_slice(), resource, *mode)?;
        }
        Ok(Needs::new(asked))
    }

    // What is asked for one need more, beside whole files.
    fn push_asked(
        &self,
        asked: &mut Vec<(Resource, Mode)>,
        trans: TransId,
        wholes: &[(Resource, Mode)],
        resource: &Resource,
        mode: Mode,
    ) -> Result<(), OutOfMemory>
        ensures { OnOk result (asked.new.items ≡ asked.old.items ++ asked_on (joined (holding self.now.locks.held trans) wholes.now) resource.now mode) }
    {
        match resource {
            Resource::Whole(_) => {
                asked.push((*resource, mode))?;
                Ok(())
            }
            Resource::Leaf(key) => {
                if self.gives(trans, wholes, key, mode) {
                    return Ok(());
                }
                push_leaf(asked, key, mode)
            }
        }
    }

    // Whether the lock on the leaf's file gives that.
    fn gives(&self, trans: TransId, wholes: &[(Resource, Mode)], key: &Key, mode: Mode) -> bool
        ensures { result ≡ covers_held (given_to (joined (holding self.now.locks.held trans) wholes.now) key.now) mode }
    {
        match self.given(trans, wholes, key) {
            Some(given) => covers(given, mode),
            None => false,
        }
    }

    // What it gives.
    fn given(&self, trans: TransId, wholes: &[(Resource, Mode)], key: &Key) -> Option<Mode>
        ensures { result ≡ given_to (joined (holding self.now.locks.held trans) wholes.now) key.now }
    {
        let Some(file) = file_of(key) else {
            return None;
        };
        let whole = Resource::Whole(file);
        let asked = mode_in(wholes, &whole);
        match join_held(self.locks.mode_of(trans, &whole), asked) {
            Some(mode) => leaf_of(mode),
            None => None,
        }
    }
}

// What two modes come to, either of which may be missing.
fn join_held(one: Option<Mode>, other: Option<Mode>) -> Option<Mode>
    ensures { result ≡ join_held_said one other }
{
    match (one, other) {
        (Some(a), Some(b)) => Some(join(a, b)),
        (Some(a), None) => Some(a),
        (None, b) => b,
    }
}

// The mode of a need, where it is one on the resource.
fn mode_at(need: &(Resource, Mode), at: &Resource) -> Option<Mode>
    ensures { result ≡ if eq_by_cmp resource_cmp at.now need.now.0 then Some need.now.1 else None }
{
    if at.cmp(&need.0).is_eq() {
        return Some(need.1);
    }
    None
}

// What a list comes to on a resource.
fn mode_in(needs: &[(Resource, Mode)], at: &Resource) -> Option<Mode>
    ensures { result ≡ held_by needs.now at.now }
{
    let mut mode = None;
    for need in needs {
        mode = join_held(mode, mode_at(need, at));
    }
    mode
}

// The whole files among the needs.
fn wholes_in(
    alloc: Global,
    needs: &[(Resource, Mode)],
) -> Result<Vec<(Resource, Mode)>, OutOfMemory>
    ensures { IfOk result (λ v. v.items ≡ wholes_of needs.now) }
{
    let mut wholes = Vec::new(alloc);
    for need in needs {
        if let Resource::Whole(_) = need.0 {
            wholes.push(*need)?;
        }
    }
    Ok(wholes)
}

// The file that a leaf is in.
fn file_of(key: &Key) -> Option<FileId>
    ensures { result ≡ file_of_said key.now }
{
    match key {
        Key::Leader(file) => Some(*file),
        Key::PageOf(file, _) => Some(*file),
        Key::OwnerOf(_) => None,
    }
}

// The least mode to hold on a file beside a lock on a leaf of it.
#[tactic(auto, unfolding(alp_files::specs::Holdings::intention_of))]
fn intention_of(mode: Mode) -> Mode
    ensures { result ≡ intention_of_said mode }
{
    match mode {
        Mode::IntendRead | Mode::Read => Mode::IntendRead,
        _ => Mode::IntendWrite,
    }
}

// A leaf, and with it the intention on its file.
fn push_leaf(asked: &mut Vec<(Resource, Mode)>, key: &Key, mode: Mode) -> Result<(), OutOfMemory>
    ensures { OnOk result (asked.new.items ≡ asked.old.items ++ (Leaf key.now, mode) ∷ intention_on (file_of_said key.now) mode) }
{
    asked.push((Resource::Leaf(*key), mode))?;
    if let Some(file) = file_of(key) {
        asked.push((Resource::Whole(file), intention_of(mode)))?;
    }
    Ok(())
}

/// The same needs with the lock on the file that a call makes, which gets this id.
pub fn asks_made(alloc: Global, id: FileId, asked: &Needs) -> Result<Needs, OutOfMemory>
    ensures { IfOk result (λ n. n ≡ asks_made_of id asked.now) }
{
    let list = asked.as_slice();
    let mut needs = Vec::new(alloc);
    for need in list {
        needs.push(*need)?;
    }
    needs.push((Resource::Whole(id), Mode::Write))?;
    Ok(Needs::new(needs))
}
