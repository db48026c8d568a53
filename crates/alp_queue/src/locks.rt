//! What one transaction holds.
ghost use Rattle.std.specs.Prelude.{◌≡◌, IfOk, map as list_map};
ghost use Rattle.std.specs.Option.{option_or};
ghost use Rattle.std.specs.FinMap as map;
ghost use Rattle.std.specs.FinMap.{find};
ghost use Rattle.alp_base.specs.Orders.{resource_cmp};
ghost use Rattle.alp_queue.specs.Rises.{wanted_of};
ghost use Rattle.alp_queue.specs.Trees.{AreRising};
ghost use Rattle.alp_queue.specs.Reach.{reach_of, disagrees_with};

use crate::tree::{Tree, get, list, look_up, put_all, share};
use crate::{Modes, Wanted};
use alp_base::{OutOfMemory, Resource};
use alp_modes::{Mode, agrees, join};
use std::alloc::Global;
use std::marker::Model;

/// A mode on each resource that a transaction has locked, seen as a finite map. It is never changed, and a second one
/// that is the same, or holds a few more, shares its parts: neither costs a copy of what is held.
#[derive(Drop)]
pub struct Locks {
    alloc: Global,
    tree: Tree,
    // Covers each mode that is here.
    reach: Option<Mode>,
}

impl Model for Locks {
    ghost use Rattle.std.specs.FinMap as map;
    ghost use Rattle.alp_base.specs.Orders.{resource_cmp};
    ghost use Rattle.alp_modes.specs.declared.Mode.{Mode as TheMode};
    ghost use Rattle.alp_base.specs.contracts.key.Resource as resource_type;
    ghost use Rattle.alp_modes.specs.contracts.Mode as mode_type;
    ghost use Rattle.std.specs.FinMap.{find};
    ghost use Rattle.alp_queue.specs.Trees.{entries, AreRising};
    ghost use Rattle.alp_queue.specs.Reach.{IsReach};

    ghost Value = { map.FinMap resource_cmp TheMode };

    ghost coded = { map.code resource_type.the_row.coded mode_type.the_row.coded };

    ghost view = { λ l. map.from_sorted (entries l.tree) };

    ghost invariant = { λ l. AreRising (entries l.tree) × IsReach l.reach (λ r. find resource_cmp r (entries l.tree)) };
}

impl Locks {
    /// No locks at all.
    pub fn new(alloc: Global) -> Locks
        ensures { result ≡ map.empty }
    {
        Locks {
            alloc,
            tree: Tree::Empty,
            reach: None,
        }
    }

    /// The mode on that resource, if any.
    pub fn get(&self, resource: &Resource) -> Option<Mode>
        ensures { result ≡ map.get self.now resource.now }
    {
        get(&self.tree, resource)
    }

    /// Whether a mode is here on that resource that does not agree with this one. It is not looked up where all that is here
    /// agrees with it.
    pub fn disagrees_on(&self, resource: &Resource, mode: Mode) -> bool
        ensures { result ≡ disagrees_with mode (map.get self.now resource.now) }
    {
        if !disagrees(self.reach, mode) {
            return false;
        }
        disagrees(self.get(resource), mode)
    }

    /// The same locks once more, which copies none of them.
    pub fn share(&self) -> Result<Locks, OutOfMemory>
        ensures { IfOk result (λ l. l ≡ self.now) }
    {
        let tree = share(&self.tree)?;
        Ok(Locks {
            alloc: self.alloc,
            tree,
            reach: self.reach,
        })
    }

    /// All modes, by their resources.
    pub fn list(&self) -> Result<Vec<(Resource, Mode)>, OutOfMemory>
        ensures { IfOk result (λ v. v.items ≡ map.entries self.now) }
    {
        let mut modes = Vec::new(self.alloc);
        list(&self.tree, &mut modes)?;
        Ok(modes)
    }

    /// What is held of the resources that are asked, in their order. It looks all up in one walk, and costs what is asked.
    pub fn look_up(&self, asked: &Modes) -> Result<Vec<Wanted>, OutOfMemory>
        ensures { IfOk result (λ v. v.items ≡ list_map (wanted_of (map.get self.now)) (map.entries asked.now)) }
    {
        let list = asked.entries(self.alloc)?;
        let mut found = Vec::with_capacity(self.alloc, list.len())?;
        look_up(&self.tree, list.as_slice(), &mut found)?;
        Ok(found)
    }

    /// These locks with those modes in place of what was there, whose resources rise. It costs what is put, and not what
    /// is here.
    pub fn with_all(&self, modes: &[(Resource, Mode)]) -> Result<Locks, OutOfMemory>
        requires { AreRising modes.now }
        ensures { IfOk result (λ l. (r : _) → map.get l r ≡ option_or (find resource_cmp r modes.now) (map.get self.now r)) }
    {
        let tree = put_all(self.alloc, &self.tree, modes)?;
        Ok(Locks {
            alloc: self.alloc,
            tree,
            reach: reached(self.reach, modes),
        })
    }
}

// Whether there is a mode that does not agree with this one.
fn disagrees(held: Option<Mode>, mode: Mode) -> bool
    ensures { result ≡ disagrees_with mode held }
{
    match held {
        Some(held) => !agrees(held, mode),
        None => false,
    }
}

// The mode that covers all of these, and what that one covers.
fn reached(reach: Option<Mode>, modes: &[(Resource, Mode)]) -> Option<Mode>
    ensures { result ≡ reach_of reach modes.now }
{
    let mut reach = reach;
    for (_, mode) in modes {
        let most = match reach {
            Some(before) => join(before, *mode),
            None => *mode,
        };
        reach = Some(most);
    }
    reach
}
