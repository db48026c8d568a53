//! What a request comes to.
ghost use Rattle.std.specs.Prelude.{◌≡◌, IfOk, OnOk, OnErr};
ghost use Rattle.std.specs.FinMap as map;
ghost use Rattle.std.specs.BTreeMap.{IsOrdered};
ghost use Rattle.alp_base.specs.Orders.{resource_cmp};

use alp_base::{Key, OutOfMemory, Resource};
use alp_modes::Mode;
use std::alloc::Global;
use std::collections::BTreeMap;
use std::marker::Model;

/// A mode on each of some resources, seen as a finite map.
#[derive(Drop)]
pub struct Modes {
    modes: BTreeMap<Resource, Mode>,
}

impl Model for Modes {
    ghost use Rattle.std.specs.FinMap as map;
    ghost use Rattle.alp_base.specs.Orders.{resource_cmp};
    ghost use Rattle.alp_modes.specs.declared.Mode.{Mode as TheMode};
    ghost use Rattle.alp_base.specs.contracts.key.Resource as resource_type;
    ghost use Rattle.alp_modes.specs.contracts.Mode as mode_type;

    ghost Value = { map.FinMap resource_cmp TheMode };

    ghost coded = { map.code resource_type.the_row.coded mode_type.the_row.coded };

    ghost view = { λ l. map.from_entries l.modes.entries };
}

impl Modes {
    /// No modes at all.
    pub fn new(alloc: Global) -> Modes
        ensures { result ≡ map.empty }
    {
        Modes {
            modes: BTreeMap::new(alloc),
        }
    }

    /// The mode on that resource, if any.
    pub fn get(&self, resource: &Resource) -> Option<Mode>
        ensures { result ≡ map.get self.now resource.now }
    {
        self.modes.get(resource).copied()
    }

    /// The mode stands on that resource from now on.
    pub fn put(&mut self, resource: Resource, mode: Mode) -> Result<(), OutOfMemory>
        ensures ok { OnOk result (self.new ≡ map.insert self.old resource mode) }
        ensures err { OnErr result (self.new ≡ self.old) }
    {
        // The check of a move of a resource wants the type of keys in sight.
        let _keys: Option<Key> = None;
        self.modes.insert(resource, mode)?;
        Ok(())
    }

    /// All of them, in the order of the resources.
    pub fn entries(&self, alloc: Global) -> Result<Vec<(Resource, Mode)>, OutOfMemory>
        ensures { IfOk result (λ v. v.items ≡ map.entries self.now) }
    {
        let list = listed(alloc, &self.modes)?;
        Ok(list)
    }
}

// The entries of the tree.
fn listed(
    alloc: Global,
    modes: &BTreeMap<Resource, Mode>,
) -> Result<Vec<(Resource, Mode)>, OutOfMemory>
    ensures listed { IfOk result (λ v. v.items ≡ modes.now.entries) }
    ensures rising { IsOrdered resource_cmp modes.now }
{
    let mut list = Vec::new(alloc);
    for (resource, mode) in modes.iter() {
        list.push((*resource, *mode))?;
    }
    Ok(list)
}
