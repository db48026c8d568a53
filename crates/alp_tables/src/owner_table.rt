//! The owners of a volume in memory, in the order of their names.
ghost use Rattle.std.specs.Prelude.{◌≡◌, ◌<◌, ◌≤◌, IfOk, true, false, not, is_some};
ghost use Rattle.std.specs.FinMap as map;

use crate::table::find;
use alp_base::{Name, OutOfMemory};
use alp_vault::OWNERS_PER_SERVER;
use std::alloc::Global;
use std::marker::Model;

/// Owners by their names, in order, with room for all that a volume may have, and the row of each; seen as a finite map.
#[derive(Drop)]
pub struct OwnerTable {
    names: Vec<Name>,
    rows: Vec<u32>,
}

impl Model for OwnerTable {
    ghost use Rattle.std.specs.Prelude.{ℕ, List};
    ghost use Rattle.std.specs.FinMap as map;
    ghost use Rattle.std.specs.Coded.{coded_list, coded_ℕ};
    ghost use Rattle.alp_base.specs.Notes.{text_cmp};
    ghost use Rattle.alp_tables.specs.Tables.{rows_in, IsTable};

    ghost Value = { map.FinMap text_cmp ℕ };

    ghost coded = { map.code (coded_list coded_ℕ) coded_ℕ };

    ghost view = { λ t. rows_in text_cmp t.names.items t.rows.items };

    ghost invariant = { λ t. IsTable text_cmp 256 t.names.items t.rows.items t.names.cap t.rows.cap };
}

impl OwnerTable {
    /// No owner yet.
    pub fn new(alloc: Global) -> Result<OwnerTable, OutOfMemory>
        ensures { IfOk result (λ t. t ≡ map.empty) }
    {
        let names = Vec::with_capacity(alloc, OWNERS_PER_SERVER as usize)?;
        let rows = Vec::with_capacity(alloc, OWNERS_PER_SERVER as usize)?;
        Ok(OwnerTable { names, rows })
    }

    /// The names, in order.
    pub fn names(&self) -> &[Name]
        ensures { result.now ≡ map.keys self.now }
    {
        self.names.as_slice()
    }

    /// How many owners there are.
    pub fn len(&self) -> usize
        ensures count { result ≡ map.len self.now }
        ensures few { result ≤ OWNERS_PER_SERVER }
    {
        self.names.len()
    }

    /// The row of the owner, if the volume has it.
    pub fn get(&self, name: &Name) -> Option<u32>
        ensures { result ≡ map.get self.now name.now }
    {
        match find(self.names.as_slice(), name) {
            Ok(at) => Some(self.rows[at]),
            Err(_) => None,
        }
    }

    /// Adds an owner, unless it is there. It takes no memory.
    pub fn add(&mut self, name: Name, row: u32) -> bool
        requires { map.len self.old < OWNERS_PER_SERVER }
        ensures new { result ≡ not (is_some (map.get self.old name)) }
        ensures added { result ≡ true → self.new ≡ map.insert self.old name row }
        ensures same { result ≡ false → self.new ≡ self.old }
    {
        match find(self.names.as_slice(), &name) {
            Ok(_) => false,
            Err(at) => {
                let _ = self.names.insert(at, name);
                let _ = self.rows.insert(at, row);
                true
            }
        }
    }

    /// Takes the owner out, if it is there.
    pub fn remove(&mut self, name: &Name)
        ensures { self.new ≡ map.remove self.old name.now }
    {
        match find(self.names.as_slice(), name) {
            Ok(at) => {
                self.names.remove(at);
                self.rows.remove(at);
            }
            Err(_) => {}
        }
    }
}
