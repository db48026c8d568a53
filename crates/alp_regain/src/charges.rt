//! Charges of owners.
ghost use Rattle.std.specs.Prelude.{◌≡◌, ◌+◌, ◌<◌, ◌≤◌, ◌^◌, ℕ, List, IfOk, OnOk};
ghost use Rattle.std.specs.FinMap as map;
ghost use Rattle.alp_files.specs.Files.{cost};
ghost use Rattle.alp_regain.specs.Sums.{charge_at, pages_for, AreChargesOf, AreSmall};

use alp_base::{Cell, Key, Name, OutOfMemory};
use std::alloc::Global;
use std::collections::BTreeMap;
use std::marker::Model;

/// Numbers of pages by owners' names.
#[derive(Drop)]
pub(super) struct Charges {
    sums: BTreeMap<Name, u128>,
}

impl Model for Charges {
    ghost use Rattle.std.specs.FinMap as map;
    ghost use Rattle.std.specs.Coded.{coded_ℕ};
    ghost use Rattle.alp_base.specs.contracts.name.Name as name_type;
    ghost use Rattle.alp_regain.specs.Sums.{Charges as TheCharges};

    ghost Value = { TheCharges };

    ghost coded = { map.code name_type.the_row.coded coded_ℕ };

    ghost view = { λ c. map.from_entries c.sums.entries };
}

impl Charges {
    fn new(alloc: Global) -> Charges
        ensures { result ≡ map.empty }
    {
        Charges {
            sums: BTreeMap::new(alloc),
        }
    }

    /// What the owner is charged.
    pub(super) fn of(&self, owner: &Name) -> u128
        ensures { result ≡ charge_at self.now owner.now }
    {
        self.sums.get(owner).copied().unwrap_or(0)
    }

    // The owner is charged so many pages more.
    fn add(&mut self, owner: Name, pages: u32) -> Result<(), OutOfMemory>
        requires { charge_at self.old owner + pages < 2 ^ 128 }
        ensures more { OnOk result ((name : List ℕ) → charge_at self.new name ≡ charge_at self.old name + pages_for owner pages name) }
        ensures few { OnOk result ((name : List ℕ) → charge_at self.new name ≤ charge_at self.old name + 2 ^ 32) }
    {
        let before = self.of(&owner);
        self.sums.insert(owner, before + u128::from(pages))?;
        Ok(())
    }

    // What the cell costs its owner is charged too.
    fn add_cell(&mut self, cell: &Cell) -> Result<(), OutOfMemory>
        requires { (name : List ℕ) → charge_at self.old name + 2 ^ 32 ≤ 2 ^ 128 }
        ensures more { OnOk result ((name : List ℕ) → charge_at self.new name ≡ charge_at self.old name + cost name cell.now) }
        ensures few { OnOk result ((name : List ℕ) → charge_at self.new name ≤ charge_at self.old name + 2 ^ 32) }
    {
        match cell {
            Cell::Leader(props) => self.add(props.owner, props.size),
            _ => Ok(()),
        }
    }
}

/// What the cells cost their owners.
pub(super) fn charges_of(alloc: Global, cells: &[(Key, Cell)]) -> Result<Charges, OutOfMemory>
    ensures same { IfOk result (λ c. AreChargesOf c cells.now) }
    ensures small { IfOk result (λ c. AreSmall c) }
{
    let mut charges = Charges::new(alloc);
    for cell in cells {
        charges.add_cell(&cell.1)?;
    }
    Ok(charges)
}
