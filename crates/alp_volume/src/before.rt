//! Which places were taken before a change.
ghost use Rattle.std.specs.Prelude.{◌≡◌, ℕ, IfOk, OnOk, true, slice_index_or};
ghost use Rattle.std.specs.FinMap as map;
ghost use Rattle.alp_volume.specs.declared.catalog.Catalog.{Catalog as ACatalog};
ghost use Rattle.alp_volume.specs.Parts.{said, said_or, with_undo};
ghost use Rattle.alp_volume.specs.Undone.{Leads};

use crate::undo::Undo;
use alp_base::OutOfMemory;
use std::alloc::Global;
use std::collections::BTreeMap;
use std::marker::Model;

/// The places that a change took or freed, and whether each was taken before; seen as a finite map.
#[derive(Drop)]
pub struct Before {
    taken: BTreeMap<u32, bool>,
}

impl Model for Before {
    ghost use Rattle.std.specs.Prelude.{ℕ, Bool};
    ghost use Rattle.std.specs.FinMap as map;
    ghost use Rattle.std.specs.Ordering.{nat_cmp};
    ghost use Rattle.std.specs.Coded.{coded_ℕ, coded_bool};

    ghost Value = { map.FinMap nat_cmp Bool };

    ghost coded = { map.code coded_ℕ coded_bool };

    ghost view = { λ b. map.from_entries b.taken.entries };
}

impl Before {
    fn new(alloc: Global) -> Before
        ensures { result ≡ map.empty }
    {
        Before {
            taken: BTreeMap::new(alloc),
        }
    }

    /// Whether the place was taken, if the change took or freed it.
    pub fn get(&self, place: u32) -> Option<bool>
        ensures { result ≡ map.get self.now place }
    {
        self.taken.get(&place).copied()
    }

    fn put(&mut self, place: u32, taken: bool) -> Result<(), OutOfMemory>
        ensures { OnOk result (self.new ≡ map.insert self.old place taken) }
    {
        self.taken.insert(place, taken)?;
        Ok(())
    }

    // What is said first of a place stays.
    fn say(&mut self, place: u32, taken: bool) -> Result<(), OutOfMemory>
        ensures { OnOk result (self.new ≡ said place taken self.old) }
    {
        if self.get(place).is_some() {
            return Ok(());
        }
        self.put(place, taken)
    }

    fn add(&mut self, undo: &Undo) -> Result<(), OutOfMemory>
        ensures { OnOk result (self.new ≡ with_undo undo.now self.old) }
    {
        match *undo {
            Undo::PlaceTaken { place } => self.say(place, false),
            Undo::PlaceFreed { place } => self.say(place, true),
            Undo::FileKept { .. } => Ok(()),
            Undo::FileCame { .. } => Ok(()),
            Undo::FileWent { .. } => Ok(()),
            Undo::OwnerCame { .. } => Ok(()),
        }
    }

    /// That of a change, by how it is taken back.
    pub fn of(alloc: Global, undos: &[Undo]) -> Result<Before, OutOfMemory>
        ensures { IfOk result (λ b. (now old : ACatalog) → Leads undos.now now old → (p : ℕ) → said_or (map.get b p) (slice_index_or now.places p true) ≡ slice_index_or old.places p true) }
    {
        let mut before = Before::new(alloc);
        for undo in undos {
            before.add(undo)?;
        }
        Ok(before)
    }
}
