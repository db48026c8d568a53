//! Taking changes of what memory keeps back, which takes no memory.
ghost use Rattle.std.specs.Prelude.{◌≡◌};
ghost use Rattle.alp_volume.specs.declared.catalog.Catalog.{Catalog as ACatalog};
ghost use Rattle.alp_volume.specs.Undone.{CanUndo, Leads, undo_one};

use crate::catalog::Catalog;
use crate::undo::Undo;

impl Catalog {
    // Takes the last change back.
    fn undo(&mut self, undo: Undo)
        requires { CanUndo undo self.old }
        ensures { self.new ≡ undo_one undo self.old }
    {
        match undo {
            Undo::PlaceTaken { place } => self.places.release(place),
            Undo::PlaceFreed { place } => {
                let _ = self.places.mark(place);
            }
            Undo::FileKept { file, kept } => self.files.put(file, kept),
            Undo::FileCame { file, slot } => {
                self.files.remove(file);
                self.slots.release(slot);
            }
            Undo::FileWent { file, kept } => {
                let _ = self.files.add(file, kept);
                let _ = self.slots.mark(kept.slot);
            }
            Undo::OwnerCame { owner, row } => {
                self.owners.remove(&owner);
                self.rows.release(row);
            }
        }
    }

    /// Takes changes back, the last one first.
    pub fn take_back(&mut self, undos: &mut Vec<Undo>)
        requires led { (first : ACatalog) × Leads undos.old.items self.old first }
        ensures { (first : ACatalog) → Leads undos.old.items self.old first → self.new ≡ first }
    {
        while let Some(undo) = undos.pop() {
            self.undo(undo);
        }
    }
}
