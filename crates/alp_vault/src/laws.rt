//! What follows from the counts of a part.
ghost use Rattle.std.specs.Prelude.{◌+◌, ◌*◌, ◌≤◌, ℕ, List};
ghost use Rattle.alp_base.specs.Notes.{Notes};
ghost use Rattle.alp_base.specs.declared.bytes.NoteChange.{NoteChange as ANoteChange};
ghost use Rattle.alp_base.specs.declared.change.Change.{Change as AChange};
ghost use Rattle.alp_vault.specs.Volumes.{AreServerNotes, AreNotesSoFar, AreNoteChanges, AreChangesSoFar, FitsLog, changed_cells};

/// The log has room for a commit wherever six pages for each cell that it changes, so many pages for its part's locks, and
/// thirty pages more are no more than the area.
pub fn counts_leave_log_room()
    ensures { (server servers area locks : ℕ) (live : Notes) (change : AChange) (changes : List ANoteChange)
        → AreChangesSoFar server servers live changes → 6 * changed_cells change + locks + 30 ≤ area → FitsLog area live change changes }
{}

/// What a server does with notes so far is what a commit asks of them; and in a run of one server all notes are such.
pub fn clocks_are_server_notes()
    ensures notes { (server servers : ℕ) (live : Notes) → AreNotesSoFar server servers live → AreServerNotes server servers live }
    ensures changes { (server servers : ℕ) (live : Notes) (changes : List ANoteChange) → AreChangesSoFar server servers live changes → AreNoteChanges server servers live changes }
    ensures alone { (notes : Notes) → AreServerNotes 1 1 notes → AreNotesSoFar 1 1 notes }
{}
