//! Notes of a server so far: none but that of its epoch and clock.
ghost use Rattle.std.specs.Prelude.{◌≡◌, IsTrue, true, false};
ghost use Rattle.std.specs.FinMap as map;
ghost use Rattle.alp_calls.specs.ServerNotes.{is_good as is_good_said};
ghost use Rattle.alp_fields.specs.ClockNote.{is_clock_note as is_clock_note_said};
ghost use Rattle.alp_vault.specs.Volumes.{AreNotesSoFar};

use alp_base::Bytes;
use alp_fields::{is_clock_name, read_clock};
use alp_vault::Vault;

fn is_clock_note(name: &Bytes, value: &Bytes) -> bool
    ensures { result ≡ is_clock_note_said name.now value.now }
{
    is_clock_name(name.as_slice()) && read_clock(value.as_slice()).is_some()
}

// Whether the note of that name is, if it stands.
fn is_good<V: Vault>(vault: &V, name: &Bytes) -> bool
    requires { IsTrue (V.serves vault.now) }
    ensures { result ≡ is_good_said name.now (map.get (V.held vault.now).notes name.now) }
{
    match vault.note(name) {
        Some(value) => is_clock_note(name, value),
        None => true,
    }
}

/// Whether no note stands but that of the epoch and the clock.
pub fn are_server_notes<V: Vault>(vault: &V) -> bool
    requires { IsTrue (V.serves vault.now) }
    ensures good { result ≡ true → AreNotesSoFar (V.server vault.now) (V.servers vault.now) (V.held vault.now).notes }
    ensures bad { result ≡ false → AreNotesSoFar (V.server vault.now) (V.servers vault.now) (V.held vault.now).notes → ⊥ }
{
    let names = vault.note_names();
    for name in names {
        if !is_good(vault, name) {
            return false;
        }
    }
    true
}
