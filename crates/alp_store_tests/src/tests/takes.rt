//! Whether a vault can take a commit, as far as it asks for one whatever it tells.
ghost use Rattle.std.specs.Prelude.{◌≡◌, ◌+◌, ◌*◌, ◌≤◌, [], ◌∷◌, true, IsTrue};
ghost use Rattle.alp_base.specs.declared.bytes.NoteChange.{NoteChange as ANoteChange};
ghost use Rattle.alp_fields.specs.ClockNote.{IsClockNote};
ghost use Rattle.alp_files.specs.Changes.{ArePutOnce};
ghost use Rattle.alp_vault.specs.Volumes.{IsCommit, changed_cells, fits_key as fits_key_said, fit_keys as fit_keys_said};

use alp_base::{Cell, Change, Key, NoteChange, PAGES_PER_FILE};
use alp_calls::are_server_notes;
use alp_vault::Vault;

// A cell is of its key's kind, and within the limits of a file.
fn fits_key(key: &Key, cell: &Cell) -> bool
    ensures { result ≡ fits_key_said key.now cell.now }
{
    match key {
        Key::Leader(_) => match cell {
            Cell::Leader(props) => props.size <= PAGES_PER_FILE,
            _ => false,
        },
        Key::PageOf(_, number) => match cell {
            Cell::Page(_) => *number < PAGES_PER_FILE,
            _ => false,
        },
        Key::OwnerOf(name) => match cell {
            Cell::Owner(record) => record.name == *name,
            _ => false,
        },
    }
}

fn fit_keys(puts: &[(Key, Cell)]) -> bool
    ensures { result ≡ fit_keys_said puts.now }
{
    puts.iter().all(|put| fits_key(&put.0, &put.1))
}

// Whether the log has room for a commit of the change.
fn log_has_room(area: u32, change: &Change) -> bool
    ensures { result ≡ true → 6 * changed_cells change.now + 30 ≤ area }
{
    let puts = change.puts.as_slice().len() as u128;
    let cuts = change.cuts.as_slice().len() as u128;
    let drops = change.drops.as_slice().len() as u128;
    6 * (puts + cuts + drops) + 30 <= u128::from(area)
}

// Whether the vault can take a commit of the change with the note of the clock.
pub(super) fn can_take<V: Vault>(vault: &V, change: &Change, notes: &[NoteChange]) -> bool
    requires serving { IsTrue (V.serves vault.now) }
    requires once { ArePutOnce change.now.puts }
    requires clock { (n : ANoteChange) × (notes.now ≡ n ∷ []) × IsClockNote n }
    ensures { result ≡ true → IsCommit (V.volume vault.now) (V.server vault.now) (V.servers vault.now) (V.held vault.now).notes change.now notes.now }
{
    if !fit_keys(change.puts.as_slice()) {
        return false;
    }
    if !log_has_room(vault.sizes().area, change) {
        return false;
    }
    are_server_notes(vault)
}
