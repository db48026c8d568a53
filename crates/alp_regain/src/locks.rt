//! Locks of ready parts: their modes, the intentions beside them, and what they let a part write.
ghost use Rattle.std.specs.Prelude.{◌≡◌};
ghost use Rattle.std.specs.List.{list_all};
ghost use Rattle.std.specs.Option.{option_and_then};
ghost use Rattle.alp_files.specs.Changes.{edits_of};
ghost use Rattle.alp_files.specs.Holdings.{covers_held, file_of as file_of_said, given_to as given_to_said, mode_on as mode_on_said, join_held as join_held_said, intention_of as intention_of_said};
ghost use Rattle.alp_base.specs.declared.key.Resource.TheVariants.{Whole};
ghost use Rattle.alp_modes.specs.Modes.{leaf_of as leaf_of_said};
ghost use Rattle.alp_modes.specs.declared.Mode.TheVariants.{Write as ToWrite};
ghost use Rattle.alp_locks.specs.Tables.{holding};
ghost use Rattle.alp_regain.specs.Named.{is_leaf_mode as is_leaf_mode_said, is_mode_on as is_mode_on_said, has_intention as has_intention_said, is_beside_intention as is_beside_intention_said, is_covered};

use crate::ids::are_all;
use alp_base::{Cell, Change, FileId, Key, Resource, TransId};
use alp_locks::LockTable;
use alp_modes::{Mode, covers, join, leaf_of};

// ---- modes

fn is_leaf_mode(mode: Mode) -> bool
    ensures { result ≡ is_leaf_mode_said mode }
{
    matches!(mode, Mode::Read | Mode::Update | Mode::Write)
}

fn is_mode_on(at: &Resource, mode: Mode) -> bool
    ensures { result ≡ is_mode_on_said at.now mode }
{
    match at {
        Resource::Whole(_) => true,
        Resource::Leaf(_) => is_leaf_mode(mode),
    }
}

/// Whether each leaf is locked to be read, to be read and perhaps written, or to be written.
pub(super) fn have_modes(locks: &[(Resource, Mode)]) -> bool
    ensures { result ≡ list_all (λ l. is_mode_on_said l.0 l.1) locks.now }
{
    locks.iter().all(|lock| is_mode_on(&lock.0, lock.1))
}

// ---- what is held on a file

fn file_of(key: &Key) -> Option<FileId>
    ensures { result ≡ file_of_said key.now }
{
    match key {
        Key::Leader(file) => Some(*file),
        Key::PageOf(file, _) => Some(*file),
        Key::OwnerOf(_) => None,
    }
}

#[tactic(auto, unfolding(alp_files::specs::Holdings::intention_of))]
fn intention_of(mode: Mode) -> Mode
    ensures { result ≡ intention_of_said mode }
{
    match mode {
        Mode::IntendRead | Mode::Read => Mode::IntendRead,
        _ => Mode::IntendWrite,
    }
}

fn do_cover(held: Option<Mode>, mode: Mode) -> bool
    ensures { result ≡ covers_held held mode }
{
    match held {
        Some(held) => covers(held, mode),
        None => false,
    }
}

// Whether what the transaction holds on the file covers the mode.
fn covers_whole(table: &LockTable, trans: TransId, file: FileId, mode: Mode) -> bool
    ensures { result ≡ covers_held (holding table.now.held trans (Whole file)) mode }
{
    do_cover(table.mode_of(trans, &Resource::Whole(file)), mode)
}

fn has_intention(table: &LockTable, trans: TransId, file: Option<FileId>, mode: Mode) -> bool
    ensures { result ≡ has_intention_said (holding table.now.held trans) file mode }
{
    match file {
        Some(file) => covers_whole(table, trans, file, intention_of(mode)),
        None => true,
    }
}

fn is_beside_intention(table: &LockTable, trans: TransId, at: &Resource, mode: Mode) -> bool
    ensures { result ≡ is_beside_intention_said (holding table.now.held trans) at.now mode }
{
    match at {
        Resource::Whole(_) => true,
        Resource::Leaf(key) => has_intention(table, trans, file_of(key), mode),
    }
}

/// Whether what the transaction holds on a file covers the intention of each of the locks on a leaf of it.
pub(super) fn are_intended(table: &LockTable, trans: TransId, locks: &[(Resource, Mode)]) -> bool
    ensures { result ≡ list_all (λ l. is_beside_intention_said (holding table.now.held trans) l.0 l.1) locks.now }
{
    locks
        .iter()
        .all(|lock| is_beside_intention(table, trans, &lock.0, lock.1))
}

// ---- what may be written

fn join_held(one: Option<Mode>, other: Option<Mode>) -> Option<Mode>
    ensures { result ≡ join_held_said one other }
{
    match (one, other) {
        (Some(a), Some(b)) => Some(join(a, b)),
        (Some(a), None) => Some(a),
        (None, b) => b,
    }
}

fn leaf_given(held: Option<Mode>) -> Option<Mode>
    ensures { result ≡ option_and_then leaf_of_said held }
{
    match held {
        Some(held) => leaf_of(held),
        None => None,
    }
}

fn given_to(table: &LockTable, trans: TransId, key: &Key) -> Option<Mode>
    ensures { result ≡ given_to_said (holding table.now.held trans) key.now }
{
    match file_of(key) {
        Some(file) => leaf_given(table.mode_of(trans, &Resource::Whole(file))),
        None => None,
    }
}

fn mode_on(table: &LockTable, trans: TransId, key: &Key) -> Option<Mode>
    ensures { result ≡ mode_on_said (holding table.now.held trans) key.now }
{
    join_held(
        table.mode_of(trans, &Resource::Leaf(*key)),
        given_to(table, trans, key),
    )
}

fn are_written(table: &LockTable, trans: TransId, files: &[FileId]) -> bool
    ensures { result ≡ list_all (λ f. covers_held (holding table.now.held trans (Whole f)) ToWrite) files.now }
{
    files
        .iter()
        .all(|file| covers_whole(table, trans, *file, Mode::Write))
}

fn are_cuts_written(table: &LockTable, trans: TransId, cuts: &[(FileId, u32)]) -> bool
    ensures { result ≡ list_all (λ c. covers_held (holding table.now.held trans (Whole c.0)) ToWrite) cuts.now }
{
    cuts.iter()
        .all(|cut| covers_whole(table, trans, cut.0, Mode::Write))
}

fn are_puts_written(table: &LockTable, trans: TransId, puts: &[(Key, Cell)]) -> bool
    ensures { result ≡ list_all (λ p. covers_held (mode_on_said (holding table.now.held trans) p.0) ToWrite) puts.now }
{
    puts.iter()
        .all(|put| do_cover(mode_on(table, trans, &put.0), Mode::Write))
}

/// Whether the transaction may write all that the change is of.
pub(super) fn is_change_covered(table: &LockTable, trans: TransId, change: &Change) -> bool
    ensures { result ≡ list_all (is_covered (holding table.now.held trans)) (edits_of change.now) }
{
    let drops = are_written(table, trans, change.drops.as_slice());
    let cuts = are_cuts_written(table, trans, change.cuts.as_slice());
    let puts = are_puts_written(table, trans, change.puts.as_slice());
    are_all(drops, cuts, puts)
}
