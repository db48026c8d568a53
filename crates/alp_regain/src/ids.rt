//! Ids of files that notes name.
ghost use Rattle.std.specs.Prelude.{◌≡◌, ◌&&◌};
ghost use Rattle.std.specs.List.{list_all};
ghost use Rattle.alp_files.specs.Changes.{edits_of};
ghost use Rattle.alp_regain.specs.Named.{is_drawn_by as is_drawn_by_said, is_decided_by as is_decided_by_said, is_own as is_own_said, is_own_key as is_own_key_said, is_own_resource as is_own_resource_said, is_own_edit};

use alp_base::{Cell, Change, FileId, Key, Resource, Stamp};
use alp_fields::ClockNote;
use alp_modes::Mode;

/// Whether all three are so.
pub(super) fn are_all(drops: bool, cuts: bool, puts: bool) -> bool
    ensures { result ≡ (drops && (cuts && puts)) }
{
    drops && (cuts && puts)
}

/// Whether a part or a transaction with these numbers was drawn in an epoch up to the first one.
pub(super) fn is_drawn_by(now: u32, epoch: u32, counter: u32) -> bool
    ensures { result ≡ is_drawn_by_said now epoch counter }
{
    1 <= epoch && (1 <= counter && epoch <= now)
}

/// Whether a decision with this stamp is of a transaction that was drawn in an epoch up to that of the clock, and no later than it.
pub(super) fn is_decided_by(clock: ClockNote, stamp: Stamp) -> bool
    ensures { result ≡ is_decided_by_said clock stamp }
{
    let trans = stamp.trans;
    is_drawn_by(clock.epoch, trans.epoch, trans.counter) && stamp.ts <= clock.clock
}

// Whether the server made the file in an epoch up to that one.
fn is_own(of: (u8, u32), file: &FileId) -> bool
    ensures { result ≡ is_own_said of.0 of.1 file.now }
{
    file.server == of.0 && file.epoch <= of.1
}

fn is_own_key(of: (u8, u32), key: &Key) -> bool
    ensures { result ≡ is_own_key_said of.0 of.1 key.now }
{
    match key {
        Key::Leader(file) => is_own(of, file),
        Key::PageOf(file, _) => is_own(of, file),
        Key::OwnerOf(_) => true,
    }
}

fn is_own_resource(of: (u8, u32), at: &Resource) -> bool
    ensures { result ≡ is_own_resource_said of.0 of.1 at.now }
{
    match at {
        Resource::Whole(file) => is_own(of, file),
        Resource::Leaf(key) => is_own_key(of, key),
    }
}

/// Whether the locks are on files that the server made in epochs up to that one, or on owners.
pub(super) fn are_own_locks(of: (u8, u32), locks: &[(Resource, Mode)]) -> bool
    ensures { result ≡ list_all (λ l. is_own_resource_said of.0 of.1 l.0) locks.now }
{
    locks.iter().all(|lock| is_own_resource(of, &lock.0))
}

fn are_own_files(of: (u8, u32), files: &[FileId]) -> bool
    ensures { result ≡ list_all (λ f. is_own_said of.0 of.1 f) files.now }
{
    files.iter().all(|file| is_own(of, file))
}

fn are_own_cuts(of: (u8, u32), cuts: &[(FileId, u32)]) -> bool
    ensures { result ≡ list_all (λ c. is_own_said of.0 of.1 c.0) cuts.now }
{
    cuts.iter().all(|cut| is_own(of, &cut.0))
}

fn are_own_puts(of: (u8, u32), puts: &[(Key, Cell)]) -> bool
    ensures { result ≡ list_all (λ p. is_own_key_said of.0 of.1 p.0) puts.now }
{
    puts.iter().all(|put| is_own_key(of, &put.0))
}

/// Whether the change is of such files, and of owners.
pub(super) fn is_own_change(of: (u8, u32), change: &Change) -> bool
    ensures { result ≡ list_all (is_own_edit of.0 of.1) (edits_of change.now) }
{
    let drops = are_own_files(of, change.drops.as_slice());
    let cuts = are_own_cuts(of, change.cuts.as_slice());
    let puts = are_own_puts(of, change.puts.as_slice());
    are_all(drops, cuts, puts)
}
