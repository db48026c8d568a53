//! What is counted of a part, and the refusals by it.
ghost use Rattle.std.specs.Prelude.{◌≡◌, ◌<◌};
ghost use Rattle.alp_calls.specs.Limits.{refused_for as refused_for_said, many_for, is_past as is_past_said};
ghost use Rattle.alp_journal.specs.Counts.{log_need as log_need_said};

use alp_files::{Refusal, What};
use alp_trans::Counts;
use alp_vault::{FILES_PER_SERVER, OWNERS_PER_SERVER};

/// The most cells that a part changes.
pub const CELLS_PER_PART: u32 = 256;

/// What is left for a part beside what all live parts come to.
#[derive(Clone, Copy)]
pub struct Room {
    /// Places on the volume that no live part needs.
    pub left: u32,
    /// Files that stand or that live parts made, and owners likewise.
    pub files: u32,
    pub owners: u32,
    /// The pages of the log's area.
    pub area: u32,
    /// The resources that the part holds locks on behind the call.
    pub locks: u32,
}

// Whether more of a kind are made, which are too many with those that stand.
fn is_past(now: u32, then: u32, stand: u32, limit: u32) -> bool
    ensures { result ≡ is_past_said now then stand limit }
{
    now < then && (limit as u64) < stand as u64 + (then - now) as u64
}

// The pages that a part may take in the log while it runs.
fn log_need(cells: u32, locks: u32) -> u32
    requires { cells < 65536 }
    ensures { result ≡ log_need_said cells locks }
{
    6 * cells + ((locks as u64 + 15) / 16) as u32 + 30
}

// Too many files or owners.
fn many(room: Room, now: Counts, then: Counts) -> Option<Refusal>
    ensures { result ≡ many_for room now then }
{
    if is_past(now.files, then.files, room.files, FILES_PER_SERVER) {
        return Some(Refusal::TooMany {
            what: What::Files,
            limit: FILES_PER_SERVER,
        });
    }
    if is_past(now.owners, then.owners, room.owners, OWNERS_PER_SERVER) {
        return Some(Refusal::TooMany {
            what: What::Owners,
            limit: OWNERS_PER_SERVER,
        });
    }
    None
}

/// How a call is refused with which a part that comes to the first counts would come to the second, if it is.
pub(super) fn refused_for(room: Room, now: Counts, then: Counts) -> Option<Refusal>
    requires { then.cells < 65536 }
    ensures { result ≡ refused_for_said room now then }
{
    if then.cells > CELLS_PER_PART {
        return Some(Refusal::TooMany {
            what: What::Cells,
            limit: CELLS_PER_PART,
        });
    }
    if let Some(refusal) = many(room, now, then) {
        return Some(refusal);
    }
    let asked = then.places.saturating_sub(now.places);
    if room.left < asked {
        let left = room.left;
        return Some(Refusal::VolumeFull { left, asked });
    }
    let asked = log_need(then.cells, room.locks);
    if room.area < asked {
        let room = room.area;
        return Some(Refusal::LogFull { room, asked });
    }
    None
}
