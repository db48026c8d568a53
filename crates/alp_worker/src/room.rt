//! Room in the log for ready parts, and what is in the way of a vote.
ghost use Rattle.std.specs.Prelude.{◌≡◌, ◌≤◌, ◌+◌, ◌^◌, length};
ghost use Rattle.alp_journal.specs.Counts.{weight as weight_said};
ghost use Rattle.alp_journal.specs.Messages.{first_why as first_said, no_room as no_room_said};
ghost use Rattle.alp_worker.specs.Rooms.{sum_of, applying_of, room_for as room_for_said, own_room as own_room_said};

use alp_files::Why;

/// What is counted of a part: the cells that it changes, and the resources that it has locked.
#[derive(Clone, Copy)]
pub struct PartSize {
    pub cells: u32,
    pub locks: u32,
}

/// What ready parts come to in pages of the log: all their weights, and the greatest number that applying one of them takes.
#[derive(Clone, Copy)]
pub struct ReadySum {
    pub weights: u64,
    pub greatest: u64,
}

/// The pages that are kept free beside the ready parts.
const FREE_PAGES: u64 = 24;

impl PartSize {
    // The pages that the part takes while it is ready.
    fn weight(&self) -> u64
        ensures same { result ≡ weight_said self.now.cells self.now.locks }
        ensures few { result ≤ 2 ^ 34 }
    {
        2 * self.cells as u64 + 2 + (self.locks as u64 + 15) / 16
    }

    // The pages that applying it takes.
    fn applying(&self) -> u64
        ensures same { result ≡ applying_of self.now }
        ensures few { result ≤ 2 ^ 35 }
    {
        4 * self.cells as u64 + 4
    }
}

impl ReadySum {
    /// What these parts come to, at most 2^16 of them.
    pub fn of(parts: &[PartSize]) -> ReadySum
        requires { length parts.now ≤ 2 ^ 16 }
        ensures same { result ≡ sum_of parts.now }
        ensures few { (result.weights ≤ 2 ^ 52) × (result.greatest ≤ 2 ^ 52) }
    {
        let mut weights = 0;
        let mut greatest = 0;
        for part in parts {
            weights += part.weight();
            greatest = part.applying().max(greatest);
        }
        ReadySum { weights, greatest }
    }

    /// That a log area of so many pages has no room for a further ready part of another server's transaction, if it has none.
    pub fn room_for(&self, area: u32, part: &PartSize) -> Option<Why>
        requires few { (self.now.weights ≤ 2 ^ 52) × (self.now.greatest ≤ 2 ^ 52) }
        requires part { (part.now.cells ≤ 256) × (part.now.locks ≤ 1024) }
        ensures { result ≡ room_for_said area self.now part.now }
    {
        let before = FREE_PAGES + self.weights + self.greatest;
        let after = FREE_PAGES + self.weights + part.weight() + part.applying().max(self.greatest);
        no_room(area, before, after)
    }

    /// That it has no room to commit a part of one of this server's own transactions, if it has none.
    pub fn own_room(&self, area: u32, part: &PartSize) -> Option<Why>
        requires few { (self.now.weights ≤ 2 ^ 52) × (self.now.greatest ≤ 2 ^ 52) }
        requires part { (part.now.cells ≤ 256) × (part.now.locks ≤ 1024) }
        ensures { result ≡ own_room_said area self.now part.now }
    {
        let before = FREE_PAGES + self.weights;
        no_room(area, before, before + part.applying())
    }
}

// What is asked passes the area.
fn no_room(area: u32, before: u64, after: u64) -> Option<Why>
    requires more { before ≤ after }
    requires few { after ≤ before + 2 ^ 31 }
    ensures { result ≡ no_room_said area before after }
{
    if after <= area as u64 {
        return None;
    }
    let room = (area as u64).saturating_sub(before) as u32;
    let asked = (after - before) as u32;
    Some(Why::LogFull { room, asked })
}

/// The first reason against a commit: a call that waits, the end of the clock, no room, or a read that failed.
pub fn first_why(failed: bool, waits: bool, is_end: bool, full: Option<Why>) -> Option<Why>
    ensures { result ≡ first_said failed waits is_end full }
{
    if waits {
        return Some(Why::Waiting);
    }
    if is_end {
        return Some(Why::ClockEnd);
    }
    match full {
        Some(why) => Some(why),
        None if failed => Some(Why::ReadFault),
        None => None,
    }
}
