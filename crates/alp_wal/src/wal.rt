//! The log itself.
ghost use Rattle.std.specs.Prelude.{◌≡◌, None, slice_index_or, false};
ghost use Rattle.std.specs.FinMap as map;
ghost use Rattle.std.specs.Option.{option_copied as copied};
ghost use Rattle.alp_wal.specs.Wal.{disk_of, anchor_of, end_of, index_of, notes_of, held_notes, is_dead, room_of, IsLog, IsKnown};
ghost use Rattle.alp_wal.specs.Calls.{IsSameLog, IsLimited};

use crate::begin::area_of;
use crate::found::Found;
use crate::index::ImageIndex;
use alp_anchor::Anchor;
use alp_base::{Bytes, PageRef, Sizes};
use alp_disk::Disk;
use alp_notes::Notes;
use std::alloc::Global;

/// Home pages and notes, under the records of one area.
#[derive(Drop)]
pub struct Wal<D: Disk> {
    pub(super) alloc: Global,
    pub(super) disk: D,
    pub(super) anchor: Anchor,
    /// The page behind the last record.
    pub(super) end: u32,
    pub(super) index: ImageIndex,
    pub(super) notes: Notes,
    /// Whether a commit or a checkpoint failed or was stopped.
    pub(super) dead: bool,
}

impl<D: Disk> Wal<D> {
    /// The log of a disk on which this was found.
    pub fn over(alloc: Global, disk: D, found: Found) -> Wal<D>
        ensures disk { disk_of result ≡ disk }
        ensures anchor { anchor_of result ≡ found.anchor }
        ensures end { end_of result ≡ found.end }
        ensures index { index_of result ≡ found.index }
        ensures notes { held_notes result ≡ found.notes }
        ensures alive { is_dead result ≡ false }
    {
        let Found {
            anchor,
            end,
            index,
            notes,
        } = found;
        Wal {
            alloc,
            disk,
            anchor,
            end,
            index,
            notes,
            dead: false,
        }
    }

    /// Whether an earlier commit or checkpoint failed or was stopped.
    pub fn is_dead(&self) -> bool
        ensures { result ≡ is_dead self.now }
    {
        self.dead
    }

    /// The image that the records of the area have of a home page, if one has: shared, and not copied.
    pub fn logged(&self, at: u32) -> Option<&PageRef>
        ensures { copied result ≡ slice_index_or (index_of self.now) at None }
    {
        self.index.get(at)
    }

    /// The value of a note.
    pub fn note(&self, name: &Bytes) -> Option<&Bytes>
        ensures { copied result ≡ map.get (notes_of self.now) name.now }
    {
        self.notes.value(name)
    }

    /// The names of the live notes, rising.
    pub fn note_names(&self) -> &[Bytes]
        ensures { result.now ≡ map.keys (notes_of self.now) }
    {
        self.notes.names()
    }

    /// The pages of the area behind the last record.
    pub fn room(&self) -> u32
        requires { IsLog (D.size (disk_of self.now)) self.now }
        ensures { result ≡ room_of self.now }
    {
        area_of(&self.anchor).end - self.end
    }

    pub fn sizes(&self) -> Sizes
        ensures { result ≡ (anchor_of self.now).sizes }
    {
        self.anchor.sizes
    }

    /// On a disk with a `Fuse`, lets so many further writes and syncs pass, or all of them.
    pub fn stop_after(&mut self, calls: Option<u32>)
        ensures log { IsLog (D.size (disk_of self.old)) self.old → IsLog (D.size (disk_of self.new)) self.new }
        ensures known { IsKnown (D.size (disk_of self.old)) (D.seen (disk_of self.old)) (D.may_leave (disk_of self.old)) self.old → IsKnown (D.size (disk_of self.new)) (D.seen (disk_of self.new)) (D.may_leave (disk_of self.new)) self.new }
        ensures same { IsSameLog self.old self.new }
        ensures below { IsLimited D.Disk calls (disk_of self.old) (disk_of self.new) }
    {
        self.disk.stop_after(calls);
    }

    pub fn close(self) -> D
        ensures { result ≡ disk_of self }
    {
        self.disk
    }

    /// The disk, and what was found on it with all that was committed since: `over` makes the same log of them.
    pub fn apart(self) -> (D, Found)
        ensures disk { result.0 ≡ disk_of self }
        ensures anchor { result.1.anchor ≡ anchor_of self }
        ensures end { result.1.end ≡ end_of self }
        ensures index { result.1.index ≡ index_of self }
        ensures notes { result.1.notes ≡ held_notes self }
    {
        let Wal {
            disk,
            anchor,
            end,
            index,
            notes,
            ..
        } = self;
        let found = Found {
            anchor,
            end,
            index,
            notes,
        };
        (disk, found)
    }
}
