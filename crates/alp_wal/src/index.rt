//! The images that the records of the area have of home pages.
ghost use Rattle.std.specs.Prelude.{◌≡◌, ◌≤◌, ◌<◌, ◌+◌, length, slice_index_or, slice_set, replicate, IfOk, OnOk, IsTrue, Some, None};
ghost use Rattle.std.specs.List.{AllByRecursion};
ghost use Rattle.std.specs.Option.{option_copied as copied};
ghost use Rattle.alp_base.specs.Allowances.{Spends, HasHaltCause};
ghost use Rattle.alp_base.specs.Crashes.{Only, After, Adds};
ghost use Rattle.alp_wal.specs.State.{IsBelow};
ghost use Rattle.alp_wal.specs.Home.{SameUnlogged, BroughtHome};
ghost use Rattle.alp_wal.specs.Wal.{indexed, no_index};

use crate::home::{bring_home, clear_images};
use alp_base::{Halt, OutOfMemory, PageRef};
use alp_batch::PageImage;
use alp_disk::Disk;
use std::alloc::Global;
use std::marker::Model;

/// For each home page its image in the last record that has one; seen as the list of them.
///
/// The pages that have one are listed, so that a walk over the images takes as long as they are many.
#[derive(Drop)]
pub(super) struct ImageIndex {
    images: Vec<Option<PageRef>>,
    logged: Vec<u32>,
}

impl Model for ImageIndex {
    ghost use Rattle.std.specs.Prelude.{ℕ, List, Option};
    ghost use Rattle.std.specs.Coded.{coded_list, coded_option, coded_ℕ};

    ghost Value = { List (Option (List ℕ)) };

    ghost coded = { coded_list (coded_option (coded_list coded_ℕ)) };

    ghost use Rattle.alp_wal.specs.Logged.{IsWhole};

    ghost view = { λ i. i.images.items };

    ghost invariant = { λ i. IsWhole i.logged.items i.logged.cap i.images.items };
}

fn no_images(alloc: Global, home: u32) -> Result<Vec<Option<PageRef>>, OutOfMemory>
    ensures { IfOk result (λ images. images.items ≡ no_index home) }
{
    let mut images = Vec::new(alloc);
    for _ in 0..home {
        images.push(None)?;
    }
    Ok(images)
}

impl ImageIndex {
    /// An index without images, of so many home pages.
    pub(super) fn new(alloc: Global, home: u32) -> Result<ImageIndex, OutOfMemory>
        ensures { IfOk result (λ index. index ≡ no_index home) }
    {
        let images = no_images(alloc, home)?;
        let logged = Vec::with_capacity(alloc, home as usize)?;
        Ok(ImageIndex { images, logged })
    }

    /// The image of a home page, shared and not copied.
    pub(super) fn get(&self, at: u32) -> Option<&PageRef>
        ensures { copied result ≡ slice_index_or self.now at None }
    {
        if at as usize >= self.images.len() {
            return None;
        }
        match &self.images[at as usize] {
            Some(image) => Some(image),
            None => None,
        }
    }

    /// Puts an image in place of the one that stood there, with no memory taken.
    fn put(&mut self, at: u32, image: PageRef)
        requires { at < length self.old }
        ensures { self.new ≡ slice_set self.old at (Some image) }
    {
        if let Some(_) = &self.images[at as usize] {
            self.images[at as usize] = Some(image);
            return;
        }
        self.logged.push_reserved(at);
        self.images[at as usize] = Some(image);
    }

    /// Puts each image in place of the one that stood there, with no memory taken.
    pub(super) fn lay_over(&mut self, images: Vec<PageImage>)
        requires { AllByRecursion (IsBelow (length self.old)) images.items }
        ensures { self.new ≡ indexed self.old images.items }
    {
        for next in images {
            let PageImage { at, page } = next;
            self.put(at, page);
        }
    }

    /// Writes the images to the home pages from there on, and syncs them.
    pub(super) fn bring_home<D: Disk>(&self, disk: &mut D, first: u32) -> Result<(), Halt>
        requires { first + length self.now ≤ D.size disk.old }
        ensures home { IsTrue (D.tells disk.old) → OnOk result (BroughtHome first (length self.now) self.now (D.seen disk.old) (D.seen disk.new)) }
        ensures durable { IsTrue (D.tells disk.old) → OnOk result (Only (D.seen disk.new) (D.may_leave disk.new)) }
        ensures any_moment { Adds D.left_since disk.old disk.new (After (SameUnlogged first self.now) (D.may_leave disk.old)) }
        ensures tells { D.tells disk.new ≡ D.tells disk.old }
        ensures size { D.size disk.new ≡ D.size disk.old }
        ensures allowance { Spends (D.allowance disk.old) (D.allowance disk.new) }
        ensures cause { HasHaltCause (D.faults disk.old) (D.faults disk.new) (D.allowance disk.new) result }
    {
        bring_home(disk, first, self.images.as_slice(), self.logged.as_slice())
    }

    /// Drops all images.
    pub(super) fn clear(&mut self)
        ensures { self.new ≡ no_index (length self.old) }
    {
        clear_images(&mut self.images, self.logged.as_slice());
        self.logged.clear();
    }
}
