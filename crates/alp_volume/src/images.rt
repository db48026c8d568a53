//! The images of a change in two parts.
ghost use Rattle.std.specs.Prelude.{◌≡◌, not, IfOk, slice_index_or};
ghost use Rattle.std.specs.List.{filter};
ghost use Rattle.alp_volume.specs.declared.catalog.Catalog.{Catalog as ACatalog};
ghost use Rattle.alp_volume.specs.Parts.{pages_at_free, pages_at_taken, was_free};
ghost use Rattle.alp_volume.specs.Undone.{Leads};

use crate::before::Before;
use crate::catalog::Catalog;
use crate::draft::Draft;
use alp_base::{OutOfMemory, PageRef};
use alp_tables::Free;
use std::alloc::Global;

/// The pages at places that were free before a change, and the others, each by rising places.
///
/// Nothing names those places until the change is made, so that the first may be written there before.
#[derive(Drop)]
pub struct Images {
    pub new: Vec<(u32, PageRef)>,
    pub others: Vec<(u32, PageRef)>,
}

fn was_free(before: &Before, places: &Free, place: u32) -> bool
    ensures { result ≡ was_free before.now places.now place }
{
    match before.get(place) {
        Some(taken) => !taken,
        None => !places.is_taken(place),
    }
}

fn part(
    alloc: Global,
    images: Vec<(u32, PageRef)>,
    before: &Before,
    places: &Free,
) -> Result<Images, OutOfMemory>
    ensures new { IfOk result (λ i. i.new.items ≡ filter (λ e. was_free before.now places.now e.0) images.items) }
    ensures others { IfOk result (λ i. i.others.items ≡ filter (λ e. not (was_free before.now places.now e.0)) images.items) }
{
    let mut new = Vec::new(alloc);
    let mut others = Vec::new(alloc);
    for image in images {
        if was_free(before, places, image.0) {
            new.push(image)?;
        } else {
            others.push(image)?;
        }
    }
    Ok(Images { new, others })
}

impl Draft {
    /// The pages of the change that the catalog has, which are shared; apart those at places that were free before.
    pub fn parted(&self, alloc: Global, catalog: &Catalog) -> Result<Images, OutOfMemory>
        ensures new { (old : ACatalog) → Leads self.now.undos.items catalog.now old → IfOk result (λ i. i.new.items ≡ pages_at_free old self.now.pages) }
        ensures others { (old : ACatalog) → Leads self.now.undos.items catalog.now old → IfOk result (λ i. i.others.items ≡ pages_at_taken old self.now.pages) }
    {
        let before = Before::of(alloc, self.undos.as_slice())?;
        let images = self.pages.images(alloc)?;
        part(alloc, images, &before, &catalog.places)
    }
}
