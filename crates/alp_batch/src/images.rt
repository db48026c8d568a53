//! Images as bytes, and bytes as images.
ghost use Rattle.std.specs.Prelude.{◌≡◌, ◌<◌, ◌^◌, IfOk, OnOk, length, true, option_map};
ghost use Rattle.alp_fields.specs.Forms.{IsRead, IsWritten, repeated};
ghost use Rattle.alp_fields.specs.Rising.{is_rising};
ghost use Rattle.alp_batch.specs.Batch.{image, images as images_form, page_below};

use crate::rising::pages_rise;
use crate::{Images, PageImage};
use alp_base::{OutOfMemory, PageRef};
use alp_fields::{FieldReader, put_page, put_u16, put_u32};
use std::alloc::Global;

#[tactic(auto, unfolding(crate::specs::Batch::image))]
fn put_image(out: &mut Vec<u8>, one: &PageImage) -> Result<(), OutOfMemory>
    ensures { OnOk result (IsWritten image one.now out.old.items out.new.items) }
{
    put_u32(out, one.at)?;
    put_page(out, one.page.bytes())
}

fn put_each(out: &mut Vec<u8>, items: &[PageImage]) -> Result<(), OutOfMemory>
    ensures { OnOk result (IsWritten (repeated image (length items.now)) items.now out.old.items out.new.items) }
{
    for next in items {
        put_image(out, next)?;
    }
    Ok(())
}

/// Writes the images behind what stands there.
#[tactic(auto, unfolding(crate::specs::Batch::images))]
pub(super) fn put_images(out: &mut Vec<u8>, images: &Images) -> Result<(), OutOfMemory>
    requires few { length images.now < 2 ^ 16 }
    requires rise { is_rising page_below images.now ≡ true }
    ensures { OnOk result (IsWritten images_form images.now out.old.items out.new.items) }
{
    let items = images.as_slice();
    put_u16(out, items.len() as u16)?;
    put_each(out, items)
}

#[tactic(auto, unfolding(crate::specs::Batch::image))]
fn read_image(alloc: Global, reader: &mut FieldReader) -> Result<Option<PageImage>, OutOfMemory>
    ensures { IfOk result (IsRead image reader.old reader.new) }
{
    let Some(at) = reader.u32() else {
        return Ok(None);
    };
    let Some(bytes) = reader.page() else {
        return Ok(None);
    };
    let page = PageRef::new(alloc, bytes)?;
    Ok(Some(PageImage { at, page }))
}

fn read_each(
    alloc: Global,
    reader: &mut FieldReader,
    count: u16,
) -> Result<Option<Vec<PageImage>>, OutOfMemory>
    ensures { IfOk result (λ found. IsRead (repeated image count) reader.old reader.new (option_map (λ v. v.items) found)) }
{
    let mut items = Vec::new(alloc);
    for _ in 0..count {
        let Some(next) = read_image(alloc, reader)? else {
            return Ok(None);
        };
        items.push(next)?;
    }
    Ok(Some(items))
}

/// The images at the front of the bytes that are left, if their pages rise.
#[tactic(auto, unfolding(crate::specs::Batch::images))]
pub(super) fn read_images(
    alloc: Global,
    reader: &mut FieldReader,
) -> Result<Option<Images>, OutOfMemory>
    ensures { IfOk result (IsRead images_form reader.old reader.new) }
{
    let Some(count) = reader.u16() else {
        return Ok(None);
    };
    let Some(items) = read_each(alloc, reader, count)? else {
        return Ok(None);
    };
    if !pages_rise(items.as_slice()) {
        return Ok(None);
    }
    Ok(Some(Images::new(items)))
}
