//! Tests of alp_batch.
use alp_base::{Bytes, NoteChange, OutOfMemory, Page};
use alp_batch::*;
use std::alloc::Global;
use std::test::*;

// The dump of docs/FORMATS.md. Behind each image's front stand 511 zeros.
const FIRST_IMAGE: &[u8] = &[0, 2, 0, 0, 1, 0x2c, 0x41];

const SECOND_IMAGE: &[u8] = &[0, 0, 0x10, 1, 0x42];

const NOTES: &[u8] = &[
    0, 2, 1, 1, 0x43, 0, 0, 0, 12, 0, 0, 0, 3, 0, 0, 0, 0, 0, 0, 0, 9, 0, 2, 0x44, 0x41,
];

// Places in the dump.
const HIGH_BYTE: usize = 4;

const LOW_BYTE: usize = 5;

const FIRST_NAME: usize = 1038;

fn add(out: &mut Vec<u8>, bytes: &[u8], zeros: usize) -> Result<(), OutOfMemory> {
    out.extend_from_slice(bytes)?;
    for _ in 0..zeros {
        out.push(0)?;
    }
    Ok(())
}

fn dump(alloc: Global) -> Result<Vec<u8>, OutOfMemory> {
    let mut out = Vec::new(alloc);
    add(&mut out, FIRST_IMAGE, 511)?;
    add(&mut out, SECOND_IMAGE, 511)?;
    add(&mut out, NOTES, 0)?;
    Ok(out)
}

fn is_image(image: &PageImage, at: u32, first: u8) -> bool {
    image.at == at && image.page.bytes() == Page::beginning(&[first]).bytes()
}

fn are_images(images: &[PageImage]) -> bool {
    match images {
        [first, second] => is_image(first, 300, 0x41) && is_image(second, 4097, 0x42),
        _ => false,
    }
}

fn is_value(value: &Option<Bytes>, wanted: &[u8]) -> bool {
    match value {
        Some(value) => value.as_slice() == wanted,
        None => false,
    }
}

fn are_notes(notes: &[NoteChange]) -> bool {
    match notes {
        [clock, decision] => {
            clock.name.as_slice() == b"C".as_slice()
                && is_value(&clock.value, &[0, 0, 0, 3, 0, 0, 0, 0, 0, 0, 0, 9])
                && decision.name.as_slice() == b"DA".as_slice()
                && decision.value.is_none()
        }
        _ => false,
    }
}

// Whether the dump is read as the images, and they are spelled so.
fn is_spelled(alloc: Global) -> Result<bool, OutOfMemory> {
    let bytes = dump(alloc)?;
    match decode(alloc, bytes.as_slice())? {
        Some(batch) => {
            let again = encode(alloc, &batch)?;
            Ok(are_images(batch.images.as_slice()) && again.as_slice() == bytes.as_slice())
        }
        None => Ok(false),
    }
}

// Whether the dump is read as the notes.
fn has_notes(alloc: Global) -> Result<bool, OutOfMemory> {
    let bytes = dump(alloc)?;
    match decode(alloc, bytes.as_slice())? {
        Some(batch) => Ok(are_notes(batch.notes.as_slice())),
        None => Ok(false),
    }
}

// Whether the dump with that byte at a place is read as a batch.
fn is_batch_with(alloc: Global, place: usize, byte: u8) -> Result<bool, OutOfMemory> {
    let mut bytes = dump(alloc)?;
    if let Some(found) = bytes.get_mut(place) {
        *found = byte;
    }
    match decode(alloc, bytes.as_slice())? {
        Some(_batch) => Ok(true),
        None => Ok(false),
    }
}

#[test]
fn a_batch_is_its_dump(rt: HostRuntime) -> Result<(), Fail> {
    assert!(rt; is_spelled(rt.alloc())?);
    Ok(())
}

#[test]
fn notes_end_or_get_a_value(rt: HostRuntime) -> Result<(), Fail> {
    assert!(rt; has_notes(rt.alloc())?);
    Ok(())
}

// A place, the byte that is put there, and whether that is a batch.
const CHANGED: &[(usize, u8, bool)] = &[
    (LOW_BYTE, 0x2d, true),
    (HIGH_BYTE, 0x10, false),
    (FIRST_NAME, 0x45, false),
    (1, 1, false),
    (1, 3, false),
];

#[test]
fn what_is_outside_is_no_batch(rt: HostRuntime) -> Result<(), Fail> {
    for (place, byte, is_batch) in CHANGED {
        let found = is_batch_with(rt.alloc(), *place, *byte)?;
        assert!(rt; found == *is_batch, "{place} {byte}");
    }
    Ok(())
}

/// What threads may share and hand over.
fn crosses<T: Send + Sync>(_value: &T) {}

#[test]
fn batches_cross_threads(rt: HostRuntime) {
    let alloc = rt.alloc();
    crosses(&Batch {
        images: Images::new(Vec::new(alloc)),
        notes: NoteChanges::new(Vec::new(alloc)),
    });
}
