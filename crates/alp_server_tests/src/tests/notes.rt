//! Tests of the notes of ready parts and of decisions, against bytes that were spelled by hand.
use alp_base::{Bytes, Cell, FileId, JoinNo, Key, OutOfMemory, Page, Resource, TransId};
use alp_fields::*;
use alp_modes::Mode;
use std::alloc::Global;
use std::test::*;

const JOIN: JoinNo = JoinNo {
    server: 2,
    epoch: 3,
    counter: 5,
};

const TRANS: TransId = TransId {
    server: 1,
    epoch: 1,
    counter: 7,
};

const FILE: FileId = FileId {
    server: 2,
    epoch: 1,
    counter: 4,
};

const CUT_FILE: FileId = FileId {
    server: 2,
    epoch: 1,
    counter: 5,
};

// The transaction, its time 258, client 2, and two locks: the file to intend writes, and page 9 of it to write.
const READY_FRONT: &[u8] = b"\
\x01\x00\x00\x00\x01\x00\x00\x00\x07\
\x00\x00\x00\x00\x00\x00\x01\x02\
\x02\
\x00\x02\
\x00\x02\x00\x00\x00\x01\x00\x00\x00\x04\x02\
\x02\x02\x00\x00\x00\x01\x00\x00\x00\x04\x00\x00\x00\x09\x06";

// No file that goes, one that keeps three pages, and page 9 as it is to be.
const READY_REST: &[u8] = b"\
\x00\x00\
\x00\x01\x02\x00\x00\x00\x01\x00\x00\x00\x05\x00\x00\x00\x03\
\x00\x01\x02\x02\x00\x00\x00\x01\x00\x00\x00\x04\x00\x00\x00\x09";

fn ready_bytes(alloc: Global) -> Result<Vec<u8>, OutOfMemory> {
    let mut bytes = Vec::new(alloc);
    put_bytes(&mut bytes, READY_FRONT)?;
    put_bytes(&mut bytes, READY_REST)?;
    put_bytes(&mut bytes, Page::beginning(b"a").bytes())?;
    Ok(bytes)
}

// Whether two locks are as spelled.
fn are_locks(locks: &[(Resource, Mode)]) -> bool {
    match locks {
        [
            (Resource::Whole(whole), Mode::IntendWrite),
            (Resource::Leaf(leaf), Mode::Write),
        ] => *whole == FILE && *leaf == Key::PageOf(FILE, 9),
        _ => false,
    }
}

fn are_cuts(cuts: &[(FileId, u32)]) -> bool {
    match cuts {
        [cut] => *cut == (CUT_FILE, 3),
        _ => false,
    }
}

fn are_puts(puts: &[(Key, Cell)]) -> bool {
    match puts {
        [(key, Cell::Page(page))] => {
            *key == Key::PageOf(FILE, 9) && page.bytes() == Page::beginning(b"a").bytes()
        }
        _ => false,
    }
}

// Whether what was read is what the bytes were spelled for.
fn is_given(part: &ReadyPart) -> bool {
    part.trans == TRANS
        && part.ts == 258
        && part.client == 2
        && are_locks(part.locks.as_slice())
        && part.change.drops.as_slice().is_empty()
        && are_cuts(part.change.cuts.as_slice())
        && are_puts(part.change.puts.as_slice())
}

// Whether the bytes are read as the part that they were spelled for.
fn is_part(alloc: Global, bytes: &[u8]) -> Result<bool, OutOfMemory> {
    match read_ready(alloc, bytes)? {
        Some(part) => Ok(is_given(&part)),
        None => Ok(false),
    }
}

fn is_value(value: &Option<Bytes>, wanted: &[u8]) -> bool {
    match value {
        Some(value) => value.as_slice() == wanted,
        None => false,
    }
}

// Whether the note of the join has its name, from which the join is read.
fn is_named(alloc: Global) -> Result<bool, OutOfMemory> {
    let name = ready_note_name(alloc, JOIN)?;
    Ok(
        name.as_slice() == b"R\x02\x00\x00\x00\x03\x00\x00\x00\x05".as_slice()
            && read_ready_name(name.as_slice()) == Some(JOIN)
            && read_ready_name(b"R\x02\x00\x00\x00\x03\x00\x00\x00").is_none(),
    )
}

#[test]
fn a_ready_part(rt: HostRuntime) -> Result<(), Fail> {
    let bytes = ready_bytes(rt.alloc())?;
    assert!(rt; is_part(rt.alloc(), &bytes)?);
    assert!(rt; is_named(rt.alloc())?);
    Ok(())
}

fn is_any_part(alloc: Global, bytes: &[u8]) -> Result<bool, OutOfMemory> {
    match read_ready(alloc, bytes)? {
        Some(_part) => Ok(true),
        None => Ok(false),
    }
}

// The bytes with one of them changed are no part.
fn is_refused(alloc: Global, at: usize, to: u8) -> Result<bool, OutOfMemory> {
    let mut bytes = ready_bytes(alloc)?;
    if let Some(byte) = bytes.get_mut(at) {
        *byte = to;
    }
    Ok(!is_any_part(alloc, &bytes)?)
}

// Nor are they with one more.
fn is_longer_refused(alloc: Global) -> Result<bool, OutOfMemory> {
    let mut bytes = ready_bytes(alloc)?;
    put_u8(&mut bytes, 0)?;
    Ok(!is_any_part(alloc, &bytes)?)
}

#[test]
fn no_ready_parts(rt: HostRuntime) -> Result<(), Fail> {
    // The first lock is raised above the second, has no mode, or is another time too; a time is too late, a list is too long.
    for (at, to) in [(20usize, 3u8), (30, 7), (9, 0x41), (19, 3)] {
        assert!(rt; is_refused(rt.alloc(), at, to)?, "at {at}");
    }
    assert!(rt; is_longer_refused(rt.alloc())?);
    Ok(())
}

const DECISION: &[u8] = b"\
\x00\x00\x00\x00\x00\x00\x01\x03\
\x02\
\x02\x00\x00\x00\x03\x00\x00\x00\x05\
\x03\x00\x00\x00\x01\x00\x00\x00\x01";

const NO_DECISION: &[u8] = b"\x00\x00\x00\x00\x00\x00\x01\x03\x00";

fn are_joins(joins: &[JoinNo]) -> bool {
    joins.len() == 2 && joins.first() == Some(&JOIN)
}

// Whether the bytes are read as the decision that they were spelled for.
fn is_decision(alloc: Global) -> Result<bool, OutOfMemory> {
    match read_decision(alloc, DECISION)? {
        Some(decision) => Ok(decision.ts == 259 && are_joins(decision.joins.as_slice())),
        None => Ok(false),
    }
}

// Whether a decision without a part is none.
fn is_none_refused(alloc: Global) -> Result<bool, OutOfMemory> {
    match read_decision(alloc, NO_DECISION)? {
        Some(_decision) => Ok(false),
        None => Ok(true),
    }
}

fn is_decision_named(alloc: Global) -> Result<bool, OutOfMemory> {
    let name = decision_note_name(alloc, TRANS)?;
    Ok(
        name.as_slice() == b"D\x01\x00\x00\x00\x01\x00\x00\x00\x07".as_slice()
            && read_decision_name(name.as_slice()) == Some(TRANS),
    )
}

#[test]
fn a_decision(rt: HostRuntime) -> Result<(), Fail> {
    assert!(rt; is_decision(rt.alloc())?);
    assert!(rt; is_decision_named(rt.alloc())?);
    assert!(rt; is_none_refused(rt.alloc())?);
    Ok(())
}

// Whether a part is written as the bytes that it was read from.
fn is_part_written(alloc: Global, bytes: &[u8]) -> Result<bool, OutOfMemory> {
    match read_ready(alloc, bytes)? {
        Some(part) => {
            let ready = ready_change(alloc, JOIN, &part)?;
            Ok(is_value(&ready.value, bytes))
        }
        None => Ok(false),
    }
}

fn is_decision_written(alloc: Global) -> Result<bool, OutOfMemory> {
    match read_decision(alloc, DECISION)? {
        Some(decision) => {
            let decided = decision_change(alloc, TRANS, &decision)?;
            Ok(is_value(&decided.value, DECISION))
        }
        None => Ok(false),
    }
}

fn is_end_written(alloc: Global) -> Result<bool, OutOfMemory> {
    let ended = decision_end(alloc, TRANS)?;
    Ok(ended.value.is_none())
}

#[test]
fn notes_as_written(rt: HostRuntime) -> Result<(), Fail> {
    let bytes = ready_bytes(rt.alloc())?;
    assert!(rt; is_part_written(rt.alloc(), &bytes)?);
    assert!(rt; is_decision_written(rt.alloc())?);
    assert!(rt; is_end_written(rt.alloc())?);
    Ok(())
}
