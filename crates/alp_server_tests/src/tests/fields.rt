//! Tests of alp_fields.
use alp_base::{AccessList, Choice, FileId, Key, Name, OutOfMemory, Resource, Run, Stamp, TransId};
use alp_fields::*;
use std::alloc::Global;
use std::test::*;

const FILE: FileId = FileId {
    server: 1,
    epoch: 1,
    counter: 3,
};

fn ann() -> Name {
    Name::spelled(b"ann")
}

// Whether an id of a file is spelled in nine bytes, and read from them.
fn is_id_spelled(alloc: Global) -> Result<bool, OutOfMemory> {
    let mut out = Vec::new(alloc);
    put_file_id(&mut out, FILE)?;
    let bytes = out.as_slice();
    let mut reader = FieldReader::new(bytes);
    Ok(
        bytes == b"\x01\x00\x00\x00\x01\x00\x00\x00\x03".as_slice()
            && reader.file_id() == Some(FILE)
            && reader.is_empty(),
    )
}

fn is_run_read() -> bool {
    let mut reader = FieldReader::new(b"\x00\x00\x00\x07\x02\x09");
    reader.run() == Some(Run { first: 7, count: 2 }) && reader.rest() == b"\x09".as_slice()
}

#[test]
fn ids_and_runs(rt: HostRuntime) -> Result<(), Fail> {
    assert!(rt; is_id_spelled(rt.alloc())?);
    assert!(rt; is_run_read());
    Ok(())
}

// Whether the key of an owner is spelled so, and read as a leaf.
fn is_key_spelled(alloc: Global) -> Result<bool, OutOfMemory> {
    let key = Key::OwnerOf(ann());
    let mut out = Vec::new(alloc);
    put_key(&mut out, &key)?;
    let bytes = out.as_slice();
    let mut reader = FieldReader::new(bytes);
    Ok(bytes == b"\x03\x03ann".as_slice() && reader.resource() == Some(Resource::Leaf(key)))
}

// Whether no name, key and choice are read, and a choice is.
fn are_kinds_read() -> bool {
    FieldReader::new(b"\x00").name().is_none()
        && FieldReader::new(b"\x04").key().is_none()
        && FieldReader::new(b"\x02").choice().is_none()
        && FieldReader::new(b"\x01").choice() == Some(Choice::Wait)
}

#[test]
fn names_and_keys(rt: HostRuntime) -> Result<(), Fail> {
    assert!(rt; is_key_spelled(rt.alloc())?);
    assert!(rt; are_kinds_read());
    Ok(())
}

fn list_of_ann(alloc: Global) -> Result<AccessList, OutOfMemory> {
    Ok(AccessList::new(vec![in alloc; ann()]?))
}

// Whether a name and a list are laid at their places, and nothing beside them.
fn are_laid(page: &[u8; 512]) -> bool {
    &page[9..15] == b"\xff\x03ann\x00".as_slice()
        && &page[34..36] == b"\x00\xff".as_slice()
        && &page[86..93] == b"\x01\x03ann\x00\x00".as_slice()
}

// Whether the list is read from its place.
fn is_list_read(alloc: Global, page: &[u8; 512]) -> Result<bool, OutOfMemory> {
    let mut reader = FieldReader::new(&page[86..]);
    match reader.list_field(alloc)? {
        Some(found) => {
            let names = found.names();
            Ok(names.len() == 1 && names[0] == ann() && reader.rest().len() == 512 - 86 - 101)
        }
        None => Ok(false),
    }
}

#[test]
fn fields_at_places(rt: HostRuntime) -> Result<(), Fail> {
    let list = list_of_ann(rt.alloc())?;
    let mut page = [0xffu8; 512];
    set_name_field(&mut page, 10, Some(ann()));
    set_list_field(&mut page, 86, &list);
    assert!(rt; are_laid(&page));
    assert!(rt; is_list_read(rt.alloc(), &page)?);
    Ok(())
}

const SEEN: Stamp = Stamp {
    ts: 0,
    trans: TransId {
        server: 0,
        epoch: 0,
        counter: 0,
    },
};

const LAST: &[u8] = b"\x40\x00\x00\x00\x00\x00\x00\x00\x01\x00\x00\x00\x01\x00\x00\x00\x01";

const LATE: &[u8] = b"\x40\x00\x00\x00\x00\x00\x00\x01\x01\x00\x00\x00\x01\x00\x00\x00\x01";

fn are_stamps() -> bool {
    FieldReader::new(&[0; 17]).stamp() == Some(SEEN)
        && FieldReader::new(LAST).stamp().is_some()
        && FieldReader::new(LATE).stamp().is_none()
}

#[test]
fn stamps(rt: HostRuntime) {
    assert!(rt; are_stamps());
}
