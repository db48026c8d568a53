//! Tests of alp_owner.
ghost use Rattle.std.specs.Prelude.{◌≤◌, length};

use alp_base::{AccessList, Name, OutOfMemory, OwnerRecord};
use alp_owner::*;
use std::alloc::Global;
use std::test::*;

// The record of docs/FORMATS.md.
const DUMP: &str = "\
0 03 61 6e 6e
25 00 00 00 0a
29 00 00 00 04
33 02
34 05 57 6f 72 6c 64
59 05 4f 77 6e 65 72
";

// Each line is a place and the bytes from there on; the others are zeros.
fn dumped(dump: &str) -> Option<[u8; 256]> {
    let mut bytes = [0u8; 256];
    for line in dump.lines() {
        let mut words = line.split(' ');
        let mut at: usize = words.next()?.parse().ok()?;
        for word in words {
            *bytes.get_mut(at)? = u8::from_str_radix(word, 16).ok()?;
            at = at.checked_add(1)?;
        }
    }
    Some(bytes)
}

fn ann() -> Name {
    Name::spelled(b"ann")
}

fn list_of(alloc: Global, names: &[Name]) -> Result<AccessList, OutOfMemory>
    requires { length names.now ≤ 4 }
{
    Ok(AccessList::new(Vec::from_slice(alloc, names)?))
}

// The owner of the dump.
fn record(alloc: Global) -> Result<OwnerRecord, OutOfMemory> {
    let create = list_of(alloc, &[Name::spelled(b"World"), Name::spelled(b"Owner")])?;
    Ok(OwnerRecord {
        name: ann(),
        quota: 10,
        charge: 4,
        create,
    })
}

// Whether the record is spelled as these bytes, and read from them.
fn is_dumped(alloc: Global, bytes: &[u8; 256]) -> Result<bool, OutOfMemory> {
    let record = record(alloc)?;
    let mut out = [0xffu8; 256];
    encode_owner(&record, &mut out);
    match decode_owner(alloc, bytes)? {
        Some(found) => Ok(out == *bytes && found == record),
        None => Ok(false),
    }
}

fn is_record(alloc: Global, bytes: &[u8; 256]) -> Result<bool, OutOfMemory> {
    match decode_owner(alloc, bytes)? {
        Some(_found) => Ok(true),
        None => Ok(false),
    }
}

#[test]
fn reads_and_writes_the_dump(rt: HostRuntime) -> Result<(), Fail> {
    let bytes = dumped(DUMP).ok_or("a dump")?;
    assert!(rt; is_dumped(rt.alloc(), &bytes)?);
    assert!(rt; !is_record(rt.alloc(), &[0; 256])?);
    Ok(())
}

// A changed byte makes it no record, or the record of just those bytes.
fn is_exact(alloc: Global, bytes: &[u8; 256]) -> Result<bool, OutOfMemory> {
    match decode_owner(alloc, bytes)? {
        Some(found) => {
            let mut out = [0xffu8; 256];
            encode_owner(&found, &mut out);
            Ok(out == *bytes)
        }
        None => Ok(true),
    }
}

#[test]
fn each_byte_counts(rt: HostRuntime) -> Result<(), Fail> {
    let bytes = dumped(DUMP).ok_or("a dump")?;
    for at in 0..256usize {
        for change in [1u8, 2, 4, 0x20, 0x80, 0xff] {
            let mut changed = bytes;
            changed[at] ^= change;
            assert!(rt; is_exact(rt.alloc(), &changed)?, "at {at}");
        }
    }
    Ok(())
}

// Whether the list of these names admits somebody to what is ann's.
fn admits_one(alloc: Global, names: &[Name], who: &Name) -> Result<bool, OutOfMemory>
    requires { length names.now ≤ 4 }
{
    let list = list_of(alloc, names)?;
    Ok(admits(&list, who, &ann()))
}

#[test]
fn admits_whom_the_list_names(rt: HostRuntime) -> Result<(), Fail> {
    let alloc = rt.alloc();
    let bob = Name::spelled(b"bob");
    let owner = [Name::spelled(b"eve"), Name::spelled(b"Owner")];
    assert!(rt; admits_one(alloc, &[Name::spelled(b"World")], &bob)?);
    assert!(rt; admits_one(alloc, &owner, &ann())? && !admits_one(alloc, &owner, &bob)?);
    assert!(rt; admits_one(alloc, &[bob], &bob)? && !admits_one(alloc, &[bob], &ann())?);
    Ok(())
}
