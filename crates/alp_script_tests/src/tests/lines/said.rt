//! What lines say.
use super::{Sense, is_outside, read, say};
use alp_base::{Access, AccessList, Choice, NAMES_PER_LIST, Name, Run};
use alp_files::PropChange;
use alp_lines::Line;
use alp_modes::Mode;
use std::alloc::Global;
use std::test::Fail;

// Whether the text says a line.
fn is_line(alloc: Global, text: &[u8]) -> bool {
    match read(alloc, text) {
        Ok(_line) => true,
        Err(_fault) => false,
    }
}

// Whether each of these texts does.
fn are_lines(alloc: Global, texts: &[&[u8]]) -> bool {
    for text in texts {
        if !is_line(alloc, *text) {
            return false;
        }
    }
    true
}

static ON_FILES: [&[u8]; 20] = [
    b"1 create 1 G ann 0",
    b"1 create 1 G ann 4294967295 fail",
    b"1 create 1 G ann 70000 - World,eve,bob,bob",
    b"1 create 1 F ann 2 Owner,Owner,World ann fail",
    b"1 open F read r fail",
    b"1 open 1.0.7 change w",
    b"1 close F",
    b"1 delete 1.2.3",
    b"1 delete F fail",
    b"1 size F 4294967295",
    b"1 size F 0 fail",
    b"1 props F",
    b"1 change F owner bob",
    b"1 change F name a.txt fail",
    b"1 change F type 65535",
    b"1 change F bytes 18446744073709551615",
    b"1 change F read -",
    b"1 change F modify ann,eve,Owner,World fail",
    b"1 write F 4294967295 255 - fail",
    b"1 read F 0 255 fail",
];

#[test]
fn reads_lines_on_files(rt: HostRuntime) -> Result<(), Fail> {
    assert!(rt; are_lines(rt.alloc(), &ON_FILES));
    Ok(())
}

static ON_OWNERS: [&[u8]; 7] = [
    b"1 mkowner 1 ann 4294967295 -",
    b"1 mkowner 1 ann 0 ann,bob,World,Owner fail",
    b"1 owner 1 ann",
    b"1 owner 1 Admin fail",
    b"1 quota 1 ann 4294967295",
    b"1 quota 1 ann 0 fail",
    b"patience 1000",
];

#[test]
fn reads_lines_on_owners(rt: HostRuntime) -> Result<(), Fail> {
    assert!(rt; are_lines(rt.alloc(), &ON_OWNERS));
    Ok(())
}

static SENT_AGAIN: [(&[u8], Sense); 2] = [
    (b"1 repeat", Sense::Repeat(1)),
    (b"16  old", Sense::Old(16)),
];

#[test]
fn reads_lines_that_send_again(rt: HostRuntime) -> Result<(), Fail> {
    assert!(rt; say(rt.alloc(), &SENT_AGAIN));
    Ok(())
}

// The list of these names.
fn list(alloc: Global, names: &[&[u8]]) -> Result<AccessList, Fail> {
    let mut list = Vec::new(alloc);
    for name in names {
        list.push(Name::parse(name).ok_or("a name")?)?;
    }
    if list.len() > NAMES_PER_LIST {
        return Err("few names".into());
    }
    Ok(AccessList::new(list))
}

// Whether a file is to be created with these lists.
fn has_lists(line: &Line, readers: &AccessList, writers: &AccessList) -> bool {
    match line {
        Line::Create { read, modify, .. } => read == readers && modify == writers,
        _ => false,
    }
}

// Whether the text says that a file is to be created with lists of these names.
fn creates(alloc: Global, text: &[u8], readers: &[&[u8]], writers: &[&[u8]]) -> Result<bool, Fail> {
    let line = read(alloc, text)?;
    let readers = list(alloc, readers)?;
    let writers = list(alloc, writers)?;
    Ok(has_lists(&line, &readers, &writers))
}

fn lists_are_left_out(alloc: Global) -> Result<bool, Fail> {
    Ok(
        creates(alloc, b"1 create 1 G ann 1", &[b"World"], &[b"Owner"])?
            && creates(alloc, b"1 create 1 G ann 1 fail", &[b"World"], &[b"Owner"])?
            && creates(
                alloc,
                b"1 create 1 G ann 1 - eve,Owner",
                &[],
                &[b"eve", b"Owner"],
            )?,
    )
}

#[test]
fn lists_may_be_left_out(rt: HostRuntime) -> Result<(), Fail> {
    assert!(rt; lists_are_left_out(rt.alloc())?);
    Ok(())
}

// Whether this is to be changed of a file, and the call is not to wait.
fn is_change(line: &Line, to: &PropChange) -> bool {
    match line {
        Line::WriteProps { change, choice, .. } => change == to && *choice == Choice::Fail,
        _ => false,
    }
}

// Whether the text says that this changes of a file.
fn changes(alloc: Global, text: &[u8], to: PropChange) -> Result<bool, Fail> {
    let line = read(alloc, text)?;
    Ok(is_change(&line, &to))
}

fn changes_are_said(alloc: Global) -> Result<bool, Fail> {
    let eve = PropChange::Modify(list(alloc, &[b"eve"])?);
    let nobody = PropChange::Read(list(alloc, &[])?);
    Ok(
        changes(alloc, b"1 change F modify eve", eve)?
            && changes(alloc, b"1 change F read -", nobody)?
            && changes(alloc, b"1 change F type 9", PropChange::TypeNo(9))?
            && changes(alloc, b"1 change F bytes 10", PropChange::ByteLength(10))?,
    )
}

#[test]
fn says_what_changes(rt: HostRuntime) -> Result<(), Fail> {
    assert!(rt; changes_are_said(rt.alloc())?);
    Ok(())
}

static OPENS: [(&[u8], Sense); 7] = [
    (
        b"1 open F read ir",
        Sense::Opens(Access::ReadOnly, Mode::IntendRead),
    ),
    (
        b"1 open F change iw fail",
        Sense::Opens(Access::Change, Mode::IntendWrite),
    ),
    (
        b"1 open F read r fail",
        Sense::Opens(Access::ReadOnly, Mode::Read),
    ),
    (
        b"1 open F change u",
        Sense::Opens(Access::Change, Mode::Update),
    ),
    (
        b"1 open F change riw",
        Sense::Opens(Access::Change, Mode::ReadIntendWrite),
    ),
    (
        b"1 open 1.1.1 change w",
        Sense::Opens(Access::Change, Mode::Write),
    ),
    (
        b"1 open F read w",
        Sense::Opens(Access::ReadOnly, Mode::Write),
    ),
];

#[test]
fn opens_in_each_mode(rt: HostRuntime) -> Result<(), Fail> {
    assert!(rt; say(rt.alloc(), &OPENS));
    Ok(())
}

const LONGEST: Run = Run {
    first: 7,
    count: 255,
};

static READS: [(&[u8], Sense); 6] = [
    (b"1 read F 7 255", Sense::Reads(LONGEST, Mode::Read)),
    (b"1 read F 7 255 fail", Sense::Reads(LONGEST, Mode::Read)),
    (b"1 read F 7 255 r", Sense::Reads(LONGEST, Mode::Read)),
    (b"1 read F 7 255 u", Sense::Reads(LONGEST, Mode::Update)),
    (
        b"1 read F 7 255 u fail",
        Sense::Reads(LONGEST, Mode::Update),
    ),
    (b"1 read F 7 255 w fail", Sense::Reads(LONGEST, Mode::Write)),
];

#[test]
fn reads_pages_in_three_modes(rt: HostRuntime) -> Result<(), Fail> {
    assert!(rt; say(rt.alloc(), &READS));
    Ok(())
}

const FIRST: Run = Run { first: 0, count: 1 };

static LOCKS: [(&[u8], Sense); 3] = [
    (b"1 lock F 0 1 r", Sense::Locks(FIRST, Mode::Read)),
    (b"1 lock F 0 1 u fail", Sense::Locks(FIRST, Mode::Update)),
    (b"1 lock F 0 1 w", Sense::Locks(FIRST, Mode::Write)),
];

#[test]
fn locks_pages_in_three_modes(rt: HostRuntime) -> Result<(), Fail> {
    assert!(rt; say(rt.alloc(), &LOCKS));
    Ok(())
}

static WAITING: [&[u8]; 12] = [
    b"1 create 1 G ann 1 wait",
    b"1 create 1 G ann 1 World - wait",
    b"1 open F change iw wait",
    b"1 delete F wait",
    b"1 read F 0 1 wait",
    b"1 read F 0 1 u wait",
    b"1 write F 0 1 wait wait",
    b"1 lock F 0 1 w wait",
    b"1 change F type 7 wait",
    b"1 quota 1 ann 4 wait",
    b"auto on",
    b"auto off",
];

static COLLECTED: [(&[u8], Sense); 2] = [
    (b"7 collect", Sense::Collect(7)),
    (b"timeout 1 7", Sense::Timeout(1, 7)),
];

// Whether the text says that an owner is to be read, and that the call is to wait.
fn reads_owner_and_waits(alloc: Global, text: &[u8]) -> Result<bool, Fail> {
    let line = read(alloc, text)?;
    Ok(match &line {
        Line::ReadOwner { choice, .. } => *choice == Choice::Wait,
        _ => false,
    })
}

#[test]
fn reads_lines_that_wait(rt: HostRuntime) -> Result<(), Fail> {
    let waits = reads_owner_and_waits(rt.alloc(), b"7 owner 1 ann wait")?;
    assert!(rt; are_lines(rt.alloc(), &WAITING) && say(rt.alloc(), &COLLECTED) && waits);
    Ok(())
}

static EVENTS: [(&[u8], Sense); 5] = [
    (b"tick 8", Sense::Tick(8)),
    (b"force 1", Sense::Force(1)),
    (b"stop 2 4294967295", Sense::Stop(2, 4294967295)),
    (
        b"restart 1 18446744073709551615",
        Sense::Restart(1, 18446744073709551615),
    ),
    (b"settle", Sense::Settle),
];

#[test]
fn reads_events(rt: HostRuntime) -> Result<(), Fail> {
    assert!(rt; say(rt.alloc(), &EVENTS));
    Ok(())
}

static STOPS: [(&[u8], Sense); 4] = [
    (b"stop 1 0", Sense::Stop(1, 0)),
    (b"stop 1 255", Sense::Stop(1, 255)),
    (b"stop 1 256", Sense::Stop(1, 256)),
    (b"stop 1 65536", Sense::Stop(1, 65536)),
];

// The count of a stop has four bytes, and none of them is lost.
#[test]
fn stops_after_many_calls(rt: HostRuntime) -> Result<(), Fail> {
    assert!(rt; say(rt.alloc(), &STOPS));
    Ok(())
}

static MESSAGES: [(&[u8], Sense); 3] = [
    (b"carry 1 8", Sense::Carry(1, 8)),
    (b"lose  2 1", Sense::Lose(2, 1)),
    (b"again 3 3", Sense::Again(3, 3)),
];

// Whether the line of this text names no client, and this server twice.
fn names_twice(alloc: Global, text: &[u8], server: u8) -> Result<bool, Fail> {
    let line = read(alloc, text)?;
    Ok(line.client().is_none() && line.server() == Some(server) && line.receiver() == Some(server))
}

// A line on messages names the one that sends them, and then the other.
#[test]
fn reads_lines_on_messages(rt: HostRuntime) -> Result<(), Fail> {
    assert!(rt; say(rt.alloc(), &MESSAGES) && names_twice(rt.alloc(), b"again 3 3", 3)?);
    Ok(())
}

// The bytes that a raw line of client 3 to server 1 says.
fn raw_bytes(line: &Line) -> Option<&[u8]> {
    match line {
        Line::Raw {
            client: 3,
            server: 1,
            bytes,
        } => Some(bytes.as_slice()),
        _ => None,
    }
}

// Whether the text is a raw line of these bytes.
fn says_bytes(alloc: Global, text: &[u8], bytes: &[u8]) -> Result<bool, Fail> {
    let line = read(alloc, text)?;
    Ok(raw_bytes(&line) == Some(bytes))
}

fn bytes_are_said(alloc: Global) -> Result<bool, Fail> {
    Ok(
        says_bytes(alloc, b"3 raw 1 0000", b"\x00\x00")?
            && says_bytes(alloc, b"3 raw 1 a0", b"\xa0")?
            && says_bytes(
                alloc,
                b"3 raw 1 0123456789abcdefff",
                b"\x01\x23\x45\x67\x89\xab\xcd\xef\xff",
            )?
            && says_bytes(
                alloc,
                b"3  raw 1 510200000000000000010103616e6e",
                b"\x51\x02\x00\x00\x00\x00\x00\x00\x00\x01\x01\x03ann",
            )?,
    )
}

#[test]
fn reads_bytes(rt: HostRuntime) -> Result<(), Fail> {
    assert!(rt; bytes_are_said(rt.alloc())?);
    Ok(())
}

// How many bytes the raw line of this text says.
fn count_bytes(alloc: Global, text: &[u8]) -> Result<usize, Fail> {
    let line = read(alloc, text)?;
    match raw_bytes(&line) {
        Some(bytes) => Ok(bytes.len()),
        None => Err("bytes".into()),
    }
}

// A line of 1,024 bytes has room for 508 of these.
#[test]
fn reads_the_longest_bytes(rt: HostRuntime) -> Result<(), Fail> {
    let mut text = Vec::from_slice(rt.alloc(), b"3 raw 1 ")?;
    for _ in 0..508u32 {
        text.extend_from_slice(b"5a")?;
    }
    let count = count_bytes(rt.alloc(), text.as_slice())?;
    text.extend_from_slice(b"5a")?;
    assert!(rt; count == 508 && is_outside(rt.alloc(), text.as_slice()));
    Ok(())
}
