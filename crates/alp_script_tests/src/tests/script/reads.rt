//! Scripts that are read, up to the longest.
ghost use Rattle.std.specs.Prelude.{None};

use super::{count, has_lines, is_bad};
use alp_base::{Access, Choice, Failed, MemSource, Sizes, Source};
use alp_modes::Mode;
use alp_script::{FileWord, Line, NumberedLine, ScriptFault, read_script, sizes_of};
use std::alloc::Global;
use std::io::Write;
use std::test::Fail;

const FIRST_PATH: &[u8] =
    b"servers 1\nclient 1 Admin\n1 begin 1\n1 mkowner 1 ann 10 World\n1 create 1 A ann 4 World World\n1 write A 0 1 hello\n1 read A 0 2\n1 commit\n";

// Whether the script has so many lines up to this place, with the end of its line or without.
fn has_prefix(alloc: Global, end: usize, lines: usize) -> bool {
    match FIRST_PATH.get(..end) {
        Some(text) => has_lines(alloc, text, lines),
        None => false,
    }
}

fn each_prefix_is_read(alloc: Global) -> bool {
    let mut lines = 0usize;
    for (i, b) in FIRST_PATH.iter().enumerate() {
        if *b == b'\n' {
            lines = lines.saturating_add(1);
            if !has_prefix(alloc, i + 1, lines) || !has_prefix(alloc, i, lines) {
                return false;
            }
        }
    }
    lines == 8
}

#[test]
fn reads_each_prefix(rt: HostRuntime) -> Result<(), Fail> {
    assert!(rt; each_prefix_is_read(rt.alloc()));
    Ok(())
}

// A source that gives a byte at a time, and does not tell which it has left.
#[derive(Drop)]
struct ByteSource {
    bytes: Vec<u8>,
    at: usize,
}

impl Source for ByteSource {
    ghost left = { λ _. None };

    ghost faults = { λ _. 0 };

    fn read(&mut self, buf: &mut [u8]) -> Result<usize, Failed> {
        if buf.is_empty() || self.at >= self.bytes.len() {
            return Ok(0);
        }
        buf[0] = self.bytes[self.at];
        self.at += 1;
        Ok(1)
    }
}

// The line with this number.
fn line_at(lines: &[NumberedLine], number: u32) -> Option<&Line> {
    for it in lines {
        if it.number == number {
            return Some(&it.line);
        }
    }
    None
}

// Whether the lines begin with the count of servers.
fn begins_with_servers(lines: &[NumberedLine], wanted: u8) -> bool {
    match line_at(lines, 1) {
        Some(Line::Servers { count }) => *count == wanted,
        _ => false,
    }
}

// What a line is by which client 1 begins or ends a transaction.
#[derive(Clone, Copy, PartialEq, Eq)]
enum Step {
    Begin,
    Commit,
    Abort,
    Other,
}

fn step_at(lines: &[NumberedLine], number: u32) -> Step {
    match line_at(lines, number) {
        Some(
            Line::Begin {
                client: 1,
                server: 1,
            },
        ) => Step::Begin,
        Some(Line::Commit { client: 1 }) => Step::Commit,
        Some(Line::Abort { client: 1 }) => Step::Abort,
        _ => Step::Other,
    }
}

// Whether that line makes an owner with this quota.
fn makes_owner(lines: &[NumberedLine], number: u32, wanted: u32) -> bool {
    match line_at(lines, number) {
        Some(Line::MakeOwner { quota, .. }) => *quota == wanted,
        _ => false,
    }
}

// Whether that line creates a file of so many pages.
fn creates(lines: &[NumberedLine], number: u32, wanted: u32) -> bool {
    match line_at(lines, number) {
        Some(Line::Create { size, .. }) => *size == wanted,
        _ => false,
    }
}

// The lines of the script, which is read a byte at a time.
fn read_bytewise(alloc: Global, text: &[u8]) -> Result<Vec<NumberedLine>, ScriptFault> {
    let bytes = Vec::from_slice(alloc, text)?;
    let mut source = ByteSource { bytes, at: 0 };
    read_script(alloc, &mut source)
}

fn are_those_of_the_first_path(lines: &[NumberedLine]) -> bool {
    lines.len() == 8
        && begins_with_servers(lines, 1)
        && step_at(lines, 3) == Step::Begin
        && makes_owner(lines, 4, 10)
        && creates(lines, 5, 4)
        && step_at(lines, 8) == Step::Commit
}

#[test]
fn says_what_the_lines_say(rt: HostRuntime) -> Result<(), Fail> {
    let lines = read_bytewise(rt.alloc(), FIRST_PATH)?;
    assert!(rt; are_those_of_the_first_path(lines.as_slice()));
    Ok(())
}

const TRANSACTIONS: &[u8] =
    b"# two transactions\n\nservers 1\nclient 1 Admin\n1 begin 1\n1 mkowner 1 ann 4 World\n1 create 1 A ann 4096 World World\n1 create 1 A bob 1 World World\n1 commit\n1 read A 4294967295 16\n1 begin 1\n1 begin 1\n1 write 1.7.9 0 1 x\n1 commit\n1 commit\n";

#[test]
fn reads_many_transactions(rt: HostRuntime) -> Result<(), Fail> {
    assert!(rt; has_lines(rt.alloc(), TRANSACTIONS, 13));
    Ok(())
}

fn are_sent_again(alloc: Global) -> bool {
    has_lines(
        alloc,
        b"servers 1\nclient 1 Admin\n1 old\n1 begin 1\n1 repeat\n",
        5,
    ) && is_bad(alloc, b"servers 1\nclient 1 Admin\n2 repeat\n", 3)
        && is_bad(
            alloc,
            b"servers 1\nclient 1 Admin\n1 repeat\nclient 2 Admin\n",
            4,
        )
}

#[test]
fn reads_lines_that_send_again(rt: HostRuntime) -> Result<(), Fail> {
    assert!(rt; are_sent_again(rt.alloc()));
    Ok(())
}

// Two thousand files, of whose words there are 97.
fn with_many_words(alloc: Global) -> Result<Vec<u8>, Fail> {
    let mut text = Vec::from_slice(alloc, b"servers 1\nclient 1 Admin\n")?;
    for file in 0..2000u32 {
        let word = file % 97;
        write!(text, "1 create 1 F{word} ann 1\n1 close F{word}\n")?;
    }
    Ok(text)
}

// A word may be bound again and again, among others.
#[test]
fn reads_many_words(rt: HostRuntime) -> Result<(), Fail> {
    let mut text = with_many_words(rt.alloc())?;
    let are_read = has_lines(rt.alloc(), text.as_slice(), 4002);
    text.extend_from_slice(b"1 close F97\n")?;
    assert!(rt; are_read && is_bad(rt.alloc(), text.as_slice(), 4003));
    Ok(())
}

fn is_id(file: &FileWord) -> bool {
    match file {
        FileWord::Word(_) => false,
        FileWord::Id(_) => true,
    }
}

// How a line opens a file: by which client, whether by its id, to what purpose and in which mode.
type Opening = (u8, bool, Access, Mode);

// Whether the line with this number opens a file so, and does not wait.
fn opens(lines: &[NumberedLine], number: u32, wanted: Opening) -> bool {
    match line_at(lines, number) {
        Some(
            Line::OpenFile {
                client,
                file,
                access,
                mode,
                choice: Choice::Fail,
            },
        ) => (*client, is_id(file), *access, *mode) == wanted,
        _ => false,
    }
}

const TWO_CLIENTS: &[u8] =
    b"servers 1\nclient 2 Admin\nclient 1 Admin\n2 create 1 F ann 1 World World\n1 open F read r\n2 open 1.0.7 change w\n1 abort\n";

// Whether the line with this number declares the client.
fn declares(lines: &[NumberedLine], number: u32, wanted: u8) -> bool {
    match line_at(lines, number) {
        Some(Line::Client { client, .. }) => *client == wanted,
        _ => false,
    }
}

fn are_those_of_two(lines: &[NumberedLine]) -> bool {
    lines.len() == 7
        && declares(lines, 2, 2)
        && opens(lines, 5, (1, false, Access::ReadOnly, Mode::Read))
        && opens(lines, 6, (2, true, Access::Change, Mode::Write))
        && step_at(lines, 7) == Step::Abort
}

// The lines of the script.
fn read(alloc: Global, text: &[u8]) -> Result<Vec<NumberedLine>, ScriptFault> {
    let bytes = Vec::from_slice(alloc, text)?;
    let mut source = MemSource::new(bytes, Vec::new(alloc));
    read_script(alloc, &mut source)
}

#[test]
fn reads_lines_of_two_clients(rt: HostRuntime) -> Result<(), Fail> {
    let lines = read(rt.alloc(), TWO_CLIENTS)?;
    assert!(rt; are_those_of_two(lines.as_slice()));
    Ok(())
}

const LOCKS: &[u8] =
    b"servers 1\nclient 1 ann\n1 create 1 F ann 1\n1 open F change riw\n1 open F read ir fail\n1 read F 0 255 u\n1 lock F 4294967295 255 w fail\n1 lock 1.1.1 0 1 r\n";

// Each line on a file that is bound may stand, in each of its modes and with the longest run.
#[test]
fn reads_lines_with_locks(rt: HostRuntime) -> Result<(), Fail> {
    assert!(rt; has_lines(rt.alloc(), LOCKS, 8));
    Ok(())
}

// Sixteen clients are declared, the last one first, and each begins.
fn of_sixteen(alloc: Global) -> Result<Vec<u8>, Fail> {
    let mut text = Vec::from_slice(alloc, b"servers 1\n")?;
    for client in 0..16u32 {
        write!(text, "client {} Admin\n", 16 - client)?;
    }
    for client in 0..16u32 {
        write!(text, "{} begin 1\n", client + 1)?;
    }
    Ok(text)
}

#[test]
fn reads_lines_of_16_clients(rt: HostRuntime) -> Result<(), Fail> {
    let text = of_sixteen(rt.alloc())?;
    assert!(rt; has_lines(rt.alloc(), text.as_slice(), 33));
    Ok(())
}

// The sizes that the script gives the volume of a server.
fn sizes_by(alloc: Global, text: &[u8], server: u8) -> Result<Sizes, ScriptFault> {
    let lines = read(alloc, text)?;
    Ok(sizes_of(lines.as_slice(), server))
}

const VOLUMES: &[u8] =
    b"servers 1\nvolume 1 65536 4096\nclient 1 Admin\nvolume 1 512 64\n1 begin 1\n";

const LAST: Sizes = Sizes {
    home: 512,
    area: 64,
};

const NEW: Sizes = Sizes {
    home: 16384,
    area: 2048,
};

fn the_last_sizes_are_told(alloc: Global) -> bool {
    sizes_by(alloc, VOLUMES, 1) == Ok(LAST)
        && sizes_by(alloc, VOLUMES, 2) == Ok(NEW)
        && sizes_by(alloc, FIRST_PATH, 1) == Ok(NEW)
}

#[test]
fn tells_the_last_sizes(rt: HostRuntime) -> Result<(), Fail> {
    assert!(rt; the_last_sizes_are_told(rt.alloc()));
    Ok(())
}

// The script of the line and so many empty ones behind it.
fn with_empty_lines(alloc: Global, line: &[u8], more: usize) -> Result<Vec<u8>, ScriptFault> {
    let mut bytes = Vec::from_slice(alloc, line)?;
    for _ in 0..more {
        bytes.push(b'\n')?;
    }
    Ok(bytes)
}

fn is_too_long(alloc: Global, text: &[u8]) -> bool {
    count(alloc, text) == Err(ScriptFault::TooLong)
}

#[test]
fn takes_200000_lines(rt: HostRuntime) -> Result<(), Fail> {
    let mut text = with_empty_lines(rt.alloc(), b"servers 1\n", 199_999)?;
    let fits = has_lines(rt.alloc(), text.as_slice(), 1);
    text.extend_from_slice(b"1 fly")?;
    let one_more = with_empty_lines(rt.alloc(), b"servers 1\n", 200_000)?;
    let ends = is_too_long(rt.alloc(), text.as_slice());
    assert!(rt; fits && ends && is_too_long(rt.alloc(), one_more.as_slice()));
    Ok(())
}

#[test]
fn no_servers_in_200000_lines(rt: HostRuntime) -> Result<(), Fail> {
    let text = with_empty_lines(rt.alloc(), b"", 200_000)?;
    let one_more = with_empty_lines(rt.alloc(), b"", 200_001)?;
    let is_bad = is_bad(rt.alloc(), text.as_slice(), 200_001);
    assert!(rt; is_bad && is_too_long(rt.alloc(), one_more.as_slice()));
    Ok(())
}

// The line `servers 1` with as many spaces as make it so long.
fn long_line(alloc: Global, len: usize) -> Result<Vec<u8>, ScriptFault> {
    let mut bytes = Vec::from_slice(alloc, b"servers ")?;
    for _ in 9..len {
        bytes.push(b' ')?;
    }
    bytes.extend_from_slice(b"1\r\n")?;
    Ok(bytes)
}

#[test]
fn takes_lines_of_1024_bytes(rt: HostRuntime) -> Result<(), Fail> {
    let fits = long_line(rt.alloc(), 1024)?;
    let long = long_line(rt.alloc(), 1025)?;
    let is_read = fits.len() == 1026 && has_lines(rt.alloc(), fits.as_slice(), 1);
    assert!(rt; is_read && is_bad(rt.alloc(), long.as_slice(), 1));
    Ok(())
}

// Whether the script ends in a read fault where the second read of its source fails.
fn ends_in_a_read_fault(alloc: Global, text: &[u8]) -> Result<bool, ScriptFault> {
    let bytes = Vec::from_slice(alloc, text)?;
    let mut fails = Vec::new(alloc);
    fails.push(2u64)?;
    let mut source = MemSource::new(bytes, fails);
    match read_script(alloc, &mut source) {
        Ok(_lines) => Ok(false),
        Err(fault) => Ok(fault == ScriptFault::ReadFault),
    }
}

#[test]
fn tells_a_read_fault(rt: HostRuntime) -> Result<(), Fail> {
    assert!(rt; ends_in_a_read_fault(rt.alloc(), FIRST_PATH)?);
    Ok(())
}
