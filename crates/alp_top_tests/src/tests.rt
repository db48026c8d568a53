//! Runs of scripts, and what they tell.
mod believed;
mod crashes;
mod damage;
mod drills;
mod faults;
mod plays;
mod random;
mod several;
mod storms;

use alp_base::{MemSink, MemSource};
use alp_bay::{Bay, MemBay};
use alp_top::{StatusText, run_alpine, status_text};
use std::alloc::Global;
use std::test::Fail;

// A client makes an owner and a file of four pages, writes one of them, and reads two.
const SCRIPT: &[u8] =
    b"servers 1\nclient 1 Admin\n1 begin 1\n1 mkowner 1 ann 10 World\n1 create 1 A ann 4 World World\n1 write A 0 1 hello\n1 read A 0 2\n1 commit\n";

const TOLD: &[u8] =
    b"3 ok trans 1.1.1\n4 ok\n5 ok file 1.1.1 open 1\n6 ok\n7 ok hello -\n8 ok stamp 1 1.1.1\nserver 1 epoch 1 clock 1 files 1 pages 4\nowner 1 ann charge 4 quota 10\ncommitted 1 aborted 0\n";

const IDLE: &[u8] = b"server 1 epoch 1 clock 0 files 0 pages 0\ncommitted 0 aborted 0\n";

// What is beyond the end of a file, beyond a quota, or not open.
const REFUSALS: &[u8] =
    b"servers 1\nclient 1 Admin\n1 begin 1\n1 mkowner 1 ann 10 World\n1 create 1 A ann 4 World World\n1 write A 0 1 hello\n1 read A 0 2\n1 read A 3 2\n1 create 1 B ann 7 World World\n1 read B 0 1\n1 commit\n";

const REFUSED: &[u8] =
    b"3 ok trans 1.1.1\n4 ok\n5 ok file 1.1.1 open 1\n6 ok\n7 ok hello -\n8 refused 11 size 4\n9 refused 12 charge 4 asked 7 quota 10\n10 refused 5\n11 ok stamp 1 1.1.1\nserver 1 epoch 1 clock 1 files 1 pages 4\nowner 1 ann charge 4 quota 10\ncommitted 1 aborted 0\n";

// Another day: a client reads what stands on the disk.
const AGAIN: &[u8] =
    b"servers 1\nclient 1 Admin\n1 begin 1\n1 open 1.1.1 read r\n1 read 1.1.1 0 2\n1 commit\n";

const AGAIN_TOLD: &[u8] =
    b"3 ok trans 1.2.1\n4 ok open 1\n5 ok hello -\n6 ok stamp 2 1.2.1\nserver 1 epoch 2 clock 2 files 1 pages 4\nowner 1 ann charge 4 quota 10\ncommitted 1 aborted 0\n";

fn words(alloc: Global, texts: &[&str]) -> Result<Vec<String>, Fail> {
    let mut words = Vec::new(alloc);
    for text in texts {
        let mut word = String::new(alloc);
        word.push_str(*text)?;
        words.push(word)?;
    }
    Ok(words)
}

// Each so many-th read of the source and write of the sink fails; 0 for none. The sink has room for so many bytes.
#[derive(Drop)]
struct Failing {
    reads: u64,
    writes: u64,
    room: u32,
}

const SOUND: Failing = Failing {
    reads: 0,
    writes: 0,
    room: 4096,
};

// The calls that fail where each so many-th does.
fn calls(alloc: Global, each: u64) -> Result<Vec<u64>, Fail> {
    let mut calls = Vec::new(alloc);
    for i in 1..17u64 {
        calls.push(i.saturating_mul(each))?;
    }
    Ok(calls)
}

// How the run of a script ends, what the program says of it, and what was written.
#[derive(Drop)]
struct Told {
    code: u8,
    said: StatusText,
    written: Vec<u8>,
}

impl Told {
    // Whether it ends with this status, of which this is said, and this was written.
    fn is(&self, code: u8, said: &str, written: &[u8]) -> bool {
        self.code == code && self.said.as_str() == said && self.written.as_slice() == written
    }
}

// On a new disk.
fn run(alloc: Global, asked: &[&str], text: &[u8], failing: &Failing) -> Result<Told, Fail> {
    let mut bay = MemBay::new(alloc)?;
    run_in(alloc, asked, text, failing, &mut bay)
}

fn run_in<B: Bay>(
    alloc: Global,
    asked: &[&str],
    text: &[u8],
    failing: &Failing,
    bay: &mut B,
) -> Result<Told, Fail> {
    let words = words(alloc, asked)?;
    let bytes = Vec::from_slice(alloc, text)?;
    let mut script = MemSource::new(bytes, calls(alloc, failing.reads)?);
    let mut out = MemSink::new(alloc, failing.room, calls(alloc, failing.writes)?)?;
    let status = run_alpine(alloc, &words, &mut script, &mut out, bay);
    Ok(Told {
        code: status.code(),
        said: status_text(&status),
        written: out.into_bytes(),
    })
}

// Whether each script is played to its end on what the one before left in the bay, and has this report.
fn go_on<B: Bay>(alloc: Global, days: &[[&[u8]; 2]], bay: &mut B) -> Result<bool, Fail> {
    for [script, report] in days {
        let told = run_in(alloc, &["play"], *script, &SOUND, bay)?;
        if !told.is(0, "", *report) {
            return Ok(false);
        }
    }
    Ok(true)
}

// Whether the text has these lines in a row.
fn has(text: &[u8], lines: &[u8]) -> bool {
    !lines.is_empty() && text.windows(lines.len()).any(|part| part == lines)
}
