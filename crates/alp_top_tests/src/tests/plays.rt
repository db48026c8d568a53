//! Scripts on disks that were given back, and each call of a client behind each call of another one.
use super::{AGAIN, AGAIN_TOLD, SCRIPT, SOUND, TOLD, Told, go_on, run};
use alp_bay::MemBay;
use std::alloc::Global;
use std::io::Write;
use std::test::Fail;

static DAYS: [[&[u8]; 2]; 2] = [[SCRIPT, TOLD], [AGAIN, AGAIN_TOLD]];

#[test]
fn plays_on_the_disk_that_was_given_back(rt: HostRuntime) -> Result<(), Fail> {
    let mut bay = MemBay::new(rt.alloc())?;
    assert!(rt; go_on(rt.alloc(), &DAYS, &mut bay)?);
    Ok(())
}

// Client 1 made a file of its owner, and both clients began.
const BOTH_BEGUN: &[u8] =
    b"servers 1\nclient 1 Admin\nclient 2 Admin\n1 begin 1\n1 mkowner 1 ann 10 World\n1 create 1 A ann 4 World World\n1 write A 0 1 hello\n1 commit\n1 begin 1\n2 begin 1\n";

// What a client does then to the file or to its owner: for each of the two the lines, without their client.
const DEEDS: [&[&[u8]]; 8] = [
    &[b"open A read r"],
    &[b"open A change w"],
    &[b"open A read r", b"read A 0 1"],
    &[b"open A change w", b"write A 0 1 x"],
    &[b"create 1 B ann 1 World World"],
    &[b"mkowner 1 ann 5 World"],
    &[b"commit"],
    &[b"abort"],
];

const OPEN: &[u8] = b"ok open 1";

const HELD: &[u8] = b"refused 16 holder 1.1.2";

const NOT_OPEN: &[u8] = b"refused 5";

const TEXT: &[u8] = b"ok hello";

const MADE: &[u8] = b"ok file 1.1.2 open 1";

const EXISTS: &[u8] = b"refused 8";

const STAMP: &[u8] = b"ok stamp 2 1.1.3";

const ENDED: &[u8] = b"refused 17 Asked";

// What client 2 is answered to each of these behind each of them by client 1.
const ANSWERS: [[&[u8]; 8]; 8] = [
    [OPEN, HELD, TEXT, NOT_OPEN, MADE, EXISTS, STAMP, ENDED],
    [HELD, HELD, NOT_OPEN, NOT_OPEN, MADE, EXISTS, STAMP, ENDED],
    [OPEN, HELD, TEXT, NOT_OPEN, MADE, EXISTS, STAMP, ENDED],
    [HELD, HELD, NOT_OPEN, NOT_OPEN, MADE, EXISTS, STAMP, ENDED],
    [OPEN, OPEN, TEXT, b"ok", HELD, HELD, STAMP, ENDED],
    [OPEN, OPEN, TEXT, b"ok", HELD, HELD, STAMP, ENDED],
    [
        OPEN,
        OPEN,
        TEXT,
        b"ok",
        MADE,
        EXISTS,
        b"ok stamp 3 1.1.3",
        ENDED,
    ],
    [OPEN, OPEN, TEXT, b"ok", MADE, EXISTS, STAMP, ENDED],
];

// The report's last line of a client, without its number.
fn last_answer(report: &[u8]) -> &[u8] {
    let lines = report.split(|b| *b == b'\n');
    let mut last: &[u8] = b"";
    for line in lines {
        match line {
            [first, ..] if first.is_ascii_digit() => last = line,
            _ => {}
        }
    }
    match last.iter().position(|b| *b == b' ') {
        Some(i) => &last[i + 1..],
        None => last,
    }
}

fn put_deed(script: &mut Vec<u8>, client: u8, lines: &[&[u8]]) -> Result<(), Fail> {
    for line in lines {
        write!(script, "{client} ")?;
        script.extend_from_slice(*line)?;
        script.extend_from_slice(b"\n")?;
    }
    Ok(())
}

// The run in which client 1 does the one, and client 2 then the other.
fn played(alloc: Global, first: &[&[u8]], second: &[&[u8]]) -> Result<Told, Fail> {
    let mut script = Vec::from_slice(alloc, BOTH_BEGUN)?;
    put_deed(&mut script, 1, first)?;
    put_deed(&mut script, 2, second)?;
    run(alloc, &["play"], script.as_slice(), &SOUND)
}

// Whether client 2 is answered so, whatever of these it does behind what client 1 does.
fn answers_so(alloc: Global, first: &[&[u8]], answers: &[&[u8]; 8]) -> Result<bool, Fail> {
    for (second, answer) in DEEDS.iter().zip(answers.iter()) {
        let told = played(alloc, first, *second)?;
        if told.code != 0 || last_answer(told.written.as_slice()) != *answer {
            return Ok(false);
        }
    }
    Ok(true)
}

#[test]
fn answers_each_pair_of_calls(rt: HostRuntime) -> Result<(), Fail> {
    for (first, answers) in DEEDS.iter().zip(ANSWERS.iter()) {
        assert!(rt; answers_so(rt.alloc(), *first, answers)?);
    }
    Ok(())
}
