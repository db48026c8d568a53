//! Runs of two servers: one that goes on where another ended, and commits in which the disk of one of the servers stops at each of its
//! calls, where each message is carried by hand.
use super::{SOUND, go_on, has, run};
use alp_bay::MemBay;
use std::alloc::Global;
use std::test::Fail;

// Two transactions want what each other reads: one of them is refused, and both end.
const CROSSED: &[u8] =
    b"servers 2\nclient 1 Admin\nclient 2 Admin\nclient 3 Admin\n1 begin 1\n1 mkowner 1 ann 9 World\n1 mkowner 2 ann 9 World\n1 commit\n2 begin 1\n3 begin 2\n2 owner 1 ann\n3 quota 2 ann 5\n3 owner 1 ann\n2 owner 2 ann\n3 commit\n2 owner 2 ann\n2 commit\n";

const CROSSED_TOLD: &[u8] =
    b"5 ok trans 1.1.1\n6 ok\n7 ok\n8 ok stamp 1 1.1.1\n9 ok trans 1.1.2\n10 ok trans 2.1.1\n11 ok owner ann charge 0 quota 9 create World\n12 ok\n13 ok owner ann charge 0 quota 9 create World\n14 refused 16 holder 2.1.1\n15 ok stamp 2 2.1.1\n16 ok owner ann charge 0 quota 5 create World\n17 ok stamp 3 1.1.2\nserver 1 epoch 1 clock 3 files 0 pages 0\nserver 2 epoch 1 clock 3 files 0 pages 0\nowner 1 ann charge 0 quota 9\nowner 2 ann charge 0 quota 5\ncommitted 3 aborted 0\n";

// Another day: both servers have what they had, in their next epochs.
const NEXT_DAY: &[u8] =
    b"servers 2\nclient 1 Admin\n1 begin 1\n1 owner 1 ann\n1 owner 2 ann\n1 commit\n";

const NEXT_DAY_TOLD: &[u8] =
    b"3 ok trans 1.2.1\n4 ok owner ann charge 0 quota 9 create World\n5 ok owner ann charge 0 quota 5 create World\n6 ok stamp 4 1.2.1\nserver 1 epoch 2 clock 4 files 0 pages 0\nserver 2 epoch 2 clock 4 files 0 pages 0\nowner 1 ann charge 0 quota 9\nowner 2 ann charge 0 quota 5\ncommitted 1 aborted 0\n";

static DAYS: [[&[u8]; 2]; 2] = [[CROSSED, CROSSED_TOLD], [NEXT_DAY, NEXT_DAY_TOLD]];

#[test]
fn a_run_goes_on_where_another_ended(rt: HostRuntime) -> Result<(), Fail> {
    let mut bay = MemBay::new(rt.alloc())?;
    assert!(rt; go_on(rt.alloc(), &DAYS, &mut bay)?);
    Ok(())
}

// ---- messages that are carried by hand

// An owner is made at both, and each message is carried by hand: some come twice, some are lost.
const CARRIED: &[u8] =
    b"1 begin 1\n1 mkowner 1 ann 9 World\n1 mkowner 2 ann 9 World\nauto off\n1 commit\n1 owner 1 ann\ncarry 1 2\nagain 1 2\ncarry 2 1\n1 collect\nlose 1 2\ntick 1\ncarry 1 2\ncarry 2 1\ncarry 2 1\nagain 2 1\n";

const BEHIND: &[u8] = b"auto on\n1 begin 2\n1 owner 1 ann\n1 commit\n";

// All this, where a line stands before it and another before what is asked behind it.
fn script(alloc: Global, before: &[u8], between: &[u8]) -> Result<Vec<u8>, Fail> {
    let mut text = Vec::from_slice(alloc, b"servers 2\nclient 1 Admin\n")?;
    text.extend_from_slice(before)?;
    text.extend_from_slice(CARRIED)?;
    text.extend_from_slice(between)?;
    text.extend_from_slice(BEHIND)?;
    Ok(text)
}

// What is reported where the disk of this server does so many calls of all this, and these lines stand before the rest.
fn stopped(alloc: Global, server: u8, calls: u32, between: &[u8]) -> Result<Vec<u8>, Fail> {
    let before = format!(in alloc; "stop {server} {calls}\n")?;
    let text = script(alloc, before.as_bytes(), between)?;
    let told = run(alloc, &["play"], text.as_slice(), &SOUND)?;
    if told.code != 0 {
        return Err("a report".into());
    }
    Ok(told.written)
}

// One more, where that holds.
fn count(seen: &mut u32, holds: bool) {
    if holds {
        *seen = seen.saturating_add(1);
    }
}

// Whether the server answers at the end of all this, as a client asks it for a transaction.
fn is_up(alloc: Global, server: u8, calls: u32) -> Result<bool, Fail> {
    let begin = format!(in alloc; "1 begin {server}\n")?;
    let report = stopped(alloc, server, calls, begin.as_bytes())?;
    Ok(!has(report.as_slice(), b"20 refused 20\n"))
}

// Whether both servers have the owner, or neither has, when that server has started again. Both are counted.
fn is_whole(alloc: Global, server: u8, calls: u32, both: &mut u32) -> Result<bool, Fail> {
    let restart = format!(in alloc; "restart {server} 0\nsettle\n")?;
    let report = stopped(alloc, server, calls, restart.as_bytes())?;
    let first = has(report.as_slice(), b"owner 1 ann charge 0 quota 9\n");
    let second = has(report.as_slice(), b"owner 2 ann charge 0 quota 9\n");
    count(both, first && second);
    Ok(first == second)
}

// Whether it is so at each call at which the disk of this server stops, until none is left.
fn is_always_whole(alloc: Global, server: u8) -> Result<bool, Fail> {
    let mut both = 0u32;
    for calls in 0..200u32 {
        if !is_whole(alloc, server, calls, &mut both)? {
            return Ok(false);
        }
        if is_up(alloc, server, calls)? {
            return Ok(both > 1 && both <= calls);
        }
    }
    Ok(false)
}

#[test]
fn a_commit_stands_at_both_servers_or_at_none(rt: HostRuntime) -> Result<(), Fail> {
    for server in [1u8, 2] {
        assert!(rt; is_always_whole(rt.alloc(), server)?);
    }
    Ok(())
}
