//! Many scripts with waits, timeouts, stops and restarts, each replayed as one thread would do what it committed.
use super::{Failing, run};
use alp_replay::{Counts, Line, Maker, Replay};
use std::alloc::Global;
use std::test::Fail;

// Three files of two owners, each of whom may be charged for twenty pages.
const SET_UP: &[u8] =
    b"servers 1\nvolume 1 512 64\nclient 1 Admin\nclient 2 ann\nclient 3 bob\n1 begin 1\n1 mkowner 1 ann 20 World\n1 mkowner 1 bob 20 World\n1 create 1 A ann 3\n1 create 1 B ann 2\n1 create 1 C bob 1\n1 change A read World\n1 change A modify World\n1 change B read World\n1 change B modify World\n1 change C modify World\n1 commit\n";

// A report of such a script is longer than those of other tests.
const WITH_ROOM: Failing = Failing {
    reads: 0,
    writes: 0,
    room: 65_536,
};

// So many scripts are played.
const SCRIPTS: u64 = 1000;

// So many lines it has.
const FIRST_LINES: u32 = 17;

// The script of a number, line by line.
fn script_of(alloc: Global, lines: &[Line]) -> Result<Vec<u8>, Fail> {
    let mut text = Vec::from_slice(alloc, SET_UP)?;
    for line in lines {
        line.put(&mut text)?;
    }
    Ok(text)
}

// Plays the script of a number and replays it.
fn replayed(alloc: Global, seed: u64, counts: &mut Counts) -> Result<(), Fail> {
    let lines = Maker::new(seed).lines(alloc)?;
    let script = script_of(alloc, lines.as_slice())?;
    let told = run(alloc, &["play"], script.as_slice(), &WITH_ROOM)?;
    if told.code != 0 {
        return Err("a report".into());
    }
    let mut replay = Replay::new(alloc, FIRST_LINES)?;
    replay.takes(alloc, lines.as_slice(), told.written.as_slice(), counts)?;
    Ok(())
}

#[test]
fn a_thousand_scripts_are_one_threads(rt: HostRuntime) -> Result<(), Fail> {
    let mut counts = Counts::default();
    for seed in 0..SCRIPTS {
        replayed(rt.alloc(), seed, &mut counts)?;
    }
    assert!(rt; counts.is_rich());
    Ok(())
}
