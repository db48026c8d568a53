//! The program `alpine`: the script on standard input, the report on standard output, the disks in a folder or in memory.
#![tactic(auto)]

use alp_base::{ReadSource, WriteSink};
use alp_bay::{HostBay, HostDisk};
use alp_top::{Status, run_alpine, tell};
use std::process::ExitCode;
use std::{env, io};

// The words after the program's name.
fn words(rt: &HostRuntime) -> io::Result<Vec<String>> {
    let mut words = Vec::new(rt.alloc());
    for word in env::args(rt)?.skip(1) {
        words.push(word)?;
    }
    Ok(words)
}

fn run(rt: HostRuntime) -> Status<HostDisk> {
    let words = match words(&rt) {
        Ok(words) => words,
        Err(e) if e.kind() == io::ErrorKind::OutOfMemory => return Status::OutOfMemory,
        Err(_) => return Status::BadWords,
    };
    let Ok(mut bay) = HostBay::new(rt.alloc(), rt) else {
        return Status::OutOfMemory;
    };
    let mut script = ReadSource::new(rt.stdin());
    let mut out = WriteSink::new(rt.stdout());
    run_alpine(rt.alloc(), &words, &mut script, &mut out, &mut bay)
}

fn main(rt: HostRuntime) -> ExitCode {
    let status = run(rt);
    let mut err = WriteSink::new(rt.stderr());
    ExitCode::from(tell(&status, &mut err))
}
