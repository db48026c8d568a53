//! The program `alp_ends`: plays the script on standard input on new disks in memory, and says how that ended behind the report.
#![tactic(auto)]

use alp_base::{OutOfMemory, ReadSource, WriteSink};
use alp_bay::MemBay;
use alp_disk::MemDisk;
use alp_top::{Status, run_alpine, tell};
use std::process::ExitCode;

fn play(rt: HostRuntime) -> Result<Status<MemDisk>, OutOfMemory> {
    let mut words = Vec::new(rt.alloc());
    words.push(String::from_str(rt.alloc(), "play")?)?;
    let mut script = ReadSource::new(rt.stdin());
    let mut out = WriteSink::new(rt.stdout());
    let mut bay = MemBay::new(rt.alloc())?;
    Ok(run_alpine(rt.alloc(), &words, &mut script, &mut out, &mut bay))
}

fn main(rt: HostRuntime) -> ExitCode {
    let Ok(status) = play(rt) else {
        return ExitCode::FAILURE;
    };
    let mut said = WriteSink::new(rt.stdout());
    ExitCode::from(tell(&status, &mut said))
}
