//! The program `alp_plays`: plays each script of the folder that it runs in, on new disks in memory, and prints the reports.
#![tactic(auto)]

use alp_base::{MemSource, OutOfMemory, WriteSink};
use alp_bay::MemBay;
use alp_disk::MemDisk;
use alp_top::{Status, run_alpine, status_text};
use std::process::ExitCode;
use std::{fs, io};

// The names of the scripts, in order.
fn script_names(rt: &HostRuntime) -> io::Result<Vec<String>> {
    let mut names = Vec::new(rt.alloc());
    for entry in fs::read_dir(rt, ".")? {
        let entry = entry?;
        let name = entry.file_name();
        if name.ends_with(".alp") {
            names.push(String::from_str(rt.alloc(), name)?)?;
        }
    }
    names.sort()?;
    Ok(names)
}

// Plays the script on new disks, and prints its report.
fn play(rt: HostRuntime, text: Vec<u8>) -> Result<Status<MemDisk>, OutOfMemory> {
    let mut words = Vec::new(rt.alloc());
    words.push(String::from_str(rt.alloc(), "play")?)?;
    let mut script = MemSource::new(text, Vec::new(rt.alloc()));
    let mut out = WriteSink::new(rt.stdout());
    let mut bay = MemBay::new(rt.alloc())?;
    Ok(run_alpine(rt.alloc(), &words, &mut script, &mut out, &mut bay))
}

// Plays the script of this name behind a line that tells the name. A run that ends without its report says how.
fn tell(rt: HostRuntime, name: &str) -> io::Result<()> {
    println!(rt; "== {name}")?;
    let text = fs::read(&rt, name)?;
    let Ok(status) = play(rt, text) else {
        return Err(io::Error::from(io::ErrorKind::OutOfMemory));
    };
    let code = status.code();
    if code != 0 {
        let text = status_text(&status);
        let said = text.as_str();
        println!(rt; "status {code}: {said}")?;
    }
    Ok(())
}

fn tell_all(rt: HostRuntime) -> io::Result<()> {
    let names = script_names(&rt)?;
    for name in names.iter() {
        tell(rt, name.as_str())?;
    }
    Ok(())
}

fn main(rt: HostRuntime) -> ExitCode {
    match tell_all(rt) {
        Ok(()) => ExitCode::SUCCESS,
        Err(e) => {
            let _ = eprintln!(rt; "alp_plays: {e}");
            ExitCode::FAILURE
        }
    }
}
