//! The program `alp_stamps FOLDER COUNT`: a server on the volume in FOLDER, whose one client makes two files and commits COUNT times to
//! them, and a line for each commit with its stamp, once the server has told it. `bench/kill.sh` kills it, and looks for what was printed.
#![tactic(auto)]

mod failed;
mod server;
mod words;

ghost use Rattle.std.specs.Prelude.{◌≡◌};
ghost use Rattle.alp_acknowledge.specs.Turns.{InStep};

use alp_acknowledge::{Caller, Ledger};
use alp_base::{FileId, Stamp};
use alp_vault::Vault;
use failed::Failed;
use server::server_in;
use std::alloc::Global;
use std::fs::{File, Files};
use std::process::ExitCode;
use std::rt::Runtime;
use std::{env, io};
use words::{USAGE, read_count};

// The line of the files, once their commit was told.
fn print_files<R: Runtime>(rt: &R, left: FileId, right: FileId, stamp: Stamp) -> io::Result<()> {
    let ts = stamp.ts;
    println!(rt;
        "files {}.{}.{} {}.{}.{} stamp {ts}",
        left.server, left.epoch, left.counter, right.server, right.epoch, right.counter
    )
}

// The line of a commit, once it was told. It goes out in one write, with nothing held back.
fn print_commit<R: Runtime>(rt: &R, number: u32, stamp: Stamp) -> io::Result<()> {
    let ts = stamp.ts;
    let trans = stamp.trans;
    println!(rt;
        "commit {number} stamp {ts} {}.{}.{}",
        trans.server, trans.epoch, trans.counter
    )
}

// Commits so often, and prints each once it is told.
fn commit_often<R: Runtime, V: Vault>(
    rt: &R,
    caller: &mut Caller<V>,
    ledger: Ledger,
    commits: u32,
) -> Result<(), Failed>
    requires { InStep caller.old }
{
    for round in 0..commits {
        let number = round + 1;
        let stamp = ledger.enter(caller, number)?;
        print_commit(rt, number, stamp)?;
    }
    Ok(())
}

// Makes two files, and commits to them so often.
fn serve<R: Runtime, V: Vault>(rt: &R, caller: &mut Caller<V>, commits: u32) -> Result<(), Failed>
    requires { InStep caller.old }
{
    let (ledger, stamp) = Ledger::make(caller)?;
    print_files(rt, ledger.left, ledger.right, stamp)?;
    commit_often(rt, caller, ledger, commits)
}

// The same on the volume in the folder.
fn commit<R: Runtime + Files<File = File>>(
    rt: &R,
    alloc: Global,
    folder: &str,
    commits: u32,
) -> Result<(), Failed> {
    let node = server_in(rt, alloc, folder)?;
    let mut caller = Caller::greet(alloc, node)?;
    serve(rt, &mut caller, commits)
}

fn run(rt: &HostRuntime) -> Result<(), Failed> {
    let mut words = Vec::new(rt.alloc());
    for word in env::args(rt)?.skip(1) {
        words.push(word)?;
    }
    let [folder, count] = words.as_slice() else {
        return Err(Failed::Words);
    };
    let Some(commits) = read_count(count.as_str()) else {
        return Err(Failed::Words);
    };
    commit(rt, rt.alloc(), folder.as_str(), commits)
}

fn main(rt: HostRuntime) -> ExitCode {
    match run(&rt) {
        Ok(()) => ExitCode::SUCCESS,
        Err(Failed::Words) => {
            let _ = eprint!(rt; "{USAGE}");
            ExitCode::from(1)
        }
        Err(failed) => {
            let _ = eprintln!(rt; "{failed}");
            ExitCode::from(1)
        }
    }
}
