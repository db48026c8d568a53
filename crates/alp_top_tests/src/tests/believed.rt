//! Runs in a folder that is believed.
use super::{AGAIN, AGAIN_TOLD, SCRIPT, TOLD, Told, words};
use crate::run_believed;
use alp_base::{MemSink, MemSource};
use alp_bay::HostBay;
use alp_belief::BelievedBay;
use alp_top::status_text;
use std::alloc::Global;
use std::path::PathBuf;
use std::test::Fail;
use std::{env, fs, process};

type Bay = BelievedBay<HostBay<HostRuntime>>;

// A new folder of this process.
fn new_folder(rt: &HostRuntime) -> Result<PathBuf, Fail> {
    let name = format!(in rt.alloc(); "alp_top-believed-{}", process::id(rt.process()))?;
    let path = env::temp_dir(rt)?.join(rt.alloc(), name.as_str())?;
    fs::create_dir(rt, path.as_path())?;
    Ok(path)
}

// A bay that believes the volumes of a folder to be new.
fn new_bay(rt: HostRuntime) -> Result<Bay, Fail> {
    let bay = HostBay::new(rt.alloc(), rt)?;
    Ok(BelievedBay::new(rt.alloc(), bay)?)
}

fn run_there(alloc: Global, folder: &str, text: &[u8], bay: &mut Bay) -> Result<Told, Fail> {
    let words = words(alloc, &["play", "--folder", folder])?;
    let mut script = MemSource::new(Vec::from_slice(alloc, text)?, Vec::new(alloc));
    let mut out = MemSink::new(alloc, 4096, Vec::new(alloc))?;
    let status = run_believed(alloc, &words, &mut script, &mut out, bay);
    Ok(Told {
        code: status.code(),
        said: status_text(&status),
        written: out.into_bytes(),
    })
}

// Whether the second day goes on with what the first one left in the folder.
fn goes_on(rt: HostRuntime, folder: &str) -> Result<bool, Fail> {
    let alloc = rt.alloc();
    let mut bay = new_bay(rt)?;
    let first = run_there(alloc, folder, SCRIPT, &mut bay)?;
    let second = run_there(alloc, folder, AGAIN, &mut bay)?;
    Ok(first.is(0, "", TOLD) && second.is(0, "", AGAIN_TOLD))
}

// Whether a bay that believes other files fails.
fn tells_others(rt: HostRuntime, folder: &str) -> Result<bool, Fail> {
    let alloc = rt.alloc();
    let mut bay = new_bay(rt)?;
    let told = run_there(alloc, folder, AGAIN, &mut bay)?;
    Ok(told.is(5, "alpine: disk fault server 1", b""))
}

#[test]
fn plays_in_a_folder_that_is_believed(rt: HostRuntime) -> Result<(), Fail> {
    let path = new_folder(&rt)?;
    let folder = path.as_path().to_str().ok_or("a name")?;
    let kept = goes_on(rt, folder)?;
    let told = tells_others(rt, folder)?;
    fs::remove_dir_all(&rt, path.as_path())?;
    assert!(rt; kept && told);
    Ok(())
}
