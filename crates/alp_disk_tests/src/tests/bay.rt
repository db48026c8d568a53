//! A bay hands out what it was given.
ghost use Rattle.std.specs.Prelude.{◌≡◌, ◌≤◌};
ghost use Rattle.alp_base.specs.declared.allowance.Allowance.TheVariants.{Free};

use alp_base::{Halt, Page};
use alp_bay::{Bay, BayFault, HostBay, MemBay};
use alp_disk::Disk;
use std::fs::File;
use std::path::PathBuf;
use std::test::Fail;
use std::{env, fs, process};

// Writes a byte into the last page of a disk, for good.
fn write_last<D: Disk>(disk: &mut D, byte: u8) -> Result<(), Halt>
    ensures tells { D.tells disk.new ≡ D.tells disk.old }
    ensures free { D.allowance disk.old ≡ Free → D.allowance disk.new ≡ Free }
{
    let pages = disk.pages();
    if pages == 0 {
        return Ok(());
    }
    disk.write(pages - 1, 0, &[byte])?;
    disk.sync()
}

// The first byte of its last page.
fn last_of<D: Disk>(disk: &mut D) -> Result<u8, Halt> {
    let mut page = Page::zero();
    let pages = disk.pages();
    if pages == 0 {
        return Ok(0);
    }
    disk.read(pages - 1, &mut page)?;
    Ok(page.bytes()[0])
}

// What a disk of any bay gives that was written, given back and taken again, and how many pages it has then.
fn taken_again<B: Bay>(bay: &mut B) -> Result<(u8, u32), BayFault> {
    let mut disk = bay.take(1, 4)?;
    if write_last(&mut disk, 7).is_err() {
        return Err(BayFault::Failed);
    }
    if disk.pages() < 2 {
        return Err(BayFault::Failed);
    }
    bay.give(1, disk);
    let mut again = bay.take(1, 9)?;
    match last_of(&mut again) {
        Ok(byte) => Ok((byte, again.pages())),
        Err(_halt) => Err(BayFault::Failed),
    }
}

// Whether a disk of a bay without a folder stands there again, beside another one.
fn stands_there<B: Bay>(bay: &mut B) -> Result<bool, BayFault> {
    bay.choose(None)?;
    let (byte, pages) = taken_again(bay)?;
    let other = bay.take(2, 8)?;
    Ok(byte == 7 && pages == 4 && other.pages() == 8)
}

#[test]
fn a_disk_that_was_given_back_stands_there(rt: HostRuntime) -> Result<(), Fail> {
    let mut bay = MemBay::new(rt.alloc())?;
    assert!(rt; stands_there(&mut bay)?);
    Ok(())
}

// A new folder of this process.
fn new_folder(rt: &HostRuntime) -> Result<PathBuf, Fail> {
    let name = format!(in rt.alloc(); "alp_bay-test-{}", process::id(rt.process()))?;
    let path = env::temp_dir(rt)?.join(rt.alloc(), name.as_str())?;
    fs::create_dir(rt, path.as_path())?;
    Ok(path)
}

// A bay of that folder, where it can be chosen.
fn bay_of(rt: HostRuntime, folder: &str) -> Result<HostBay<HostRuntime>, BayFault> {
    let mut bay = HostBay::new(rt.alloc(), rt)?;
    bay.choose(Some(folder))?;
    Ok(bay)
}

// Whether a bay gives no disk of that many pages.
fn is_refused<B: Bay>(bay: &mut B, server: u8) -> bool
    requires { (1 ≤ server) × (server ≤ 8) }
{
    match bay.take(server, 4) {
        Ok(_disk) => false,
        Err(fault) => fault == BayFault::Failed,
    }
}

// Whether the second bay meets what the first one synced, and the first one is refused the disk while the second has it.
fn is_shared<B: Bay>(first: &mut B, second: &mut B) -> Result<bool, BayFault> {
    let mut disk = second.take(1, 9)?;
    let byte = last_of(&mut disk);
    Ok(byte == Ok(7) && is_refused(first, 1))
}

fn gives_third<B: Bay>(bay: &mut B) -> Result<bool, BayFault> {
    let third = bay.take(3, 5)?;
    Ok(third.pages() == 5)
}

#[test]
fn a_folder_keeps_its_volumes(rt: HostRuntime) -> Result<(), Fail> {
    let path = new_folder(&rt)?;
    let folder = path.as_path().to_str().ok_or("a name")?;
    let mut bay = bay_of(rt, folder)?;
    let again = taken_again(&mut bay)?;
    let mut second = bay_of(rt, folder)?;
    let shared = is_shared(&mut bay, &mut second)?;
    let third = gives_third(&mut bay)?;
    let odd = File::create(&rt, path.join(rt.alloc(), "server2.vol")?.as_path())?;
    odd.set_len(1025)?;
    let uneven = is_refused(&mut bay, 2);
    fs::remove_dir_all(&rt, path.as_path())?;
    assert!(rt; again == (7, 4) && shared && third && uneven);
    Ok(())
}

// No name, a file, and a folder that is not there.
const OTHERS: &[&str] = &["", "/dev/null", "/no/such/folder"];

// Whether a bay refuses each of these.
fn refuses_others<B: Bay>(bay: &mut B) -> bool {
    for name in OTHERS {
        if bay.choose(Some(*name)) != Err(BayFault::Failed) {
            return false;
        }
    }
    true
}

#[test]
fn no_other_name_is_a_folder(rt: HostRuntime) -> Result<(), Fail> {
    let mut bay = HostBay::new(rt.alloc(), rt)?;
    assert!(rt; refuses_others(&mut bay));
    assert!(rt; taken_again(&mut bay)? == (7, 4));
    Ok(())
}
