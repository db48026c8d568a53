//! Words, scripts and disks that are refused, and reads, writes and calls of the disk that fail.
ghost use Rattle.std.specs.Prelude.{◌≡◌, ◌≤◌, length, IfOk};
ghost use Rattle.alp_base.specs.declared.allowance.Allowance.TheVariants.{Free};

use super::{
    AGAIN, AGAIN_TOLD, Failing, IDLE, REFUSALS, REFUSED, SCRIPT, SOUND, TOLD, Told, calls, run,
    run_in, words,
};
use alp_base::{MemSink, MemSource, WriteSink};
use alp_bay::{Bay, HostBay, MemBay};
use alp_disk::{Disk, MemDisk};
use alp_top::{run_alpine, tell};
use std::alloc::Global;
use std::io::{self, Write};
use std::path::PathBuf;
use std::test::Fail;
use std::{env, fs, process};

// A disk of so many pages whose calls with these numbers fail, and whose first page begins so.
fn disk_with(alloc: Global, pages: u32, failing: Vec<u64>, begins: &[u8]) -> Result<MemDisk, Fail>
    requires pages { 2 ≤ pages }
    requires short { length begins.now ≤ 512 }
    ensures long { IfOk result (λ disk. 2 ≤ ⟦<MemDisk as Disk>⟧.size disk) }
    ensures free { IfOk result (λ disk. ⟦<MemDisk as Disk>⟧.allowance disk ≡ Free) }
{
    let mut disk = MemDisk::new(alloc, pages, failing)?;
    let _ = disk.write(0, 0, begins);
    disk.stop_after(None);
    Ok(disk)
}

static WORDS: [&[&str]; 5] = [
    &[],
    &["play", "now"],
    &["Play"],
    &["play", "--folder"],
    &["--help"],
];

// Whether each of these is refused.
fn are_bad_words(alloc: Global) -> Result<bool, Fail> {
    for asked in WORDS {
        let told = run(alloc, asked, SCRIPT, &SOUND)?;
        if !told.is(1, "alpine: bad words", b"") {
            return Ok(false);
        }
    }
    Ok(true)
}

#[test]
fn refuses_other_words_and_scripts(rt: HostRuntime) -> Result<(), Fail> {
    let told = run(rt.alloc(), &["play"], b"servers 9\n", &SOUND)?;
    let is_refused = told.is(2, "alpine: bad script line 1", b"");
    assert!(rt; is_refused && are_bad_words(rt.alloc())?);
    Ok(())
}

// What the program says in the end, where there is room for so many bytes of it, and its exit code.
fn end_of(alloc: Global, asked: &[&str], room: u32) -> Result<(u8, Vec<u8>), Fail> {
    let words = words(alloc, asked)?;
    let mut script = MemSource::new(Vec::from_slice(alloc, SCRIPT)?, Vec::new(alloc));
    let mut out = MemSink::new(alloc, 4096, Vec::new(alloc))?;
    let mut bay = MemBay::new(alloc)?;
    let status = run_alpine(alloc, &words, &mut script, &mut out, &mut bay);
    let mut err = MemSink::new(alloc, room, Vec::new(alloc))?;
    let code = tell(&status, &mut err);
    Ok((code, err.into_bytes()))
}

fn is_end(told: &(u8, Vec<u8>), code: u8, said: &[u8]) -> bool {
    told.0 == code && told.1.as_slice() == said
}

#[test]
fn says_in_the_end_how_a_run_ended(rt: HostRuntime) -> Result<(), Fail> {
    let bad = end_of(rt.alloc(), &["Play"], 64)?;
    let cut_off = end_of(rt.alloc(), &["Play"], 6)?;
    let done = end_of(rt.alloc(), &["play"], 64)?;
    assert!(rt;
        is_end(&bad, 1, b"alpine: bad words\n") && is_end(&cut_off, 1, b"") && is_end(&done, 0, b"")
    );
    Ok(())
}

// A new folder of this process.
fn new_folder(rt: &HostRuntime) -> Result<PathBuf, Fail> {
    let name = format!(in rt.alloc(); "alp_top-test-{}", process::id(rt.process()))?;
    let path = env::temp_dir(rt)?.join(rt.alloc(), name.as_str())?;
    fs::create_dir(rt, path.as_path())?;
    Ok(path)
}

// The run of a script with these words in a new bay of the host.
fn run_on_host(rt: HostRuntime, asked: &[&str], script: &[u8]) -> Result<Told, Fail> {
    let mut bay = HostBay::new(rt.alloc(), rt)?;
    run_in(rt.alloc(), asked, script, &SOUND, &mut bay)
}

static DAYS: [(&[u8], &[u8]); 2] = [(SCRIPT, TOLD), (AGAIN, AGAIN_TOLD)];

// Whether each day of the folder goes on with what the day before left.
fn goes_on(rt: HostRuntime, folder: &str) -> Result<bool, Fail> {
    for (script, report) in DAYS {
        let told = run_on_host(rt, &["play", "--folder", folder], script)?;
        if !told.is(0, "", report) {
            return Ok(false);
        }
    }
    Ok(true)
}

// Whether a folder without a name is a fault.
fn needs_a_name(rt: HostRuntime) -> Result<bool, Fail> {
    let told = run_on_host(rt, &["play", "--folder="], SCRIPT)?;
    Ok(told.said.as_str() == "alpine: disk fault server 0")
}

#[test]
fn plays_on_the_volume_of_a_folder(rt: HostRuntime) -> Result<(), Fail> {
    let path = new_folder(&rt)?;
    let folder = path.as_path().to_str().ok_or("a name")?;
    let kept = goes_on(rt, folder)?;
    fs::remove_dir_all(&rt, path.as_path())?;
    assert!(rt; kept && needs_a_name(rt)?);
    Ok(())
}

// How a script ends on such a disk of the first server.
fn run_on(alloc: Global, disk: MemDisk, script: &[u8]) -> Result<Told, Fail>
    requires long { 2 ≤ ⟦<MemDisk as Disk>⟧.size disk }
    requires free { ⟦<MemDisk as Disk>⟧.allowance disk ≡ Free }
{
    let mut bay = MemBay::new(alloc)?;
    bay.give(1, disk);
    run_in(alloc, &["play"], script, &SOUND, &mut bay)
}

// How the script ends on a disk that is no volume.
fn on_another_disk(alloc: Global) -> Result<Told, Fail> {
    let other = disk_with(alloc, 2, Vec::new(alloc), b"hello")?;
    run_on(alloc, other, SCRIPT)
}

// And on one each of whose calls fails.
fn on_a_failing_disk(alloc: Global) -> Result<Told, Fail> {
    let failing = disk_with(alloc, 2, calls(alloc, 1)?, b"")?;
    run_on(alloc, failing, SCRIPT)
}

#[test]
fn tells_what_is_wrong_with_a_disk(rt: HostRuntime) -> Result<(), Fail> {
    let other = on_another_disk(rt.alloc())?;
    let failing = on_a_failing_disk(rt.alloc())?;
    let is_told = other.is(8, "alpine: not a volume server 1", b"");
    assert!(rt;
        is_told && failing.code == 5 && failing.said.as_str() == "alpine: disk fault server 1"
    );
    Ok(())
}

// A script that is read in some pieces, and whose report goes out in one.
fn long(alloc: Global) -> Result<Vec<u8>, Fail> {
    let mut text = Vec::from_slice(alloc, REFUSALS)?;
    for _line in 0..250u8 {
        text.extend_from_slice(b"# forty bytes of a line that is skipped\n")?;
    }
    Ok(text)
}

// How a run must end: the status, what is said, and what was written.
type Ending = (u8, &'static str, &'static [u8]);

const READ_FAULT: Ending = (3, "alpine: read fault", b"");

const WRITE_FAULT: Ending = (4, "alpine: write fault", b"");

// Whether the run of the script ends so, with such reads and writes.
fn ends_so(alloc: Global, text: &[u8], failing: Failing, ending: Ending) -> Result<bool, Fail> {
    let told = run(alloc, &["play"], text, &failing)?;
    let (code, said, written) = ending;
    Ok(told.is(code, said, written))
}

// Of streams of which each so many-th read or write fails.
const fn failing_at(reads: u64, writes: u64) -> Failing {
    Failing {
        reads,
        writes,
        room: 4096,
    }
}

// Whether each of the first four reads that fails is told, and there is no fifth one.
fn reads_are_told(alloc: Global, text: &[u8]) -> Result<bool, Fail> {
    for reads in 1..5u64 {
        if !ends_so(alloc, text, failing_at(reads, 0), READ_FAULT)? {
            return Ok(false);
        }
    }
    ends_so(alloc, text, failing_at(5, 0), (0, "", REFUSED))
}

#[test]
fn tells_each_failing_read(rt: HostRuntime) -> Result<(), Fail> {
    let text = long(rt.alloc())?;
    assert!(rt; reads_are_told(rt.alloc(), text.as_slice())?);
    Ok(())
}

// Whether the one write of the report is told where it fails, and there is no second one and no third.
fn writes_are_told(alloc: Global) -> Result<bool, Fail> {
    let written = (0, "", IDLE);
    Ok(
        ends_so(alloc, b"servers 1", failing_at(0, 1), WRITE_FAULT)?
            && ends_so(alloc, b"servers 1", failing_at(0, 2), written)?
            && ends_so(alloc, b"servers 1", failing_at(0, 3), written)?,
    )
}

// A sink that has no room for the report.
const NARROW: Failing = Failing {
    reads: 0,
    writes: 0,
    room: 100,
};

#[test]
fn tells_each_failing_write(rt: HostRuntime) -> Result<(), Fail> {
    let is_told = writes_are_told(rt.alloc())?;
    assert!(rt; is_told && ends_so(rt.alloc(), REFUSALS, NARROW, WRITE_FAULT)?);
    Ok(())
}

// As many lines as a script may have.
fn most_lines(alloc: Global) -> Result<Vec<u8>, Fail> {
    let mut script = Vec::from_slice(alloc, b"servers 1\n")?;
    for _line in 0..199_999u32 {
        script.extend_from_slice(b"#\n")?;
    }
    Ok(script)
}

#[test]
fn tells_a_script_of_too_many_lines(rt: HostRuntime) -> Result<(), Fail> {
    let mut script = most_lines(rt.alloc())?;
    let told = run(rt.alloc(), &["play"], script.as_slice(), &SOUND)?;
    script.extend_from_slice(b"no line at all\n")?;
    let more = run(rt.alloc(), &["play"], script.as_slice(), &SOUND)?;
    assert!(rt; told.code == 0 && more.is(7, "alpine: too long 200000", b""));
    Ok(())
}

// A writer that takes at most fifty bytes at a time, and fails at the call with this number.
#[derive(Drop)]
struct Narrow {
    taken: Vec<u8>,
    calls: u32,
    fails: u32,
}

impl Write for Narrow {
    fn write(&mut self, buf: &[u8]) -> io::Result<usize> {
        self.calls = self.calls.saturating_add(1);
        if self.calls == self.fails {
            return Err(io::Error::from(io::ErrorKind::Other));
        }
        let most = buf.len().min(50);
        self.taken.extend_from_slice(&buf[..most])?;
        Ok(most)
    }

    fn flush(&mut self) -> io::Result<()> {
        Ok(())
    }
}

// How a script ends whose writer fails at the call with this number, and what the writer took.
fn with_failing_write(alloc: Global, fails: u32) -> Result<(u8, Vec<u8>), Fail> {
    let mut writer = Narrow {
        taken: Vec::new(alloc),
        calls: 0,
        fails,
    };
    let words = words(alloc, &["play"])?;
    let mut script = MemSource::new(Vec::from_slice(alloc, REFUSALS)?, Vec::new(alloc));
    let mut out = WriteSink::new(&mut writer);
    let mut bay = MemBay::new(alloc)?;
    let code = run_alpine(alloc, &words, &mut script, &mut out, &mut bay).code();
    drop(out);
    Ok((code, writer.taken))
}

// Whether so many bytes of the report are written before the call that fails.
fn stops_behind(alloc: Global, fails: u32, before: usize) -> Result<bool, Fail> {
    let (code, taken) = with_failing_write(alloc, fails)?;
    Ok(code == 4 && taken.len() == before && REFUSED.starts_with(taken.as_slice()))
}

// Whether the report is written before that call.
fn is_written(alloc: Global, fails: u32) -> Result<bool, Fail> {
    let (code, taken) = with_failing_write(alloc, fails)?;
    Ok(code == 0 && taken.as_slice() == REFUSED)
}

#[test]
fn writes_a_prefix_before_a_failing_write(rt: HostRuntime) -> Result<(), Fail> {
    let mut fails = 1u32;
    let mut before = 0usize;
    for piece in REFUSED.chunks(50) {
        assert!(rt; stops_behind(rt.alloc(), fails, before)?);
        fails = fails.saturating_add(1);
        before = before.saturating_add(piece.len());
    }
    assert!(rt; before > 50 && is_written(rt.alloc(), fails)?);
    Ok(())
}

// A script of two clients, one of whom reads what she wrote.
const TWO_CLIENTS: &[u8] =
    b"servers 1\nvolume 1 512 64\nclient 1 Admin\nclient 2 ann\n1 begin 1\n1 mkowner 1 ann 10 Owner\n1 commit\n2 begin 1\n2 create 1 A ann 4\n2 write A 0 1 hello\n2 read A 0 2\n2 commit\n2 begin 1\n2 open A read r\n2 read A 0 1\n2 commit\n";

// So many pages has the disk of its server: two anchors, two areas of the log, and the home pages.
const PAGES: u32 = 642;

// How the script ends on a new disk whose call with this number fails.
fn with_failing_call(alloc: Global, number: u64) -> Result<Told, Fail> {
    let mut failing = Vec::new(alloc);
    failing.push(number)?;
    let mut disk = MemDisk::new(alloc, PAGES, failing)?;
    disk.stop_after(None);
    run_on(alloc, disk, TWO_CLIENTS)
}

// The last call of the disk that fails, where each from the first on is told and nothing is written then.
fn last_failing_call(alloc: Global) -> Result<u64, Fail> {
    let mut met = 0u64;
    for number in 1..2000u64 {
        let told = with_failing_call(alloc, number)?;
        if told.code == 0 {
            return Ok(met);
        }
        if !told.is(5, "alpine: disk fault server 1", b"") {
            return Err("a disk fault".into());
        }
        met = number;
    }
    Ok(met)
}

#[test]
fn tells_each_failing_call_of_a_disk(rt: HostRuntime) -> Result<(), Fail> {
    let met = last_failing_call(rt.alloc())?;
    assert!(rt; met > 10 && met < 1999);
    Ok(())
}
