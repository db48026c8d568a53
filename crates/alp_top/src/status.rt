//! How a run ended.
ghost use Rattle.std.specs.Prelude.{◌≡◌, ◌≤◌, ◌+◌, ◌++◌, length, codes};
ghost use Rattle.std.specs.Fmt.{decimal};
ghost use Rattle.alp_top.specs.Statuses.{code_of, status_said, ended_by as ended_by_said};

use crate::fault::NoReport;
use alp_cluster::JOURNAL_ENTRIES_MOST;
use alp_disk::{Disk, Fuse};
use alp_journal::RunLog;
use alp_node::Opened;
use alp_store::Store;
use arrayvec::ArrayString;
use itoa::Buffer;
use std::snapshot::Snapshot;

/// What a server of a run was started on: its vault on a disk that may be stopped.
pub type Kept<D> = Opened<Store<Fuse<D>>>;

/// How a run ended. What was played is told by the log.
#[derive(Drop)]
pub enum Status<D: Disk> {
    /// The script was played and the whole report is written.
    Done { log: Snapshot<RunLog<Kept<D>>> },
    /// The command line has no such words, or they ask for help.
    BadWords,
    /// The first line of the script that is outside the language, counted from 1.
    BadScript { line: u32 },
    /// The script could not be read.
    ReadFault,
    /// The script was played, and the report could be written in part only.
    WriteFault { log: Snapshot<RunLog<Kept<D>>> },
    /// The disk of this server failed, or with 0 the bay of disks.
    DiskFault { server: u8 },
    OutOfMemory,
    /// The script has more lines than the limit, or a server's journal has as many entries, or no epoch is left behind the last
    /// one, which is the limit.
    TooLong { limit: u32 },
    /// The disk of this server is not new and holds no volume of it; its first page begins so.
    NotAVolume { server: u8, found: [u8; 24] },
    /// The first page of the disk of this server that is not in its format, or 0 for a note.
    Damaged { server: u8, place: u32 },
}

impl<D: Disk> Status<D> {
    /// The exit code of the program.
    pub fn code(&self) -> u8
        ensures { result ≡ code_of self.now }
    {
        match self {
            Status::Done { log: _ } => 0,
            Status::BadWords => 1,
            Status::BadScript { line: _ } => 2,
            Status::ReadFault => 3,
            Status::WriteFault { log: _ } => 4,
            Status::DiskFault { server: _ } => 5,
            Status::OutOfMemory => 6,
            Status::TooLong { limit: _ } => 7,
            Status::NotAVolume {
                server: _,
                found: _,
            } => 8,
            Status::Damaged {
                server: _,
                place: _,
            } => 9,
        }
    }
}

/// The disk of a server, or the bay, ended a run.
pub fn ended_by<D: Disk>(fault: NoReport) -> Status<D>
    ensures { result ≡ ended_by_said fault }
{
    match fault {
        NoReport::Bay => Status::DiskFault { server: 0 },
        NoReport::Disk { server } => Status::DiskFault { server },
        NoReport::OutOfMemory => Status::OutOfMemory,
        NoReport::JournalFull => Status::TooLong {
            limit: JOURNAL_ENTRIES_MOST as u32,
        },
        NoReport::EpochEnd { server: _ } => Status::TooLong { limit: u32::MAX },
        NoReport::NotAVolume { server, found } => Status::NotAVolume { server, found },
        NoReport::Damaged { server, place } => Status::Damaged { server, place },
    }
}

/// What is said of a status: the longest text has 43 bytes.
pub type StatusText = ArrayString<64>;

fn plain_text(said: &str) -> StatusText
    requires { length said.now ≤ 32 }
    ensures { result.bytes ≡ said.now }
{
    let mut text = ArrayString::new();
    text.push_str(said);
    text
}

// Appends some words and then a number.
fn push_numbered(text: &mut StatusText, said: &str, number: u32)
    requires { length text.old.bytes + length said.now ≤ 48 }
    ensures bytes { text.new.bytes ≡ text.old.bytes ++ said.now ++ decimal number }
    ensures short { length text.new.bytes ≤ length text.old.bytes + length said.now + 10 }
{
    let mut digits = Buffer::new();
    text.push_str(said);
    text.push_str(digits.format(number));
}

// Some words and then a number.
fn numbered_text(said: &str, number: u32) -> StatusText
    requires { length said.now ≤ 32 }
    ensures bytes { result.bytes ≡ said.now ++ decimal number }
    ensures short { length result.bytes ≤ length said.now + 10 }
{
    let mut text = ArrayString::new();
    push_numbered(&mut text, said, number);
    text
}

fn damaged_text(server: u8, place: u32) -> StatusText
    ensures bytes { result.bytes ≡ codes "alpine: damaged server " ++ decimal server ++ codes " place " ++ decimal place }
    ensures short { length result.bytes ≤ 60 }
{
    let mut text = numbered_text("alpine: damaged server ", server as u32);
    push_numbered(&mut text, " place ", place);
    text
}

/// What the program says of the status on standard error: nothing where the run is done. Takes no memory.
pub fn status_text<D: Disk>(status: &Status<D>) -> StatusText
    ensures text { result.bytes ≡ status_said status.now }
    ensures short { length result.bytes ≤ 60 }
{
    match status {
        Status::Done { log: _ } => plain_text(""),
        Status::BadWords => plain_text("alpine: bad words"),
        Status::BadScript { line } => numbered_text("alpine: bad script line ", *line),
        Status::ReadFault => plain_text("alpine: read fault"),
        Status::WriteFault { log: _ } => plain_text("alpine: write fault"),
        Status::DiskFault { server } => {
            numbered_text("alpine: disk fault server ", *server as u32)
        }
        Status::OutOfMemory => plain_text("alpine: out of memory"),
        Status::TooLong { limit } => numbered_text("alpine: too long ", *limit),
        Status::NotAVolume { server, found: _ } => {
            numbered_text("alpine: not a volume server ", *server as u32)
        }
        Status::Damaged { server, place } => damaged_text(*server, *place),
    }
}
