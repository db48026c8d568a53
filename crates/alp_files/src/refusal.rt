//! Why a server refuses a call, with what its caller needs to know.
use alp_base::TransId;

/// An access list of a file, of an owner, or of the server.
#[derive(Clone, Copy, PartialEq, Eq)]
pub enum ListName {
    Read,
    Modify,
    Create,
    Admin,
}

/// What there would be too many of.
#[derive(Clone, Copy, PartialEq, Eq)]
pub enum What {
    Run,
    Pages,
    Opens,
    Cells,
    Locks,
    Files,
    Owners,
    Transactions,
}

/// Why a part voted against its transaction.
#[derive(Clone, Copy, PartialEq, Eq)]
pub enum Why {
    UnknownJoin,
    Waiting,
    /// Pages of a log area: what is left without this part, and what it would add.
    LogFull { room: u32, asked: u32 },
    ReadFault,
    ClockEnd,
}

/// Why a transaction was aborted.
#[derive(Clone, Copy, PartialEq, Eq)]
pub enum Cause {
    Asked,
    TimedOut,
    Voted { server: u8, why: Why },
    Lost { epoch: u32 },
}

/// The refusals, in the order of their numbers from 1 on.
#[derive(Clone, Copy, PartialEq, Eq)]
pub enum Refusal {
    BadFrame,
    StaleSession { epoch: u32 },
    UnknownTrans,
    Finishing,
    UnknownOpen,
    UnknownFile,
    UnknownOwner,
    OwnerExists,
    ReadOnlyOpen,
    AccessDenied { list: ListName },
    /// The run passes the file's size.
    NoSuchPage { size: u32 },
    /// The charge with what is asked passes the quota.
    QuotaExceeded { charge: u32, asked: u32, quota: u32 },
    /// Home pages of the volume: what is left, and what the call would take besides.
    VolumeFull { left: u32, asked: u32 },
    /// Pages of a log area: what one has, and what the transaction would need with this call.
    LogFull { room: u32, asked: u32 },
    /// The call would pass a limit of the server.
    TooMany { what: What, limit: u32 },
    /// The least transaction whose lock is in the way.
    LockConflict { holder: TransId },
    Aborted { cause: Cause },
    /// What was asked about is not granted or not decided yet.
    NotYet,
    ReadFault,
    Down,
    OutOfMemory,
    JournalFull,
}
