//! Calls of a client.
use crate::HeldProps;
use alp_base::{Access, AccessList, Choice, FileId, Name, PageList, Run, Stamp, TransId};
use alp_modes::Mode;

/// A new value of one property.
#[derive(Clone, Drop, PartialEq, Eq)]
pub enum PropChange {
    Owner(Name),
    Name(Name),
    TypeNo(u16),
    ByteLength(u64),
    Read(AccessList),
    Modify(AccessList),
}

/// What a client asks of a server, as in Brown, Kolling and Taft (1985).
///
/// Opens are numbered from 1 in each transaction's part at a server.
#[derive(Clone, Drop, PartialEq, Eq)]
pub enum Call {
    /// Begins a session, as this principal.
    Hello {
        name: Name,
    },
    /// Begins a transaction; `seen` is the greatest stamp that the client was told, or all zeros.
    Begin {
        seen: Stamp,
    },
    /// Makes a part of another server's transaction here.
    Join {
        trans: TransId,
    },
    CreateFile {
        trans: TransId,
        start: HeldProps,
        choice: Choice,
    },
    OpenFile {
        trans: TransId,
        file: FileId,
        access: Access,
        mode: Mode,
        choice: Choice,
    },
    CloseFile {
        trans: TransId,
        open_no: u32,
    },
    DeleteFile {
        trans: TransId,
        open_no: u32,
        choice: Choice,
    },
    ReadPages {
        trans: TransId,
        open_no: u32,
        run: Run,
        mode: Mode,
        choice: Choice,
    },
    WritePages {
        trans: TransId,
        open_no: u32,
        run: Run,
        pages: PageList,
        choice: Choice,
    },
    LockPages {
        trans: TransId,
        open_no: u32,
        run: Run,
        mode: Mode,
        choice: Choice,
    },
    SetSize {
        trans: TransId,
        open_no: u32,
        size: u32,
        choice: Choice,
    },
    ReadProps {
        trans: TransId,
        open_no: u32,
    },
    WriteProps {
        trans: TransId,
        open_no: u32,
        change: PropChange,
        choice: Choice,
    },
    ReadOwner {
        trans: TransId,
        owner: Name,
        choice: Choice,
    },
    MakeOwner {
        trans: TransId,
        owner: Name,
        quota: u32,
        create: AccessList,
        choice: Choice,
    },
    SetQuota {
        trans: TransId,
        owner: Name,
        quota: u32,
        choice: Choice,
    },
    /// Commits the transaction, or ends it without effect.
    Finish {
        trans: TransId,
        commit: bool,
    },
    /// Asks how a transaction of this coordinator ended.
    Outcome {
        trans: TransId,
    },
    /// Asks for the reply to the call of that number, which waits.
    Collect {
        number: u32,
    },
}
