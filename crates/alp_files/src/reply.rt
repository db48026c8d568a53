//! Replies of a server.
use crate::{HeldProps, Refusal};
use alp_base::{FileId, OwnerRecord, PageList, Stamp, TransId};

/// How a transaction stands.
#[derive(Clone, Copy, PartialEq, Eq)]
pub enum Ended {
    Running,
    Committed { stamp: Stamp },
    Aborted,
    Unknown,
}

/// What a server answers.
#[derive(Drop, PartialEq, Eq)]
pub enum Reply {
    Welcome { epoch: u32 },
    Begun { trans: TransId },
    Joined,
    Created { file: FileId, open_no: u32 },
    Opened { open_no: u32 },
    Plain,
    Pages(PageList),
    Props(HeldProps),
    Owner(OwnerRecord),
    Committed { stamp: Stamp },
    Ended(Ended),
    Refused(Refusal),
}
