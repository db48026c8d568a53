//! Where records stand.
ghost use Rattle.std.specs.Prelude.{◌≡◌, ◌≤◌, ◌+◌, ◌^◌};
ghost use Rattle.alp_record.specs.Record.{body_pages};

/// The records of one generation in one area of a disk.
#[derive(Clone, Copy, PartialEq, Eq)]
pub struct Area {
    /// Where the first record stands.
    pub first: u32,
    /// The page behind the area.
    pub end: u32,
    pub generation: u32,
}

/// How many pages a record with a body of so many bytes takes: its header, and those of the body.
pub fn record_pages(bytes: u32) -> u32
    ensures { result ≡ 1 + body_pages bytes }
{
    1 + bytes / 512 + if bytes % 512 == 0 { 0 } else { 1 }
}

/// The same of a body that may be too long for a record.
pub fn pages_wanted(bytes: u64) -> u64
    requires { bytes ≤ 2 ^ 50 }
    ensures { result ≡ 1 + body_pages bytes }
{
    1 + (bytes + 511) / 512
}
