//! How much a server holds.

/// The most files of a server.
pub const FILES_PER_SERVER: u32 = 4096;

/// The most owners of a server.
pub const OWNERS_PER_SERVER: u32 = 256;

/// The home pages before the first place: the header, the directory, and the owners' records.
pub const HEAD_PAGES: u32 = 257;

/// The most blocks of a file.
pub const BLOCKS_PER_FILE: u32 = 32;
