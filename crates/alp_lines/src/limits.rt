//! How much a line may ask for.

/// The most pages in a row that one line reads, writes or locks. The server's own limit is smaller.
pub const RUN_MOST: u32 = 255;

/// The most that a line of patience says.
pub const PATIENCE_MOST: u32 = 1000;

/// The fewest pages for files and owners that a volume may have.
pub const HOME_LEAST: u32 = 512;

/// The most pages for files and owners that a volume may have.
pub const HOME_MOST: u32 = 65536;

/// The fewest pages that an area of its log may have.
pub const AREA_LEAST: u32 = 64;

/// The most pages that an area of its log may have.
pub const AREA_MOST: u32 = 4096;
