use alp_base::Sizes;

/// What one of the two first pages of a disk says.
#[derive(Clone, Copy, PartialEq, Eq)]
pub struct Anchor {
    /// Where it stands: 0 or 1.
    pub page: u8,
    /// It counts modulo 2^32.
    pub generation: u32,
    /// The area of the log that is in use: 0 or 1.
    pub area: u8,
    pub server: u8,
    /// The number of servers.
    pub servers: u8,
    pub sizes: Sizes,
}
