//! What a file costs.
use alp_base::Name;

/// The size of a file, and its owner.
#[derive(Clone, Copy)]
pub struct Cost {
    pub owner: Name,
    pub size: u32,
}
