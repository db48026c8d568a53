//! A resource that is asked for.
use alp_base::Resource;
use alp_modes::Mode;

/// A resource that is asked for, with the mode that is asked on it and the one that is held there.
#[derive(Clone, Copy)]
pub struct Wanted {
    pub resource: Resource,
    pub asked: Mode,
    pub held: Option<Mode>,
}
