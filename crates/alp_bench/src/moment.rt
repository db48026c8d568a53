//! Moments, which a caller sees that gives this library its memory.
use std::alloc::Global;

// More bytes than a machine has. Nothing else here asks for so many.
const NO_ROOM: usize = 1 << 40;

/// From here on time is taken.
pub(crate) const START: u8 = 0;

/// The moment has come at which work of this kind is done, since the moment before it: that of `START`, or of other work.
///
/// It is an allocation of so many bytes that none can be had. Who gives the memory sees it, takes the time, and gives none.
pub(crate) fn mark(alloc: Global, kind: u8) {
    let _none: Result<Vec<u8>, _> = Vec::with_capacity(alloc, NO_ROOM + kind as usize);
}
