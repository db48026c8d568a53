//! Pages of one byte.
use alp_base::{OutOfMemory, Page, PageRef};
use std::alloc::Global;

/// A page of this byte alone.
pub(crate) fn page_of(alloc: Global, byte: u8) -> Result<PageRef, OutOfMemory> {
    PageRef::new(alloc, Page::new([byte; 512]))
}
