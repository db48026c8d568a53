//! The form of a leader page, and how it is divided.
ghost use Rattle.std.specs.Prelude.{◌≡◌};
ghost use Rattle.alp_fields.specs.Forms.{IsForm, HasLength};
ghost use Rattle.alp_base.specs.Pages.{page_bytes};
ghost use Rattle.alp_pages.specs.Leader.{leader_page, format_for};

use crate::INDEX_PLACES;
use alp_base::{AccessList, PAGE_BYTES};
use alp_fields::{LIST_FIELD_BYTES, NAME_FIELD_BYTES, U32_BYTES};

pub(crate) const FILE_AT: usize = 1;

pub(crate) const OWNER_AT: usize = FILE_AT + 9;

pub(crate) const NAME_AT: usize = OWNER_AT + NAME_FIELD_BYTES;

pub(crate) const TYPE_AT: usize = NAME_AT + NAME_FIELD_BYTES;

pub(crate) const TIME_AT: usize = TYPE_AT + 2;

pub(crate) const BYTES_AT: usize = TIME_AT + 8;

pub(crate) const SIZE_AT: usize = BYTES_AT + 8;

pub(crate) const HIGH_WATER_AT: usize = SIZE_AT + U32_BYTES;

pub(crate) const READ_AT: usize = HIGH_WATER_AT + U32_BYTES;

pub(crate) const MODIFY_AT: usize = READ_AT + LIST_FIELD_BYTES;

pub(crate) const INDEX_AT: usize = MODIFY_AT + LIST_FIELD_BYTES;

pub(crate) const ZEROS_AT: usize = INDEX_AT + INDEX_PLACES * U32_BYTES;

/// How many zeros fill the page.
pub(crate) const UNUSED_BYTES: usize = PAGE_BYTES - ZEROS_AT;

/// The format of a leader with this size and these lists. There is one today.
pub(crate) fn format_of(size: u32, read: &AccessList, modify: &AccessList) -> u8
    ensures { result ≡ format_for size read.now modify.now }
{
    1
}

/// What is spelled is read back whatever follows it, what is read was so spelled, and each
/// spelling fills a page.
pub fn leaders_are_a_form()
    ensures form { IsForm leader_page }
    ensures full { HasLength leader_page page_bytes }
{}
