//! Whether pages and names rise.
ghost use Rattle.std.specs.Prelude.{◌≡◌};
ghost use Rattle.alp_fields.specs.Rising.{is_rising, rises_from, text_below};
ghost use Rattle.alp_batch.specs.Batch.{page_below, name_below};

use crate::PageImage;
use alp_base::{Bytes, NoteChange};

fn pages_rise_from(first: &PageImage, rest: &[PageImage]) -> bool
    ensures { result ≡ rises_from page_below first.now rest.now }
{
    let mut last = first;
    for next in rest {
        if last.at >= next.at {
            return false;
        }
        last = next;
    }
    true
}

/// Whether each page is above the one before it.
pub(super) fn pages_rise(images: &[PageImage]) -> bool
    ensures { result ≡ is_rising page_below images.now }
{
    match images {
        [] => true,
        [first, rest @ ..] => pages_rise_from(first, rest),
    }
}

fn lies_below(name: &Bytes, other: &Bytes) -> bool
    ensures { result ≡ text_below name.now other.now }
{
    name.as_slice().cmp(other.as_slice()).is_lt()
}

fn names_rise_from(first: &NoteChange, rest: &[NoteChange]) -> bool
    ensures { result ≡ rises_from name_below first.now rest.now }
{
    let mut last = first;
    for next in rest {
        if !lies_below(&last.name, &next.name) {
            return false;
        }
        last = next;
    }
    true
}

/// Whether each name is above the one before it.
pub(super) fn names_rise(changes: &[NoteChange]) -> bool
    ensures { result ≡ is_rising name_below changes.now }
{
    match changes {
        [] => true,
        [first, rest @ ..] => names_rise_from(first, rest),
    }
}
