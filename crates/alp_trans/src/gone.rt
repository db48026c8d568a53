//! What goes at a call.
ghost use Rattle.std.specs.Prelude.{◌≡◌, Some, None, if◌then◌else◌};
ghost use Rattle.alp_trans.specs.Parts.{file_gone, takes as takes_said, first_taken as first_taken_said, least_of};

use alp_base::{FileId, Key};
use alp_files::{is_in_file, is_past};

/// What a call takes away.
#[derive(Clone, Copy)]
pub enum Gone {
    /// A file with all its pages.
    File(FileId),
    /// The pages of a file from a number on.
    Pages(FileId, u32),
}

impl Gone {
    /// The file of which something goes.
    pub fn file(self) -> FileId
        ensures { result ≡ file_gone self }
    {
        match self {
            Gone::File(file) => file,
            Gone::Pages(file, _) => file,
        }
    }
}

/// Whether what goes takes the cell at the key.
pub fn takes(gone: Option<Gone>, key: &Key) -> bool
    ensures { result ≡ takes_said gone key.now }
{
    match gone {
        None => false,
        Some(Gone::File(file)) => is_in_file(key, file),
        Some(Gone::Pages(file, first)) => is_past(key, file, first),
    }
}

/// The first page number of the file that goes, if one does.
pub(super) fn first_taken(gone: Option<Gone>, file: FileId) -> Option<u32>
    ensures { result ≡ first_taken_said gone file }
{
    match gone {
        None => None,
        Some(Gone::File(taken)) => first_where(taken == file, 0),
        Some(Gone::Pages(taken, first)) => first_where(taken == file, first),
    }
}

fn first_where(is_it: bool, first: u32) -> Option<u32>
    ensures { result ≡ if is_it then Some first else None }
{
    if is_it { Some(first) } else { None }
}

/// The lesser of two numbers, or the one that there is.
pub(super) fn least(one: Option<u32>, other: Option<u32>) -> Option<u32>
    ensures { result ≡ least_of one other }
{
    match (one, other) {
        (Some(a), Some(b)) => Some(a.min(b)),
        (Some(a), None) => Some(a),
        (None, b) => b,
    }
}
