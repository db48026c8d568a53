//! What a call is refused for by its shape alone.
ghost use Rattle.std.specs.Prelude.{◌≡◌};
ghost use Rattle.alp_node.specs.Asks.{is_given as is_given_of};
ghost use Rattle.alp_node.specs.Shapes.{no_open as no_open_said, no_run as no_run_said, no_size as no_size_said, shape_of};

use crate::server_state::ServerState;
use alp_base::{FileId, PAGES_PER_FILE, Run};
use alp_files::{Call, Refusal, What};
use alp_vault::Vault;

/// The most pages of a run.
const MOST_RUN: u8 = 16;

/// The most opens of a part.
const MOST_OPENS: usize = 64;

impl<V: Vault> ServerState<V> {
    /// Whether a file was given that id here, in an older epoch or this one.
    pub fn is_given(&self, file: &FileId) -> bool
        ensures { result ≡ is_given_of self.now.server self.now.epoch self.now.given file.now }
    {
        let is_here = file.server == self.server && 0 < file.epoch && 0 < file.counter;
        let is_now = file.epoch == self.epoch && file.counter <= self.given;
        is_here && (file.epoch < self.epoch || is_now)
    }

    /// How the call is refused by its shape, if it is, of a part that has so many opens.
    pub fn shape_refusal(&self, call: &Call, opens: usize) -> Option<Refusal>
        ensures { result ≡ shape_of self.now.server self.now.epoch self.now.given opens call.now }
    {
        match call {
            Call::CreateFile { start, .. } => match no_size(start.props().size) {
                Some(refusal) => Some(refusal),
                None => no_open(opens),
            },
            Call::OpenFile { file, .. } => {
                if !self.is_given(file) {
                    return Some(Refusal::UnknownFile);
                }
                no_open(opens)
            }
            Call::ReadPages { run, .. } => no_run(run),
            Call::WritePages { run, .. } => no_run(run),
            Call::LockPages { run, .. } => no_run(run),
            Call::SetSize { size, .. } => no_size(*size),
            _ => None,
        }
    }
}

// The file would have too many pages.
fn no_size(size: u32) -> Option<Refusal>
    ensures { result ≡ no_size_said size }
{
    if size > PAGES_PER_FILE {
        return Some(Refusal::TooMany {
            what: What::Pages,
            limit: PAGES_PER_FILE,
        });
    }
    None
}

// One open more would be too many.
fn no_open(opens: usize) -> Option<Refusal>
    ensures { result ≡ no_open_said opens }
{
    if opens >= MOST_OPENS {
        return Some(Refusal::TooMany {
            what: What::Opens,
            limit: MOST_OPENS as u32,
        });
    }
    None
}

// The run has too many pages.
fn no_run(run: &Run) -> Option<Refusal>
    ensures { result ≡ no_run_said run.now }
{
    if run.count > MOST_RUN {
        return Some(Refusal::TooMany {
            what: What::Run,
            limit: MOST_RUN as u32,
        });
    }
    None
}
