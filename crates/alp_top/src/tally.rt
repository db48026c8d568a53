//! How many transactions a server began in its run, over all its epochs, and how many of them it committed.
ghost use Rattle.std.specs.Prelude.{◌≡◌};
ghost use Rattle.alp_top.specs.Tallies.{with_act, none_seen, seen_from, is_made as is_made_said, with_seen, tally_in};

use alp_journal::{Act, Entry};

/// The transactions that entries begin and commit.
#[derive(Clone, Copy)]
pub struct Tally {
    pub begun: u32,
    pub committed: u32,
    /// The time of the commit that the last entry stopped in, if it did in one.
    tried: Option<u64>,
}

// What the acts of an entry say.
#[derive(Clone, Copy)]
struct Seen {
    begun: u32,
    committed: u32,
    tried: Option<u64>,
    stops: bool,
    // The clock that a restart found.
    found: Option<u64>,
}

fn see(seen: Seen, act: &Act) -> Seen
    ensures { result ≡ with_act seen act.now }
{
    match act {
        Act::Drawn { .. } => Seen {
            begun: seen.begun.saturating_add(1),
            ..seen
        },
        Act::Decided { stamp, .. } => Seen {
            committed: seen.committed.saturating_add(1),
            tried: Some(stamp.ts),
            ..seen
        },
        Act::Regained { clock, .. } => Seen {
            found: Some(*clock),
            ..seen
        },
        Act::Stopped | Act::Failed => Seen {
            stops: true,
            ..seen
        },
        _ => seen,
    }
}

fn see_all(acts: &[Act]) -> Seen
    ensures { result ≡ seen_from none_seen acts.now }
{
    let mut seen = Seen {
        begun: 0,
        committed: 0,
        tried: None,
        stops: false,
        found: None,
    };
    for act in acts {
        seen = see(seen, act);
    }
    seen
}

// Whether a restart that found this clock found the commit of that time made.
fn is_made(tried: Option<u64>, found: Option<u64>) -> bool
    ensures { result ≡ is_made_said tried found }
{
    match (tried, found) {
        (Some(time), Some(clock)) => time <= clock,
        _ => false,
    }
}

// Of an entry that stopped the restart tells whether its commit was made.
fn add(tally: Tally, seen: Seen) -> Tally
    ensures { result ≡ with_seen tally seen }
{
    if seen.stops {
        return Tally {
            tried: seen.tried,
            ..tally
        };
    }
    let committed = tally.committed.saturating_add(seen.committed);
    Tally {
        begun: tally.begun.saturating_add(seen.begun),
        committed: if is_made(tally.tried, seen.found) {
            committed.saturating_add(1)
        } else {
            committed
        },
        tried: None,
    }
}

/// What the entries of a server say.
pub fn tally_of(entries: &[Entry]) -> Tally
    ensures { result ≡ tally_in entries.now }
{
    let mut tally = Tally {
        begun: 0,
        committed: 0,
        tried: None,
    };
    for entry in entries {
        tally = add(tally, see_all(entry.acts.as_slice()));
    }
    tally
}
