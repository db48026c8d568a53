//! How many messages entries sent.
ghost use Rattle.std.specs.Prelude.{◌≡◌, ◌≤◌, ◌<◌, ◌+◌, length, slice_get, IfSome, IfNone, Some};
ghost use Rattle.alp_berth.specs.Sends.{is_sending, sent_by};

use alp_journal::{Act, Entry, Envelope};

// Whether an act sends a message.
fn is_sent(act: &Act) -> bool
    ensures { result ≡ is_sending act.now }
{
    matches!(act, Act::Sent { .. })
}

/// How many messages an entry sent.
pub(crate) fn count_sent(acts: &[Act]) -> u64
    ensures count { result ≡ length (sent_by acts.now) }
    ensures few { result ≤ length acts.now }
{
    let mut count = 0u64;
    for act in acts {
        if is_sent(act) {
            count += 1;
        }
    }
    count
}

/// The message at that place of those that an entry sent.
pub(crate) fn sent_at(acts: &[Act], place: u64) -> Option<Envelope>
    ensures some { IfSome result (λ e. slice_get (sent_by acts.now) place ≡ Some e) }
    ensures none { IfNone result (length (sent_by acts.now) ≤ place) }
{
    let mut left = place;
    for act in acts {
        if let Act::Sent { to, message } = act {
            if left == 0 {
                return Some(Envelope {
                    to: *to,
                    message: *message,
                });
            }
            left -= 1;
        }
    }
    None
}

/// The last of these places before which no more than so many messages were sent, where there is one.
pub(crate) fn find(counts: &[u64], place: u64) -> Option<usize>
    ensures some { IfSome result (λ i. (n : _) × (slice_get counts.now i ≡ Some n) × (n ≤ place) × ((m : _) → slice_get counts.now (i + 1) ≡ Some m → place < m)) }
    ensures none { IfNone result ((n : _) → slice_get counts.now 0 ≡ Some n → place < n) }
{
    let mut low = 0usize;
    let mut high = counts.len();
    if high == 0 || counts[0] > place {
        return None;
    }
    while high - low > 1 {
        let middle = low + (high - low) / 2;
        if counts[middle] <= place {
            low = middle;
        } else {
            high = middle;
        }
    }
    Some(low)
}

/// The entry at that place.
pub(crate) fn entry_at(entries: &[Entry], at: usize) -> &Entry
    requires { at < length entries.now }
    ensures { slice_get entries.now at ≡ Some result.now }
{
    &entries[at]
}

/// The count at that place.
pub(crate) fn count_at(counts: &[u64], at: usize) -> u64
    requires { at < length counts.now }
    ensures { slice_get counts.now at ≡ Some result }
{
    counts[at]
}
