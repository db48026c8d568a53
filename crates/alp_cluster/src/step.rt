//! One step of a server of a run, on a device that may fail or be stopped.
ghost use Rattle.std.specs.Prelude.{◌≡◌, IfOk, slice_get};
ghost use Rattle.alp_journal.specs.Answered.{is_read_fault};
ghost use Rattle.alp_node.specs.Served.{IsServed};
ghost use Rattle.alp_cluster.specs.Fills.{OnEnd};
ghost use Rattle.alp_cluster.specs.Servers.{IsOn, HasGone, Steps, EndsStep, is_failure, fails, is_failed_at};

use crate::fault::RunFault;
use alp_files::{Refusal, Reply};
use alp_journal::{Act, Entry, Event};
use alp_node::Node;
use alp_vault::Vault;

/// So many entries a journal has at most, but for those of restarts.
pub const JOURNAL_ENTRIES_MOST: usize = 65_536;

// Whether a reply shows that a read of the server's device failed.
fn shows_fault(reply: &Option<Reply>) -> bool
    ensures { result ≡ is_read_fault reply.now }
{
    match reply {
        Some(Reply::Refused(Refusal::ReadFault)) => true,
        _ => false,
    }
}

fn is_failed(act: &Act) -> bool
    ensures { result ≡ is_failure act.now }
{
    match act {
        Act::Failed => true,
        _ => false,
    }
}

// Whether the device failed as the entry was written.
fn has_failed(entry: &Entry) -> bool
    ensures { result ≡ fails entry.now }
{
    entry.acts.as_slice().iter().any(|act| is_failed(act))
}

// The same of the entry at this place.
fn failed_at(entries: &[Entry], place: usize) -> bool
    ensures { result ≡ is_failed_at (slice_get entries.now place) }
{
    match entries.get(place) {
        Some(entry) => has_failed(entry),
        None => false,
    }
}

/// The server answers the event, or says that it is down; or its device failed, which its entry shows, or its journal has no room for the
/// entry: then it would say so, and is not asked. Where memory was wanting there is no entry.
pub fn step<V: Vault>(node: &mut Node<V>, event: Event) -> Result<Option<Reply>, RunFault>
    requires on { IsOn V.Vault node.old }
    requires served { IsServed event }
    ensures gone { HasGone V.Vault (Unit {0}) node.old.kept.vault node.new.kept.vault result }
    ensures ended { OnEnd result (λ f. EndsStep V.Vault f node.old node.new event) }
    ensures steps { IfOk result (λ r. Steps V.Vault node.old.kept.is_down node.old node.new event r) }
{
    if node.is_down() {
        return Ok(Some(Reply::Refused(Refusal::Down)));
    }
    let place = node.journal().entries().len();
    if place >= JOURNAL_ENTRIES_MOST {
        return Err(RunFault::JournalFull);
    }
    let server = node.server();
    let reply = node.step(event)?;
    node.knows();
    if shows_fault(&reply) || failed_at(node.journal().entries(), place) {
        return Err(RunFault::DiskFault { server });
    }
    Ok(reply)
}
