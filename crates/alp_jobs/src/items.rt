//! What an item says of the way on.
ghost use Rattle.std.specs.Prelude.{◌≡◌};
ghost use Rattle.alp_session.specs.Heard.{is_not_yet as is_not_yet_said};
ghost use Rattle.alp_jobs.specs.Deeds.{is_own as is_own_said, is_collect as is_collect_said, is_collecting as is_collecting_said, is_to_wait as is_to_wait_said, is_refused as is_refused_said, has_refused as has_refused_said, waits_on as waits_on_said, is_refusal as is_refusal_said};

use alp_files::{Call, Refusal, Reply};
use alp_journal::{Item, Mark, Sent};

fn is_own(mark: Mark) -> bool
    ensures { result ≡ is_own_said mark }
{
    matches!(mark, Mark::Own)
}

fn is_collecting(call: &Call) -> bool
    ensures { result ≡ is_collecting_said call.now }
{
    matches!(call, Call::Collect { .. })
}

fn is_collect(sent: &Sent) -> bool
    ensures { result ≡ is_collect_said sent.now }
{
    match sent {
        Sent::Call { call, .. } => is_collecting(call),
        Sent::Bytes(_) => false,
    }
}

fn is_not_yet(reply: &Reply) -> bool
    ensures { result ≡ is_not_yet_said reply.now }
{
    matches!(reply, Reply::Refused(Refusal::NotYet))
}

fn is_to_wait(reply: &Option<Reply>) -> bool
    ensures { result ≡ is_to_wait_said reply.now }
{
    match reply {
        Some(reply) => is_not_yet(reply),
        None => false,
    }
}

fn has_refused(reply: &Reply) -> bool
    ensures { result ≡ has_refused_said reply.now }
{
    matches!(reply, Reply::Refused(_))
}

fn is_refused(reply: &Option<Reply>) -> bool
    ensures { result ≡ is_refused_said reply.now }
{
    match reply {
        Some(reply) => has_refused(reply),
        None => false,
    }
}

/// Whether the item is a collect that was answered that the call waits.
pub(crate) fn waits_on(item: &Item) -> bool
    ensures { result ≡ waits_on_said item.now }
{
    is_own(item.mark) && is_collect(&item.sent) && is_to_wait(&item.reply)
}

/// Whether it was refused otherwise than to wait.
pub(crate) fn is_refusal(reply: &Option<Reply>) -> bool
    ensures { result ≡ is_refusal_said reply.now }
{
    is_refused(reply) && !is_to_wait(reply)
}
