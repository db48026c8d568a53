//! The file calls.
ghost use Rattle.std.specs.Prelude.{◌≡◌, ◌+◌, ◌^◌, ◌<◌, ◌≤◌, IfOk, OnOk, OnErr, IsTrue, None};
ghost use Rattle.alp_base.specs.declared.key.Key.TheVariants as key;
ghost use Rattle.alp_files.specs.Files.{AreFiles};
ghost use Rattle.alp_files.specs.Needs.{intents_from};
ghost use Rattle.alp_files.specs.Reading.{asked_pages, TellsPages};
ghost use Rattle.alp_trans.specs.Parts.{own_of, AreBeside};
ghost use Rattle.alp_calls.specs.Looks.{Looks, fault_in};
ghost use Rattle.alp_calls.specs.Opened.{OpensOnly, named_by};
ghost use Rattle.alp_calls.specs.Parts.{IsPart, CanPerform, IsAsBefore, seen, SaysCall, Answered, GivesOnly, IsProper, Settled, reply_of, own_with, edits_in, opens_in};

use crate::CallFault;
use crate::counting::counts_after;
use crate::file_calls::{close_file, create_file, delete_file, open_file};
use crate::limits::{Room, refused_for};
use crate::opens::change_opens;
use crate::owner_calls::{make_owner, read_owner, set_quota};
use crate::page_calls::{lock_pages, read_pages, write_pages};
use crate::prop_calls::{read_props, write_props};
use crate::said::{Effect, Said};
use crate::size_calls::set_size;
use alp_base::{FileId, Name, OutOfMemory};
use alp_files::{Call, Reply};
use alp_trans::{Counts, Part};
use alp_vault::Vault;
use std::alloc::Global;

// What one thread is told, and what that changes.
fn say<V: Vault>(
    alloc: Global,
    vault: &mut V,
    part: &Part,
    who: Name,
    id: FileId,
    call: &Call,
) -> Result<Said, CallFault>
    requires serving { IsTrue (V.serves vault.old) }
    requires new { IsTrue (V.tells vault.old) → seen (V.held vault.old).cells part.now (key.Leader id) ≡ None }
    requires files { IsTrue (V.tells vault.old) → AreFiles (seen (V.held vault.old).cells part.now) }
    requires ready { CanPerform part.now call.now }
    ensures right { IsTrue (V.tells vault.old) → IfOk result (λ s. SaysCall (V.held vault.old).cells part.now who id call.now s) }
    ensures id { IfOk result (λ s. GivesOnly id (reply_of s)) }
    ensures proper { IfOk result (λ s. IsProper part.now s) }
    ensures opens { IfOk result (λ s. OpensOnly (named_by call.now (reply_of s)) (opens_in s)) }
    ensures pages { IfOk result (λ s. TellsPages (asked_pages call.now) (reply_of s)) }
    ensures looked { Looks V.Vault vault.old vault.new (fault_in result) }
{
    match call {
        Call::CreateFile { start, .. } => {
            create_file(alloc, vault, part, who, id, start.props())
        }
        Call::OpenFile { file, access, .. } => {
            open_file(alloc, vault, part, who, *file, *access)
        }
        Call::CloseFile { open_no, .. } => Ok(close_file(alloc, part, *open_no)),
        Call::DeleteFile { open_no, .. } => delete_file(alloc, vault, part, *open_no),
        Call::ReadPages { open_no, run, .. } => read_pages(alloc, vault, part, *open_no, *run),
        Call::WritePages {
            open_no,
            run,
            pages,
            ..
        } => write_pages(alloc, vault, part, *open_no, *run, pages),
        Call::LockPages {
            open_no,
            run,
            mode,
            ..
        } => lock_pages(vault, part, *open_no, *run, *mode),
        Call::SetSize { open_no, size, .. } => set_size(alloc, vault, part, *open_no, *size),
        Call::ReadProps { open_no, .. } => read_props(alloc, vault, part, *open_no),
        Call::WriteProps {
            open_no,
            change,
            ..
        } => write_props(alloc, vault, part, who, *open_no, change),
        Call::ReadOwner { owner, .. } => read_owner(vault, part, *owner),
        Call::MakeOwner {
            owner,
            quota,
            create,
            ..
        } => make_owner(alloc, vault, part, who, *owner, *quota, create),
        Call::SetQuota { owner, quota, .. } => set_quota(alloc, vault, part, who, *owner, *quota),
        _ => unreachable!(),
    }
}

/// The part changes so, and comes to these counts.
pub(super) fn change(
    part: &mut Part,
    alloc: Global,
    counts: Counts,
    effect: Effect,
) -> Result<(), OutOfMemory>
    requires { AreBeside effect.gone effect.puts.items }
    ensures intents { OnOk result (part.new.intents ≡ intents_from part.old.intents (edits_in effect)) }
    ensures own { OnOk result (own_of part.new ≡ own_with (own_of part.old) effect.opens) }
    ensures counts { OnOk result (part.new.counts ≡ counts) }
    ensures err { OnErr result (IsAsBefore part.old part.new) }
{
    let Effect { gone, puts, opens } = effect;
    part.opens.reserve(1)?;
    part.intents.change(alloc, gone, puts)?;
    part.counts = counts;
    change_opens(part, opens);
    Ok(())
}

// The part does what was said, where its counts leave room for it.
fn settle<V: Vault>(
    part: &mut Part,
    alloc: Global,
    vault: &mut V,
    room: Room,
    said: Said,
) -> Result<Reply, CallFault>
    requires serving { IsTrue (V.serves vault.old) }
    requires part { IsPart part.old }
    requires proper { IsProper part.old said }
    ensures settled { IfOk result (λ r. Settled (V.tells vault.old) (V.held vault.old).cells part.old part.new room said r) }
    ensures part { IsPart part.new }
    ensures err { OnErr result (IsAsBefore part.old part.new) }
    ensures looked { Looks V.Vault vault.old vault.new (fault_in result) }
{
    match said {
        Said::Told(reply) => {
            if let Some(refusal) = refused_for(room, part.counts, part.counts) {
                return Ok(Reply::Refused(refusal));
            }
            Ok(reply)
        }
        Said::Done { reply, effect } => {
            let counts = counts_after(alloc, vault, part, effect.gone, &effect.puts)?;
            if let Some(refusal) = refused_for(room, part.counts, counts) {
                return Ok(Reply::Refused(refusal));
            }
            change(part, alloc, counts, effect)?;
            Ok(reply)
        }
    }
}

/// Performs a file call of `who` as one thread does that is where the part is, unless its counts leave no room for it: then it
/// refuses it, and the part is as before. `id` is the next id for a file.
pub fn perform<V: Vault>(
    part: &mut Part,
    alloc: Global,
    vault: &mut V,
    who: Name,
    id: FileId,
    call: &Call,
    room: Room,
) -> Result<Reply, CallFault>
    requires serving { IsTrue (V.serves vault.old) }
    requires new { IsTrue (V.tells vault.old) → seen (V.held vault.old).cells part.old (key.Leader id) ≡ None }
    requires files { IsTrue (V.tells vault.old) → AreFiles (seen (V.held vault.old).cells part.old) }
    requires ready { CanPerform part.old call.now }
    ensures answered { IfOk result (λ r. Answered (V.tells vault.old) (V.held vault.old).cells part.old part.new who id call.now room r) }
    ensures part { IsPart part.new }
    ensures err { OnErr result (IsAsBefore part.old part.new) }
    ensures looked { Looks V.Vault vault.old vault.new (fault_in result) }
{
    let said = say(alloc, vault, part, who, id, call)?;
    settle(part, alloc, vault, room, said)
}
