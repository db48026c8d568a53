//! Calls that create, open, close and delete files.
ghost use Rattle.std.specs.Prelude.{◌≡◌, ◌+◌, ◌^◌, ◌<◌, ◌≤◌, IfOk, IsTrue, None, Some};
ghost use Rattle.alp_base.specs.declared.key.Key.TheVariants as key;
ghost use Rattle.alp_base.specs.declared.lists.TheConstants.{PAGES_PER_FILE};
ghost use Rattle.alp_files.specs.Act.{open_at, on_change, create_file as create_file_said, open_file as open_file_said, close_file as close_file_said, delete_file as delete_file_said, id_in};
ghost use Rattle.alp_files.specs.Files.{AreFiles};
ghost use Rattle.alp_files.specs.Cells.{Cells};
ghost use Rattle.alp_files.specs.Reading.{TellsPages};
ghost use Rattle.alp_calls.specs.Looks.{Looks, fault_in};
ghost use Rattle.alp_calls.specs.Opened.{OpensOnly};
ghost use Rattle.alp_calls.specs.Parts.{AllFit, seen, Says, SaysNew, GivesOnly, GivesNone, IsProper, reply_of, opens_in};

use crate::CallFault;
use crate::finding::{OpenedFile, charged, denied, lowered, opened_file};
use crate::look::{owner_at, props_at};
use crate::said::{Effect, OpenChange, Said};
use alp_base::{Access, Cell, FileId, Key, Name, Props};
use alp_files::{Open, Refusal, Reply};
use alp_trans::{Gone, Part};
use alp_vault::Vault;
use std::alloc::Global;

pub(super) fn create_file<V: Vault>(
    alloc: Global,
    vault: &mut V,
    part: &Part,
    who: Name,
    id: FileId,
    start: &Props,
) -> Result<Said, CallFault>
    requires serving { IsTrue (V.serves vault.old) }
    requires fit { AllFit part.now.intents.puts }
    requires room { part.now.last + 1 < 2 ^ 32 }
    requires size { start.now.size ≤ PAGES_PER_FILE }
    requires new { IsTrue (V.tells vault.old) → seen (V.held vault.old).cells part.now (key.Leader id) ≡ None }
    ensures right { IsTrue (V.tells vault.old) → IfOk result (λ s. SaysNew (V.held vault.old).cells part.now id s (λ made own. create_file_said id.server made own who start.now)) }
    ensures id { IfOk result (λ s. GivesOnly id (reply_of s)) }
    ensures proper { IfOk result (λ s. IsProper part.now s) }
    ensures opens { IfOk result (λ s. OpensOnly (id_in (reply_of s)) (opens_in s)) }
    ensures pages { IfOk result (λ s. TellsPages None (reply_of s)) }
    ensures looked { Looks V.Vault vault.old vault.new (fault_in result) }
{
    let owner = match charged(vault, part, who, start.owner, start.size)? {
        Ok(owner) => owner,
        Err(refusal) => return Ok(Said::Told(Reply::Refused(refusal))),
    };
    let mut props = start.clone()?;
    props.byte_length = 0;
    props.high_water = 0;
    let puts = vec![in alloc;
        (Key::Leader(id), Cell::Leader(props)),
        (Key::OwnerOf(start.owner), Cell::Owner(owner)),
    ]?;
    let number = part.last + 1;
    Ok(Said::Done {
        reply: Reply::Created {
            file: id,
            open_no: number,
        },
        effect: Effect {
            gone: None,
            puts,
            opens: OpenChange::Opened(Open {
                number,
                file: id,
                access: Access::Change,
            }),
        },
    })
}

pub(super) fn open_file<V: Vault>(
    alloc: Global,
    vault: &mut V,
    part: &Part,
    who: Name,
    file: FileId,
    access: Access,
) -> Result<Said, CallFault>
    requires serving { IsTrue (V.serves vault.old) }
    requires fit { AllFit part.now.intents.puts }
    requires room { part.now.last + 1 < 2 ^ 32 }
    ensures right { IsTrue (V.tells vault.old) → IfOk result (λ s. Says (V.held vault.old).cells part.now s (λ own. open_file_said own who file access)) }
    ensures id { IfOk result (λ s. GivesNone (reply_of s)) }
    ensures proper { IfOk result (λ s. IsProper part.now s) }
    ensures opens { IfOk result (λ s. OpensOnly (Some file) (opens_in s)) }
    ensures pages { IfOk result (λ s. TellsPages None (reply_of s)) }
    ensures looked { Looks V.Vault vault.old vault.new (fault_in result) }
{
    let Some(props) = props_at(vault, &part.intents, file)? else {
        return Ok(Said::Told(Reply::Refused(Refusal::UnknownFile)));
    };
    if let Some(list) = denied(&props, who, access) {
        return Ok(Said::Told(Reply::Refused(Refusal::AccessDenied { list })));
    }
    let number = part.last + 1;
    Ok(Said::Done {
        reply: Reply::Opened { open_no: number },
        effect: Effect {
            gone: None,
            puts: Vec::new(alloc),
            opens: OpenChange::Opened(Open {
                number,
                file,
                access,
            }),
        },
    })
}

pub(super) fn close_file(alloc: Global, part: &Part, open_no: u32) -> Said
    ensures right { (held : Cells) → Says held part.now result (λ own. close_file_said own open_no (open_at own.opens open_no)) }
    ensures id { GivesNone (reply_of result) }
    ensures proper { IsProper part.now result }
    ensures opens { OpensOnly (id_in (reply_of result)) (opens_in result) }
    ensures pages { TellsPages None (reply_of result) }
{
    if part.open_of(open_no).is_none() {
        return Said::Told(Reply::Refused(Refusal::UnknownOpen));
    }
    Said::Done {
        reply: Reply::Plain,
        effect: Effect {
            gone: None,
            puts: Vec::new(alloc),
            opens: OpenChange::Closed(open_no),
        },
    }
}

pub(super) fn delete_file<V: Vault>(
    alloc: Global,
    vault: &mut V,
    part: &Part,
    open_no: u32,
) -> Result<Said, CallFault>
    requires serving { IsTrue (V.serves vault.old) }
    requires fit { AllFit part.now.intents.puts }
    requires files { IsTrue (V.tells vault.old) → AreFiles (seen (V.held vault.old).cells part.now) }
    ensures right { IsTrue (V.tells vault.old) → IfOk result (λ s. Says (V.held vault.old).cells part.now s (λ own. on_change own (open_at own.opens open_no) (delete_file_said own))) }
    ensures id { IfOk result (λ s. GivesNone (reply_of s)) }
    ensures proper { IfOk result (λ s. IsProper part.now s) }
    ensures opens { IfOk result (λ s. OpensOnly (id_in (reply_of s)) (opens_in s)) }
    ensures pages { IfOk result (λ s. TellsPages None (reply_of s)) }
    ensures looked { Looks V.Vault vault.old vault.new (fault_in result) }
{
    let OpenedFile { opened, props } = match opened_file(vault, part, open_no, Access::Change)? {
        Ok(found) => found,
        Err(refusal) => return Ok(Said::Told(Reply::Refused(refusal))),
    };
    let Some(owner) = owner_at(vault, &part.intents, props.owner)? else {
        return Ok(Said::Told(Reply::Refused(Refusal::UnknownOwner)));
    };
    let owner = lowered(owner, props.size);
    let puts = vec![in alloc; (Key::OwnerOf(props.owner), Cell::Owner(owner))]?;
    Ok(Said::Done {
        reply: Reply::Plain,
        effect: Effect {
            gone: Some(Gone::File(opened.file)),
            puts,
            opens: OpenChange::Left(opened.file),
        },
    })
}
