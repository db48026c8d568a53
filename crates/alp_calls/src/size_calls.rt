//! Calls that change the size of a file.
ghost use Rattle.std.specs.Prelude.{◌≡◌, ◌≤◌, ◌<◌, IfOk, IsTrue, Some, None};
ghost use Rattle.alp_base.specs.declared.key.Key.TheVariants as key;
ghost use Rattle.alp_base.specs.declared.lists.TheConstants.{PAGES_PER_FILE};
ghost use Rattle.alp_files.specs.Act.{open_at, on_change, cut_file as cut_file_said, grow_file as grow_file_said, set_size as set_size_said, id_in};
ghost use Rattle.alp_files.specs.Cells.{props_in};
ghost use Rattle.alp_files.specs.Files.{AreFiles};
ghost use Rattle.alp_files.specs.Reading.{TellsPages};
ghost use Rattle.alp_calls.specs.Looks.{Looks, fault_in};
ghost use Rattle.alp_calls.specs.Opened.{OpensOnly};
ghost use Rattle.alp_calls.specs.Parts.{AllFit, seen, Says, GivesNone, IsProper, reply_of, opens_in};

use crate::CallFault;
use crate::finding::{OpenedFile, lowered, opened_file, raised};
use crate::look::owner_at;
use crate::putting::put_leader;
use crate::said::{Effect, OpenChange, Said};
use alp_base::{Access, Cell, Key};
use alp_files::{Refusal, Reply};
use alp_trans::{Gone, Part};
use alp_vault::Vault;
use std::alloc::Global;

// A smaller size: the pages from it on go, and the owner is charged less.
fn cut_file<V: Vault>(
    alloc: Global,
    vault: &mut V,
    part: &Part,
    found: OpenedFile,
    size: u32,
) -> Result<Said, CallFault>
    requires serving { IsTrue (V.serves vault.old) }
    requires fit { AllFit part.now.intents.puts }
    requires files { IsTrue (V.tells vault.old) → AreFiles (seen (V.held vault.old).cells part.now) }
    requires there { IsTrue (V.tells vault.old) → props_in (seen (V.held vault.old).cells part.now (key.Leader found.opened.file)) ≡ Some found.props }
    requires size { size ≤ PAGES_PER_FILE }
    requires less { size < found.props.size }
    ensures right { IsTrue (V.tells vault.old) → IfOk result (λ s. Says (V.held vault.old).cells part.now s (λ own. cut_file_said own size found.opened found.props)) }
    ensures id { IfOk result (λ s. GivesNone (reply_of s)) }
    ensures proper { IfOk result (λ s. IsProper part.now s) }
    ensures opens { IfOk result (λ s. OpensOnly (id_in (reply_of s)) (opens_in s)) }
    ensures pages { IfOk result (λ s. TellsPages None (reply_of s)) }
    ensures looked { Looks V.Vault vault.old vault.new (fault_in result) }
{
    let OpenedFile { opened, mut props } = found;
    let Some(owner) = owner_at(vault, &part.intents, props.owner)? else {
        return Ok(Said::Told(Reply::Refused(Refusal::UnknownOwner)));
    };
    let name = props.owner;
    let owner = lowered(owner, props.size - size);
    props.size = size;
    props.high_water = props.high_water.min(size);
    let puts = vec![in alloc;
        (Key::Leader(opened.file), Cell::Leader(props)),
        (Key::OwnerOf(name), Cell::Owner(owner)),
    ]?;
    Ok(Said::Done {
        reply: Reply::Plain,
        effect: Effect {
            gone: Some(Gone::Pages(opened.file, size)),
            puts,
            opens: OpenChange::Stay,
        },
    })
}

// A greater size: the owner is charged more.
fn grow_file<V: Vault>(
    alloc: Global,
    vault: &mut V,
    part: &Part,
    found: OpenedFile,
    size: u32,
) -> Result<Said, CallFault>
    requires serving { IsTrue (V.serves vault.old) }
    requires fit { AllFit part.now.intents.puts }
    requires files { IsTrue (V.tells vault.old) → AreFiles (seen (V.held vault.old).cells part.now) }
    requires there { IsTrue (V.tells vault.old) → props_in (seen (V.held vault.old).cells part.now (key.Leader found.opened.file)) ≡ Some found.props }
    requires size { size ≤ PAGES_PER_FILE }
    requires more { found.props.size ≤ size }
    ensures right { IsTrue (V.tells vault.old) → IfOk result (λ s. Says (V.held vault.old).cells part.now s (λ own. grow_file_said own size found.opened found.props)) }
    ensures id { IfOk result (λ s. GivesNone (reply_of s)) }
    ensures proper { IfOk result (λ s. IsProper part.now s) }
    ensures opens { IfOk result (λ s. OpensOnly (id_in (reply_of s)) (opens_in s)) }
    ensures pages { IfOk result (λ s. TellsPages None (reply_of s)) }
    ensures looked { Looks V.Vault vault.old vault.new (fault_in result) }
{
    let OpenedFile { opened, mut props } = found;
    let Some(owner) = owner_at(vault, &part.intents, props.owner)? else {
        return Ok(Said::Told(Reply::Refused(Refusal::UnknownOwner)));
    };
    let name = props.owner;
    let owner = match raised(owner, size - props.size) {
        Ok(owner) => owner,
        Err(refusal) => return Ok(Said::Told(Reply::Refused(refusal))),
    };
    props.size = size;
    let puts = vec![in alloc;
        (Key::Leader(opened.file), Cell::Leader(props)),
        (Key::OwnerOf(name), Cell::Owner(owner)),
    ]?;
    Ok(Said::Done {
        reply: Reply::Plain,
        effect: Effect {
            gone: None,
            puts,
            opens: OpenChange::Stay,
        },
    })
}

pub(super) fn set_size<V: Vault>(
    alloc: Global,
    vault: &mut V,
    part: &Part,
    open_no: u32,
    size: u32,
) -> Result<Said, CallFault>
    requires serving { IsTrue (V.serves vault.old) }
    requires fit { AllFit part.now.intents.puts }
    requires files { IsTrue (V.tells vault.old) → AreFiles (seen (V.held vault.old).cells part.now) }
    requires size { size ≤ PAGES_PER_FILE }
    ensures right { IsTrue (V.tells vault.old) → IfOk result (λ s. Says (V.held vault.old).cells part.now s (λ own. on_change own (open_at own.opens open_no) (set_size_said own size))) }
    ensures id { IfOk result (λ s. GivesNone (reply_of s)) }
    ensures proper { IfOk result (λ s. IsProper part.now s) }
    ensures opens { IfOk result (λ s. OpensOnly (id_in (reply_of s)) (opens_in s)) }
    ensures pages { IfOk result (λ s. TellsPages None (reply_of s)) }
    ensures looked { Looks V.Vault vault.old vault.new (fault_in result) }
{
    let found = match opened_file(vault, part, open_no, Access::Change)? {
        Ok(found) => found,
        Err(refusal) => return Ok(Said::Told(Reply::Refused(refusal))),
    };
    if size < found.props.size {
        return cut_file(alloc, vault, part, found, size);
    }
    if found.props.size < size {
        return grow_file(alloc, vault, part, found, size);
    }
    let said = put_leader(alloc, found.opened.file, found.props)?;
    Ok(said)
}
