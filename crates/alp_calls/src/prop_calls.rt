//! Calls that read and write properties of a file.
ghost use Rattle.std.specs.Prelude.{◌≡◌, ◌≤◌, [], IfOk, IsTrue, Some, false, None};
ghost use Rattle.alp_base.specs.declared.key.Key.TheVariants as key;
ghost use Rattle.alp_base.specs.declared.lists.TheConstants.{PAGES_PER_FILE};
ghost use Rattle.alp_files.specs.declared.reply.Reply.TheVariants as reply;
ghost use Rattle.alp_files.specs.Act.{Say, open_at, on_open, on_change, replied, move_file as move_file_said, write_props as write_props_said, id_in};
ghost use Rattle.alp_files.specs.Cells.{props_in};
ghost use Rattle.alp_files.specs.Files.{AreFiles};
ghost use Rattle.alp_files.specs.Reading.{TellsPages};
ghost use Rattle.alp_calls.specs.Finds.{props_with as props_with_said};
ghost use Rattle.alp_calls.specs.Looks.{Looks, fault_in};
ghost use Rattle.alp_calls.specs.Opened.{OpensOnly};
ghost use Rattle.alp_calls.specs.Parts.{AllFit, seen, Says, GivesNone, IsProper, reply_of, opens_in};

use crate::CallFault;
use crate::finding::{OpenedFile, charged, lowered, opened_file};
use crate::look::owner_at;
use crate::putting::put_leader;
use crate::said::{Effect, OpenChange, Said};
use alp_base::{Access, Cell, Key, Name, OutOfMemory, Props};
use alp_files::{HeldProps, PropChange, Refusal, Reply};
use alp_trans::Part;
use alp_vault::Vault;
use std::alloc::Global;

pub(super) fn read_props<V: Vault>(
    alloc: Global,
    vault: &mut V,
    part: &Part,
    open_no: u32,
) -> Result<Said, CallFault>
    requires serving { IsTrue (V.serves vault.old) }
    requires fit { AllFit part.now.intents.puts }
    ensures right { IsTrue (V.tells vault.old) → IfOk result (λ s. Says (V.held vault.old).cells part.now s (λ own. on_open own (open_at own.opens open_no) (λ o p. Say (replied own (reply.Props p) [])))) }
    ensures id { IfOk result (λ s. GivesNone (reply_of s)) }
    ensures proper { IfOk result (λ s. IsProper part.now s) }
    ensures opens { IfOk result (λ s. OpensOnly (id_in (reply_of s)) (opens_in s)) }
    ensures pages { IfOk result (λ s. TellsPages None (reply_of s)) }
    ensures looked { Looks V.Vault vault.old vault.new (fault_in result) }
{
    match opened_file(vault, part, open_no, Access::ReadOnly)? {
        Ok(found) => {
            let props = HeldProps::new(alloc, found.props)?;
            Ok(Said::Told(Reply::Props(props)))
        }
        Err(refusal) => Ok(Said::Told(Reply::Refused(refusal))),
    }
}

// The properties with the named one changed, other than the owner.
fn props_with(mut props: Props, change: &PropChange) -> Result<Props, OutOfMemory>
    ensures props { IfOk result (λ p. p ≡ props_with_said change.now props) }
    ensures size { IfOk result (λ p. p.size ≡ props.size) }
{
    match change {
        PropChange::Owner(_) => Ok(props),
        PropChange::Name(name) => {
            props.name = *name;
            Ok(props)
        }
        PropChange::TypeNo(number) => {
            props.type_no = *number;
            Ok(props)
        }
        PropChange::ByteLength(length) => {
            props.byte_length = *length;
            Ok(props)
        }
        PropChange::Read(list) => {
            props.read = list.clone()?;
            Ok(props)
        }
        PropChange::Modify(list) => {
            props.modify = list.clone()?;
            Ok(props)
        }
    }
}

// Another owner is charged for the file.
fn move_file<V: Vault>(
    alloc: Global,
    vault: &mut V,
    part: &Part,
    who: Name,
    found: OpenedFile,
    name: Name,
) -> Result<Said, CallFault>
    requires serving { IsTrue (V.serves vault.old) }
    requires fit { AllFit part.now.intents.puts }
    requires files { IsTrue (V.tells vault.old) → AreFiles (seen (V.held vault.old).cells part.now) }
    requires there { IsTrue (V.tells vault.old) → props_in (seen (V.held vault.old).cells part.now (key.Leader found.opened.file)) ≡ Some found.props }
    requires size { found.props.size ≤ PAGES_PER_FILE }
    ensures right { IsTrue (V.tells vault.old) → IfOk result (λ s. Says (V.held vault.old).cells part.now s (λ own. move_file_said own who name found.opened found.props)) }
    ensures id { IfOk result (λ s. GivesNone (reply_of s)) }
    ensures proper { IfOk result (λ s. IsProper part.now s) }
    ensures opens { IfOk result (λ s. OpensOnly (id_in (reply_of s)) (opens_in s)) }
    ensures pages { IfOk result (λ s. TellsPages None (reply_of s)) }
    ensures looked { Looks V.Vault vault.old vault.new (fault_in result) }
{
    let OpenedFile { opened, mut props } = found;
    let before = props.owner;
    if before == name {
        return Ok(Said::Told(Reply::Plain));
    }
    let to = match charged(vault, part, who, name, props.size)? {
        Ok(owner) => owner,
        Err(refusal) => return Ok(Said::Told(Reply::Refused(refusal))),
    };
    let Some(from) = owner_at(vault, &part.intents, before)? else {
        return Ok(Said::Told(Reply::Refused(Refusal::UnknownOwner)));
    };
    let from = lowered(from, props.size);
    props.owner = name;
    let puts = vec![in alloc;
        (Key::Leader(opened.file), Cell::Leader(props)),
        (Key::OwnerOf(before), Cell::Owner(from)),
        (Key::OwnerOf(name), Cell::Owner(to)),
    ]?;
    Ok(Said::Done {
        reply: Reply::Plain,
        effect: Effect {
            gone: None,
            puts,
            opens: OpenChange::Stay,
        },
    })
}

pub(super) fn write_props<V: Vault>(
    alloc: Global,
    vault: &mut V,
    part: &Part,
    who: Name,
    open_no: u32,
    change: &PropChange,
) -> Result<Said, CallFault>
    requires serving { IsTrue (V.serves vault.old) }
    requires fit { AllFit part.now.intents.puts }
    requires files { IsTrue (V.tells vault.old) → AreFiles (seen (V.held vault.old).cells part.now) }
    ensures right { IsTrue (V.tells vault.old) → IfOk result (λ s. Says (V.held vault.old).cells part.now s (λ own. on_change own (open_at own.opens open_no) (write_props_said own who change.now))) }
    ensures id { IfOk result (λ s. GivesNone (reply_of s)) }
    ensures proper { IfOk result (λ s. IsProper part.now s) }
    ensures opens { IfOk result (λ s. OpensOnly (id_in (reply_of s)) (opens_in s)) }
    ensures pages { IfOk result (λ s. TellsPages None (reply_of s)) }
    ensures looked { Looks V.Vault vault.old vault.new (fault_in result) }
{
    let found = match opened_file(vault, part, open_no, Access::Change)? {
        Ok(found) => found,
        Err(refusal) => return Ok(Said::Told(Reply::Refused(refusal))),
    };
    if let PropChange::Owner(name) = change {
        return move_file(alloc, vault, part, who, found, *name);
    }
    let props = props_with(found.props, change)?;
    let said = put_leader(alloc, found.opened.file, props)?;
    Ok(said)
}
