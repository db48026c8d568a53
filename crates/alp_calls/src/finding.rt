//! What a call finds before it changes anything, or how it is refused.
ghost use Rattle.std.specs.Prelude.{◌≡◌, ◌≤◌, IfOk, IfErr, IfSome, IsTrue, None, Some, false, true};
ghost use Rattle.alp_base.specs.declared.key.Key.TheVariants as key;
ghost use Rattle.alp_base.specs.declared.lists.TheConstants.{PAGES_PER_FILE};
ghost use Rattle.alp_files.specs.Act.{is_over as over_quota, is_changing, open_at};
ghost use Rattle.alp_files.specs.Cells.{owner_in, same_name};
ghost use Rattle.alp_calls.specs.Finds.{denied_by, found_on, access_for as access_said, raised as raised_said, lowered as lowered_said, charged as charged_said};
ghost use Rattle.alp_calls.specs.Looks.{Looks, fault_in};
ghost use Rattle.alp_calls.specs.Parts.{AllFit, IsPartRefusal, seen};

use crate::CallFault;
use crate::look::{owner_at, props_at};
use alp_base::{Access, Name, OwnerRecord, Props};
use alp_files::{ListName, Open, Refusal, admits};
use alp_modes::Mode;
use alp_trans::Part;
use alp_vault::Vault;

/// An open of a part, and the properties of its file.
#[derive(Drop)]
pub struct OpenedFile {
    pub opened: Open,
    pub props: Props,
}

/// The open with that number and its file's properties, where it may be used so.
pub fn opened_file<V: Vault>(
    vault: &mut V,
    part: &Part,
    number: u32,
    wanted: Access,
) -> Result<Result<OpenedFile, Refusal>, CallFault>
    requires serving { IsTrue (V.serves vault.old) }
    requires fit { AllFit part.now.intents.puts }
    ensures found { IsTrue (V.tells vault.old) → IfOk result (λ r. r ≡ found_on wanted (seen (V.held vault.old).cells part.now) (open_at part.now.opens.items number)) }
    ensures opened { IfOk result (λ r. IfOk r (λ x. open_at part.now.opens.items number ≡ Some x.opened)) }
    ensures refusal { IfOk result (λ r. IfErr r IsPartRefusal) }
    ensures size { IfOk result (λ r. IfOk r (λ x. x.props.size ≤ PAGES_PER_FILE)) }
    ensures looked { Looks V.Vault vault.old vault.new (fault_in result) }
{
    let Some(opened) = part.open_of(number) else {
        return Ok(Err(Refusal::UnknownOpen));
    };
    if wanted == Access::Change && opened.access == Access::ReadOnly {
        return Ok(Err(Refusal::ReadOnlyOpen));
    }
    let Some(props) = props_at(vault, &part.intents, opened.file)? else {
        return Ok(Err(Refusal::UnknownOpen));
    };
    Ok(Ok(OpenedFile { opened, props }))
}

/// The access that pages need which are locked in this mode.
pub(super) fn access_for(mode: Mode) -> Access
    ensures { result ≡ access_said mode }
{
    match mode {
        Mode::Update | Mode::ReadIntendWrite | Mode::Write => Access::Change,
        _ => Access::ReadOnly,
    }
}

/// The list that has to admit who opens the file so, where it does not.
pub(super) fn denied(props: &Props, who: Name, access: Access) -> Option<ListName>
    ensures { result ≡ denied_by access who props.now }
{
    let may_change = admits(&props.modify, &who, &props.owner);
    match access {
        Access::ReadOnly => {
            if admits(&props.read, &who, &props.owner) || may_change {
                return None;
            }
            Some(ListName::Read)
        }
        Access::Change => {
            if may_change {
                return None;
            }
            Some(ListName::Modify)
        }
    }
}

fn is_over(owner: &OwnerRecord, asked: u32) -> bool
    ensures { result ≡ over_quota owner.now asked }
{
    0 < asked && (owner.quota as u64) < owner.charge as u64 + asked as u64
}

/// The owner's record with the charge of so many pages more, where its quota has room for them.
pub(super) fn raised(mut owner: OwnerRecord, asked: u32) -> Result<OwnerRecord, Refusal>
    ensures raised { result ≡ raised_said owner asked }
    ensures refusal { IfErr result IsPartRefusal }
    ensures named { IfOk result (λ o. o.name ≡ owner.name) }
{
    let (charge, quota) = (owner.charge, owner.quota);
    if is_over(&owner, asked) {
        return Err(Refusal::QuotaExceeded {
            charge,
            asked,
            quota,
        });
    }
    owner.charge = charge + asked;
    Ok(owner)
}

/// The owner's record with the charge of so many pages less.
pub(super) fn lowered(mut owner: OwnerRecord, pages: u32) -> OwnerRecord
    ensures { result ≡ lowered_said owner pages }
{
    owner.charge = owner.charge.saturating_sub(pages);
    owner
}

/// The record of an owner who gets a file of this size from `who`, where that may be.
pub(super) fn charged<V: Vault>(
    vault: &mut V,
    part: &Part,
    who: Name,
    name: Name,
    size: u32,
) -> Result<Result<OwnerRecord, Refusal>, CallFault>
    requires serving { IsTrue (V.serves vault.old) }
    requires fit { AllFit part.now.intents.puts }
    ensures charged { IsTrue (V.tells vault.old) → IfOk result (λ r. r ≡ charged_said who name size (owner_in (seen (V.held vault.old).cells part.now (key.OwnerOf name)))) }
    ensures refusal { IfOk result (λ r. IfErr r IsPartRefusal) }
    ensures named { IfOk result (λ r. IfOk r (λ o. same_name o.name name ≡ true)) }
    ensures looked { Looks V.Vault vault.old vault.new (fault_in result) }
{
    let Some(owner) = owner_at(vault, &part.intents, name)? else {
        return Ok(Err(Refusal::UnknownOwner));
    };
    if !admits(&owner.create, &who, &name) {
        return Ok(Err(Refusal::AccessDenied {
            list: ListName::Create,
        }));
    }
    Ok(raised(owner, size))
}
