//! Calls about owners.
ghost use Rattle.std.specs.Prelude.{◌≡◌, IfOk, IsTrue, None};
ghost use Rattle.alp_files.specs.Act.{is_admin as admin, read_owner as read_owner_said, make_owner as make_owner_said, set_quota as set_quota_said, id_in};
ghost use Rattle.alp_files.specs.Reading.{TellsPages};
ghost use Rattle.alp_calls.specs.Looks.{Looks, fault_in};
ghost use Rattle.alp_calls.specs.Opened.{OpensOnly};
ghost use Rattle.alp_calls.specs.Parts.{AllFit, Says, GivesNone, IsProper, reply_of, opens_in};

use crate::CallFault;
use crate::look::owner_at;
use crate::said::{Effect, OpenChange, Said};
use alp_base::{AccessList, Cell, Key, Name, OwnerRecord};
use alp_files::{ListName, Refusal, Reply};
use alp_trans::Part;
use alp_vault::Vault;
use std::alloc::Global;

fn is_admin(who: Name) -> bool
    ensures { result ≡ admin who }
{
    who.as_bytes() == b"Admin".as_slice()
}

pub(super) fn read_owner<V: Vault>(
    vault: &mut V,
    part: &Part,
    owner: Name,
) -> Result<Said, CallFault>
    requires serving { IsTrue (V.serves vault.old) }
    requires fit { AllFit part.now.intents.puts }
    ensures right { IsTrue (V.tells vault.old) → IfOk result (λ s. Says (V.held vault.old).cells part.now s (λ own. read_owner_said own owner)) }
    ensures id { IfOk result (λ s. GivesNone (reply_of s)) }
    ensures proper { IfOk result (λ s. IsProper part.now s) }
    ensures opens { IfOk result (λ s. OpensOnly (id_in (reply_of s)) (opens_in s)) }
    ensures pages { IfOk result (λ s. TellsPages None (reply_of s)) }
    ensures looked { Looks V.Vault vault.old vault.new (fault_in result) }
{
    let Some(record) = owner_at(vault, &part.intents, owner)? else {
        return Ok(Said::Told(Reply::Refused(Refusal::UnknownOwner)));
    };
    Ok(Said::Told(Reply::Owner(record)))
}

pub(super) fn make_owner<V: Vault>(
    alloc: Global,
    vault: &mut V,
    part: &Part,
    who: Name,
    owner: Name,
    quota: u32,
    create: &AccessList,
) -> Result<Said, CallFault>
    requires serving { IsTrue (V.serves vault.old) }
    requires fit { AllFit part.now.intents.puts }
    ensures right { IsTrue (V.tells vault.old) → IfOk result (λ s. Says (V.held vault.old).cells part.now s (λ own. make_owner_said own who owner quota create.now)) }
    ensures id { IfOk result (λ s. GivesNone (reply_of s)) }
    ensures proper { IfOk result (λ s. IsProper part.now s) }
    ensures opens { IfOk result (λ s. OpensOnly (id_in (reply_of s)) (opens_in s)) }
    ensures pages { IfOk result (λ s. TellsPages None (reply_of s)) }
    ensures looked { Looks V.Vault vault.old vault.new (fault_in result) }
{
    if owner_at(vault, &part.intents, owner)?.is_some() {
        return Ok(Said::Told(Reply::Refused(Refusal::OwnerExists)));
    }
    if !is_admin(who) {
        return Ok(Said::Told(Reply::Refused(Refusal::AccessDenied {
            list: ListName::Admin,
        })));
    }
    let record = OwnerRecord {
        name: owner,
        quota,
        charge: 0,
        create: create.clone()?,
    };
    let puts = vec![in alloc; (Key::OwnerOf(owner), Cell::Owner(record))]?;
    Ok(Said::Done {
        reply: Reply::Plain,
        effect: Effect {
            gone: None,
            puts,
            opens: OpenChange::Stay,
        },
    })
}

pub(super) fn set_quota<V: Vault>(
    alloc: Global,
    vault: &mut V,
    part: &Part,
    who: Name,
    owner: Name,
    quota: u32,
) -> Result<Said, CallFault>
    requires serving { IsTrue (V.serves vault.old) }
    requires fit { AllFit part.now.intents.puts }
    ensures right { IsTrue (V.tells vault.old) → IfOk result (λ s. Says (V.held vault.old).cells part.now s (λ own. set_quota_said own who owner quota)) }
    ensures id { IfOk result (λ s. GivesNone (reply_of s)) }
    ensures proper { IfOk result (λ s. IsProper part.now s) }
    ensures opens { IfOk result (λ s. OpensOnly (id_in (reply_of s)) (opens_in s)) }
    ensures pages { IfOk result (λ s. TellsPages None (reply_of s)) }
    ensures looked { Looks V.Vault vault.old vault.new (fault_in result) }
{
    let Some(mut record) = owner_at(vault, &part.intents, owner)? else {
        return Ok(Said::Told(Reply::Refused(Refusal::UnknownOwner)));
    };
    if !is_admin(who) {
        return Ok(Said::Told(Reply::Refused(Refusal::AccessDenied {
            list: ListName::Admin,
        })));
    }
    record.quota = quota;
    let puts = vec![in alloc; (Key::OwnerOf(owner), Cell::Owner(record))]?;
    Ok(Said::Done {
        reply: Reply::Plain,
        effect: Effect {
            gone: None,
            puts,
            opens: OpenChange::Stay,
        },
    })
}
