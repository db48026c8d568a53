//! Refusals as they are read.
ghost use Rattle.alp_fields.specs.Forms.{IsRead};
ghost use Rattle.alp_forms.specs.Variants.{AreFieldsRead};
ghost use Rattle.alp_forms.specs.Refusals.{quota_exceeded, volume_full, log_full, too_many, refusal};

use crate::read_reason::{read_cause, read_list_name, read_what};
use alp_fields::FieldReader;
use alp_files::Refusal;

fn take_quota_exceeded(reader: &mut FieldReader) -> Option<Refusal>
    ensures { AreFieldsRead quota_exceeded reader.old reader.new result }
{
    let charge = reader.u32()?;
    let asked = reader.u32()?;
    let quota = reader.u32()?;
    Some(Refusal::QuotaExceeded {
        charge,
        asked,
        quota,
    })
}

fn take_volume_full(reader: &mut FieldReader) -> Option<Refusal>
    ensures { AreFieldsRead volume_full reader.old reader.new result }
{
    let left = reader.u32()?;
    let asked = reader.u32()?;
    Some(Refusal::VolumeFull { left, asked })
}

fn take_log_full(reader: &mut FieldReader) -> Option<Refusal>
    ensures { AreFieldsRead log_full reader.old reader.new result }
{
    let room = reader.u32()?;
    let asked = reader.u32()?;
    Some(Refusal::LogFull { room, asked })
}

fn take_too_many(reader: &mut FieldReader) -> Option<Refusal>
    ensures { AreFieldsRead too_many reader.old reader.new result }
{
    let what = read_what(reader)?;
    let limit = reader.u32()?;
    Some(Refusal::TooMany { what, limit })
}

/// The refusal at the front of the bytes that are left, if one is spelled there.
#[tactic(auto, unfolding(crate::specs::Refusals::refusal))]
pub fn read_refusal(reader: &mut FieldReader) -> Option<Refusal>
    ensures { IsRead refusal reader.old reader.new result }
{
    match reader.u8()? {
        1 => Some(Refusal::BadFrame),
        2 => reader.u32().map(|epoch| Refusal::StaleSession { epoch }),
        3 => Some(Refusal::UnknownTrans),
        4 => Some(Refusal::Finishing),
        5 => Some(Refusal::UnknownOpen),
        6 => Some(Refusal::UnknownFile),
        7 => Some(Refusal::UnknownOwner),
        8 => Some(Refusal::OwnerExists),
        9 => Some(Refusal::ReadOnlyOpen),
        10 => read_list_name(reader).map(|list| Refusal::AccessDenied { list }),
        11 => reader.u32().map(|size| Refusal::NoSuchPage { size }),
        12 => take_quota_exceeded(reader),
        13 => take_volume_full(reader),
        14 => take_log_full(reader),
        15 => take_too_many(reader),
        16 => reader
            .trans_id()
            .map(|holder| Refusal::LockConflict { holder }),
        17 => read_cause(reader).map(|cause| Refusal::Aborted { cause }),
        18 => Some(Refusal::NotYet),
        19 => Some(Refusal::ReadFault),
        20 => Some(Refusal::Down),
        21 => Some(Refusal::OutOfMemory),
        22 => Some(Refusal::JournalFull),
        _ => None,
    }
}
