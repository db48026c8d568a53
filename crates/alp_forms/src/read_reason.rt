//! What refusals tell, as they are read: lists, limits, votes and causes.
ghost use Rattle.alp_fields.specs.Forms.{IsRead};
ghost use Rattle.alp_forms.specs.Variants.{AreFieldsRead};
ghost use Rattle.alp_forms.specs.Reasons.{list_name, what, room_form, why, voted, cause};

use alp_fields::FieldReader;
use alp_files::{Cause, ListName, What, Why};

#[tactic(auto, unfolding(crate::specs::Reasons::list_name))]
pub(super) fn read_list_name(reader: &mut FieldReader) -> Option<ListName>
    ensures { IsRead list_name reader.old reader.new result }
{
    match reader.u8()? {
        1 => Some(ListName::Read),
        2 => Some(ListName::Modify),
        3 => Some(ListName::Create),
        4 => Some(ListName::Admin),
        _ => None,
    }
}

#[tactic(auto, unfolding(crate::specs::Reasons::what))]
pub(super) fn read_what(reader: &mut FieldReader) -> Option<What>
    ensures { IsRead what reader.old reader.new result }
{
    match reader.u8()? {
        1 => Some(What::Run),
        2 => Some(What::Pages),
        3 => Some(What::Opens),
        4 => Some(What::Cells),
        5 => Some(What::Locks),
        6 => Some(What::Files),
        7 => Some(What::Owners),
        8 => Some(What::Transactions),
        _ => None,
    }
}

fn take_room(reader: &mut FieldReader) -> Option<Why>
    ensures { AreFieldsRead room_form reader.old reader.new result }
{
    let room = reader.u32()?;
    let asked = reader.u32()?;
    Some(Why::LogFull { room, asked })
}

#[tactic(auto, unfolding(crate::specs::Reasons::why))]
fn read_why(reader: &mut FieldReader) -> Option<Why>
    ensures { IsRead why reader.old reader.new result }
{
    match reader.u8()? {
        1 => Some(Why::UnknownJoin),
        2 => Some(Why::Waiting),
        3 => take_room(reader),
        4 => Some(Why::ReadFault),
        5 => Some(Why::ClockEnd),
        _ => None,
    }
}

fn take_voted(reader: &mut FieldReader) -> Option<Cause>
    ensures { AreFieldsRead voted reader.old reader.new result }
{
    let server = reader.u8()?;
    let why = read_why(reader)?;
    Some(Cause::Voted { server, why })
}

#[tactic(auto, unfolding(crate::specs::Reasons::cause))]
pub(super) fn read_cause(reader: &mut FieldReader) -> Option<Cause>
    ensures { IsRead cause reader.old reader.new result }
{
    match reader.u8()? {
        1 => Some(Cause::Asked),
        2 => Some(Cause::TimedOut),
        3 => take_voted(reader),
        4 => reader.u32().map(|epoch| Cause::Lost { epoch }),
        _ => None,
    }
}
