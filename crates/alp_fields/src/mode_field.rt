//! A mode as a field: a byte from 1 to 6.
ghost use Rattle.std.specs.Prelude.{◌≡◌, OnOk, OnErr};
ghost use Rattle.alp_fields.specs.Forms.{IsForm, IsRead, IsWritten};
ghost use Rattle.alp_fields.specs.ModeField.{mode};

use crate::{FieldReader, put_u8};
use alp_base::OutOfMemory;
use alp_modes::Mode;

/// The mode at the front of the bytes that are left, if one is spelled there.
#[tactic(auto, unfolding(crate::specs::ModeField::mode))]
pub fn read_mode(reader: &mut FieldReader) -> Option<Mode>
    ensures { IsRead mode reader.old reader.new result }
{
    match reader.u8()? {
        1 => Some(Mode::IntendRead),
        2 => Some(Mode::IntendWrite),
        3 => Some(Mode::Read),
        4 => Some(Mode::Update),
        5 => Some(Mode::ReadIntendWrite),
        6 => Some(Mode::Write),
        _ => None,
    }
}

/// Writes the mode as its byte.
#[tactic(auto, unfolding(crate::specs::ModeField::mode, crate::specs::Forms::u8))]
pub fn put_mode(out: &mut Vec<u8>, held: Mode) -> Result<(), OutOfMemory>
    ensures ok { OnOk result (IsWritten mode held out.old.items out.new.items) }
    ensures err { OnErr result (out.new.items ≡ out.old.items) }
{
    match held {
        Mode::IntendRead => put_u8(out, 1),
        Mode::IntendWrite => put_u8(out, 2),
        Mode::Read => put_u8(out, 3),
        Mode::Update => put_u8(out, 4),
        Mode::ReadIntendWrite => put_u8(out, 5),
        Mode::Write => put_u8(out, 6),
    }
}

/// What is spelled is read back whatever follows it, and what is read was so spelled.
pub fn mode_is_a_form()
    ensures { IsForm mode }
{}
