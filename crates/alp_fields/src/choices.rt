//! Choices of two: a byte that is 0 or 1.
ghost use Rattle.std.specs.Prelude.{◌≡◌, OnOk, OnErr};
ghost use Rattle.alp_fields.specs.Forms.{IsRead, IsWritten};
ghost use Rattle.alp_fields.specs.Fields.{choice, access, flag};

use crate::FieldReader;
use crate::numbers::put_u8;
use alp_base::{Access, Choice, OutOfMemory};

impl<'a> FieldReader<'a> {
    #[tactic(auto, unfolding(crate::specs::Fields::choice))]
    pub fn choice(&mut self) -> Option<Choice>
        ensures { IsRead choice self.old self.new result }
    {
        match self.u8()? {
            0 => Some(Choice::Fail),
            1 => Some(Choice::Wait),
            _ => None,
        }
    }

    #[tactic(auto, unfolding(crate::specs::Fields::access))]
    pub fn access(&mut self) -> Option<Access>
        ensures { IsRead access self.old self.new result }
    {
        match self.u8()? {
            0 => Some(Access::ReadOnly),
            1 => Some(Access::Change),
            _ => None,
        }
    }

    #[tactic(auto, unfolding(crate::specs::Fields::flag))]
    pub fn flag(&mut self) -> Option<bool>
        ensures { IsRead flag self.old self.new result }
    {
        match self.u8()? {
            0 => Some(false),
            1 => Some(true),
            _ => None,
        }
    }
}

#[tactic(auto, unfolding(crate::specs::Fields::choice, crate::specs::Forms::u8))]
pub fn put_choice(out: &mut Vec<u8>, chosen: Choice) -> Result<(), OutOfMemory>
    ensures ok { OnOk result (IsWritten choice chosen out.old.items out.new.items) }
    ensures err { OnErr result (out.new.items ≡ out.old.items) }
{
    match chosen {
        Choice::Fail => put_u8(out, 0),
        Choice::Wait => put_u8(out, 1),
    }
}

#[tactic(auto, unfolding(crate::specs::Fields::access, crate::specs::Forms::u8))]
pub fn put_access(out: &mut Vec<u8>, chosen: Access) -> Result<(), OutOfMemory>
    ensures ok { OnOk result (IsWritten access chosen out.old.items out.new.items) }
    ensures err { OnErr result (out.new.items ≡ out.old.items) }
{
    match chosen {
        Access::ReadOnly => put_u8(out, 0),
        Access::Change => put_u8(out, 1),
    }
}

#[tactic(auto, unfolding(crate::specs::Fields::flag, crate::specs::Forms::u8))]
pub fn put_flag(out: &mut Vec<u8>, is_set: bool) -> Result<(), OutOfMemory>
    ensures ok { OnOk result (IsWritten flag is_set out.old.items out.new.items) }
    ensures err { OnErr result (out.new.items ≡ out.old.items) }
{
    if is_set {
        put_u8(out, 1)
    } else {
        put_u8(out, 0)
    }
}
