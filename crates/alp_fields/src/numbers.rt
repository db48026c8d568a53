//! Numbers, their highest byte first.
ghost use Rattle.std.specs.Prelude.{◌≡◌, OnOk, OnErr};
ghost use Rattle.alp_fields.specs.Forms.{IsRead, IsWritten, u8 as byte, u16 as short, u32 as word, u64 as long};

use crate::FieldReader;
use alp_base::OutOfMemory;

impl<'a> FieldReader<'a> {
    #[tactic(auto, unfolding(crate::specs::Forms::u8))]
    pub fn u8(&mut self) -> Option<u8>
        ensures { IsRead byte self.old self.new result }
    {
        match self.rest {
            [] => None,
            [first, rest @ ..] => {
                self.rest = rest;
                Some(*first)
            }
        }
    }

    #[tactic(auto, unfolding(crate::specs::Forms::u16))]
    pub fn u16(&mut self) -> Option<u16>
        ensures { IsRead short self.old self.new result }
    {
        let bytes = self.rest;
        if bytes.len() < 2 {
            return None;
        }
        let (front, rest) = bytes.split_at(2);
        self.rest = rest;
        Some(u16::from_be_bytes([front[0], front[1]]))
    }

    #[tactic(auto, unfolding(crate::specs::Forms::u32))]
    pub fn u32(&mut self) -> Option<u32>
        ensures { IsRead word self.old self.new result }
    {
        let bytes = self.rest;
        if bytes.len() < 4 {
            return None;
        }
        let (front, rest) = bytes.split_at(4);
        self.rest = rest;
        Some(u32::from_be_bytes([front[0], front[1], front[2], front[3]]))
    }

    #[tactic(auto, unfolding(crate::specs::Forms::u64))]
    pub fn u64(&mut self) -> Option<u64>
        ensures { IsRead long self.old self.new result }
    {
        let bytes = self.rest;
        if bytes.len() < 8 {
            return None;
        }
        let (front, rest) = bytes.split_at(8);
        self.rest = rest;
        Some(u64::from_be_bytes([
            front[0], front[1], front[2], front[3], front[4], front[5], front[6], front[7],
        ]))
    }
}

#[tactic(auto, unfolding(crate::specs::Forms::u8))]
pub fn put_u8(out: &mut Vec<u8>, n: u8) -> Result<(), OutOfMemory>
    ensures ok { OnOk result (IsWritten byte n out.old.items out.new.items) }
    ensures err { OnErr result (out.new.items ≡ out.old.items) }
{
    out.push(n)?;
    Ok(())
}

#[tactic(auto, unfolding(crate::specs::Forms::u16))]
pub fn put_u16(out: &mut Vec<u8>, n: u16) -> Result<(), OutOfMemory>
    ensures ok { OnOk result (IsWritten short n out.old.items out.new.items) }
    ensures err { OnErr result (out.new.items ≡ out.old.items) }
{
    out.extend_from_slice(&n.to_be_bytes())?;
    Ok(())
}

#[tactic(auto, unfolding(crate::specs::Forms::u32))]
pub fn put_u32(out: &mut Vec<u8>, n: u32) -> Result<(), OutOfMemory>
    ensures ok { OnOk result (IsWritten word n out.old.items out.new.items) }
    ensures err { OnErr result (out.new.items ≡ out.old.items) }
{
    out.extend_from_slice(&n.to_be_bytes())?;
    Ok(())
}

#[tactic(auto, unfolding(crate::specs::Forms::u64))]
pub fn put_u64(out: &mut Vec<u8>, n: u64) -> Result<(), OutOfMemory>
    ensures ok { OnOk result (IsWritten long n out.old.items out.new.items) }
    ensures err { OnErr result (out.new.items ≡ out.old.items) }
{
    out.extend_from_slice(&n.to_be_bytes())?;
    Ok(())
}
