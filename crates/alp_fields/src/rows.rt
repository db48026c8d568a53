//! Numbers in a row.
ghost use Rattle.std.specs.Prelude.{◌+◌, ◌*◌, ◌≤◌, length, option_map};
ghost use Rattle.alp_fields.specs.Forms.{IsRead, IsSet, repeated, u32 as word};

use crate::FieldReader;
use crate::places::set_u32;

/// The bytes of a number of a row.
pub const U32_BYTES: usize = 4;

impl<'a> FieldReader<'a> {
    /// As many numbers as the slice has places, put there.
    pub fn u32s(&mut self, out: &mut [u32]) -> Option<()>
        ensures { IsRead (repeated word (length out.old)) self.old self.new (option_map (λ _. out.new) result) }
    {
        for i in 0..out.len() {
            out[i] = self.u32()?;
        }
        Some(())
    }
}

/// Puts the numbers, one behind the other.
pub fn set_u32s(out: &mut [u8], at: usize, numbers: &[u32])
    requires { at + length numbers.now * U32_BYTES ≤ length out.old }
    ensures { IsSet (repeated word (length numbers.now)) numbers.now at out.old out.new }
{
    for i in 0..numbers.len() {
        set_u32(out, at + i * U32_BYTES, numbers[i]);
    }
}
