//! Fields put at places of bytes that are there already, with no memory taken.
ghost use Rattle.std.specs.Prelude.{◌≡◌, ◌≤◌, ◌+◌, ◌*◌, length, replicate};
ghost use Rattle.alp_fields.specs.Forms.{IsSet, repeated, u8 as byte, u16 as short, u32 as word, u64 as long};
ghost use Rattle.alp_base.specs.Pages.{overwritten};
ghost use Rattle.alp_fields.specs.Fields.{id_parts, file_id, name_field, named_field, list_field, name_field_bytes};

use crate::NAME_FIELD_BYTES;
use alp_base::{AccessList, FileId, NAMES_PER_LIST, Name};

/// Puts the bytes at that place.
pub fn set_bytes(out: &mut [u8], at: usize, bytes: &[u8])
    requires { at + length bytes.now ≤ length out.old }
    ensures { out.new ≡ overwritten out.old at bytes.now }
{
    out[at..at + bytes.len()].copy_from_slice(bytes);
}

/// Puts so many zeros at that place.
pub fn set_zeros(out: &mut [u8], at: usize, count: usize)
    requires { at + count ≤ length out.old }
    ensures { out.new ≡ overwritten out.old at (replicate count 0) }
{
    out[at..at + count].fill(0);
}

#[tactic(auto, unfolding(crate::specs::Forms::u8))]
pub fn set_u8(out: &mut [u8], at: usize, n: u8)
    requires { at + 1 ≤ length out.old }
    ensures { IsSet byte n at out.old out.new }
{
    set_bytes(out, at, &[n]);
}

#[tactic(auto, unfolding(crate::specs::Forms::u16))]
pub fn set_u16(out: &mut [u8], at: usize, n: u16)
    requires { at + 2 ≤ length out.old }
    ensures { IsSet short n at out.old out.new }
{
    set_bytes(out, at, &n.to_be_bytes());
}

#[tactic(auto, unfolding(crate::specs::Forms::u32))]
pub fn set_u32(out: &mut [u8], at: usize, n: u32)
    requires { at + 4 ≤ length out.old }
    ensures { IsSet word n at out.old out.new }
{
    set_bytes(out, at, &n.to_be_bytes());
}

#[tactic(auto, unfolding(crate::specs::Forms::u64))]
pub fn set_u64(out: &mut [u8], at: usize, n: u64)
    requires { at + 8 ≤ length out.old }
    ensures { IsSet long n at out.old out.new }
{
    set_bytes(out, at, &n.to_be_bytes());
}

fn set_id_parts(out: &mut [u8], at: usize, server: u8, epoch: u32, counter: u32)
    requires { at + 9 ≤ length out.old }
    ensures { IsSet id_parts (server, (epoch, counter)) at out.old out.new }
{
    set_u8(out, at, server);
    set_u32(out, at + 1, epoch);
    set_u32(out, at + 5, counter);
}

#[tactic(auto, unfolding(crate::specs::Fields::file_id))]
pub fn set_file_id(out: &mut [u8], at: usize, id: FileId)
    requires { at + 9 ≤ length out.old }
    ensures { IsSet file_id id at out.old out.new }
{
    set_id_parts(out, at, id.server, id.epoch, id.counter);
}

/// Puts the name, or zeros alone where there is none.
#[tactic(auto, unfolding(crate::specs::Fields::name_field))]
pub fn set_name_field(out: &mut [u8], at: usize, given: Option<Name>)
    requires { at + name_field_bytes ≤ length out.old }
    ensures { IsSet name_field given at out.old out.new }
{
    match given {
        Some(name) => set_named_field(out, at, &name),
        None => set_zeros(out, at, NAME_FIELD_BYTES),
    }
}

/// Puts the name, with zeros behind it.
#[tactic(auto, unfolding(crate::specs::Fields::named_field))]
pub fn set_named_field(out: &mut [u8], at: usize, name: &Name)
    requires { at + name_field_bytes ≤ length out.old }
    ensures { IsSet named_field name.now at out.old out.new }
{
    let padded = name.padded_bytes();
    set_u8(out, at, name.as_bytes().len() as u8);
    set_bytes(out, at + 1, &padded);
}

fn set_named_fields(out: &mut [u8], at: usize, names: &[Name])
    requires { at + length names.now * name_field_bytes ≤ length out.old }
    ensures { IsSet (repeated named_field (length names.now)) names.now at out.old out.new }
{
    for i in 0..names.len() {
        set_named_field(out, at + i * NAME_FIELD_BYTES, &names[i]);
    }
}

/// Puts the names of the list, and zeros in place of those that it could have besides.
pub fn set_list_field(out: &mut [u8], at: usize, list: &AccessList)
    requires { at + 1 + NAMES_PER_LIST * name_field_bytes ≤ length out.old }
    ensures { IsSet list_field list.now at out.old out.new }
{
    let names = list.names();
    let count = names.len();
    set_u8(out, at, count as u8);
    set_named_fields(out, at + 1, names);
    let unused = (NAMES_PER_LIST - count) * NAME_FIELD_BYTES;
    set_zeros(out, at + 1 + count * NAME_FIELD_BYTES, unused);
}
