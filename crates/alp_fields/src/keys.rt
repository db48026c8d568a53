//! Keys and resources: a tag, and what it is of.
ghost use Rattle.std.specs.Prelude.{◌≡◌, OnOk, OnErr};
ghost use Rattle.alp_fields.specs.Forms.{IsRead, IsWritten, Extends};
ghost use Rattle.alp_fields.specs.Fields.{key, resource};

use crate::FieldReader;
use crate::ids::put_file_id;
use crate::names::put_name;
use crate::numbers::{put_u8, put_u32};
use alp_base::{Key, OutOfMemory, Resource};

impl<'a> FieldReader<'a> {
    #[tactic(auto, unfolding(crate::specs::Fields::key))]
    pub fn key(&mut self) -> Option<Key>
        ensures { IsRead key self.old self.new result }
    {
        match self.u8()? {
            1 => {
                let file = self.file_id()?;
                Some(Key::Leader(file))
            }
            2 => {
                let file = self.file_id()?;
                let number = self.u32()?;
                Some(Key::PageOf(file, number))
            }
            3 => {
                let owner = self.name()?;
                Some(Key::OwnerOf(owner))
            }
            _ => None,
        }
    }

    #[tactic(auto, unfolding(crate::specs::Fields::resource))]
    pub fn resource(&mut self) -> Option<Resource>
        ensures { IsRead resource self.old self.new result }
    {
        let tag = self.u8()?;
        match tag {
            0 => {
                let file = self.file_id()?;
                Some(Resource::Whole(file))
            }
            1 => {
                let file = self.file_id()?;
                Some(Resource::Leaf(Key::Leader(file)))
            }
            2 => {
                let file = self.file_id()?;
                let number = self.u32()?;
                Some(Resource::Leaf(Key::PageOf(file, number)))
            }
            3 => {
                let owner = self.name()?;
                Some(Resource::Leaf(Key::OwnerOf(owner)))
            }
            _ => None,
        }
    }
}

#[tactic(auto, unfolding(crate::specs::Fields::key, crate::specs::Forms::u8))]
fn append_key(out: &mut Vec<u8>, place: &Key) -> Result<(), OutOfMemory>
    ensures ok { OnOk result (IsWritten key place.now out.old.items out.new.items) }
    ensures err { OnErr result (Extends out.old.items out.new.items) }
{
    match place {
        Key::Leader(file) => {
            put_u8(out, 1)?;
            put_file_id(out, *file)
        }
        Key::PageOf(file, number) => {
            put_u8(out, 2)?;
            put_file_id(out, *file)?;
            put_u32(out, *number)
        }
        Key::OwnerOf(owner) => {
            put_u8(out, 3)?;
            put_name(out, owner)
        }
    }
}

pub fn put_key(out: &mut Vec<u8>, place: &Key) -> Result<(), OutOfMemory>
    ensures ok { OnOk result (IsWritten key place.now out.old.items out.new.items) }
    ensures err { OnErr result (out.new.items ≡ out.old.items) }
{
    let begun = out.len();
    let done = append_key(out, place);
    if done.is_err() {
        out.truncate(begun);
    }
    done
}

#[tactic(auto, unfolding(crate::specs::Fields::resource, crate::specs::Fields::key, crate::specs::Forms::u8))]
fn append_resource(out: &mut Vec<u8>, held: &Resource) -> Result<(), OutOfMemory>
    ensures ok { OnOk result (IsWritten resource held.now out.old.items out.new.items) }
    ensures err { OnErr result (Extends out.old.items out.new.items) }
{
    match held {
        Resource::Whole(file) => {
            put_u8(out, 0)?;
            put_file_id(out, *file)
        }
        Resource::Leaf(place) => put_key(out, place),
    }
}

pub fn put_resource(out: &mut Vec<u8>, held: &Resource) -> Result<(), OutOfMemory>
    ensures ok { OnOk result (IsWritten resource held.now out.old.items out.new.items) }
    ensures err { OnErr result (out.new.items ≡ out.old.items) }
{
    let begun = out.len();
    let done = append_resource(out, held);
    if done.is_err() {
        out.truncate(begun);
    }
    done
}
