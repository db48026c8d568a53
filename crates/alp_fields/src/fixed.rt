//! Names and lists of names in fields that are as long whatever they hold: reading them.
ghost use Rattle.std.specs.Prelude.{◌≡◌, ◌==◌, IfOk, IfSome, OnErr, length, option_map};
ghost use Rattle.std.specs.List.{list_all};
ghost use Rattle.alp_fields.specs.Forms.{IsRead, repeated, zeros_of};
ghost use Rattle.alp_fields.specs.Fields.{text_field, named_field, name_field, list_field};

use crate::FieldReader;
use alp_base::{AccessList, NAME_BYTES, NAMES_PER_LIST, Name, OutOfMemory};
use std::alloc::Global;

/// The bytes of a name field.
pub const NAME_FIELD_BYTES: usize = 1 + NAME_BYTES;

/// The bytes of a list field.
pub const LIST_FIELD_BYTES: usize = 1 + NAMES_PER_LIST * NAME_FIELD_BYTES;

fn are_zeros(bytes: &[u8]) -> bool
    ensures { result ≡ list_all (λ b. b == 0) bytes.now }
{
    bytes.iter().all(|b| *b == 0)
}

impl<'a> FieldReader<'a> {
    /// So many zeros.
    pub fn zeros(&mut self, count: usize) -> Option<()>
        ensures { IsRead (zeros_of count) self.old self.new result }
    {
        let bytes = self.bytes(count)?;
        if !are_zeros(bytes) {
            return None;
        }
        Some(())
    }

    #[tactic(auto, unfolding(crate::specs::Fields::text_field, crate::specs::Fields::name_length))]
    fn text_field(&mut self) -> Option<&'a [u8]>
        ensures { IsRead text_field self.old self.new (option_map (λ b. b.now) result) }
    {
        let count = self.u8()?;
        if count as usize > NAME_BYTES {
            return None;
        }
        let bytes = self.bytes(count as usize)?;
        self.zeros(NAME_BYTES - count as usize)?;
        Some(bytes)
    }

    /// A name, where an empty field is none.
    #[tactic(auto, unfolding(crate::specs::Fields::named_field))]
    pub fn named_field(&mut self) -> Option<Name>
        ensures { IsRead named_field self.old self.new result }
    {
        let bytes = self.text_field()?;
        Name::parse(bytes)
    }

    /// A name, or none where the field is empty.
    #[tactic(auto, unfolding(crate::specs::Fields::name_field))]
    pub fn name_field(&mut self) -> Option<Option<Name>>
        ensures { IsRead name_field self.old self.new result }
    {
        let bytes = self.text_field()?;
        if bytes.is_empty() {
            return Some(None);
        }
        let name = Name::parse(bytes)?;
        Some(Some(name))
    }

    fn named_fields(&mut self, alloc: Global, count: u8) -> Result<Option<Vec<Name>>, OutOfMemory>
        ensures read { IfOk result (λ names. IsRead (repeated named_field count) self.old self.new (option_map (λ v. v.items) names)) }
        ensures all { IfOk result (λ names. IfSome names (λ v. length v.items ≡ count)) }
    {
        let mut names = Vec::new(alloc);
        for _ in 0..count {
            let Some(next) = self.named_field() else {
                return Ok(None);
            };
            names.push(next)?;
        }
        Ok(Some(names))
    }

    #[tactic(auto, unfolding(crate::specs::Fields::list_field))]
    fn list_field_ahead(&mut self, alloc: Global) -> Result<Option<AccessList>, OutOfMemory>
        ensures { IfOk result (IsRead list_field self.old self.new) }
    {
        let Some(count) = self.list_count() else {
            return Ok(None);
        };
        let Some(names) = self.named_fields(alloc, count)? else {
            return Ok(None);
        };
        let unused = NAMES_PER_LIST - count as usize;
        let Some(()) = self.zeros(unused * NAME_FIELD_BYTES) else {
            return Ok(None);
        };
        Ok(Some(AccessList::new(names)))
    }

    /// An access list, with zeros in place of the names that it could have besides.
    pub fn list_field(&mut self, alloc: Global) -> Result<Option<AccessList>, OutOfMemory>
        ensures ok { IfOk result (IsRead list_field self.old self.new) }
        ensures err { OnErr result (self.new ≡ self.old) }
    {
        let mut ahead = self.copy();
        let found = ahead.list_field_ahead(alloc)?;
        *self = ahead;
        Ok(found)
    }
}
