//! Bytes, names and pages.
ghost use Rattle.std.specs.Prelude.{◌≡◌, ◌<◌, ◌^◌, OnOk, OnErr, IfSome, length, option_map};
ghost use Rattle.alp_fields.specs.Forms.{IsRead, IsWritten, Extends, bytes_of};
ghost use Rattle.alp_fields.specs.Fields.{name, page};
ghost use Rattle.alp_base.specs.Pages.{page_bytes};

use crate::FieldReader;
use crate::numbers::put_u8;
use alp_base::{Name, OutOfMemory, PAGE_BYTES, Page, PageRef};
use std::alloc::Global;

impl<'a> FieldReader<'a> {
    /// The next so many bytes, whatever they are.
    pub fn bytes(&mut self, count: usize) -> Option<&'a [u8]>
        ensures read { IsRead (bytes_of count) self.old self.new (option_map (λ b. b.now) result) }
        ensures all { IfSome result (λ b. length b.now ≡ count) }
    {
        let bytes = self.rest;
        if bytes.len() < count {
            return None;
        }
        let (front, rest) = bytes.split_at(count);
        self.rest = rest;
        Some(front)
    }

    #[tactic(auto, unfolding(crate::specs::Fields::name))]
    pub fn name(&mut self) -> Option<Name>
        ensures { IsRead name self.old self.new result }
    {
        let count = self.u8()?;
        let bytes = self.bytes(count as usize)?;
        Name::parse(bytes)
    }

    #[tactic(auto, unfolding(crate::specs::Fields::page))]
    pub fn page(&mut self) -> Option<Page>
        ensures { IsRead page self.old self.new result }
    {
        let bytes = self.bytes(PAGE_BYTES)?;
        let mut whole = [0u8; 512];
        whole.copy_from_slice(bytes);
        Some(Page::new(whole))
    }
}

/// Writes bytes as they are.
pub fn put_bytes(out: &mut Vec<u8>, bytes: &[u8]) -> Result<(), OutOfMemory>
    ensures ok { OnOk result (IsWritten (bytes_of (length bytes.now)) bytes.now out.old.items out.new.items) }
    ensures err { OnErr result (out.new.items ≡ out.old.items) }
{
    out.extend_from_slice(bytes)?;
    Ok(())
}

#[tactic(auto, unfolding(crate::specs::Fields::name))]
fn append_name(out: &mut Vec<u8>, spelled: &Name) -> Result<(), OutOfMemory>
    ensures ok { OnOk result (IsWritten name spelled.now out.old.items out.new.items) }
    ensures err { OnErr result (Extends out.old.items out.new.items) }
{
    let bytes = spelled.as_bytes();
    put_u8(out, bytes.len() as u8)?;
    put_bytes(out, bytes)
}

pub fn put_name(out: &mut Vec<u8>, spelled: &Name) -> Result<(), OutOfMemory>
    ensures ok { OnOk result (IsWritten name spelled.now out.old.items out.new.items) }
    ensures err { OnErr result (out.new.items ≡ out.old.items) }
{
    let begun = out.len();
    let done = append_name(out, spelled);
    if done.is_err() {
        out.truncate(begun);
    }
    done
}

/// Writes the bytes of a page.
#[tactic(auto, unfolding(crate::specs::Fields::page))]
pub fn put_page(out: &mut Vec<u8>, bytes: &[u8]) -> Result<(), OutOfMemory>
    requires { length bytes.now ≡ page_bytes }
    ensures ok { OnOk result (IsWritten page bytes.now out.old.items out.new.items) }
    ensures err { OnErr result (out.new.items ≡ out.old.items) }
{
    put_bytes(out, bytes)
}
