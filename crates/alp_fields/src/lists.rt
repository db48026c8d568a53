//! Access lists, and pages in a row: a count, and that many.
ghost use Rattle.std.specs.Prelude.{◌≡◌, ◌<◌, ◌≤◌, ◌^◌, OnOk, OnErr, IfOk, IfSome, length, option_map};
ghost use Rattle.alp_fields.specs.Forms.{IsRead, IsWritten, Extends, repeated};
ghost use Rattle.alp_fields.specs.Fields.{name, page, list, list_count, pages, some_count};

use crate::FieldReader;
use crate::names::{put_name, put_page};
use crate::numbers::put_u8;
use alp_base::{AccessList, NAMES_PER_LIST, Name, OutOfMemory, PageList, PageRef};
use std::alloc::Global;

impl<'a> FieldReader<'a> {
    #[tactic(auto, unfolding(crate::specs::Fields::list_count))]
    pub(super) fn list_count(&mut self) -> Option<u8>
        ensures read { IsRead list_count self.old self.new result }
        ensures few { IfSome result (λ n. n ≤ NAMES_PER_LIST) }
    {
        let count = self.u8()?;
        if count as usize > NAMES_PER_LIST {
            return None;
        }
        Some(count)
    }

    fn names(&mut self, alloc: Global, count: u8) -> Result<Option<Vec<Name>>, OutOfMemory>
        ensures read { IfOk result (λ names. IsRead (repeated name count) self.old self.new (option_map (λ v. v.items) names)) }
        ensures all { IfOk result (λ names. IfSome names (λ v. length v.items ≡ count)) }
    {
        let mut names = Vec::new(alloc);
        for _ in 0..count {
            let Some(next) = self.name() else {
                return Ok(None);
            };
            names.push(next)?;
        }
        Ok(Some(names))
    }

    #[tactic(auto, unfolding(crate::specs::Fields::list))]
    fn list_ahead(&mut self, alloc: Global) -> Result<Option<AccessList>, OutOfMemory>
        ensures { IfOk result (IsRead list self.old self.new) }
    {
        let Some(count) = self.list_count() else {
            return Ok(None);
        };
        let Some(names) = self.names(alloc, count)? else {
            return Ok(None);
        };
        Ok(Some(AccessList::new(names)))
    }

    /// An access list, of at most as many names as one may have.
    pub fn list(&mut self, alloc: Global) -> Result<Option<AccessList>, OutOfMemory>
        ensures ok { IfOk result (IsRead list self.old self.new) }
        ensures err { OnErr result (self.new ≡ self.old) }
    {
        let mut ahead = self.copy();
        let found = ahead.list_ahead(alloc)?;
        *self = ahead;
        Ok(found)
    }

    fn page_refs(&mut self, alloc: Global, count: u8) -> Result<Option<Vec<PageRef>>, OutOfMemory>
        ensures { IfOk result (λ found. IsRead (repeated page count) self.old self.new (option_map (λ v. v.items) found)) }
    {
        let mut pages = Vec::new(alloc);
        for _ in 0..count {
            let Some(next) = self.page() else {
                return Ok(None);
            };
            let shared = PageRef::new(alloc, next)?;
            pages.push(shared)?;
        }
        Ok(Some(pages))
    }

    #[tactic(auto, unfolding(crate::specs::Fields::pages, crate::specs::Fields::some_count))]
    fn pages_ahead(&mut self, alloc: Global) -> Result<Option<PageList>, OutOfMemory>
        ensures { IfOk result (IsRead pages self.old self.new) }
    {
        let Some(count) = self.u8() else {
            return Ok(None);
        };
        if count == 0 {
            return Ok(None);
        }
        let Some(found) = self.page_refs(alloc, count)? else {
            return Ok(None);
        };
        Ok(Some(PageList::new(found)))
    }

    /// Pages, at least one.
    pub fn pages(&mut self, alloc: Global) -> Result<Option<PageList>, OutOfMemory>
        ensures ok { IfOk result (IsRead pages self.old self.new) }
        ensures err { OnErr result (self.new ≡ self.old) }
    {
        let mut ahead = self.copy();
        let found = ahead.pages_ahead(alloc)?;
        *self = ahead;
        Ok(found)
    }
}

fn append_names(out: &mut Vec<u8>, names: &[Name]) -> Result<(), OutOfMemory>
    ensures ok { OnOk result (IsWritten (repeated name (length names.now)) names.now out.old.items out.new.items) }
    ensures err { OnErr result (Extends out.old.items out.new.items) }
{
    for next in names {
        put_name(out, next)?;
    }
    Ok(())
}

#[tactic(auto, unfolding(crate::specs::Fields::list, crate::specs::Fields::list_count))]
fn append_list(out: &mut Vec<u8>, names: &[Name]) -> Result<(), OutOfMemory>
    requires { length names.now ≤ NAMES_PER_LIST }
    ensures ok { OnOk result (IsWritten list names.now out.old.items out.new.items) }
    ensures err { OnErr result (Extends out.old.items out.new.items) }
{
    put_u8(out, names.len() as u8)?;
    append_names(out, names)
}

pub fn put_list(out: &mut Vec<u8>, names: &AccessList) -> Result<(), OutOfMemory>
    ensures ok { OnOk result (IsWritten list names.now out.old.items out.new.items) }
    ensures err { OnErr result (out.new.items ≡ out.old.items) }
{
    let begun = out.len();
    let done = append_list(out, names.names());
    if done.is_err() {
        out.truncate(begun);
    }
    done
}

fn append_page_refs(out: &mut Vec<u8>, pages: &[PageRef]) -> Result<(), OutOfMemory>
    ensures ok { OnOk result (IsWritten (repeated page (length pages.now)) pages.now out.old.items out.new.items) }
    ensures err { OnErr result (Extends out.old.items out.new.items) }
{
    for next in pages {
        put_page(out, next.bytes())?;
    }
    Ok(())
}

#[tactic(auto, unfolding(crate::specs::Fields::pages, crate::specs::Fields::some_count))]
fn append_pages(out: &mut Vec<u8>, given: &[PageRef]) -> Result<(), OutOfMemory>
    requires some { 0 < length given.now }
    requires few { length given.now < 2 ^ 8 }
    ensures ok { OnOk result (IsWritten pages given.now out.old.items out.new.items) }
    ensures err { OnErr result (Extends out.old.items out.new.items) }
{
    put_u8(out, given.len() as u8)?;
    append_page_refs(out, given)
}

/// Writes pages, of which there are some and no more than a byte counts.
pub fn put_pages(out: &mut Vec<u8>, given: &PageList) -> Result<(), OutOfMemory>
    requires some { 0 < length given.now }
    requires few { length given.now < 2 ^ 8 }
    ensures ok { OnOk result (IsWritten pages given.now out.old.items out.new.items) }
    ensures err { OnErr result (out.new.items ≡ out.old.items) }
{
    let begun = out.len();
    let done = append_pages(out, given.pages());
    if done.is_err() {
        out.truncate(begun);
    }
    done
}
