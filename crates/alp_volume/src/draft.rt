//! A change of a volume that is being made.
ghost use Rattle.std.specs.Prelude.{◌≡◌, ◌<◌, ◌≤◌, ◌+◌, [], IsTrue, IfOk, OnOk, OnErr};
ghost use Rattle.std.specs.FinMap as map;
ghost use Rattle.alp_volume.specs.Drafts.{laid};
ghost use Rattle.alp_pages.specs.Reading.{HasRead};

use crate::undo::Undo;
use alp_base::{OutOfMemory, Page, PageRef, VaultFault};
use alp_pages::PageReader;
use alp_tables::Sheets;
use std::alloc::Global;

/// The pages that a change has made so far.
#[derive(Drop)]
pub struct Draft {
    alloc: Global,
    pub pages: Sheets,
    /// What the change did to the catalog.
    pub undos: Vec<Undo>,
}

impl Draft {
    /// Nothing is changed yet.
    pub fn new(alloc: Global) -> Draft
        ensures pages { result.pages ≡ map.empty }
        ensures undos { result.undos.items ≡ [] }
    {
        Draft {
            alloc,
            pages: Sheets::new(alloc),
            undos: Vec::new(alloc),
        }
    }

    /// A page as the change has it.
    pub fn page<R: PageReader>(&self, reader: &mut R, at: u32) -> Result<PageRef, VaultFault>
        requires { at < R.home reader.old }
        ensures page { IsTrue (R.tells reader.old) → IfOk result (λ p. p ≡ laid self.now.pages (R.pages reader.old) at) }
        ensures read { HasRead R.ReadOn R.faults R.allowance reader.old reader.new result }
    {
        let Some(page) = self.pages.get(at) else {
            return reader.page(at);
        };
        match page.share() {
            Ok(page) => Ok(page),
            Err(OutOfMemory) => Err(VaultFault::OutOfMemory),
        }
    }

    /// Puts a page that is shared with others.
    pub fn share(&mut self, at: u32, page: PageRef) -> Result<(), OutOfMemory>
        ensures ok { OnOk result (self.new.pages ≡ map.insert self.old.pages at page) }
        ensures err { OnErr result (self.new.pages ≡ self.old.pages) }
        ensures undos { self.new.undos ≡ self.old.undos }
        ensures few { map.len self.new.pages ≤ map.len self.old.pages + 1 }
    {
        self.pages.put(at, page)
    }

    /// Forgets what the change made of a page.
    pub fn forget(&mut self, at: u32)
        ensures pages { self.new.pages ≡ map.remove self.old.pages at }
        ensures undos { self.new.undos ≡ self.old.undos }
        ensures few { map.len self.new.pages ≤ map.len self.old.pages }
    {
        self.pages.remove(at);
    }

    /// Puts a page.
    pub fn write(&mut self, at: u32, page: Page) -> Result<(), OutOfMemory>
        ensures ok { OnOk result (self.new.pages ≡ map.insert self.old.pages at page) }
        ensures err { OnErr result (self.new.pages ≡ self.old.pages) }
        ensures undos { self.new.undos ≡ self.old.undos }
        ensures few { map.len self.new.pages ≤ map.len self.old.pages + 1 }
    {
        let page = PageRef::new(self.alloc, page)?;
        self.pages.put(at, page)
    }
}
