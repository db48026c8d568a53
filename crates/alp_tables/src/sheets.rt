//! Pages that a change has made, by their places.
ghost use Rattle.std.specs.Prelude.{◌≡◌, nat_lt, IfOk, OnOk, OnErr};
ghost use Rattle.std.specs.BTreeMap.{IsOrdered, keys};
ghost use Rattle.std.specs.List.{list_all};
ghost use Rattle.std.specs.Ordering.{nat_cmp};
ghost use Rattle.std.specs.Option.{option_copied as copied};
ghost use Rattle.std.specs.FinMap as map;

use alp_base::{OutOfMemory, PageRef};
use std::alloc::Global;
use std::collections::BTreeMap;
use std::marker::Model;

/// Pages by their places, in order; seen as a finite map.
#[derive(Drop)]
pub struct Sheets {
    pages: BTreeMap<u32, PageRef>,
}

impl Model for Sheets {
    ghost use Rattle.std.specs.Prelude.{ℕ, List};
    ghost use Rattle.std.specs.FinMap as map;
    ghost use Rattle.std.specs.Ordering.{nat_cmp};
    ghost use Rattle.std.specs.Coded.{coded_list, coded_ℕ};

    ghost Value = { map.FinMap nat_cmp (List ℕ) };

    ghost coded = { map.code coded_ℕ (coded_list coded_ℕ) };

    ghost view = { λ f. map.from_entries f.pages.entries };
}

impl Sheets {
    /// No page yet.
    pub fn new(alloc: Global) -> Sheets
        ensures { result ≡ map.empty }
    {
        Sheets {
            pages: BTreeMap::new(alloc),
        }
    }

    pub fn get(&self, at: u32) -> Option<&PageRef>
        ensures { copied result ≡ map.get self.now at }
    {
        self.pages.get(&at)
    }

    /// Takes a page out, if there is one.
    pub fn remove(&mut self, at: u32)
        ensures { self.new ≡ map.remove self.old at }
    {
        self.pages.remove(&at);
    }

    pub fn put(&mut self, at: u32, page: PageRef) -> Result<(), OutOfMemory>
        ensures ok { OnOk result (self.new ≡ map.insert self.old at page) }
        ensures err { OnErr result (self.new ≡ self.old) }
    {
        self.pages.insert(at, page)?;
        Ok(())
    }

    /// Whether all of them lie below that place.
    pub fn are_below(&self, home: usize) -> bool
        ensures { result ≡ list_all (λ at. nat_lt at home) (map.keys self.now) }
    {
        all_below(&self.pages, home)
    }

    /// All of them, by rising places; the pages are shared.
    pub fn images(&self, alloc: Global) -> Result<Vec<(u32, PageRef)>, OutOfMemory>
        ensures { IfOk result (λ v. v.items ≡ map.entries self.now) }
    {
        let images = images_in(alloc, &self.pages)?;
        Ok(images)
    }
}

// The entries of the tree.
fn images_in(
    alloc: Global,
    pages: &BTreeMap<u32, PageRef>,
) -> Result<Vec<(u32, PageRef)>, OutOfMemory>
    ensures images { IfOk result (λ v. v.items ≡ pages.now.entries) }
    ensures rising { IsOrdered nat_cmp pages.now }
{
    let mut images = Vec::new(alloc);
    for (at, page) in pages.iter() {
        images.push((*at, page.share()?))?;
    }
    Ok(images)
}

// Whether all keys of the tree are below that one.
fn all_below(pages: &BTreeMap<u32, PageRef>, home: usize) -> bool
    ensures below { result ≡ list_all (λ at. nat_lt at home) (keys pages.now) }
    ensures rising { IsOrdered nat_cmp pages.now }
{
    pages.keys().all(|at| (*at as usize) < home)
}
