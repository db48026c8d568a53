//! Files that lose their pages from a number on.
ghost use Rattle.std.specs.Prelude.{◌≡◌, ℕ, IfOk, OnOk, OnErr};
ghost use Rattle.std.specs.BTreeMap.{IsOrdered};
ghost use Rattle.std.specs.FinMap as map;
ghost use Rattle.alp_base.specs.KeyLaws.{file_cmp};
ghost use Rattle.alp_files.specs.Needs.{CutFiles, cut_from};

use alp_base::{FileId, OutOfMemory};
use std::alloc::Global;
use std::collections::BTreeMap;
use std::marker::Model;

/// The first number that goes of each of the files, in the order of their ids; seen as a finite map.
#[derive(Drop)]
pub struct Cuts {
    firsts: BTreeMap<FileId, u32>,
}

impl Model for Cuts {
    ghost use Rattle.std.specs.FinMap as map;
    ghost use Rattle.std.specs.Coded.{coded_ℕ};
    ghost use Rattle.alp_files.specs.Needs.{CutFiles};
    ghost use Rattle.alp_base.specs.contracts.ids.FileId as id_type;

    ghost Value = { CutFiles };

    ghost coded = { map.code id_type.the_row.coded coded_ℕ };

    ghost view = { λ c. map.from_entries c.firsts.entries };
}

impl Cuts {
    pub fn new(alloc: Global) -> Cuts
        ensures { result ≡ map.empty }
    {
        Cuts {
            firsts: BTreeMap::new(alloc),
        }
    }

    /// The first number that goes of the file.
    pub fn first(&self, file: &FileId) -> Option<u32>
        ensures { result ≡ map.get self.now file.now }
    {
        self.firsts.get(file).copied()
    }

    /// The pages of the file from this number on go too.
    pub fn add(&mut self, file: FileId, first: u32) -> Result<(), OutOfMemory>
        ensures ok { OnOk result (self.new ≡ map.insert self.old file (cut_from self.old file first)) }
        ensures err { OnErr result (self.new ≡ self.old) }
    {
        let before = self.first(&file).unwrap_or(first);
        self.firsts.insert(file, first.min(before))?;
        Ok(())
    }

    /// What goes of the file is what went before it was cut last.
    pub fn take_back(&mut self, file: FileId, before: Option<u32>)
        ensures { (c : CutFiles) → (n : ℕ) → before ≡ map.get c file → self.old ≡ map.insert c file n → self.new ≡ c }
    {
        match before {
            Some(first) => {
                let _ = self.firsts.insert(file, first);
            }
            None => {
                self.firsts.remove(&file);
            }
        }
    }

    /// No page of the file goes for a cut.
    pub fn remove(&mut self, file: &FileId)
        ensures { self.new ≡ map.remove self.old file.now }
    {
        self.firsts.remove(file);
    }

    /// The files and those numbers, in the order of the files' ids.
    pub fn list(&self, alloc: Global) -> Result<Vec<(FileId, u32)>, OutOfMemory>
        ensures { IfOk result (λ v. v.items ≡ map.entries self.now) }
    {
        let cuts = cuts_in(alloc, &self.firsts)?;
        Ok(cuts)
    }
}

fn cuts_in(alloc: Global, firsts: &BTreeMap<FileId, u32>) -> Result<Vec<(FileId, u32)>, OutOfMemory>
    ensures cuts { IfOk result (λ v. v.items ≡ firsts.now.entries) }
    ensures rising { IsOrdered file_cmp firsts.now }
{
    let mut cuts = Vec::new(alloc);
    for (file, first) in firsts.iter() {
        cuts.push((*file, *first))?;
    }
    Ok(cuts)
}
