//! Files that go.
ghost use Rattle.std.specs.Prelude.{◌≡◌, IfOk, OnOk, OnErr};
ghost use Rattle.std.specs.BTreeSet.{IsOrdered};
ghost use Rattle.std.specs.FinMap as map;
ghost use Rattle.alp_base.specs.KeyLaws.{file_cmp};
ghost use Rattle.alp_files.specs.Needs.{Files};

use alp_base::{FileId, OutOfMemory};
use std::alloc::Global;
use std::collections::BTreeSet;
use std::marker::Model;

/// Files that go, in the order of their ids; seen as a finite set.
#[derive(Drop)]
pub struct Drops {
    files: BTreeSet<FileId>,
}

impl Model for Drops {
    ghost use Rattle.std.specs.FinSet as set;
    ghost use Rattle.alp_files.specs.Needs.{Files, files_of};
    ghost use Rattle.alp_base.specs.contracts.ids.FileId as id_type;

    ghost Value = { Files };

    ghost coded = { set.code id_type.the_row.coded };

    ghost view = { λ d. files_of d.files.keys };
}

impl Drops {
    pub fn new(alloc: Global) -> Drops
        ensures { result ≡ map.empty }
    {
        Drops {
            files: BTreeSet::new(alloc),
        }
    }

    pub fn contains(&self, file: &FileId) -> bool
        ensures { result ≡ map.contains_key self.now file.now }
    {
        self.files.contains(file)
    }

    /// The file goes from now on.
    pub fn add(&mut self, file: FileId) -> Result<(), OutOfMemory>
        ensures ok { OnOk result (self.new ≡ map.insert self.old file tt) }
        ensures err { OnErr result (self.new ≡ self.old) }
    {
        self.files.insert(file)?;
        Ok(())
    }

    /// Takes back that the file goes, unless it went before.
    pub fn take_back(&mut self, file: FileId, before: bool)
        ensures { (d : Files) → before ≡ map.contains_key d file → self.old ≡ map.insert d file tt → self.new ≡ d }
    {
        if !before {
            self.files.remove(&file);
        }
    }

    /// The files, in the order of their ids.
    pub fn list(&self, alloc: Global) -> Result<Vec<FileId>, OutOfMemory>
        ensures { IfOk result (λ v. v.items ≡ map.keys self.now) }
    {
        let files = files_in(alloc, &self.files)?;
        Ok(files)
    }
}

fn files_in(alloc: Global, files: &BTreeSet<FileId>) -> Result<Vec<FileId>, OutOfMemory>
    ensures files { IfOk result (λ v. v.items ≡ files.now.keys) }
    ensures rising { IsOrdered file_cmp files.now }
{
    let mut list = Vec::new(alloc);
    for file in files.iter() {
        list.push(*file)?;
    }
    Ok(list)
}
