//! What a transaction intends at one server.
ghost use Rattle.std.specs.Prelude.{◌≡◌, ◌++◌, Some, if◌then◌else◌, IfOk, OnOk, OnErr};
ghost use Rattle.std.specs.FinMap as map;
ghost use Rattle.std.specs.Option.{option_copied as copied};
ghost use Rattle.alp_files.specs.Needs.{no_intents, intend, intents_from, is_gone as is_gone_said, is_cut as is_cut_said, first_gone as first_gone_said, marks_of as marks_of_said};
ghost use Rattle.alp_files.specs.Edits.{Drop as Dropped, Cut};
ghost use Rattle.alp_files.specs.Undo.{puts_of};
ghost use Rattle.alp_trans.specs.Parts.{change_of, gone_edit, gone_edits, file_gone, AreBeside};
ghost use Rattle.alp_trans.specs.declared.gone.Gone.TheVariants as gone_variant;

use crate::cuts::Cuts;
use crate::drops::Drops;
use crate::gone::Gone;
use alp_base::{Cell, Change, CutList, FileId, FileList, Key, OutOfMemory, PutList};
use alp_files::CellMap;
use std::alloc::Global;
use std::marker::Model;

/// Files that go, files of which the pages from a number on go, and cells that are put, which stand over what goes.
#[derive(Drop)]
pub struct Intents {
    drops: Drops,
    cuts: Cuts,
    puts: CellMap,
}

impl Model for Intents {
    ghost use Rattle.alp_files.specs.Needs.{Intents as TheIntents};
    ghost use Rattle.alp_files.specs.IntentCode.{intents_code};

    ghost Value = { TheIntents };

    ghost coded = { intents_code };

    ghost view = { λ i. record { drops = i.drops; cuts = i.cuts; puts = i.puts } };
}

impl Intents {
    pub fn new(alloc: Global) -> Intents
        ensures { result ≡ no_intents }
    {
        Intents {
            drops: Drops::new(alloc),
            cuts: Cuts::new(alloc),
            puts: CellMap::new(alloc),
        }
    }

    /// The cells that are put.
    pub fn puts(&self) -> &CellMap
        ensures { result.now ≡ self.now.puts }
    {
        &self.puts
    }

    /// What is put at the key.
    pub fn put_at(&self, key: &Key) -> Option<&Cell>
        ensures { copied result ≡ map.get self.now.puts key.now }
    {
        self.puts.get(key)
    }

    /// Whether what lies below at the key goes.
    pub fn is_gone(&self, key: &Key) -> bool
        ensures { result ≡ is_gone_said self.now key.now }
    {
        match key {
            Key::Leader(file) => self.drops.contains(file),
            Key::PageOf(file, number) => {
                self.drops.contains(file) || is_cut(self.cuts.first(file), *number)
            }
            Key::OwnerOf(_) => false,
        }
    }

    /// The first page number of the file that goes, if one does.
    pub fn first_gone(&self, file: &FileId) -> Option<u32>
        ensures { result ≡ first_gone_said self.now file.now }
    {
        if self.drops.contains(file) {
            return Some(0);
        }
        self.cuts.first(file)
    }

    /// How often the file counts, besides its cells.
    pub fn marks_of(&self, file: &FileId) -> u32
        ensures { result ≡ marks_of_said self.now file.now }
    {
        one_if(self.drops.contains(file)) + one_if(self.cuts.first(file).is_some())
    }

    /// How often the file counts so with what goes of it.
    pub fn marks_with(&self, gone: Gone) -> u32
        ensures { result ≡ marks_of_said (intend (gone_edit gone) self.now) (file_gone gone) }
    {
        match gone {
            Gone::File(_) => 1,
            Gone::Pages(file, _) => one_if(self.drops.contains(&file)) + 1,
        }
    }

    /// What goes at a call, and then the cells that it puts, which do not lie in what goes; or nothing where there is no memory for all.
    pub fn change(
        &mut self,
        alloc: Global,
        gone: Option<Gone>,
        puts: Vec<(Key, Cell)>,
    ) -> Result<(), OutOfMemory>
        requires beside { AreBeside gone puts.items }
        ensures ok { OnOk result (self.new ≡ intents_from self.old (gone_edits gone ++ puts_of puts.items)) }
        ensures err { OnErr result (self.new ≡ self.old) }
    {
        match gone {
            None => self.put_all(alloc, puts),
            Some(Gone::File(file)) => self.drop_file(alloc, file, puts),
            Some(Gone::Pages(file, first)) => self.cut_pages(alloc, file, first, puts),
        }
    }

    fn put_all(&mut self, alloc: Global, puts: Vec<(Key, Cell)>) -> Result<(), OutOfMemory>
        ensures ok { OnOk result (self.new ≡ intents_from self.old (puts_of puts.items)) }
        ensures err { OnErr result (self.new ≡ self.old) }
    {
        self.puts.put_all(alloc, puts)
    }

    // What goes is noted first, so that only the puts are left to find no memory.
    fn drop_file(
        &mut self,
        alloc: Global,
        file: FileId,
        puts: Vec<(Key, Cell)>,
    ) -> Result<(), OutOfMemory>
        requires beside { AreBeside (Some (gone_variant.File file)) puts.items }
        ensures ok { OnOk result (self.new ≡ intents_from (intend (Dropped file) self.old) (puts_of puts.items)) }
        ensures err { OnErr result (self.new ≡ self.old) }
    {
        let before = self.drops.contains(&file);
        self.drops.add(file)?;
        if self.puts.put_all(alloc, puts).is_err() {
            self.drops.take_back(file, before);
            return Err(OutOfMemory);
        }
        self.cuts.remove(&file);
        self.puts.remove_file(file);
        Ok(())
    }

    fn cut_pages(
        &mut self,
        alloc: Global,
        file: FileId,
        first: u32,
        puts: Vec<(Key, Cell)>,
    ) -> Result<(), OutOfMemory>
        requires beside { AreBeside (Some (gone_variant.Pages file first)) puts.items }
        ensures ok { OnOk result (self.new ≡ intents_from (intend (Cut file first) self.old) (puts_of puts.items)) }
        ensures err { OnErr result (self.new ≡ self.old) }
    {
        let before = self.cuts.first(&file);
        self.cuts.add(file, first)?;
        if self.puts.put_all(alloc, puts).is_err() {
            self.cuts.take_back(file, before);
            return Err(OutOfMemory);
        }
        self.puts.remove_pages(file, first);
        Ok(())
    }

    /// The change that the intents come to. Pages are shared.
    pub fn to_change(&self, alloc: Global) -> Result<Change, OutOfMemory>
        ensures { IfOk result (λ c. c ≡ change_of self.now) }
    {
        Ok(Change {
            drops: FileList::new(self.drops.list(alloc)?),
            cuts: CutList::new(self.cuts.list(alloc)?),
            puts: PutList::new(self.puts.copies(alloc)?),
        })
    }
}

fn one_if(counts: bool) -> u32
    ensures { result ≡ if counts then 1 else 0 }
{
    if counts { 1 } else { 0 }
}

// Whether a page with this number goes where its file is cut so.
fn is_cut(cut: Option<u32>, number: u32) -> bool
    ensures { result ≡ is_cut_said cut number }
{
    match cut {
        Some(first) => first <= number,
        None => false,
    }
}
