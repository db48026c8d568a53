//! Sets of blocks of files.
ghost use Rattle.std.specs.Prelude.{◌≡◌, IfOk, OnOk};
ghost use Rattle.std.specs.BTreeSet.{IsOrdered};
ghost use Rattle.std.specs.FinMap as map;
ghost use Rattle.alp_base.specs.Keys.{key_cmp};
ghost use Rattle.alp_base.specs.declared.key.Key.TheVariants.{PageOf};
ghost use Rattle.alp_files.specs.Counts.{with_block};

use alp_base::{BLOCK_PAGES, FileId, Key, OutOfMemory};
use std::alloc::Global;
use std::collections::BTreeSet;
use std::marker::Model;

/// Blocks of files, each named by the first page number in it; seen as a finite set.
#[derive(Drop)]
pub struct Blocks {
    keys: BTreeSet<Key>,
}

impl Model for Blocks {
    ghost use Rattle.std.specs.FinSet as set;
    ghost use Rattle.alp_files.specs.Counts.{Blocks as TheBlocks};
    ghost use Rattle.alp_node.specs.BlockSets.{set_of};
    ghost use Rattle.alp_base.specs.contracts.key.Key as key_type;

    ghost Value = { TheBlocks };

    ghost coded = { set.code key_type.the_row.coded };

    ghost view = { λ b. set_of b.keys.keys };
}

impl Blocks {
    pub fn new(alloc: Global) -> Blocks
        ensures { result ≡ map.empty }
    {
        Blocks {
            keys: BTreeSet::new(alloc),
        }
    }

    /// The block of a page too.
    pub fn add(&mut self, file: FileId, number: u32) -> Result<(), OutOfMemory>
        ensures { OnOk result (self.new ≡ with_block (PageOf file number) self.old) }
    {
        let first = number - number % BLOCK_PAGES;
        self.keys.insert(Key::PageOf(file, first))?;
        Ok(())
    }

    /// The blocks, in the order of their keys.
    pub fn list(&self, alloc: Global) -> Result<Vec<Key>, OutOfMemory>
        ensures { IfOk result (λ v. v.items ≡ map.keys self.now) }
    {
        let keys = keys_in(alloc, &self.keys)?;
        Ok(keys)
    }
}

fn keys_in(alloc: Global, keys: &BTreeSet<Key>) -> Result<Vec<Key>, OutOfMemory>
    ensures keys { IfOk result (λ v. v.items ≡ keys.now.keys) }
    ensures rising { IsOrdered key_cmp keys.now }
{
    let mut list = Vec::new(alloc);
    for key in keys.iter() {
        list.push(*key)?;
    }
    Ok(list)
}
