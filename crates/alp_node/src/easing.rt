//! What a commit leaves to the other parts: where one of them puts a page in a block that gets its first page, it needs no place for
//! the block any more.
ghost use Rattle.std.specs.Prelude.{◌≡◌, ◌≢◌, ◌-◌, ◌≤◌, IfOk, IsTrue, true, None, Some};
ghost use Rattle.std.specs.FinMap as map;
ghost use Rattle.alp_trans.specs.Counting.{is_first as is_first_said};
ghost use Rattle.alp_vault.specs.Volumes.{fits_key, fit_keys};
ghost use Rattle.alp_calls.specs.Parts.{IsPart};
ghost use Rattle.alp_node.specs.Eases.{new_from, new_blocks as new_blocks_said, puts_in as puts_in_said, shared_in, eased_if, eased};
ghost use Rattle.alp_node.specs.Totals.{totals_of, AreFewTotals};
ghost use Rattle.alp_node.specs.declared.lives.Live.{Live as ALive};

use crate::blocks::Blocks;
use crate::server_state::ServerState;
use alp_base::{BLOCK_PAGES, Cell, Key, OutOfMemory, TransId};
use alp_files::CellMap;
use alp_vault::Vault;
use std::alloc::Global;

// Whether the put is that of a page whose block has none.
fn is_first<V: Vault>(vault: &V, put: &(Key, Cell)) -> bool
    requires serving { IsTrue (V.serves vault.now) }
    requires fits { fits_key put.now.0 put.now.1 ≡ true }
    ensures { IsTrue (V.tells vault.now) → result ≡ is_first_said (V.held vault.now).cells put.now.0 }
{
    match &put.0 {
        Key::PageOf(file, number) => !vault.has_block(*file, *number / BLOCK_PAGES),
        _ => false,
    }
}

// The blocks of the pages that are put which have none yet.
fn blocks_of<V: Vault>(
    alloc: Global,
    vault: &V,
    puts: &[(Key, Cell)],
) -> Result<Blocks, OutOfMemory>
    requires serving { IsTrue (V.serves vault.now) }
    requires fit { fit_keys puts.now ≡ true }
    ensures { IsTrue (V.tells vault.now) → IfOk result (λ b. b ≡ new_from (V.held vault.now).cells map.empty puts.now) }
{
    let mut blocks = Blocks::new(alloc);
    for put in puts {
        if let (Key::PageOf(file, number), true) = (&put.0, is_first(vault, put)) {
            blocks.add(*file, *number)?;
        }
    }
    Ok(blocks)
}

// Whether a page is put in the block of this one.
fn puts_in(puts: &CellMap, block: &Key) -> bool
    ensures { result ≡ puts_in_said puts.now block.now }
{
    match block {
        Key::PageOf(file, number) => {
            let first = *number - *number % BLOCK_PAGES;
            puts.has_page_in(*file, first, first + (BLOCK_PAGES - 1))
        }
        _ => false,
    }
}

// So many places without one for each of the blocks in which a page is put.
fn places_left(places: u32, puts: &CellMap, blocks: &[Key]) -> u32
    ensures { result ≡ places - shared_in puts.now blocks.now }
{
    let mut left = places;
    for block in blocks {
        if puts_in(puts, block) {
            left = left.saturating_sub(1);
        }
    }
    left
}

impl<V: Vault> ServerState<V> {
    /// The blocks that get their first page where the live transaction is committed.
    pub fn blocks_of(&self, trans: TransId) -> Result<Vec<Key>, OutOfMemory>
        requires live { map.get self.now.lives trans ≢ None }
        requires serving { IsTrue (V.serves self.now.vault) }
        requires part { (l : ALive) → map.get self.now.lives trans ≡ Some l → IsPart l.part }
        ensures { IsTrue (V.tells self.now.vault) → (l : ALive) → map.get self.now.lives trans ≡ Some l → IfOk result (λ v. v.items ≡ new_blocks_said (V.held self.now.vault).cells l.part.intents.puts) }
    {
        let Some(live) = self.lives.get(&trans) else {
            unreachable!()
        };
        let puts = live.part.intents.puts().copies(self.alloc)?;
        let blocks = blocks_of(self.alloc, &self.vault, puts.as_slice())?;
        blocks.list(self.alloc)
    }

    // The transaction needs no place for these blocks any more, if it is live.
    fn ease(&mut self, trans: TransId, blocks: &[Key])
        requires few { AreFewTotals (totals_of self.old.lives) }
        requires part { (l : ALive) → map.get self.old.lives trans ≡ Some l → IsPart l.part }
        ensures { self.new ≡ record self.old { lives = eased_if blocks.now self.old.lives trans (map.get self.old.lives trans) } }
    {
        let Some(found) = self.lives.get(&trans) else {
            return;
        };
        let blank = found.blank(self.alloc);
        let mut live = self.lives.swap(trans, blank);
        let places = live.part.counts.places;
        live.part.counts.places = places_left(places, live.part.intents.puts(), blocks);
        let _ = self.lives.swap(trans, live);
    }

    /// Nor do these transactions, as far as they are live. Takes no memory.
    pub fn ease_all(&mut self, others: &[TransId], blocks: &[Key])
        requires most { map.len self.old.lives ≤ 64 }
        requires part { (t : TransId) (l : ALive) → map.get self.old.lives t ≡ Some l → IsPart l.part }
        ensures { self.new ≡ record self.old { lives = eased blocks.now self.old.lives others.now } }
    {
        for trans in others {
            self.ease(*trans, blocks);
        }
    }
}
