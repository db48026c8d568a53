//! Tests of alp_calls: parts that an earlier run left ready.
ghost use Rattle.std.specs.Prelude.{◌≡◌, IfOk, IsTrue, true};
ghost use Rattle.alp_calls.specs.Regained.{IsNoted};
ghost use Rattle.alp_vault.specs.Stages.{is_serving};

use alp_base::{
    Cell, Change, CutList, FileId, FileList, Key, OutOfMemory, Page, PageRef, PutList, Sizes,
};
use alp_calls::regained_part;
use alp_trans::Part;
use alp_vault::{MemVault, Vault};
use std::alloc::Global;
use std::test::*;

fn file(counter: u32) -> FileId {
    FileId {
        server: 1,
        epoch: 1,
        counter,
    }
}

fn new_vault(alloc: Global) -> MemVault
    ensures { is_serving result.stage ≡ true }
{
    let sizes = Sizes {
        home: 512,
        area: 64,
    };
    MemVault::new(alloc, sizes, 1, 1)
}

/// Two files go, one loses its pages, and a page of another is put.
fn change_of(alloc: Global) -> Result<Change, OutOfMemory>
    ensures { IfOk result (λ change. IsNoted change) }
{
    let page = PageRef::new(alloc, Page::zero())?;
    Ok(Change {
        drops: FileList::new(vec![in alloc; file(1), file(2)]?),
        cuts: CutList::new(vec![in alloc; (file(3), 5)]?),
        puts: PutList::new(vec![in alloc; (Key::PageOf(file(4), 7), Cell::Page(page))]?),
    })
}

fn has_counts(part: &Part) -> bool {
    let counts = part.counts;
    counts.cells == 4 && counts.places == 2 && counts.files == 0 && counts.owners == 0
}

fn has_intents(part: &Part) -> bool {
    part.intents.is_gone(&Key::Leader(file(2)))
        && part.intents.is_gone(&Key::PageOf(file(3), 5))
        && !part.intents.is_gone(&Key::PageOf(file(3), 4))
        && part.intents.put_at(&Key::PageOf(file(4), 7)).is_some()
}

// Whether the part of the change has its intents and their counts, and opens nothing.
fn is_regained<V: Vault>(alloc: Global, vault: &mut V, change: &Change) -> bool
    requires serving { IsTrue (V.serves vault.old) }
    requires noted { IsNoted change.now }
{
    match regained_part(alloc, vault, change) {
        Ok(part) => {
            has_counts(&part) && has_intents(&part) && part.opens.is_empty() && part.last == 0
        }
        Err(_fault) => false,
    }
}

#[test]
fn a_ready_part_is_regained(rt: HostRuntime) -> Result<(), Fail> {
    let alloc = rt.alloc();
    let change = change_of(alloc)?;
    let mut vault = new_vault(alloc);
    assert!(rt; is_regained(alloc, &mut vault, &change));
    Ok(())
}
