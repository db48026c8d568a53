//! Tests of alp_ready: what the note of a ready part says of two owners, the name of the first longer than that of the second.
ghost use Rattle.std.specs.Prelude.{◌≡◌, IfOk, IfSome, IsTrue, true};
ghost use Rattle.alp_calls.specs.Parts.{IsPart};
ghost use Rattle.alp_calls.specs.Regained.{IsNoted};
ghost use Rattle.alp_vault.specs.Stages.{is_serving};
ghost use Rattle.alp_vault.specs.Volumes.{fits_key};

use alp_base::{
    AccessList, Cell, Change, CutList, FileId, FileList, Key, Name, OutOfMemory, OwnerRecord,
    PutList, Resource, Sizes, TransId,
};
use alp_calls::regained_part;
use alp_fields::LockList;
use alp_locks::LockTable;
use alp_modes::Mode;
use alp_queue::Needs;
use alp_ready::{noted_change, noted_locks};
use alp_trans::Part;
use alp_vault::{MemVault, Vault};
use std::alloc::Global;
use std::test::*;

const FILE: FileId = FileId {
    server: 1,
    epoch: 1,
    counter: 1,
};

const TRANS: TransId = TransId {
    server: 2,
    epoch: 1,
    counter: 1,
};

fn long() -> Name {
    Name::spelled(b"aa")
}

fn short() -> Name {
    Name::spelled(b"b")
}

fn new_vault(alloc: Global) -> MemVault
    ensures { is_serving result.stage ≡ true }
{
    let sizes = Sizes {
        home: 512,
        area: 64,
    };
    MemVault::new(alloc, sizes, 1, 1)
}

fn owner_put(alloc: Global, name: Name) -> (Key, Cell)
    ensures { fits_key result.0 result.1 ≡ true }
{
    let record = OwnerRecord {
        name,
        quota: 9,
        charge: 0,
        create: AccessList::new(Vec::new(alloc)),
    };
    (Key::OwnerOf(name), Cell::Owner(record))
}

// The locks of a transaction on both owners and a file, as a table lists them.
fn locked(alloc: Global) -> Result<LockTable, OutOfMemory> {
    let mut table = LockTable::new(alloc);
    let needs = vec![in alloc;
        (Resource::Leaf(Key::OwnerOf(short())), Mode::Read),
        (Resource::Leaf(Key::OwnerOf(long())), Mode::Write),
        (Resource::Whole(FILE), Mode::IntendRead),
    ]?;
    if table.is_granted(TRANS) {
        table.regain(TRANS, Needs::new(needs))?;
    }
    Ok(table)
}

fn noted(table: &LockTable, trans: TransId) -> Result<LockList, OutOfMemory> {
    let listed = table.list_of(trans)?;
    noted_locks(listed)
}

const FILE_LOCK: (Resource, Mode) = (Resource::Whole(FILE), Mode::IntendRead);

fn is_lock_of(lock: &(Resource, Mode), owner: Name, mode: Mode) -> bool {
    lock.0 == Resource::Leaf(Key::OwnerOf(owner)) && lock.1 == mode
}

// Whether these are the locks of the file and of both owners, of which the first has the longer name.
fn are_listed(locks: &[(Resource, Mode)]) -> bool {
    match locks {
        [file, first, second] => {
            *file == FILE_LOCK
                && is_lock_of(first, long(), Mode::Write)
                && is_lock_of(second, short(), Mode::Read)
        }
        _ => false,
    }
}

// Whether they are these with the shorter name first.
fn are_noted(locks: &[(Resource, Mode)]) -> bool {
    match locks {
        [file, second, first] => {
            *file == FILE_LOCK
                && is_lock_of(second, short(), Mode::Read)
                && is_lock_of(first, long(), Mode::Write)
        }
        _ => false,
    }
}

fn lists_locks(table: &LockTable) -> Result<bool, OutOfMemory> {
    let listed = table.list_of(TRANS)?;
    Ok(are_listed(listed.as_slice()))
}

fn notes_locks(table: &LockTable) -> Result<bool, OutOfMemory> {
    let noted = noted(table, TRANS)?;
    Ok(are_noted(noted.as_slice()))
}

#[test]
fn locks_stand_in_the_order_of_their_bytes(rt: HostRuntime) -> Result<(), Fail> {
    let table = locked(rt.alloc())?;
    assert!(rt; lists_locks(&table)?);
    assert!(rt; notes_locks(&table)?);
    Ok(())
}

/// Both owners are put.
fn change_of(alloc: Global) -> Result<Change, OutOfMemory>
    ensures { IfOk result (λ change. IsNoted change) }
{
    let first = owner_put(alloc, long());
    let second = owner_put(alloc, short());
    Ok(Change {
        drops: FileList::new(Vec::new(alloc)),
        cuts: CutList::new(Vec::new(alloc)),
        puts: PutList::new(vec![in alloc; first, second]?),
    })
}

// The part of the change, if it is regained.
fn part_of<V: Vault>(alloc: Global, vault: &mut V, change: &Change) -> Option<Part>
    requires serving { IsTrue (V.serves vault.old) }
    requires noted { IsNoted change.now }
    ensures { IfSome result IsPart }
{
    match regained_part(alloc, vault, change) {
        Ok(part) => Some(part),
        Err(_fault) => None,
    }
}

// Whether the cells of both owners are put, the shorter name first.
fn are_puts(puts: &[(Key, Cell)]) -> bool {
    match puts {
        [second, first] => { second.0 == Key::OwnerOf(short()) && first.0 == Key::OwnerOf(long()) }
        _ => false,
    }
}

// Whether that is all that the note of the part says of cells.
fn notes_both(alloc: Global, part: &Part) -> Result<bool, OutOfMemory>
    requires { IsPart part.now }
{
    let noted = noted_change(alloc, part)?;
    Ok(
        noted.drops.as_slice().is_empty()
            && noted.cuts.as_slice().is_empty()
            && are_puts(noted.puts.as_slice()),
    )
}

fn is_noted(alloc: Global) -> Result<bool, OutOfMemory> {
    let mut vault = new_vault(alloc);
    let change = change_of(alloc)?;
    match part_of(alloc, &mut vault, &change) {
        Some(part) => notes_both(alloc, &part),
        None => Ok(false),
    }
}

#[test]
fn cells_stand_in_the_order_of_their_bytes(rt: HostRuntime) -> Result<(), Fail> {
    assert!(rt; is_noted(rt.alloc())?);
    Ok(())
}
