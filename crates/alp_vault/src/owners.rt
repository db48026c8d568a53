//! Owners' names, kept in rising order.
ghost use Rattle.std.specs.Prelude.{◌≡◌, ◌+◌, ◌<◌, ◌≤◌, length, IfOk, IfErr};
ghost use Rattle.std.specs.List.Sorted.{IsStrictlySortedBy};
ghost use Rattle.alp_base.specs.Notes.{text_cmp};
ghost use Rattle.alp_files.specs.Counts.{name_at};
ghost use Rattle.alp_notes.specs.Rows.{IsAt, IsPlace};
ghost use Rattle.alp_vault.specs.Owners.{with_name, with_owner, with_owners};

use alp_base::{Cell, Key, Name};

// Where the name stands, or where it would.
fn place_of(name: &Name, names: &[Name]) -> Result<usize, usize>
    requires { IsStrictlySortedBy text_cmp names.now }
    ensures found { IfOk result (IsAt name.now names.now) }
    ensures absent { IfErr result (IsPlace name.now names.now) }
{
    names.binary_search(name)
}

fn add_name(names: &mut Vec<Name>, name: Name)
    requires room { length names.old.items < names.old.cap }
    requires rising { IsStrictlySortedBy text_cmp names.old.items }
    ensures added { names.new.items ≡ with_name name names.old.items }
    ensures rising { IsStrictlySortedBy text_cmp names.new.items }
    ensures one { length names.new.items ≤ length names.old.items + 1 }
    ensures room { names.new.cap ≡ names.old.cap }
{
    match place_of(&name, names.as_slice()) {
        Ok(_) => {}
        Err(at) => {
            let _ = names.insert(at, name);
        }
    }
}

fn add_owner(names: &mut Vec<Name>, key: &Key)
    requires room { length names.old.items < names.old.cap }
    requires rising { IsStrictlySortedBy text_cmp names.old.items }
    ensures added { names.new.items ≡ with_owner (name_at key.now) names.old.items }
    ensures rising { IsStrictlySortedBy text_cmp names.new.items }
    ensures one { length names.new.items ≤ length names.old.items + 1 }
    ensures room { names.new.cap ≡ names.old.cap }
{
    if let Key::OwnerOf(name) = key {
        add_name(names, *name);
    }
}

/// Adds the names of the owners that are put, where there is room for all.
pub fn add_owners(names: &mut Vec<Name>, puts: &[(Key, Cell)])
    requires room { length names.old.items + length puts.now ≤ names.old.cap }
    requires rising { IsStrictlySortedBy text_cmp names.old.items }
    ensures added { names.new.items ≡ with_owners puts.now names.old.items }
    ensures few { length names.new.items ≤ length names.old.items + length puts.now }
{
    for put in puts {
        add_owner(names, &put.0);
    }
}
