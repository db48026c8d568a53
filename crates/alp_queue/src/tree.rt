//! A balanced search tree of which many versions share their parts.
ghost use Rattle.std.specs.Prelude.{◌≡◌, ◌++◌, ◌∷◌, ◌≤◌, not, IfOk, OnOk, length, position, map as list_map};
ghost use Rattle.std.specs.Ordering.{is_lt};
ghost use Rattle.std.specs.FinMap.{find};
ghost use Rattle.alp_base.specs.Orders.{resource_cmp};
ghost use Rattle.alp_queue.specs.Rises.{wanted_of, unheld};
ghost use Rattle.alp_queue.specs.Trees.{entries, entries_of, AreRising, puts, lesser_in, first_tied};

use crate::Wanted;
use alp_base::{Key, OutOfMemory, Resource};
use alp_modes::Mode;
use std::alloc::Global;
use std::cmp::Ordering;
use std::sync::Arc;

/// Modes on resources, less ones to the left. A tree is never changed: where one more is put, the
/// new tree shares all with the old one but the nodes on the way.
#[derive(Drop)]
#[cycle(tree)]
pub enum Tree {
    Empty,
    Fork(Arc<Node>),
}

#[derive(Drop)]
#[cycle(tree)]
pub struct Node {
    left: Tree,
    entry: (Resource, Mode),
    right: Tree,
    height: u8,
}

fn height(tree: &Tree) -> u8 {
    match tree {
        Tree::Empty => 0,
        Tree::Fork(node) => node.height,
    }
}

/// The same tree once more, which costs no copy.
pub fn share(tree: &Tree) -> Result<Tree, OutOfMemory>
    ensures { IfOk result (λ t. entries t ≡ entries tree.now) }
{
    match tree {
        Tree::Empty => Ok(Tree::Empty),
        Tree::Fork(node) => Ok(Tree::Fork(Arc::try_clone(node)?)),
    }
}

fn fork(
    alloc: Global,
    left: Tree,
    entry: (Resource, Mode),
    right: Tree,
) -> Result<Tree, OutOfMemory>
    ensures { IfOk result (λ t. entries t ≡ entries left ++ entry ∷ entries right) }
{
    let height = height(&left).max(height(&right)).saturating_add(1);
    let node = Node {
        left,
        entry,
        right,
        height,
    };
    Ok(Tree::Fork(Arc::new(alloc, node)?))
}

// A left part and an entry before a node that is higher by two.
fn turned_left(
    alloc: Global,
    left: &Tree,
    entry: (Resource, Mode),
    top: &Node,
) -> Result<Tree, OutOfMemory>
    ensures { IfOk result (λ t. entries t ≡ entries left.now ++ entry ∷ entries_of top.now) }
{
    if height(&top.right) < height(&top.left) {
        if let Tree::Fork(node) = &top.left {
            let middle: &Node = node;
            let low = fork(alloc, share(left)?, entry, share(&middle.left)?)?;
            let rest = fork(alloc, share(&middle.right)?, top.entry, share(&top.right)?)?;
            return fork(alloc, low, middle.entry, rest);
        }
    }
    let low = fork(alloc, share(left)?, entry, share(&top.left)?)?;
    fork(alloc, low, top.entry, share(&top.right)?)
}

// The same on the other side.
fn turned_right(
    alloc: Global,
    top: &Node,
    entry: (Resource, Mode),
    right: &Tree,
) -> Result<Tree, OutOfMemory>
    ensures { IfOk result (λ t. entries t ≡ entries_of top.now ++ entry ∷ entries right.now) }
{
    if height(&top.left) < height(&top.right) {
        if let Tree::Fork(node) = &top.right {
            let middle: &Node = node;
            let rest = fork(alloc, share(&top.left)?, top.entry, share(&middle.left)?)?;
            let low = fork(alloc, share(&middle.right)?, entry, share(right)?)?;
            return fork(alloc, rest, middle.entry, low);
        }
    }
    let low = fork(alloc, share(&top.right)?, entry, share(right)?)?;
    fork(alloc, share(&top.left)?, top.entry, low)
}

// Parts whose heights differ by two at most.
fn balanced(
    alloc: Global,
    left: &Tree,
    entry: (Resource, Mode),
    right: &Tree,
) -> Result<Tree, OutOfMemory>
    ensures { IfOk result (λ t. entries t ≡ entries left.now ++ entry ∷ entries right.now) }
{
    if let Tree::Fork(node) = left {
        if height(right).saturating_add(1) < node.height {
            return turned_right(alloc, node, entry, right);
        }
    }
    if let Tree::Fork(node) = right {
        if height(left).saturating_add(1) < node.height {
            return turned_left(alloc, left, entry, node);
        }
    }
    fork(alloc, share(left)?, entry, share(right)?)
}

// Parts of any heights.
fn joined(
    alloc: Global,
    left: &Tree,
    entry: (Resource, Mode),
    right: &Tree,
) -> Result<Tree, OutOfMemory>
    ensures { IfOk result (λ t. entries t ≡ entries left.now ++ entry ∷ entries right.now) }
{
    if let Tree::Fork(node) = left {
        let top: &Node = node;
        if height(right).saturating_add(1) < top.height {
            let rest = joined(alloc, &top.right, entry, right)?;
            return balanced(alloc, &top.left, top.entry, &rest);
        }
    }
    if let Tree::Fork(node) = right {
        let top: &Node = node;
        if height(left).saturating_add(1) < top.height {
            let rest = joined(alloc, left, entry, &top.left)?;
            return balanced(alloc, &rest, top.entry, &top.right);
        }
    }
    fork(alloc, share(left)?, entry, share(right)?)
}

/// The mode on that resource, if any.
pub fn get(tree: &Tree, key: &Resource) -> Option<Mode>
    ensures { AreRising (entries tree.now) → result ≡ find resource_cmp key.now (entries tree.now) }
{
    let Tree::Fork(node) = tree else {
        return None;
    };
    let top: &Node = node;
    match key.cmp(&top.entry.0) {
        Ordering::Less => get(&top.left, key),
        Ordering::Equal => Some(top.entry.1),
        Ordering::Greater => get(&top.right, key),
    }
}

// A tree of just these.
fn grown(alloc: Global, modes: &[(Resource, Mode)]) -> Result<Tree, OutOfMemory>
    ensures { IfOk result (λ t. entries t ≡ modes.now) }
{
    if modes.is_empty() {
        return Ok(Tree::Empty);
    }
    let middle = modes.len() / 2;
    let left = grown(alloc, &modes[..middle])?;
    let right = grown(alloc, &modes[middle + 1..])?;
    fork(alloc, left, modes[middle], right)
}

// The first that does not come before that one.
fn first_from(modes: &[(Resource, Mode)], key: &Resource) -> Option<usize>
    ensures { result ≡ position (λ e. not (is_lt (resource_cmp e.0 key.now))) modes.now }
{
    modes.iter().position(|mode| !mode.0.cmp(key).is_lt())
}

// How many of the resources come before that one.
fn count_before(modes: &[(Resource, Mode)], key: &Resource) -> usize
    ensures count { result ≡ lesser_in key.now modes.now }
    ensures within { result ≤ length modes.now }
{
    first_from(modes, key).unwrap_or(modes.len())
}

// The mode of the first, where it is of that resource.
fn first_at(modes: &[(Resource, Mode)], key: &Resource) -> Option<Mode>
    ensures { result ≡ first_tied key.now modes.now }
{
    let (resource, mode) = modes.first()?;
    if !resource.cmp(key).is_eq() {
        return None;
    }
    Some(*mode)
}

// None of these stands there.
fn look_at_none(asked: &[(Resource, Mode)], found: &mut Vec<Wanted>) -> Result<(), OutOfMemory>
    ensures { OnOk result (found.new.items ≡ found.old.items ++ list_map unheld asked.now) }
{
    for (resource, mode) in asked {
        found.push(Wanted {
            resource: *resource,
            asked: *mode,
            held: None,
        })?;
    }
    Ok(())
}

/// All modes, by their resources, behind what was listed before.
pub fn list(tree: &Tree, out: &mut Vec<(Resource, Mode)>) -> Result<(), OutOfMemory>
    ensures { OnOk result (out.new.items ≡ out.old.items ++ entries tree.now) }
{
    // The check of a move of a resource wants the type of keys in sight.
    let _keys: Option<Key> = None;
    let node = match tree {
        Tree::Empty => return Ok(()),
        Tree::Fork(node) => node,
    };
    let top: &Node = node;
    list(&top.left, out)?;
    out.push(top.entry)?;
    list(&top.right, out)
}

/// Looks these up, whose resources rise, and puts them behind what was found before. One walk for all: it goes down a part
/// of the tree only where one that is asked may stand.
pub fn look_up(
    tree: &Tree,
    asked: &[(Resource, Mode)],
    found: &mut Vec<Wanted>,
) -> Result<(), OutOfMemory>
    ensures { AreRising (entries tree.now) → AreRising asked.now → OnOk result (found.new.items ≡ found.old.items ++ list_map (wanted_of (λ r. find resource_cmp r (entries tree.now))) asked.now) }
{
    if asked.is_empty() {
        return Ok(());
    }
    let node = match tree {
        Tree::Empty => return look_at_none(asked, found),
        Tree::Fork(node) => node,
    };
    let top: &Node = node;
    let (resource, held) = top.entry;
    let before = count_before(asked, &resource);
    look_up(&top.left, &asked[..before], found)?;
    let Some(mode) = first_at(&asked[before..], &resource) else {
        return look_up(&top.right, &asked[before..], found);
    };
    found.push(Wanted {
        resource,
        asked: mode,
        held: Some(held),
    })?;
    look_up(&top.right, &asked[before + 1..], found)
}

/// The tree with these put in, in the order of their resources.
pub fn put_all(alloc: Global, tree: &Tree, modes: &[(Resource, Mode)]) -> Result<Tree, OutOfMemory>
    ensures { IfOk result (λ t. AreRising (entries tree.now) → AreRising modes.now → entries t ≡ puts modes.now (entries tree.now)) }
{
    if modes.is_empty() {
        return share(tree);
    }
    let node = match tree {
        Tree::Empty => return grown(alloc, modes),
        Tree::Fork(node) => node,
    };
    let top: &Node = node;
    let before = count_before(modes, &top.entry.0);
    let left = put_all(alloc, &top.left, &modes[..before])?;
    if let Some(mode) = first_at(&modes[before..], &top.entry.0) {
        let right = put_all(alloc, &top.right, &modes[before + 1..])?;
        return joined(alloc, &left, (top.entry.0, mode), &right);
    }
    let right = put_all(alloc, &top.right, &modes[before..])?;
    joined(alloc, &left, top.entry, &right)
}
