//! Lists of nodes, doubly linked by index.
ghost use Rattle.std.specs.Prelude.{◌≡◌, ◌≢◌, ℕ, ◌+◌, ◌<◌, ◌≤◌, None, is_some, IsSome};
ghost use Rattle.std.specs.FinMap as map;
ghost use Rattle.slab.specs.Slab.{ContainsKey};
ghost use Rattle.alp_chain.specs.Linked.{times, with_next, with_before, pushed, bridged, Shows};
ghost use Rattle.alp_chain.specs.Lists.{list_at, with_last, taken_off, next_in};
ghost use Rattle.alp_chain.specs.Nodes.{sides, lists_in, IsBounded, AreListed, KeepsRest, IsThere};

use crate::heads::Heads;
use crate::links::{Ends, Links, ends_left};
use crate::node::{Node, Way};
use slab::Slab;

// Gives a node these neighbours on one of its lists.
fn set_links(nodes: &mut Slab<Node>, way: Way, node: usize, links: Links)
    requires { ContainsKey nodes.old node }
    ensures changed { sides way nodes.new node ≡ links }
    ensures others { (n : ℕ) → n ≢ node → sides way nodes.new n ≡ sides way nodes.old n }
    ensures rest { KeepsRest way nodes.old nodes.new }
{
    nodes[node] = nodes[node].with_links(way, links);
}

// Makes another node the next of that one, if there is one.
fn set_next(nodes: &mut Slab<Node>, way: Way, node: Option<usize>, next: Option<usize>)
    requires { IsThere nodes.old node }
    ensures links { (n : ℕ) → sides way nodes.new n ≡ with_next (sides way nodes.old) node next n }
    ensures rest { KeepsRest way nodes.old nodes.new }
{
    if let Some(node) = node {
        let before = nodes[node].links(way).before;
        set_links(nodes, way, node, Links { before, next });
    }
}

// Makes another node the one before that one, if there is one.
fn set_before(nodes: &mut Slab<Node>, way: Way, node: Option<usize>, before: Option<usize>)
    requires { IsThere nodes.old node }
    ensures links { (n : ℕ) → sides way nodes.new n ≡ with_before (sides way nodes.old) node before n }
    ensures rest { KeepsRest way nodes.old nodes.new }
{
    if let Some(node) = node {
        let next = nodes[node].links(way).next;
        set_links(nodes, way, node, Links { before, next });
    }
}

// Puts a node after the last one of a list.
fn link(nodes: &mut Slab<Node>, way: Way, last: Option<usize>, node: usize)
    requires last { IsThere nodes.old last }
    requires node { ContainsKey nodes.old node }
    ensures links { (n : ℕ) → sides way nodes.new n ≡ pushed (sides way nodes.old) last node n }
    ensures rest { KeepsRest way nodes.old nodes.new }
{
    set_next(nodes, way, last, Some(node));
    let links = Links {
        before: last,
        next: None,
    };
    set_links(nodes, way, node, links);
}

// Makes the neighbours of a node neighbours of one another.
fn bridge(nodes: &mut Slab<Node>, way: Way, over: Links)
    requires before { IsThere nodes.old over.before }
    requires next { IsThere nodes.old over.next }
    ensures links { (n : ℕ) → sides way nodes.new n ≡ bridged (sides way nodes.old) over n }
    ensures rest { KeepsRest way nodes.old nodes.new }
{
    set_next(nodes, way, over.before, over.next);
    set_before(nodes, way, over.next, over.before);
}

/// Puts a node that stands on no list of this way at the end of one.
pub fn push(nodes: &mut Slab<Node>, heads: &mut Heads, way: Way, list: u32, node: usize)
    requires bounded { IsBounded nodes.old }
    requires listed { AreListed way nodes.old heads.old.ends }
    requires there { ContainsKey nodes.old node }
    requires fresh { (k : ℕ) → times node (list_at (lists_in way nodes.old heads.old.ends) k) ≡ 0 }
    requires room { 0 < heads.old.spare }
    ensures lists { lists_in way nodes.new heads.new.ends ≡ with_last (lists_in way nodes.old heads.old.ends) list node }
    ensures listed { AreListed way nodes.new heads.new.ends }
    ensures rest { KeepsRest way nodes.old nodes.new }
    ensures spare { heads.old.spare ≤ heads.new.spare + 1 }
{
    match heads.get(list) {
        Some(ends) => {
            link(nodes, way, Some(ends.last), node);
            let ends = Ends {
                first: ends.first,
                last: node,
            };
            heads.put(list, ends);
        }
        None => {
            link(nodes, way, None, node);
            let ends = Ends {
                first: node,
                last: node,
            };
            heads.put(list, ends);
        }
    }
}

/// Takes a node off its list.
pub fn take_off(nodes: &mut Slab<Node>, heads: &mut Heads, way: Way, list: u32, node: usize)
    requires listed { AreListed way nodes.old heads.old.ends }
    requires there { 1 ≤ times node (list_at (lists_in way nodes.old heads.old.ends) list) }
    ensures lists { lists_in way nodes.new heads.new.ends ≡ taken_off (lists_in way nodes.old heads.old.ends) list node }
    ensures listed { AreListed way nodes.new heads.new.ends }
    ensures rest { KeepsRest way nodes.old nodes.new }
    ensures spare { heads.old.spare ≤ heads.new.spare }
{
    let over = nodes[node].links(way);
    bridge(nodes, way, over);
    let Some(ends) = heads.get(list) else {
        unreachable!();
    };
    match ends_left(over, ends) {
        Some(left) => heads.put(list, left),
        None => heads.remove(list),
    }
}
