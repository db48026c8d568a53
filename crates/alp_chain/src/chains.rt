//! The nodes and their lists.
ghost use Rattle.std.specs.Prelude.{◌≡◌, ◌==◌, ℕ, [], if◌then◌else◌, ◌+◌, ◌<◌, ◌≤◌, max, length, not, cond, true, false, None, IsOk, IsSome, IfOk, OnOk, OnErr, slice_get};
ghost use Rattle.std.specs.List.{filter};
ghost use Rattle.std.specs.FinMap as map;
ghost use Rattle.alp_chain.specs.Heads.{first_in};
ghost use Rattle.alp_chain.specs.Lists.{list_at};
ghost use Rattle.alp_chain.specs.Chains.{StandOnce, KeepsPlace, is_on, is_of, is_whole, next_on as next_on_said, next_of as next_of_said, added, removed, with_mode};
ghost use Rattle.alp_chain.specs.Spans.{AreLocks};

use crate::heads::Heads;
use crate::links::Links;
use crate::lists::{push, take_off};
use crate::node::{Node, NodeView, Way};
use crate::steps::Steps;
use alp_base::OutOfMemory;
use alp_modes::Mode;
use slab::Slab;
use std::alloc::Global;
use std::marker::Model;
use std::sync::ledger::Ledger;

const ALONE: Links = Links {
    before: None,
    next: None,
};

/// Locks as nodes: each stands on the list of its resource and on that of its transaction. Contracts see what stands at each
/// node, the two maps of lists, and `spare`: so many more nodes are sure to have room.
#[derive(Drop)]
pub struct Chains {
    nodes: Slab<Node>,
    on: Heads,
    of: Heads,
    spare: u32,
}

impl Model for Chains {
    ghost use Rattle.alp_chain.specs.Chains.{Chains as TheChains, chains_code, chains_of, AreChained};

    ghost Value = { TheChains };

    ghost coded = { chains_code };

    ghost view = { λ c. chains_of c.nodes c.on c.of c.spare };

    ghost invariant = { λ c. AreChained c.nodes c.on c.of c.spare };
}

impl Chains {
    /// Chains without nodes. They take no memory before room is made.
    pub fn new(alloc: Global) -> Chains
        ensures empty { result ≡ record { nodes = map.empty; on = map.empty; of = map.empty; spare = 0 } }
        ensures locks { AreLocks result.nodes }
    {
        Chains {
            nodes: Slab::new(alloc),
            on: Heads::new(alloc),
            of: Heads::new(alloc),
            spare: 0,
        }
    }

    /// Makes room for so many more nodes than there are now, unless that is there.
    pub fn reserve(&mut self, more: u32) -> Result<(), OutOfMemory>
        ensures ok { OnOk result (self.new ≡ record self.old { spare = max self.old.spare more }) }
        ensures err { OnErr result (self.new ≡ self.old) }
        ensures succeeds { more ≤ self.old.spare → IsOk result }
    {
        if more <= self.spare {
            return Ok(());
        }
        self.nodes.reserve(more as usize)?;
        self.on.reserve(more as usize)?;
        self.of.reserve(more as usize)?;
        self.spare = more;
        Ok(())
    }

    // How many more nodes are sure to have room.
    pub(crate) fn spare(&self) -> u32
        ensures { result ≡ self.now.spare }
    {
        self.spare
    }

    /// Adds a node without a span at the end of both its lists, and answers it. It takes no memory where there is room to
    /// spare. The resource may have neither a span nor a node of that transaction.
    pub fn add(&mut self, resource: u32, trans: u32, mode: Mode) -> Result<usize, OutOfMemory>
        requires whole { (n : ℕ) → is_on resource (map.get self.old.nodes n) ≡ true → is_whole (map.get self.old.nodes n) ≡ true }
        requires first { (n : ℕ) → is_on resource (map.get self.old.nodes n) ≡ true → is_of trans (map.get self.old.nodes n) ≡ false }
        ensures new { IfOk result (λ node. map.get self.old.nodes node ≡ None) }
        ensures ok { IfOk result (λ node. self.new ≡ added self.old node (record { resource = resource; trans = trans; mode = mode; span = None })) }
        ensures err { OnErr result (self.new ≡ self.old) }
        ensures succeeds { 0 < self.old.spare → IsOk result }
        ensures once { OnOk result (StandOnce self.new) }
        ensures locks { OnOk result (AreLocks self.old.nodes → AreLocks self.new.nodes) }
    {
        self.reserve(1)?;
        let view = NodeView {
            resource,
            trans,
            mode,
            span: None,
        };
        Ok(self.add_reserved(view))
    }

    // Adds a node with or without a span, where there is room to spare.
    pub(crate) fn add_reserved(&mut self, view: NodeView) -> usize
        requires { 0 < self.old.spare }
        ensures new { map.get self.old.nodes result ≡ None }
        ensures added { self.new ≡ added self.old result view }
        ensures once { StandOnce self.new }
    {
        let node = self.nodes.insert_reserved(Node {
            view,
            on: ALONE,
            of: ALONE,
        });
        push(
            &mut self.nodes,
            &mut self.on,
            Way::Resource,
            view.resource,
            node,
        );
        push(&mut self.nodes, &mut self.of, Way::Trans, view.trans, node);
        self.spare -= 1;
        node
    }

    /// The first node of a resource.
    pub fn first_on(&self, resource: u32) -> Option<usize>
        ensures first { result ≡ slice_get (list_at self.now.on resource) 0 }
        ensures once { StandOnce self.now }
    {
        find_first(&self.on, resource)
    }

    /// The next node of the same resource.
    pub fn next_on(&self, node: usize) -> Option<usize>
        requires { IsSome (map.get self.now.nodes node) }
        ensures { result ≡ next_on_said self.now node }
    {
        self.nodes[node].on.next
    }

    /// The first node of a transaction.
    pub fn first_of(&self, trans: u32) -> Option<usize>
        ensures first { result ≡ slice_get (list_at self.now.of trans) 0 }
        ensures once { StandOnce self.now }
    {
        find_first(&self.of, trans)
    }

    /// The next node of the same transaction.
    pub fn next_of(&self, node: usize) -> Option<usize>
        requires { IsSome (map.get self.now.nodes node) }
        ensures { result ≡ next_of_said self.now node }
    {
        self.nodes[node].of.next
    }

    /// What stands at a node, if there is one.
    pub fn at(&self, node: usize) -> Option<NodeView>
        ensures { result ≡ map.get self.now.nodes node }
    {
        match self.nodes.get(node) {
            Some(there) => Some(there.view),
            None => None,
        }
    }

    /// Changes the mode of a node that has no span.
    pub fn set_mode(&mut self, node: usize, mode: Mode)
        requires { is_whole (map.get self.old.nodes node) ≡ true }
        ensures after { self.new ≡ with_mode self.old node mode }
        ensures once { StandOnce self.new }
        ensures locks { AreLocks self.old.nodes → AreLocks self.new.nodes }
    {
        let view = self.nodes[node].view;
        self.set_view(node, NodeView { mode, ..view });
    }

    // Changes what stands at a node, which stays on its lists.
    pub(crate) fn set_view(&mut self, node: usize, view: NodeView)
        requires { KeepsPlace self.old node view }
        ensures after { self.new ≡ record self.old { nodes = map.insert self.old.nodes node view } }
        ensures once { StandOnce self.new }
    {
        self.nodes[node].view = view;
    }

    /// Takes a node off its two lists.
    pub fn remove(&mut self, node: usize)
        requires { IsSome (map.get self.old.nodes node) }
        ensures after { self.new ≡ removed self.old node }
        ensures once { StandOnce self.new }
        ensures locks { AreLocks self.old.nodes → AreLocks self.new.nodes }
    {
        let view = self.nodes[node].view;
        take_off(
            &mut self.nodes,
            &mut self.on,
            Way::Resource,
            view.resource,
            node,
        );
        take_off(&mut self.nodes, &mut self.of, Way::Trans, view.trans, node);
        self.nodes.remove(node);
    }

    /// Takes all nodes of a transaction off their lists, with a step for each. All others stay, in their order.
    pub fn remove_trans<L: Ledger>(&mut self, trans: u32, steps: &mut Steps<L>)
        ensures nodes { (n : ℕ) → map.get self.new.nodes n ≡ cond (is_of trans (map.get self.old.nodes n)) None (map.get self.old.nodes n) }
        ensures on { (r : ℕ) → list_at self.new.on r ≡ filter (λ n. not (is_of trans (map.get self.old.nodes n))) (list_at self.old.on r) }
        ensures of { (t : ℕ) → list_at self.new.of t ≡ (if t == trans then [] else list_at self.old.of t) }
        ensures spare { self.new.spare ≡ self.old.spare }
        ensures once { StandOnce self.new }
        ensures locks { AreLocks self.old.nodes → AreLocks self.new.nodes }
        ensures cost { steps.new ≡ steps.old + length (list_at self.old.of trans) }
    {
        while let Some(node) = self.first_of(trans) {
            self.remove(node);
            steps.tick();
        }
    }
}

// Finds the first node of a list.
fn find_first(heads: &Heads, list: u32) -> Option<usize>
    ensures { result ≡ first_in heads.now.ends list }
{
    match heads.get(list) {
        Some(ends) => Some(ends.first),
        None => None,
    }
}
