//! Runs of pages that split and meet.
ghost use Rattle.std.specs.Prelude.{◌≡◌, ℕ, ◌+◌, ◌-◌, ◌<◌, ◌≤◌, ◌^◌, Bool, true, false, List, ◌∷◌, [], Some, None, IsOk, IfOk, IfSome, IfNone, IsSome, OnOk, OnErr};
ghost use Rattle.std.specs.FinMap as map;
ghost use Rattle.alp_chain.specs.Chains.{StandOnce};
ghost use Rattle.alp_chain.specs.Spans.{PageRun, run_in, runs, has_page, node_on, AreRuns, AreSpans, IsCut, IsFree, IsHeld, HasFree, Splits, Raises, Meets, ModesRise, is_among, AreAllSpans, KeepsOthers, AreLocks, LocksSpan};

use crate::{Chains, NodeView, Span};
use alp_base::OutOfMemory;
use alp_modes::{Mode, join};

// Whether the transaction holds that page by that lock.
fn holds(view: &NodeView, resource: u32, trans: u32, page: u64) -> bool
    ensures { result ≡ has_page (run_in resource trans (Some view.now)) page }
{
    if view.resource != resource || view.trans != trans {
        return false;
    }
    match view.span {
        Some(span) => u64::from(span.first) <= page && page < end_of(span),
        None => false,
    }
}

// The page after the last one.
fn end_of(span: Span) -> u64
    ensures { result ≡ span.first + span.count }
{
    u64::from(span.first) + u64::from(span.count)
}

// The run from one page up to another.
fn span_between(first: u64, end: u64) -> Span
    requires order { first ≤ end }
    requires end { end ≤ 2 ^ 32 }
    requires first { first < 2 ^ 32 }
    requires count { end < first + 2 ^ 32 }
    ensures { result ≡ record { first = first; count = end - first } }
{
    Span {
        first: first as u32,
        count: (end - first) as u32,
    }
}

// A node by which a transaction holds a page.
#[derive(Clone, Copy)]
struct Held {
    node: usize,
    view: NodeView,
    span: Span,
}

impl Chains {
    /// Locks a run of pages of one file for a transaction, in a mode besides those that it holds them in. It answers the node by
    /// which the transaction holds the first page then. Runs split where the modes come to differ, and neighbours of one mode
    /// meet. It takes no memory where two more nodes than pages have room. The resource may have no nodes but spans.
    pub fn add_span(
        &mut self,
        resource: u32,
        trans: u32,
        span: Span,
        mode: Mode,
    ) -> Result<usize, OutOfMemory>
        requires count { 1 ≤ span.count }
        requires end { span.first + span.count ≤ 2 ^ 32 }
        requires locks { AreLocks self.old.nodes }
        requires spans { AreAllSpans resource self.old.nodes }
        requires free { HasFree resource trans span self.old }
        ensures locked { OnOk result (LocksSpan resource trans span mode self.old self.new) }
        ensures node { IfOk result (λ node. node_on self.new resource trans span.first ≡ Some node) }
        ensures others { OnOk result (KeepsOthers resource trans self.old self.new) }
        ensures spare { self.old.spare ≤ self.new.spare + (span.count + 2) }
        ensures succeeds { span.count + 2 ≤ self.old.spare → IsOk result }
        ensures err { OnErr result (self.new ≡ self.old) }
        ensures once { OnOk result (StandOnce self.new) }
    {
        // Room is a number of 32 bits. So it is below each sum that is not.
        let _spare = self.spare();
        let Some(room) = span.count.checked_add(2) else {
            return Err(OutOfMemory);
        };
        self.reserve(room)?;
        Ok(self.add_span_reserved(resource, trans, span, mode))
    }

    // Locks a run of pages for a transaction, where there is room to spare.
    fn add_span_reserved(&mut self, resource: u32, trans: u32, span: Span, mode: Mode) -> usize
        requires room { span.count + 2 ≤ self.old.spare }
        requires count { 1 ≤ span.count }
        requires end { span.first + span.count ≤ 2 ^ 32 }
        requires spans { AreRuns [] (runs self.old.nodes resource trans) }
        requires free { HasFree resource trans span self.old }
        ensures modes { ModesRise resource trans span.first (span.first + span.count) mode self.old self.new }
        ensures node { node_on self.new resource trans span.first ≡ Some result }
        ensures runs { AreRuns [] (runs self.new.nodes resource trans) }
        ensures free { (p : ℕ) → is_among span.first (span.first + span.count) p ≡ false
            → IsFree p (runs self.old.nodes resource trans) → IsFree p (runs self.new.nodes resource trans) }
        ensures others { KeepsOthers resource trans self.old self.new }
        ensures spare { self.old.spare ≤ self.new.spare + (span.count + 2) }
        ensures once { StandOnce self.new }
    {
        let first = u64::from(span.first);
        let end = end_of(span);
        self.cut(resource, trans, first);
        self.cut(resource, trans, end);
        let mut page = first;
        while page < end {
            let next = self.raise(resource, trans, page, end, mode);
            self.meet(resource, trans, page);
            page = next;
        }
        self.meet(resource, trans, end);
        match self.find_node(resource, trans, first) {
            Some(node) => node,
            None => unreachable!(),
        }
    }

    // Cuts a run of the transaction that goes across the beginning of that page.
    fn cut(&mut self, resource: u32, trans: u32, page: u64)
        requires room { 0 < self.old.spare }
        requires spans { AreSpans (runs self.old.nodes resource trans) }
        ensures splits { Splits page resource trans self.old self.new }
        ensures spare { self.old.spare ≤ self.new.spare + 1 }
        ensures once { StandOnce self.new }
    {
        let Some(held) = self.find_held(resource, trans, page) else {
            return;
        };
        let first = u64::from(held.span.first);
        if first == page {
            return;
        }
        let left = span_between(first, page);
        let right = span_between(page, end_of(held.span));
        let before = NodeView {
            span: Some(left),
            ..held.view
        };
        let after = NodeView {
            span: Some(right),
            ..held.view
        };
        self.set_view(held.node, before);
        self.add_reserved(after);
    }

    // Raises the modes of the pages from that one on. It stops at the end, or before it where the transaction's run there ends or
    // its next one begins, and answers where.
    fn raise(&mut self, resource: u32, trans: u32, page: u64, end: u64, mode: Mode) -> u64
        requires room { 0 < self.old.spare }
        requires order { page < end }
        requires end { end ≤ 2 ^ 32 }
        requires spans { AreSpans (runs self.old.nodes resource trans) }
        requires narrow { end < page + 2 ^ 32 }
        requires cut_page { IsCut page (runs self.old.nodes resource trans) }
        requires cut_end { IsCut end (runs self.old.nodes resource trans) }
        ensures raises { Raises page result resource trans mode self.old self.new }
        ensures more { page < result }
        ensures within { result ≤ end }
        ensures spare { self.old.spare ≤ self.new.spare + 1 }
        ensures once { StandOnce self.new }
    {
        match self.find_held(resource, trans, page) {
            Some(held) => {
                let view = NodeView {
                    mode: join(held.view.mode, mode),
                    ..held.view
                };
                self.set_view(held.node, view);
                end_of(held.span)
            }
            None => {
                let next = self.find_start(resource, trans, page, end);
                let span = span_between(page, next);
                let view = NodeView {
                    resource,
                    trans,
                    mode,
                    span: Some(span),
                };
                self.add_reserved(view);
                next
            }
        }
    }

    // Makes one run of two that touch at that page and have one mode.
    fn meet(&mut self, resource: u32, trans: u32, page: u64)
        requires spans { AreSpans (runs self.old.nodes resource trans) }
        ensures meets { Meets page resource trans self.old self.new }
        ensures spare { self.new.spare ≡ self.old.spare }
        ensures once { StandOnce self.new }
    {
        let Some(right) = self.find_held(resource, trans, page) else {
            return;
        };
        if page == 0 {
            return;
        }
        let Some(left) = self.find_held(resource, trans, page - 1) else {
            return;
        };
        if left.node == right.node {
            return;
        }
        if left.view.mode != right.view.mode {
            return;
        }
        let span = span_between(u64::from(left.span.first), end_of(right.span));
        let whole = NodeView {
            span: Some(span),
            ..left.view
        };
        self.remove(right.node);
        self.set_view(left.node, whole);
    }

    // Finds the node by which the transaction holds that page, with its span.
    fn find_held(&self, resource: u32, trans: u32, page: u64) -> Option<Held>
        ensures some { IfSome result (λ h. IsHeld self.now resource trans page h.node h.view h.span) }
        ensures none { IfNone result (node_on self.now resource trans page ≡ None) }
        ensures once { StandOnce self.now }
    {
        match self.find_node(resource, trans, page) {
            Some(node) => Some(self.read_held(node, resource, trans)),
            None => None,
        }
    }

    // Reads a node of the transaction that has a span.
    fn read_held(&self, node: usize, resource: u32, trans: u32) -> Held
        requires { IsSome (runs self.now.nodes resource trans node) }
        ensures node { result.node ≡ node }
        ensures view { map.get self.now.nodes node ≡ Some result.view }
        ensures span { result.view.span ≡ Some result.span }
    {
        let Some(view) = self.at(node) else {
            unreachable!();
        };
        let Some(span) = view.span else {
            unreachable!();
        };
        Held { node, view, span }
    }

    // Finds the node by which the transaction holds that page.
    fn find_node(&self, resource: u32, trans: u32, page: u64) -> Option<usize>
        ensures first { result ≡ node_on self.now resource trans page }
        ensures once { StandOnce self.now }
    {
        let mut place = self.first_on(resource);
        while let Some(node) = place {
            if self.holds(node, resource, trans, page) {
                return Some(node);
            }
            place = self.next_on(node);
        }
        None
    }

    // Whether the transaction holds that page by that node.
    fn holds(&self, node: usize, resource: u32, trans: u32, page: u64) -> bool
        ensures { result ≡ has_page (runs self.now.nodes resource trans node) page }
    {
        match self.at(node) {
            Some(view) => holds(&view, resource, trans, page),
            None => false,
        }
    }

    // Finds the first page after that one and before the end at which a run of the transaction begins, or else the end.
    fn find_start(&self, resource: u32, trans: u32, page: u64, end: u64) -> u64
        requires { page < end }
        ensures more { page < result }
        ensures within { result ≤ end }
        ensures gap { (n : ℕ) (a : PageRun) → runs self.now.nodes resource trans n ≡ Some a → page < a.first → a.first < result → ⊥ }
    {
        let mut next = end;
        let mut place = self.first_on(resource);
        while let Some(node) = place {
            next = self.take_earlier(node, resource, trans, page, next);
            place = self.next_on(node);
        }
        next
    }

    // Takes the first page of the run of a node, where it lies between those two, or else the second.
    fn take_earlier(&self, node: usize, resource: u32, trans: u32, page: u64, next: u64) -> u64
        requires { page < next }
        ensures more { page < result }
        ensures within { result ≤ next }
        ensures gap { (a : PageRun) → runs self.now.nodes resource trans node ≡ Some a → page < a.first → a.first < result → ⊥ }
    {
        match self.at(node) {
            Some(view) => take_earlier(&view, resource, trans, page, next),
            None => next,
        }
    }
}

// Takes the first page of a run of the transaction, where it lies between those two, or else the second.
fn take_earlier(view: &NodeView, resource: u32, trans: u32, page: u64, next: u64) -> u64
    requires { page < next }
    ensures more { page < result }
    ensures within { result ≤ next }
    ensures gap { (a : PageRun) → run_in resource trans (Some view.now) ≡ Some a → page < a.first → a.first < result → ⊥ }
{
    if view.resource != resource || view.trans != trans {
        return next;
    }
    match view.span {
        Some(span) => {
            let first = u64::from(span.first);
            if page < first && first < next {
                first
            } else {
                next
            }
        }
        None => next,
    }
}
