//! Locks of two transactions, walked along their lists: nodes without spans, and runs that split and
//! meet. Resource 1 is a file, 2 is its leader, and 3 are its pages, of which none after 998 is locked.
ghost use Rattle.std.specs.Prelude.{◌≡◌, ℕ, ◌+◌, ◌<◌, ◌≤◌, IfOk, OnOk};
ghost use Rattle.alp_chain.specs.Spans.{runs, AreAllSpans, AreLocks, IsFree};

use alp_base::OutOfMemory;
use alp_chain::{Chains, NodeView, Span, Steps};
use alp_modes::Mode;
use std::alloc::{AllocError, Global};
use std::marker::Brand;
use std::sync::ledger::{Blank, Ledger};
use std::test::Fail;

fn views_on(alloc: Global, chains: &Chains, resource: u32) -> Result<Vec<NodeView>, AllocError> {
    let mut views = Vec::new(alloc);
    let mut place = chains.first_on(resource);
    for _ in 0..20 {
        let Some(node) = place else {
            break;
        };
        let Some(view) = chains.at(node) else {
            break;
        };
        views.push(view)?;
        place = chains.next_on(node);
    }
    Ok(views)
}

fn views_of(alloc: Global, chains: &Chains, trans: u32) -> Result<Vec<NodeView>, AllocError> {
    let mut views = Vec::new(alloc);
    let mut place = chains.first_of(trans);
    for _ in 0..20 {
        let Some(node) = place else {
            break;
        };
        let Some(view) = chains.at(node) else {
            break;
        };
        views.push(view)?;
        place = chains.next_of(node);
    }
    Ok(views)
}

// Transaction 7 has the file open for writing, and no page.
fn open(alloc: Global) -> Result<Chains, OutOfMemory>
    ensures locks { IfOk result (λ c. AreLocks c.nodes) }
    ensures spans { IfOk result (λ c. AreAllSpans 3 c.nodes) }
    ensures free { IfOk result (λ c. (t : ℕ) → IsFree 999 (runs c.nodes 3 t)) }
{
    let mut chains = Chains::new(alloc);
    chains.add(1, 7, Mode::IntendWrite)?;
    chains.add(2, 7, Mode::Read)?;
    Ok(chains)
}

fn lock(
    chains: &mut Chains,
    trans: u32,
    first: u32,
    count: u32,
    mode: Mode,
) -> Result<(), OutOfMemory>
    requires count { 1 ≤ count }
    requires end { first + count ≤ 999 }
    requires locks { AreLocks chains.old.nodes }
    requires spans { AreAllSpans 3 chains.old.nodes }
    requires free { (t : ℕ) → IsFree 999 (runs chains.old.nodes 3 t) }
    ensures locks { OnOk result (AreLocks chains.new.nodes) }
    ensures spans { OnOk result (AreAllSpans 3 chains.new.nodes) }
    ensures free { OnOk result ((t : ℕ) → IsFree 999 (runs chains.new.nodes 3 t)) }
{
    chains.add_span(3, trans, Span { first, count }, mode)?;
    Ok(())
}

// Transaction 7 locks four runs of sixteen pages, each of which touches the one before.
fn lock_four(chains: &mut Chains, first: u32) -> Result<(), OutOfMemory>
    requires end { first + 64 ≤ 999 }
    requires locks { AreLocks chains.old.nodes }
    requires spans { AreAllSpans 3 chains.old.nodes }
    requires free { (t : ℕ) → IsFree 999 (runs chains.old.nodes 3 t) }
    ensures locks { OnOk result (AreLocks chains.new.nodes) }
    ensures spans { OnOk result (AreAllSpans 3 chains.new.nodes) }
    ensures free { OnOk result ((t : ℕ) → IsFree 999 (runs chains.new.nodes 3 t)) }
{
    lock(chains, 7, first, 16, Mode::Write)?;
    lock(chains, 7, first + 16, 16, Mode::Write)?;
    lock(chains, 7, first + 32, 16, Mode::Write)?;
    lock(chains, 7, first + 48, 16, Mode::Write)
}

fn release<L: Ledger>(chains: &mut Chains, trans: u32, blank: Blank)
    requires name { blank.name ≡ L.name }
    requires parts { blank.parts ≡ L.parts }
    requires some { 0 < blank.parts }
{
    let mut steps = Steps::<L>::new(blank);
    chains.remove_trans(trans, &mut steps);
}

fn whole(resource: u32, mode: Mode) -> NodeView {
    NodeView {
        resource,
        trans: 7,
        mode,
        span: None,
    }
}

fn run(trans: u32, first: u32, count: u32, mode: Mode) -> NodeView {
    NodeView {
        resource: 3,
        trans,
        mode,
        span: Some(Span { first, count }),
    }
}

// Read on pages 0 to 15 and Write on 4 to 7 make three runs. Write on all others leaves one.
fn splits_and_meets(alloc: Global) -> Result<bool, Fail> {
    let mut chains = open(alloc)?;
    lock(&mut chains, 7, 0, 16, Mode::Read)?;
    lock(&mut chains, 7, 4, 4, Mode::Write)?;
    let split = views_of(alloc, &chains, 7)?;
    lock(&mut chains, 7, 0, 4, Mode::Write)?;
    lock(&mut chains, 7, 8, 8, Mode::Write)?;
    let met = views_of(alloc, &chains, 7)?;
    let three = [
        whole(1, Mode::IntendWrite),
        whole(2, Mode::Read),
        run(7, 0, 4, Mode::Read),
        run(7, 4, 4, Mode::Write),
        run(7, 8, 8, Mode::Read),
    ];
    let one = [
        whole(1, Mode::IntendWrite),
        whole(2, Mode::Read),
        run(7, 0, 16, Mode::Write),
    ];
    Ok(split.as_slice() == three.as_slice() && met.as_slice() == one.as_slice())
}

// Sixteen runs of sixteen pages are one node beside those of the file and its leader. A release takes all three.
fn meets_sixteen_times(alloc: Global) -> Result<bool, Fail> {
    let mut chains = open(alloc)?;
    lock_four(&mut chains, 0)?;
    lock_four(&mut chains, 64)?;
    lock_four(&mut chains, 128)?;
    lock_four(&mut chains, 192)?;
    let met = views_of(alloc, &chains, 7)?;
    let three = [
        whole(1, Mode::IntendWrite),
        whole(2, Mode::Read),
        run(7, 0, 256, Mode::Write),
    ];
    release::<Brand>(&mut chains, 7, Blank::new(1));
    Ok(
        met.as_slice() == three.as_slice()
            && chains.first_of(7).is_none()
            && chains.first_on(3).is_none(),
    )
}

// Each page has the least mode that covers what was asked of it.
fn joins_page_by_page(alloc: Global) -> Result<bool, Fail> {
    let mut chains = open(alloc)?;
    lock(&mut chains, 7, 2, 2, Mode::Update)?;
    lock(&mut chains, 7, 6, 2, Mode::Write)?;
    lock(&mut chains, 7, 0, 10, Mode::Read)?;
    let apart = views_on(alloc, &chains, 3)?;
    lock(&mut chains, 7, 0, 10, Mode::Write)?;
    let joined = views_on(alloc, &chains, 3)?;
    let five = [
        run(7, 2, 2, Mode::Update),
        run(7, 6, 2, Mode::Write),
        run(7, 0, 2, Mode::Read),
        run(7, 4, 2, Mode::Read),
        run(7, 8, 2, Mode::Read),
    ];
    let one = [run(7, 0, 10, Mode::Write)];
    Ok(apart.as_slice() == five.as_slice() && joined.as_slice() == one.as_slice())
}

// Two transactions hold pages of one file. One is released, and the other's runs stay in their order.
fn keeps_others(alloc: Global) -> Result<bool, Fail> {
    let mut chains = open(alloc)?;
    lock(&mut chains, 8, 20, 2, Mode::Read)?;
    lock(&mut chains, 7, 0, 4, Mode::Read)?;
    lock(&mut chains, 8, 0, 2, Mode::Read)?;
    lock(&mut chains, 7, 2, 1, Mode::Write)?;
    release::<Brand>(&mut chains, 7, Blank::new(1));
    let left = views_on(alloc, &chains, 3)?;
    let two = [run(8, 20, 2, Mode::Read), run(8, 0, 2, Mode::Read)];
    Ok(
        left.as_slice() == two.as_slice()
            && chains.first_of(7).is_none()
            && chains.first_on(1).is_none(),
    )
}

// A node changes its mode, and leaves both its lists.
fn changes_and_goes(alloc: Global) -> Result<bool, Fail> {
    let mut chains = Chains::new(alloc);
    let node = chains.add(2, 7, Mode::Read)?;
    chains.set_mode(node, Mode::Write);
    let changed = chains.at(node) == Some(whole(2, Mode::Write));
    chains.remove(node);
    Ok(
        changed
            && chains.at(node).is_none()
            && chains.first_on(2).is_none()
            && chains.first_of(7).is_none(),
    )
}

#[test]
fn runs_split_and_meet(rt: HostRuntime) -> Result<(), Fail> {
    assert!(rt; splits_and_meets(rt.alloc())?);
    Ok(())
}

#[test]
fn sixteen_runs_are_one_node(rt: HostRuntime) -> Result<(), Fail> {
    assert!(rt; meets_sixteen_times(rt.alloc())?);
    Ok(())
}

#[test]
fn modes_join_page_by_page(rt: HostRuntime) -> Result<(), Fail> {
    assert!(rt; joins_page_by_page(rt.alloc())?);
    Ok(())
}

#[test]
fn a_release_keeps_the_order_of_others(rt: HostRuntime) -> Result<(), Fail> {
    assert!(rt; keeps_others(rt.alloc())?);
    Ok(())
}

#[test]
fn a_node_leaves_both_lists(rt: HostRuntime) -> Result<(), Fail> {
    assert!(rt; changes_and_goes(rt.alloc())?);
    Ok(())
}
