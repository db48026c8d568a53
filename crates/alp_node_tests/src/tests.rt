//! What crosses threads of a server, and what servers of one run say to one another.
mod several;

use alp_base::{OutOfMemory, Sizes};
use alp_journal::Journal;
use alp_node::{Down, Node};
use alp_vault::MemVault;
use std::alloc::Global;
use std::test::*;

const SIZES: Sizes = Sizes {
    home: 512,
    area: 64,
};

// One of three servers, by its number, on a vault in memory. Whoever has it lets go of it at one place: each other place where it may
// end costs much to prove.
fn in_memory(alloc: Global, server: u8) -> Result<Node<MemVault>, OutOfMemory> {
    if server < 1 || 3 < server {
        return Err(OutOfMemory);
    }
    match Node::start(alloc, server, 3, MemVault::new(alloc, SIZES, server, 3)) {
        Ok(node) => Ok(node),
        Err(_) => Err(OutOfMemory),
    }
}

/// What threads may share and hand over.
fn crosses<T: Send + Sync>() {}

/// A server that fell crosses threads, with its vault and its journal.
#[test]
fn servers_cross_threads(rt: HostRuntime) -> Result<(), Fail> {
    crosses::<Journal>();
    crosses::<Down<MemVault>>();
    let node = in_memory(rt.alloc(), 1)?;
    assert!(rt; node.epoch() == 1 && !node.is_down());
    let (_, _, journal) = node.fall(0).into_parts();
    assert!(rt; journal.entries().is_empty());
    Ok(())
}
