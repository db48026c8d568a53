//! Between which servers a carrier goes.
use crate::station::Station;
use alp_monitor::Monitor;

/// Two servers, and from where on messages are brought: a place in the list of all that the first
/// one sent.
#[derive(Clone, Copy, Drop)]
pub struct Pair {
    pub from: u8,
    pub to: u8,
    pub first: u32,
}

/// A pair of servers, and their monitors.
#[derive(Drop)]
pub struct Route<'a, S: Station> {
    pub pair: Pair,
    pub from: &'a Monitor<S>,
    pub to: &'a Monitor<S>,
}
