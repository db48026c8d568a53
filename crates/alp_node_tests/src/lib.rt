//! Tests of servers: what crosses threads, how often they write, and messages that come from nowhere.
#![tactic(auto)]

#[cfg(test)]
mod tests;
