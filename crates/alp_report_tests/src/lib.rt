//! Tests of what a report says of replies, of refusals, of the servers and of their owners.
#![tactic(auto)]

#[cfg(test)]
mod tests;
