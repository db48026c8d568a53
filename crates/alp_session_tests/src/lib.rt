//! Tests of the frames that clients send for lines, of what they make of the replies, and of the messages between servers.
#![tactic(auto)]

#[cfg(test)]
mod tests;
