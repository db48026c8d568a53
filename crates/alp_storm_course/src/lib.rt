//! What the threads of alp_storm did is a storm of alp_merge.
#![tactic(auto)]

mod laws;

pub use laws::what_threads_did_is_a_storm;
