//! Page buffers over the log: the pages used last stay in memory, and equal those that the log holds.
#![tactic(auto)]

mod commit;
mod get;
mod pool;

pub use pool::Pool;
