//! What follows from the laws of journals for several servers.
#![tactic(auto)]

mod agreement;
mod numbers;
mod refusals;

pub use agreement::{
    a_resumed_log_is_shown_right, a_right_log_is_shown_right, all_servers_are_one_thread,
    cells_stand_still_while_they_are_read, decided_transactions_are_whole,
    each_finds_what_the_latest_left, each_reads_what_the_latest_left, each_server_is_one_thread,
    effective_acts_are_listed, parts_agree, promises_are_kept, right_journals_are_lawful,
    settled_logs_end_in_what_is_held, shares_are_what_was_performed,
    stamps_are_above_what_was_seen, stamps_go_by_locks, stamps_told_are_of_decided_transactions,
    wrong_journals_are_refused, wrong_logs_are_refused,
};
pub use numbers::{committed_acts_are_the_decided, numbered_calls_are_one_threads};
pub use refusals::refusals_change_nothing;
