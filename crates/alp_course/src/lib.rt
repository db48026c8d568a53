//! What happens in a run of several servers: the journals of its servers, the messages between them, and the lines of its script.
#![tactic(auto)]

mod laws;

pub use laws::{
    journals_are_linked, lone_restarts_are_plain, one_server_runs_alone,
    one_settled_server_has_none_open, runs_stay_midway, settled_servers_are_at_rest,
    settled_servers_are_up, settled_servers_have_all_messages,
};
