//! What a storm is: the turns of all servers, in the order of their ranks, are a course.
#![tactic(auto)]

mod laws;

pub use laws::{
    carriers_take_turns, messages_come_at_most_twice, storms_are_courses, threads_make_a_storm,
};
