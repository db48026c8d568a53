//! What holds of each storm, whatever its schedule.
ghost use Rattle.alp_merge.specs.Carried.{CarriersTakeTurns, ComeTwiceAtMost};
ghost use Rattle.alp_merge.specs.Closed.{StormsAreCourses};
ghost use Rattle.alp_merge.specs.Threads.{ThreadsMakeAStorm};

use alp_carrier::Station;

/// What all servers' monitors give once they are closed is one course: there is an order of all turns in which ranks do not fall. Each
/// server has just its own entries there, and each thread what it did.
pub fn storms_are_courses()
    ensures { StormsAreCourses }
{}

/// What a carrier brought to a server are turns there, and their messages were sent before. The plan says which came, or why not.
pub fn carriers_take_turns<S: Station>()
    ensures { CarriersTakeTurns S.base S.sight }
{}

/// Where each pass is that of one thread, each client did the deeds of its job, and carriers brought by the plan, what was done is a storm.
/// Behind it the servers have all that was made, and a settling may follow.
pub fn threads_make_a_storm<S: Station>()
    ensures { ThreadsMakeAStorm S.sight }
{}

/// What a carrier brought of a pair's messages weighs at most twice what was sent and taken of them: each message comes at most twice.
pub fn messages_come_at_most_twice()
    ensures { ComeTwiceAtMost }
{}
