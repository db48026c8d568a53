//! From what a storm's threads give back to what a storm is.
ghost use Rattle.alp_storm_course.specs.Joins.{ThreadsDidAStorm};

use alp_storm::Host;

/// Where no job met a fault and no server is down, what the threads did from a course on its way on is a storm. Each client did the deeds of
/// its job, and each server stands as its entries say.
pub fn what_threads_did_is_a_storm<S: Host>()
    ensures { ThreadsDidAStorm S.base S.entries S.log S.sight }
{}
