//! What holds of each worker that stops.
ghost use Rattle.alp_storm.specs.Causes.{StopForServers};

use crate::host::Host;

/// A worker whose lines are its client's own, and which names servers of the storm alone, stops for a device, a full journal or want of memory.
/// Each of its frames spells a request, and goes to a server that there is.
pub fn own_jobs_stop_for_servers_alone<S: Host>()
    ensures { StopForServers S.base S.log }
{}
