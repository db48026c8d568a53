//! What holds of each run, whatever happens in it.
ghost use Rattle.alp_course.specs.Links.{Linking};
ghost use Rattle.alp_course.specs.Lone.{Alone, Closing, Plainness};
ghost use Rattle.alp_course.specs.Midway.{Keeping};
ghost use Rattle.alp_course.specs.Resting.{Resting};
ghost use Rattle.alp_course.specs.Settles.{Lifting, Emptying};

/// A run is on its way from its first moment on (`IsMidway`), and stays so whatever occurs. What is said of one on its way holds too of servers
/// that come out of something else than a run of lines.
pub fn runs_stay_midway()
    ensures { Keeping }
{}

/// The journals of a run are linked: ranks rise along each of them, and each message that arrives was sent before.
pub fn journals_are_linked()
    ensures { Linking }
{}

/// Where there is one server, all that occurs happens at it, and its journal records just that.
pub fn one_server_runs_alone()
    ensures { Alone }
{}

/// Behind a settling all servers are up, and nobody stops a disk.
pub fn settled_servers_are_up()
    ensures { Lifting }
{}

/// Behind a settling of the only server of a run no transaction of it is open.
pub fn one_settled_server_has_none_open()
    ensures { Closing }
{}

/// Behind a settling no message of one server to another is left.
pub fn settled_servers_have_all_messages()
    ensures { Emptying }
{}

/// No restart of the only server of a run finds a ready part or a decision with parts elsewhere.
pub fn lone_restarts_are_plain()
    ensures { Plainness }
{}

/// Behind a settling no part lives, none is ready, and no decision stands, at any server of the run.
pub fn settled_servers_are_at_rest()
    ensures { Resting }
{}
