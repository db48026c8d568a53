//! What follows from the laws for several servers.
ghost use Rattle.alp_history.specs.WrongJournals.{AreRefused};
ghost use Rattle.alp_history.specs.ResumedLog.{IsShownResumed};
ghost use Rattle.alp_history.specs.RightJournals.{AreLawfulJournals};
ghost use Rattle.alp_history.specs.RightLog.{IsShownRight};
ghost use Rattle.alp_history.specs.WrongLogs.{AreWrong};
ghost use Rattle.alp_history.specs.Theorems.{Agreement, EachServer, Findings, History, Latest, Listing, Order, OrderOfBegins, Promises, Settling, Sharing, Stillness, Tellings, Wholeness};

/// However messages are lost, repeated and late and servers stop and start again, no part of a committed transaction is
/// aborted, and none is applied that is not one of a committed transaction's.
///
/// It follows from the laws on sound openings (two-phase commit with presumed abort: Mohan, Lindsay and Obermarck 1986).
pub fn parts_agree()
    ensures { Agreement }
{}

/// What each server applied is one thread's history in the order of the stamps, whatever parts of other servers'
/// transactions it applied late, and whatever stops inside its writes it recovered from.
pub fn each_server_is_one_thread()
    ensures { EachServer }
{}

/// A transaction that is decided has a stamp above the time that its client had seen as it began.
pub fn stamps_are_above_what_was_seen()
    ensures { OrderOfBegins }
{}

/// The decided transactions of all servers, in the order of their stamps, are one thread's history on one set of files: each
/// reply is the right one, it ends in what the servers hold with the parts that are still ready, and charges equal sizes
/// after each.
pub fn all_servers_are_one_thread()
    ensures { History }
{}

/// Where that thread comes to a transaction, the files hold at each place what the decided transaction of the greatest smaller
/// stamp that changed the place left there, or the cell of the start.
pub fn each_finds_what_the_latest_left()
    ensures { Latest }
{}

/// While a part's mode on a place is at least Read, no change of another part that takes effect touches the cell there.
pub fn cells_stand_still_while_they_are_read()
    ensures { Stillness }
{}

/// While a decided transaction that a server has not applied yet may read a place, the server's cells hold there what the
/// decided transaction of the greatest smaller stamp that changed the place left, or the cell of the start. So they do at each
/// place that a call looks at, where such a transaction performs it.
pub fn each_reads_what_the_latest_left()
    ensures { Findings }
{}

/// The decided transactions are just those that their servers committed in this run. Each part of one was applied at its
/// stamp or is still ready.
pub fn decided_transactions_are_whole()
    ensures { Wholeness }
{}

/// Of each decided transaction there is one share at the server that began it, and one at each server of its joins; and the calls of
/// a share are just those that entries of the server performed for it.
pub fn shares_are_what_was_performed()
    ensures { Sharing }
{}

/// Each stamp that a client is told is of a decided transaction, unless an earlier run decided it.
pub fn stamps_told_are_of_decided_transactions()
    ensures { Tellings }
{}

/// Of two decided transactions whose modes on a leaf disagree the one that holds it first, and whose mode ends there first,
/// has the smaller stamp; and each has a stamp above the time that its client had seen as it began.
pub fn stamps_go_by_locks()
    ensures { Order }
{}

/// What a client is told is kept: each stamp is of a decided transaction, and what a client begins after it was told of a
/// commit gets a stamp above that one. Of the items of clients it is given that their machine made them so (`AreOfClients`);
/// what a raw line sent, and what was kept for a number that one sent first, is no promise.
pub fn promises_are_kept()
    ensures { Promises }
{}

/// Where no part lives or is ready and no decision waits for its joins, the history ends in the cells that the servers hold,
/// and each part of a decided transaction was applied at its stamp.
pub fn settled_logs_end_in_what_is_held()
    ensures { Settling }
{}

/// Of each pair of journals of `specs/WrongJournals.antt`, which differ in their last entry alone, one is lawful and the other
/// breaks a law.
pub fn wrong_journals_are_refused()
    ensures { AreRefused }
{}

/// A log of two servers, with a lost message, a repeat, a restart of each and three transactions, keeps to all that the theorems
/// ask; and the history that they give for it is the one written in `specs/RightLog.antt`.
pub fn a_right_log_is_shown_right()
    ensures { IsShownRight }
{}

/// Each of the logs of `specs/WrongLogs.antt`, which differ from the right one in one place, has a journal that breaks a law or a
/// message that is not linked: two transactions in opposite orders on two servers, a part applied without its decision, a read lock
/// let go at the vote, a message that nobody sent, and one that arrives before it was sent.
pub fn wrong_logs_are_refused()
    ensures { AreWrong }
{}

/// The journals of `specs/RightJournals.antt`, two servers' each, are lawful: with lost and repeated messages, with a worker that
/// lost its part, with a read lock that outlives a restart, and with a decision that a stop cut off, found made or not.
pub fn right_journals_are_lawful()
    ensures { AreLawfulJournals }
{}

/// A log that goes on where an earlier run was cut off, with a decision and a ready part in its openings, keeps to all that the
/// theorems ask; what the earlier run decided is in the files that its history starts on.
pub fn a_resumed_log_is_shown_right()
    ensures { IsShownResumed }
{}

/// The decided transactions are just those that an entry of a server decides with effect: where nothing stopped it, or where the
/// restart behind it finds a clock that is not below their time. A join is applied just where an entry applies it with effect.
pub fn effective_acts_are_listed()
    ensures { Listing }
{}
