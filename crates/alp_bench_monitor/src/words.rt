//! What the words of a call ask for.
ghost use Rattle.std.specs.Prelude.{◌<◌, IfSome};

pub(crate) const USAGE: &str = "\
usage: alp_bench_monitor THREADS TURNS LOCKS

So many threads (1 to 16) make so many turns each at one monitor, and take a Mutex so often each.
";

// How many threads may be asked for.
const MOST_THREADS: u32 = 16;

/// How many threads there are, and how often each of them takes its turn, and the mutex.
#[derive(Clone, Copy)]
pub(crate) struct Plan {
    pub threads: u32,
    pub turns: u32,
    pub locks: u32,
}

/// The plan that the words after the program's name spell, if they spell one.
pub(crate) fn read_words(words: &[String]) -> Option<Plan>
    ensures { IfSome result (λ plan. 0 < plan.threads) }
{
    let [threads, turns, locks] = words else {
        return None;
    };
    let threads = threads.as_str().parse().ok()?;
    if threads == 0 || MOST_THREADS < threads {
        return None;
    }
    Some(Plan {
        threads,
        turns: turns.as_str().parse().ok()?,
        locks: locks.as_str().parse().ok()?,
    })
}
