//! What the words of a call ask for.

pub(crate) const USAGE: &str = "\
usage: alp_stamps FOLDER COUNT

Commits COUNT transactions (1 to 10000) to the volume in FOLDER, server1.vol, which is made where there is none,
and prints each with its stamp once the server has told it.
";

// How many transactions may be asked for: so many have room in the journal of a server.
const MOST_COMMITS: u32 = 10000;

/// How many commits the word asks for, if it does.
pub(crate) fn read_count(word: &str) -> Option<u32> {
    let commits = word.parse().ok()?;
    if commits == 0 || MOST_COMMITS < commits {
        return None;
    }
    Some(commits)
}
