//! What command lines mean, as their language says it.

use alp_words::{Command, WordsFault, read_command};
use std::alloc::Global;
use std::test::Fail;

// What a command line asks for.
#[derive(Clone, Copy, PartialEq, Eq)]
enum Wanted {
    // To play in memory.
    InMemory,
    // To play on the volumes of this folder.
    In(&'static str),
    // A drill of this seed and size in memory.
    Drill(u64, u32),
    // A drill on the volumes of this folder.
    DrillIn(u64, u32, &'static str),
    // A storm in memory, of so many servers, clients and transactions of a client, of this seed, and of this patience.
    Storm([u64; 5]),
    // A storm on the volumes of this folder.
    StormIn([u64; 5], &'static str),
    // Nothing: its words are bad.
    Bad,
}

use Wanted::{Bad, Drill, DrillIn, In, InMemory, Storm, StormIn};

// Command lines, with a bar after each word, and what they ask for.
static PLAYS: [(&str, Wanted); 58] = [
    ("play|", InMemory),
    ("play|--folder|DIR|", In("DIR")),
    ("play|--folder=DIR|", In("DIR")),
    // A folder may have any name: an empty one, one with spaces, one that is a word of the command.
    ("play|--folder=|", In("")),
    ("play|--folder||", In("")),
    ("play|--folder|two words|", In("two words")),
    ("play|--folder=two words|", In("two words")),
    ("play|--folder=a=b|", In("a=b")),
    ("play|--folder==b|", In("=b")),
    ("play|--folder|play|", In("play")),
    ("play|--folder|help|", In("help")),
    ("play|--folder|-|", In("-")),
    ("play|--folder=--folder|", In("--folder")),
    // A name that begins with a hyphen stands behind `=`.
    ("play|--folder=-x|", In("-x")),
    ("play|--folder=--|", In("--")),
    ("play|--folder|-x|", Bad),
    ("play|--folder|--x|", Bad),
    ("play|--folder|-h|", Bad),
    ("play|--folder|--help|", Bad),
    // Nothing stands behind `--`.
    ("play|--|", InMemory),
    ("play|--folder|DIR|--|", In("DIR")),
    ("play|--|now|", Bad),
    ("play|--|--|", Bad),
    ("play|--|--folder|DIR|", Bad),
    // The option has a value, stands once, and has this name alone.
    ("play|--folder|", Bad),
    ("play|--folder|--|", Bad),
    ("play|--folder|A|--folder|B|", Bad),
    ("play|--folder=A|--folder=A|", Bad),
    ("play|--folder|A|--folder|", Bad),
    ("play|--folder|A|B|", Bad),
    ("play|--fold|DIR|", Bad),
    ("play|--folders|DIR|", Bad),
    ("play|--FOLDER|DIR|", Bad),
    ("play|-folder|DIR|", Bad),
    ("play|-f|DIR|", Bad),
    ("play|--seed|7|", Bad),
    ("play|-x|", Bad),
    ("play|now|", Bad),
    ("play||", Bad),
    ("play|-|", Bad),
    ("play|play|", Bad),
    // It is an option of `play`, and stands behind it.
    ("--folder|DIR|play|", Bad),
    ("--folder=DIR|play|", Bad),
    // One subcommand stands there.
    ("", Bad),
    ("|", Bad),
    ("--|", Bad),
    ("--|play|", Bad),
    ("pla|", Bad),
    ("Play|", Bad),
    (" play|", Bad),
    ("storm|", Bad),
    // Requests for help and for the version are no commands.
    ("--help|", Bad),
    ("-h|", Bad),
    ("help|", Bad),
    ("help|play|", Bad),
    ("play|--help|", Bad),
    ("--version|", Bad),
    ("play|-V|", Bad),
];

static DRILLS: [(&str, Wanted); 30] = [
    // A drill has a seed and a size, in any order, and may have a folder.
    ("drill|--seed|7|--size|2000|", Drill(7, 2000)),
    ("drill|--size=1|--seed=0|", Drill(0, 1)),
    (
        "drill|--seed|18446744073709551615|--size|5000|",
        Drill(18446744073709551615, 5000),
    ),
    (
        "drill|--folder|DIR|--seed|7|--size|20|",
        DrillIn(7, 20, "DIR"),
    ),
    ("drill|--seed|7|--size|20|--folder=|", DrillIn(7, 20, "")),
    // Zeros and a plus may lead a number.
    ("drill|--seed|+7|--size|0020|", Drill(7, 20)),
    ("drill|--seed|7|--size|20|--|", Drill(7, 20)),
    ("drill|", Bad),
    ("drill|--seed|7|", Bad),
    ("drill|--size|20|", Bad),
    ("drill|--seed|7|--size|0|", Bad),
    ("drill|--seed|7|--size|5001|", Bad),
    ("drill|--seed|18446744073709551616|--size|20|", Bad),
    ("drill|--seed|-1|--size|20|", Bad),
    ("drill|--seed=-1|--size|20|", Bad),
    ("drill|--seed||--size|20|", Bad),
    ("drill|--seed|7x|--size|20|", Bad),
    ("drill|--seed|7|--size|2 0|", Bad),
    ("drill|--seed|7|--size|0x14|", Bad),
    ("drill|--seed|7|--seed|7|--size|20|", Bad),
    ("drill|--seed|7|--size|20|--size|20|", Bad),
    ("drill|--seed|7|--size|", Bad),
    ("drill|--seed|7|--size|20|now|", Bad),
    ("drill|--seed|7|--size|20|--servers|3|", Bad),
    ("drill|7|20|", Bad),
    ("drill|--help|", Bad),
    ("--seed|7|--size|20|drill|", Bad),
    ("play|--size|20|", Bad),
    ("help|drill|", Bad),
    ("Drill|--seed|7|--size|20|", Bad),
];

static STORMS: [(&str, Wanted); 19] = [
    // A storm has five numbers, in any order, and may have a folder.
    (
        "storm|--servers|3|--clients|6|--size|20|--seed|5|--patience|20|",
        Storm([3, 6, 20, 5, 20]),
    ),
    (
        "storm|--patience=1000|--seed=18446744073709551615|--size=200|--clients=15|--servers=8|",
        Storm([8, 15, 200, 18446744073709551615, 1000]),
    ),
    (
        "storm|--servers=1|--folder=DIR|--clients=1|--size=1|--seed=0|--patience=1|",
        StormIn([1, 1, 1, 0, 1], "DIR"),
    ),
    (
        "storm|--servers=0|--clients=6|--size=20|--seed=5|--patience=20|",
        Bad,
    ),
    (
        "storm|--servers=9|--clients=6|--size=20|--seed=5|--patience=20|",
        Bad,
    ),
    (
        "storm|--servers=3|--clients=0|--size=20|--seed=5|--patience=20|",
        Bad,
    ),
    (
        "storm|--servers=3|--clients=16|--size=20|--seed=5|--patience=20|",
        Bad,
    ),
    (
        "storm|--servers=3|--clients=6|--size=0|--seed=5|--patience=20|",
        Bad,
    ),
    (
        "storm|--servers=3|--clients=6|--size=201|--seed=5|--patience=20|",
        Bad,
    ),
    (
        "storm|--servers=3|--clients=6|--size=20|--seed=5|--patience=0|",
        Bad,
    ),
    (
        "storm|--servers=3|--clients=6|--size=20|--seed=5|--patience=1001|",
        Bad,
    ),
    (
        "storm|--servers=3|--clients=6|--size=20|--seed=-1|--patience=20|",
        Bad,
    ),
    ("storm|--clients=6|--size=20|--seed=5|--patience=20|", Bad),
    ("storm|--servers=3|--size=20|--seed=5|--patience=20|", Bad),
    ("storm|--servers=3|--clients=6|--seed=5|--patience=20|", Bad),
    (
        "storm|--servers=3|--clients=6|--size=20|--patience=20|",
        Bad,
    ),
    ("storm|--servers=3|--clients=6|--size=20|--seed=5|", Bad),
    (
        "storm|--servers=3|--clients=6|--size=20|--seed=5|--patience=20|--servers=3|",
        Bad,
    ),
    (
        "storm|--servers=3|--clients=6|--size=20|--seed=5|--patience=20|now|",
        Bad,
    ),
];

fn meaning_of(alloc: Global, line: &str) -> Result<Result<Command, WordsFault>, Fail> {
    let mut words = Vec::new(alloc);
    for word in line.split('|') {
        let mut text = String::new(alloc);
        text.push_str(word)?;
        words.push(text)?;
    }
    // What is after the last bar is no word.
    let _after = words.pop();
    Ok(read_command(alloc, &words))
}

// Whether what is to be played is wanted.
fn is_play(folder: Option<&str>, wanted: Wanted) -> bool {
    match wanted {
        InMemory => folder.is_none(),
        In(name) => folder == Some(name),
        _ => false,
    }
}

// Whether the drill is.
fn is_drill(seed: u64, size: u32, folder: Option<&str>, wanted: Wanted) -> bool {
    match wanted {
        Drill(of, long) => of == seed && long == size && folder.is_none(),
        DrillIn(of, long, name) => of == seed && long == size && folder == Some(name),
        _ => false,
    }
}

// Whether the storm is.
fn is_storm(numbers: [u64; 5], folder: Option<&str>, wanted: Wanted) -> bool {
    match wanted {
        Storm(of) => of == numbers && folder.is_none(),
        StormIn(of, name) => of == numbers && folder == Some(name),
        _ => false,
    }
}

fn name_of(folder: &Option<String>) -> Option<&str> {
    match folder {
        Some(name) => Some(name.as_str()),
        None => None,
    }
}

// Whether a command is what is wanted.
fn is_command(command: &Command, wanted: Wanted) -> bool {
    match command {
        Command::Play { folder } => is_play(name_of(folder), wanted),
        Command::Drill { seed, size, folder } => is_drill(*seed, *size, name_of(folder), wanted),
        Command::Storm {
            servers,
            clients,
            size,
            seed,
            patience,
            folder,
        } => {
            let numbers = [
                u64::from(*servers),
                u64::from(*clients),
                u64::from(*size),
                *seed,
                u64::from(*patience),
            ];
            is_storm(numbers, name_of(folder), wanted)
        }
    }
}

// Whether a command line means what is wanted of it.
fn means(alloc: Global, line: &str, wanted: Wanted) -> Result<bool, Fail> {
    match meaning_of(alloc, line)? {
        Ok(command) => Ok(is_command(&command, wanted)),
        Err(fault) => Ok(wanted == Bad && fault == WordsFault::Bad),
    }
}

// The first of these command lines that means anything else, if one does.
fn first_wrong<'a>(alloc: Global, lines: &[(&'a str, Wanted)]) -> Result<Option<&'a str>, Fail> {
    for (line, wanted) in lines {
        if !means(alloc, *line, *wanted)? {
            return Ok(Some(*line));
        }
    }
    Ok(None)
}

#[test]
fn command_lines_mean_what_their_language_says(rt: HostRuntime) -> Result<(), Fail> {
    for lines in [&PLAYS[..], &DRILLS[..], &STORMS[..]] {
        let wrong = first_wrong(rt.alloc(), lines)?;
        assert!(rt; wrong.is_none(), "at {wrong:?}");
    }
    Ok(())
}
