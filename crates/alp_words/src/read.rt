//! From the words to the command.
ghost use Rattle.std.specs.Prelude.{◌≡◌, ◌≤◌, ◌∷◌, false, true, map, string_bytes, codes};
ghost use Rattle.std.specs.Prelude.{Option, Some, None, option_map, IfOk, IfErr, IfSome, OnOk};
ghost use Rattle.clap.specs.Words.{first_of, found_of, rows_of, subcommand_name_of, subcommand_of, subcommand_rows_of};
ghost use Rattle.alp_words.specs.Definition.{alpine};
ghost use Rattle.alp_words.specs.Words.{are_bad, are_refused, number_in as number_in_said, IsOurs, IsNamedBy, IsDrillOf, IsStormOf, lacks_in, lacks_of_storm};

use crate::definition::{CLIENTS_MOST, JOB_MOST, PATIENCE_MOST, SERVERS_MOST, SIZE_MOST, alpine};
use crate::{Command, WordsFault};
use clap::ArgMatches;
use std::alloc::{AllocError, Global};

// The words of a command line, whose first is the program's name.
fn with_name(alloc: Global, words: &[String]) -> Result<Vec<&str>, AllocError>
    ensures { IfOk result (λ all. map (λ w. w.now) all.items ≡ codes "alpine" ∷ map string_bytes words.now) }
{
    let mut all = Vec::new(alloc);
    all.push("alpine")?;
    for word in words {
        all.push(word.as_str())?;
    }
    Ok(all)
}

// What the command line has at the words.
fn matches_of<'a>(alloc: Global, words: &'a [&'a str]) -> Result<ArgMatches<'a>, WordsFault>
    ensures good { OnOk result (are_refused (map (λ w. w.now) words.entry.now) ≡ false) }
    ensures rows { IfOk result (λ m. subcommand_rows_of m ≡ subcommand_of alpine (map (λ w. w.now) words.entry.now)) }
    ensures ours { IfOk result (λ m. IsOurs (subcommand_name_of m)) }
    ensures bad { IfErr result (λ fault. fault ≡ WordsFault.Bad → are_refused (map (λ w. w.now) words.entry.now) ≡ true) }
{
    let command = alpine(alloc)?;
    match command.try_get_matches_from(words) {
        Ok(matches) => Ok(matches),
        Err(error) => Err(WordsFault::from(error)),
    }
}

// A text of its own.
fn copy_of(alloc: Global, text: &str) -> Result<String, AllocError>
    ensures { IfOk result (λ copy. string_bytes copy ≡ text.now) }
{
    let mut copy = String::new(alloc);
    copy.push_str(text)?;
    Ok(copy)
}

// The folder that stands in the matches of a command.
#[tactic(auto, using(crate::proofs::Matches::first_text))]
fn folder_in(alloc: Global, matches: &ArgMatches) -> Result<Option<String>, AllocError>
    ensures { IfOk result (λ folder. option_map string_bytes folder ≡ first_of (codes "folder") (rows_of (found_of matches.now))) }
{
    match matches.get_str("folder") {
        Some(name) => Ok(Some(copy_of(alloc, name)?)),
        None => Ok(None),
    }
}

// The number that a text says, if it is from `least` to `most`.
#[tactic(auto, using(crate::proofs::Numbers::not_a_number, crate::proofs::Numbers::too_small, crate::proofs::Numbers::too_great, crate::proofs::Numbers::within))]
fn number_of(text: &str, least: u64, most: u64) -> Option<u64>
    ensures number { result ≡ number_in_said least most (Some text.now) }
    ensures bounds { IfSome result (λ n. (least ≤ n) × (n ≤ most)) }
{
    let Ok(number) = text.parse::<u64>() else {
        return None;
    };
    if number < least {
        return None;
    }
    if most < number {
        return None;
    }
    Some(number)
}

// The number that stands in the matches of a command.
#[tactic(auto, unfolding(crate::specs::Words::number_in), using(crate::proofs::Matches::option_text))]
fn number_in(matches: &ArgMatches, option: &str, least: u64, most: u64) -> Option<u64>
    ensures number { result ≡ number_in_said least most (first_of option.now (rows_of (found_of matches.now))) }
    ensures bounds { IfSome result (λ n. (least ≤ n) × (n ≤ most)) }
{
    match matches.get_str(option) {
        Some(text) => number_of(text, least, most),
        None => None,
    }
}

// The drill that stands in the matches of its command.
#[tactic(auto, using(crate::proofs::Named::lacks_seed, crate::proofs::Named::lacks_size, crate::proofs::Named::drill_has_both))]
fn drill_in(alloc: Global, matches: &ArgMatches) -> Result<Command, WordsFault>
    ensures made { IfOk result (IsDrillOf (rows_of (found_of matches.now))) }
    ensures bad { IfErr result (λ fault. fault ≡ WordsFault.Bad → lacks_in (rows_of (found_of matches.now)) ≡ true) }
    // Want of memory is told only where no number is missing.
    ensures wanting { IfErr result (λ fault. fault ≡ WordsFault.OutOfMemory → lacks_in (rows_of (found_of matches.now)) ≡ false) }
{
    let Some(seed) = number_in(matches, "seed", 0, u64::MAX) else {
        return Err(WordsFault::Bad);
    };
    let Some(size) = number_in(matches, "size", 1, SIZE_MOST) else {
        return Err(WordsFault::Bad);
    };
    let folder = folder_in(alloc, matches)?;
    Ok(Command::Drill {
        seed,
        size: size as u32,
        folder,
    })
}

// The storm that stands in the matches of its command.
#[tactic(auto, using(crate::proofs::Named::storm_lacks_servers, crate::proofs::Named::storm_lacks_clients, crate::proofs::Named::storm_lacks_size, crate::proofs::Named::storm_lacks_seed, crate::proofs::Named::storm_lacks_patience, crate::proofs::Named::storm_has_all))]
fn storm_in(alloc: Global, matches: &ArgMatches) -> Result<Command, WordsFault>
    ensures made { IfOk result (IsStormOf (rows_of (found_of matches.now))) }
    ensures bad { IfErr result (λ fault. fault ≡ WordsFault.Bad → lacks_of_storm (rows_of (found_of matches.now)) ≡ true) }
    ensures wanting { IfErr result (λ fault. fault ≡ WordsFault.OutOfMemory → lacks_of_storm (rows_of (found_of matches.now)) ≡ false) }
{
    let Some(servers) = number_in(matches, "servers", 1, SERVERS_MOST) else {
        return Err(WordsFault::Bad);
    };
    let Some(clients) = number_in(matches, "clients", 1, CLIENTS_MOST) else {
        return Err(WordsFault::Bad);
    };
    let Some(size) = number_in(matches, "size", 1, JOB_MOST) else {
        return Err(WordsFault::Bad);
    };
    let Some(seed) = number_in(matches, "seed", 0, u64::MAX) else {
        return Err(WordsFault::Bad);
    };
    let Some(patience) = number_in(matches, "patience", 1, PATIENCE_MOST) else {
        return Err(WordsFault::Bad);
    };
    let folder = folder_in(alloc, matches)?;
    Ok(Command::Storm {
        servers: servers as u8,
        clients: clients as u8,
        size: size as u32,
        seed,
        patience: patience as u32,
        folder,
    })
}

/// The command that the words name, which are those after the program's name. `Bad` where the command line does not take them: an
/// unknown word or option, one that is missing, stands twice or has no value, a number that is none or is out of its range, a request
/// for help. `OutOfMemory` where memory is wanting.
#[tactic(auto, unfolding(crate::specs::Words::are_bad))]
pub fn read_command(alloc: Global, words: &[String]) -> Result<Command, WordsFault>
    // Words that are bad give no command.
    ensures good { OnOk result (are_bad (map string_bytes words.now) ≡ false) }
    // The command is the one that the words name.
    ensures named { IfOk result (IsNamedBy (map string_bytes words.now)) }
    // They are called bad only where they are.
    ensures bad { IfErr result (λ fault. fault ≡ WordsFault.Bad → are_bad (map string_bytes words.now) ≡ true) }
{
    let all = with_name(alloc, words)?;
    let matches = matches_of(alloc, all.as_slice())?;
    if let Some(play) = matches.subcommand_matches("play") {
        let folder = folder_in(alloc, play)?;
        return Ok(Command::Play { folder });
    }
    if let Some(drill) = matches.subcommand_matches("drill") {
        return drill_in(alloc, drill);
    }
    let Some(storm) = matches.subcommand_matches("storm") else {
        return Err(WordsFault::Bad);
    };
    storm_in(alloc, storm)
}
