//! The command line of the program, as it is told to the reader of words.
ghost use Rattle.std.specs.Prelude.{◌≡◌, IfOk, false};
ghost use Rattle.clap.specs.Words.{rule_of};
ghost use Rattle.alp_words.specs.Definition.{IsMade, option, number, play, drill, storm_counts, storm, alpine};

use clap::builder::ValueParser;
use clap::{Arg, ArgAction, Command};
use std::alloc::{AllocError, Global};

// The most rounds of a drill.
pub(crate) const SIZE_MOST: u64 = 5_000;

// The most servers, clients, transactions of a client, and patience of a storm.
pub(crate) const SERVERS_MOST: u64 = 8;

pub(crate) const CLIENTS_MOST: u64 = 15;

pub(crate) const JOB_MOST: u64 = 200;

pub(crate) const PATIENCE_MOST: u64 = 1_000;

// An option that may stand once, with a value.
fn option<'a>(alloc: Global, name: &'a str) -> Arg<'a>
    ensures rule { rule_of result ≡ option name.entry.now }
    ensures own { result.global ≡ false }
{
    Arg::new(alloc, name).long(name).action(ArgAction::Set)
}

// An option that has to stand once, with a number from `least` to `most`.
fn number<'a>(alloc: Global, name: &'a str, least: u64, most: u64) -> Arg<'a>
    ensures rule { rule_of result ≡ number name.entry.now least most }
    ensures own { result.global ≡ false }
{
    option(alloc, name)
        .required(true)
        .value_parser(ValueParser::unsigned(least, most))
}

fn play<'a>(alloc: Global) -> Result<Command<'a>, AllocError>
    ensures { IfOk result (IsMade play) }
{
    Command::new(alloc, "play").arg(option(alloc, "folder"))
}

fn drill<'a>(alloc: Global) -> Result<Command<'a>, AllocError>
    ensures { IfOk result (IsMade drill) }
{
    Command::new(alloc, "drill")
        .arg(number(alloc, "seed", 0, u64::MAX))?
        .arg(number(alloc, "size", 1, SIZE_MOST))?
        .arg(option(alloc, "folder"))
}

fn storm_counts<'a>(alloc: Global) -> Result<Command<'a>, AllocError>
    ensures { IfOk result (IsMade storm_counts) }
{
    Command::new(alloc, "storm")
        .arg(number(alloc, "servers", 1, SERVERS_MOST))?
        .arg(number(alloc, "clients", 1, CLIENTS_MOST))?
        .arg(number(alloc, "size", 1, JOB_MOST))
}

fn storm<'a>(alloc: Global) -> Result<Command<'a>, AllocError>
    ensures { IfOk result (IsMade storm) }
{
    storm_counts(alloc)?
        .arg(number(alloc, "seed", 0, u64::MAX))?
        .arg(number(alloc, "patience", 1, PATIENCE_MOST))?
        .arg(option(alloc, "folder"))
}

/// The whole command line: one of its subcommands must be given.
pub(crate) fn alpine<'a>(alloc: Global) -> Result<Command<'a>, AllocError>
    ensures { IfOk result (IsMade alpine) }
{
    let play = play(alloc)?;
    let drill = drill(alloc)?;
    let storm = storm(alloc)?;
    Command::new(alloc, "alpine")
        .subcommand_required(true)
        .subcommand(play)?
        .subcommand(drill)?
        .subcommand(storm)
}
