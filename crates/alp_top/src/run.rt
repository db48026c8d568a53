//! A whole run, from the words of the program to the bytes of the report and the disks that are given back.
ghost use Rattle.std.specs.Prelude.{◌≡◌, ◌⊎◌, ℕ, false, take, map, string_bytes, codes, Some, IfOk, IfErr};
ghost use Rattle.std.specs.Io.KnownBytes.{Appends};
ghost use Rattle.std.specs.Option.{option_map};
ghost use Rattle.alp_base.specs.Causes.{Rose};
ghost use Rattle.alp_script.specs.Accepted.{IsAccepted};
ghost use Rattle.alp_script.specs.Reading.{HasReadCause};
ghost use Rattle.alp_top.specs.Anywhere.{IsToldAnywhere};
ghost use Rattle.alp_top.specs.Commands.{AreToPlay, HasNoLines, IsWithoutLines, HasFewRounds, OnMade, shows_lines};
ghost use Rattle.alp_top.specs.Besides.{HasLawsFor};
ghost use Rattle.alp_top.specs.Headline.{IsPlayed, HasCause, StartsHere, HasLinesFor};
ghost use Rattle.alp_top.specs.Statuses.{AreWordsTold, IsTold, OnDone, OnReport, OnBadWords, OnNoLines, OnWriteFault, OnCutShort, OnUntaken, folder_in, IsReadFaultTold, IsWriteFaultTold, IsBayFaultTold, IsFolderTold, OnUnwritten, IsPlayedOrMemory, IsHandedOver};
ghost use Rattle.alp_words.specs.Words.{are_bad, folder_named, name_named};

use crate::bay::run_bay;
use crate::finish::Ended;
use crate::status::{Status, ended_by};
use crate::write_all::write_all;
use alp_base::{OutOfMemory, Sink, Source};
use alp_bay::Bay;
use alp_disk::{Disk, Fuse};
use alp_drill::{Storm, drill, storm_script};
use alp_script::{NumberedLine, SCRIPT_LINES_MOST, ScriptFault, accepted_lines, read_script};
use alp_store::Store;
use alp_vault::Vault;
use alp_words::{Command, WordsFault, read_command};
use std::alloc::Global;
use std::snapshot::Snapshot;

// The folder that a command names.
fn folder_of(command: &Command) -> Option<&str>
    ensures { option_map (λ name. name.now) result ≡ folder_in command.now }
{
    match command {
        Command::Play { folder } => folder.as_deref(),
        Command::Drill {
            seed: _,
            size: _,
            folder,
        } => folder.as_deref(),
        Command::Storm {
            servers: _,
            clients: _,
            size: _,
            seed: _,
            patience: _,
            folder,
        } => folder.as_deref(),
    }
}

// Whether the command shows a line for each line of a client.
fn shows(command: &Command) -> bool
    ensures { result ≡ shows_lines command.now }
{
    match command {
        Command::Play { folder: _ } => true,
        Command::Drill {
            seed: _,
            size: _,
            folder: _,
        } => false,
        Command::Storm {
            servers: _,
            clients: _,
            size: _,
            seed: _,
            patience: _,
            folder: _,
        } => false,
    }
}

// The lines that the command plays.
fn lines_of<S: Source>(
    alloc: Global,
    command: &Command,
    script: &mut S,
) -> Result<Vec<NumberedLine>, ScriptFault>
    requires few { HasFewRounds command.now }
    ensures lines { IfOk result (λ lines. AreToPlay command.now (S.left script.old) (S.left script.new) lines.items) }
    ensures accepted { IfOk result (λ lines. IsAccepted lines.items) }
    ensures none { IfErr result (HasNoLines command.now (S.left script.old) (S.left script.new)) }
    ensures cause { HasReadCause (S.faults script.old) (S.faults script.new) result }
    ensures unread { OnMade command.now (script.new ≡ script.old) }
{
    accepted_lines();
    match command {
        Command::Play { folder: _ } => read_script(alloc, script),
        Command::Drill {
            seed,
            size,
            folder: _,
        } => match drill(alloc, *seed, *size) {
            Ok(lines) => Ok(lines),
            Err(OutOfMemory) => Err(ScriptFault::OutOfMemory),
        },
        Command::Storm {
            servers,
            clients,
            size,
            seed,
            patience,
            folder: _,
        } => {
            let storm = Storm {
                servers: *servers,
                clients: *clients,
                size: *size,
                seed: *seed,
                patience: *patience,
            };
            match storm_script(alloc, storm) {
                Ok(lines) => Ok(lines),
                Err(OutOfMemory) => Err(ScriptFault::OutOfMemory),
            }
        }
    }
}

// Writes the report of a run that is over.
fn hand_over<D: Disk, K: Sink>(ended: &Ended<Store<Fuse<D>>>, out: &mut K) -> Status<D>
    ensures done { OnDone result (λ log. (log ≡ ended.now.log) × Appends (K.written out.old) (K.written out.new) ended.now.text.items) }
    ensures cut_off { OnWriteFault result (λ log. (log ≡ ended.now.log) × (count : ℕ) × Appends (K.written out.old) (K.written out.new) (take count ended.now.text.items)) }
    ensures cause { IsWriteFaultTold result (K.faults out.old) (K.faults out.new) }
    ensures played { IsHandedOver result }
{
    let log = Snapshot::of(&ended.log);
    match write_all(out, &ended.text) {
        Ok(()) => Status::Done { log },
        Err(_) => Status::WriteFault { log },
    }
}

/// Plays the script that the words name, which the source gives or the seed of a drill or a storm makes, on its servers, on the disks
/// that the bay has for them, in the folder that the words name or in memory, and writes the report, which is made whole before its first
/// byte is written; of a drill or a storm that is the summary alone. The words come first, then the script to its first bad line, then
/// the disks, server 1 first; the first event that ends the run gives its status. Disks that were taken are given back however the run
/// ends.
///
/// What a folder's files hold no contract can say: what is said of disks holds of those in memory, and of a bay that tells.
pub fn run_alpine<S: Source, K: Sink, B: Bay>(
    alloc: Global,
    words: &[String],
    script: &mut S,
    out: &mut K,
    bay: &mut B,
) -> Status<B::Device>
    // The headline: what is written is the report of a run of the script, or a prefix of it where that failed, and the disks are given back with what
    // its journals leave. Where the disks go together the committed transactions are one thread's history, each with all of its parts, and what that
    // ends in stands on the disks that are given back.
    ensures headline { IsTold (map string_bytes words.now) (B.tells bay.new) → OnReport result (K.written out.old) (K.written out.new) (IsPlayed ⟦<Store<Fuse<B::Device>> as Vault>⟧ B.Device.Disk (map string_bytes words.now) (S.left script.old) (S.left script.new) (B.at bay.old) (B.at bay.new)) }
    // The same of the same lines, and beside it: each reply has its cause, stamps go by locks, each transaction finds what the latest one left, and the disks go together again.
    ensures laws { IsTold (map string_bytes words.now) (B.tells bay.new) → OnReport result (K.written out.old) (K.written out.new) (HasLawsFor ⟦<Store<Fuse<B::Device>> as Vault>⟧ B.Device.Disk (map string_bytes words.now) (S.left script.old) (S.left script.new) (B.at bay.old) (B.at bay.new)) }
    // The words are told bad just where the program's command line has no such words, and then nothing is read.
    ensures words { AreWordsTold (are_bad (map string_bytes words.now)) result × OnBadWords result (script.new ≡ script.old) }
    // Of a script that line of what the source gave is the first outside the language, or the lines are too many, or the source failed, which is
    // not asked so far behind a line outside the language. Of a drill or a storm none of this is told.
    ensures no_lines { OnNoLines result (IsWithoutLines (map string_bytes words.now) (S.left script.old) (S.left script.new)) }
    // A drill or a storm reads nothing.
    ensures unread { (name_named (map string_bytes words.now) ≡ Some (codes "drill")) ⊎ (name_named (map string_bytes words.now) ≡ Some (codes "storm")) → script.new ≡ script.old }
    // A fault of a stream or of the bay is told just where it came in this call.
    ensures faults { IsReadFaultTold result (S.faults script.old) (S.faults script.new) × IsWriteFaultTold result (K.faults out.old) (K.faults out.new) × IsBayFaultTold result (B.faults bay.old) (B.faults bay.new) }
    // Why a run ended before its report, and what is said of the disks then: the bay or a disk failed in this call, a disk is none that its
    // server starts on, a journal was full, an epoch was the last, or memory was wanting.
    ensures disk { IsTold (map string_bytes words.now) (B.tells bay.new) → OnCutShort result (bay.new ≡ bay.old) (HasCause B.Device.Disk (map string_bytes words.now) (S.left script.old) (S.left script.new) (B.at bay.old) (B.at bay.new) (B.faults bay.old) (B.faults bay.new)) }
    // Of any bay, also of one that does not tell what stands in it: what is written is the report of a run of the script, and limits and
    // servers are what they may be. That the disk of the server failed in this call, and that a journal was full, `disk` says.
    ensures any_bay { IsToldAnywhere ⟦<Store<Fuse<B::Device>> as Vault>⟧ (map string_bytes words.now) (S.left script.old) (S.left script.new) (K.written out.old) (K.written out.new) result }
    // The disks are those of the folder that the words name, or in memory where they name none.
    ensures folder { IsFolderTold result (B.chosen bay.old) (B.chosen bay.new) (folder_named (map string_bytes words.now)) }
    // No disk is asked for before the script is read.
    ensures untaken { OnUntaken result (bay.new ≡ bay.old) }
    // A script of the language is played to its end on disks that are new or their servers' with notes that go together, where nothing
    // fails, unless memory is wanting, a journal is full or a server has come to the last epoch.
    ensures complete { are_bad (map string_bytes words.now) ≡ false → HasLinesFor (map string_bytes words.now) (S.left script.old) → (Rose (S.faults script.old) (S.faults script.new) → ⊥) → (Rose (K.faults out.old) (K.faults out.new) → ⊥)
        → (Rose (B.faults bay.old) (B.faults bay.new) → ⊥) → IsTold (map string_bytes words.now) (B.tells bay.new) → StartsHere B.Device.Disk (map string_bytes words.now) (S.left script.old) (S.left script.new) (B.at bay.old) (B.at bay.new) → IsPlayedOrMemory result }
    // Nothing is written but the report.
    ensures unwritten { OnUnwritten result (out.new ≡ out.old) }
{
    let command = match read_command(alloc, words) {
        Ok(command) => command,
        Err(WordsFault::Bad) => return Status::BadWords,
        Err(WordsFault::OutOfMemory) => return Status::OutOfMemory,
    };
    let lines = match lines_of(alloc, &command, script) {
        Ok(lines) => lines,
        Err(ScriptFault::Bad { line }) => return Status::BadScript { line },
        Err(ScriptFault::TooLong) => {
            return Status::TooLong {
                limit: SCRIPT_LINES_MOST,
            };
        }
        Err(ScriptFault::ReadFault) => return Status::ReadFault,
        Err(ScriptFault::OutOfMemory) => return Status::OutOfMemory,
    };
    let played: &[NumberedLine] = &lines;
    match run_bay(alloc, played, shows(&command), folder_of(&command), bay) {
        Ok(ended) => hand_over(&ended, out),
        Err(fault) => ended_by(fault),
    }
}
