//! Calls that read, write and lock pages.
ghost use Rattle.std.specs.Prelude.{◌≡◌, ◌+◌, ◌≤◌, ◌++◌, length, nat_lt, IfOk, OnOk, IsTrue, true, if◌then◌else◌, None, Some};
ghost use Rattle.alp_base.specs.declared.lists.TheConstants.{PAGES_PER_FILE};
ghost use Rattle.alp_files.specs.Act.{open_at, on_open, on_change, is_changing, page_puts, mark_put, read_pages as read_pages_said, write_pages as write_pages_said, lock_pages as lock_pages_said, id_in};
ghost use Rattle.alp_files.specs.Undo.{puts_of};
ghost use Rattle.alp_files.specs.Reading.{TellsPages};
ghost use Rattle.alp_vault.specs.Volumes.{fit_keys};
ghost use Rattle.alp_calls.specs.Looks.{Looks, fault_in};
ghost use Rattle.alp_calls.specs.Opened.{OpensOnly};
ghost use Rattle.alp_calls.specs.Parts.{AllFit, Says, GivesNone, IsProper, reply_of, opens_in};

use crate::CallFault;
use crate::finding::{OpenedFile, access_for, opened_file};
use crate::look::pages_of;
use crate::said::{Effect, OpenChange, Said};
use alp_base::{Access, Cell, FileId, Key, OutOfMemory, PageList, PageRef, Props, Run};
use alp_files::{Refusal, Reply};
use alp_modes::Mode;
use alp_trans::Part;
use alp_vault::Vault;
use std::alloc::Global;

// Whether the run passes the file's size.
fn is_past(run: Run, props: &Props) -> bool
    ensures { result ≡ nat_lt props.now.size (run.first + run.count) }
{
    (props.size as u64) < run.first as u64 + run.count as u64
}

// The pages of a run as puts.
fn page_cells(
    alloc: Global,
    file: FileId,
    first: u32,
    pages: &[PageRef],
) -> Result<Vec<(Key, Cell)>, OutOfMemory>
    requires { first + length pages.now ≤ PAGES_PER_FILE }
    ensures puts { IfOk result (λ v. puts_of v.items ≡ page_puts file first pages.now) }
    ensures fit { IfOk result (λ v. fit_keys v.items ≡ true) }
    ensures all { IfOk result (λ v. length v.items ≡ length pages.now) }
{
    let mut puts = Vec::new(alloc);
    for (i, page) in pages.iter().enumerate() {
        puts.push((
            Key::PageOf(file, first + i as u32),
            Cell::Page(page.share()?),
        ))?;
    }
    Ok(puts)
}

// The leader is put too where the high-water mark rises.
fn raise_mark(
    puts: &mut Vec<(Key, Cell)>,
    file: FileId,
    mut props: Props,
    last: u32,
) -> Result<(), OutOfMemory>
    requires { props.size ≤ PAGES_PER_FILE }
    ensures puts { OnOk result (puts_of puts.new.items ≡ puts_of puts.old.items ++ mark_put file props last) }
    ensures fit { fit_keys puts.old.items ≡ true → OnOk result (fit_keys puts.new.items ≡ true) }
    ensures few { OnOk result (length puts.new.items ≤ length puts.old.items + 1) }
{
    if props.high_water < last {
        props.high_water = last;
        puts.push((Key::Leader(file), Cell::Leader(props)))?;
        return Ok(());
    }
    Ok(())
}

pub(super) fn read_pages<V: Vault>(
    alloc: Global,
    vault: &mut V,
    part: &Part,
    open_no: u32,
    run: Run,
) -> Result<Said, CallFault>
    requires serving { IsTrue (V.serves vault.old) }
    requires fit { AllFit part.now.intents.puts }
    ensures right { IsTrue (V.tells vault.old) → IfOk result (λ s. Says (V.held vault.old).cells part.now s (λ own. on_open own (open_at own.opens open_no) (read_pages_said own run))) }
    ensures id { IfOk result (λ s. GivesNone (reply_of s)) }
    ensures proper { IfOk result (λ s. IsProper part.now s) }
    ensures opens { IfOk result (λ s. OpensOnly (id_in (reply_of s)) (opens_in s)) }
    ensures pages { IfOk result (λ s. TellsPages (Some run.count) (reply_of s)) }
    ensures looked { Looks V.Vault vault.old vault.new (fault_in result) }
{
    let OpenedFile { opened, props } = match opened_file(vault, part, open_no, Access::ReadOnly)? {
        Ok(found) => found,
        Err(refusal) => return Ok(Said::Told(Reply::Refused(refusal))),
    };
    if is_past(run, &props) {
        return Ok(Said::Told(Reply::Refused(Refusal::NoSuchPage { size: props.size })));
    }
    let pages = pages_of(alloc, vault, &part.intents, opened.file, run)?;
    Ok(Said::Told(Reply::Pages(pages)))
}

pub(super) fn write_pages<V: Vault>(
    alloc: Global,
    vault: &mut V,
    part: &Part,
    open_no: u32,
    run: Run,
    pages: &PageList,
) -> Result<Said, CallFault>
    requires serving { IsTrue (V.serves vault.old) }
    requires fit { AllFit part.now.intents.puts }
    requires whole { length pages.now ≡ run.count }
    ensures right { IsTrue (V.tells vault.old) → IfOk result (λ s. Says (V.held vault.old).cells part.now s (λ own. on_change own (open_at own.opens open_no) (write_pages_said own run pages.now))) }
    ensures id { IfOk result (λ s. GivesNone (reply_of s)) }
    ensures proper { IfOk result (λ s. IsProper part.now s) }
    ensures opens { IfOk result (λ s. OpensOnly (id_in (reply_of s)) (opens_in s)) }
    ensures pages { IfOk result (λ s. TellsPages None (reply_of s)) }
    ensures looked { Looks V.Vault vault.old vault.new (fault_in result) }
{
    let OpenedFile { opened, props } = match opened_file(vault, part, open_no, Access::Change)? {
        Ok(found) => found,
        Err(refusal) => return Ok(Said::Told(Reply::Refused(refusal))),
    };
    if is_past(run, &props) {
        return Ok(Said::Told(Reply::Refused(Refusal::NoSuchPage { size: props.size })));
    }
    let mut puts = page_cells(alloc, opened.file, run.first, pages.pages())?;
    raise_mark(&mut puts, opened.file, props, run.first + run.count as u32)?;
    Ok(Said::Done {
        reply: Reply::Plain,
        effect: Effect {
            gone: None,
            puts,
            opens: OpenChange::Stay,
        },
    })
}

/// The locks stand already, and nothing is read.
pub(super) fn lock_pages<V: Vault>(
    vault: &mut V,
    part: &Part,
    open_no: u32,
    run: Run,
    mode: Mode,
) -> Result<Said, CallFault>
    requires serving { IsTrue (V.serves vault.old) }
    requires fit { AllFit part.now.intents.puts }
    ensures right { IsTrue (V.tells vault.old) → IfOk result (λ s. Says (V.held vault.old).cells part.now s (λ own.
        if is_changing mode then on_change own (open_at own.opens open_no) (lock_pages_said own run) else on_open own (open_at own.opens open_no) (lock_pages_said own run))) }
    ensures id { IfOk result (λ s. GivesNone (reply_of s)) }
    ensures proper { IfOk result (λ s. IsProper part.now s) }
    ensures opens { IfOk result (λ s. OpensOnly (id_in (reply_of s)) (opens_in s)) }
    ensures pages { IfOk result (λ s. TellsPages None (reply_of s)) }
    ensures looked { Looks V.Vault vault.old vault.new (fault_in result) }
{
    let wanted = access_for(mode);
    let props = match opened_file(vault, part, open_no, wanted)? {
        Ok(found) => found.props,
        Err(refusal) => return Ok(Said::Told(Reply::Refused(refusal))),
    };
    if is_past(run, &props) {
        return Ok(Said::Told(Reply::Refused(Refusal::NoSuchPage { size: props.size })));
    }
    Ok(Said::Told(Reply::Plain))
}
