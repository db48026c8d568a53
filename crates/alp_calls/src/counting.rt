//! What a part comes to with what goes at a call and with what it puts.
ghost use Rattle.std.specs.Prelude.{◌≡◌, ℕ, ◌+◌, ◌-◌, ◌<◌, ◌≤◌, List, ◌++◌, length, filter, true, false, not, None, Some, IsTrue, IfOk, OnOk};
ghost use Rattle.std.specs.FinMap as map;
ghost use Rattle.alp_base.specs.declared.key.Key.TheVariants.{PageOf};
ghost use Rattle.alp_files.specs.Counts.{block_of, APageStands};
ghost use Rattle.alp_files.specs.Edits.{Edit};
ghost use Rattle.alp_files.specs.Needs.{intents_of, intents_from, changed_by};
ghost use Rattle.alp_files.specs.Undo.{puts_of};
ghost use Rattle.alp_trans.specs.Counting.{AreCountsOf, AreFew, counts_with, has_block, left_by, no_counts};
ghost use Rattle.alp_trans.specs.Parts.{ahead_of, gone_edits, takes as takes_said};
ghost use Rattle.alp_trans.specs.declared.counts.Sight.{Sight as ASight};
ghost use Rattle.alp_vault.specs.Volumes.{fits_key, fit_keys};
ghost use Rattle.alp_calls.specs.Looks.{Looks, fault_in};
ghost use Rattle.alp_calls.specs.Parts.{IsPart, ArePuts};
ghost use Rattle.alp_calls.specs.Sights.{IsSight, IsRaised, IsTurned, is_own, is_first_there, has_block_there};

use crate::CallFault;
use crate::look::fetched;
use alp_base::{BLOCK_PAGES, Cell, FileId, Key, PAGES_PER_FILE};
use alp_files::CellMap;
use alp_trans::{Ahead, Counts, Gone, Intents, Part, Sight, takes};
use alp_vault::Vault;
use std::alloc::Global;

// Whether the block of the page has a page.
fn has_page(cells: &CellMap, file: FileId, number: u32) -> bool
    requires { number < PAGES_PER_FILE }
    ensures { result ≡ has_block cells.now (block_of file number) }
{
    let first = number - number % BLOCK_PAGES;
    cells.has_page_in(file, first, first + (BLOCK_PAGES - 1))
}

// Whether it has one that is put.
fn puts_page(ahead: &Ahead, file: FileId, number: u32) -> bool
    requires { number < PAGES_PER_FILE }
    ensures { result ≡ has_block ahead.now.puts (block_of file number) }
{
    let first = number - number % BLOCK_PAGES;
    ahead.puts_page_in(file, first, first + (BLOCK_PAGES - 1))
}

// Whether a page of the file stands in the vault from the first number to below the other.
fn stands_below<V: Vault>(
    vault: &mut V,
    file: FileId,
    first: u32,
    end: u32,
) -> Result<bool, CallFault>
    requires { IsTrue (V.serves vault.old) }
    ensures page { IsTrue (V.tells vault.old) → IfOk result (λ b. b ≡ true → (first < end) × APageStands (V.held vault.old).cells file first (end - 1)) }
    ensures none { IsTrue (V.tells vault.old) → IfOk result (λ b. b ≡ false → (n : ℕ) → first ≤ n → n < end → map.get (V.held vault.old).cells (PageOf file n) ≡ None) }
    ensures looked { Looks V.Vault vault.old vault.new (fault_in result) }
{
    for number in first..end {
        let page = fetched(vault, &Key::PageOf(file, number))?;
        if page.is_some() {
            return Ok(true);
        }
    }
    Ok(false)
}

// Whether the block of the page has one in the vault that does not go. Only where its pages go from a number in it on are they looked at.
fn is_open<V: Vault>(
    vault: &mut V,
    ahead: &Ahead,
    file: FileId,
    number: u32,
) -> Result<bool, CallFault>
    requires serving { IsTrue (V.serves vault.old) }
    requires within { number < PAGES_PER_FILE }
    ensures open { IsTrue (V.tells vault.old) → IfOk result (λ b. b ≡ has_block (left_by ahead.now (V.held vault.old).cells) (block_of file number)) }
    ensures looked { Looks V.Vault vault.old vault.new (fault_in result) }
{
    if !vault.has_block(file, number / BLOCK_PAGES) {
        return Ok(false);
    }
    let first = number - number % BLOCK_PAGES;
    let end = ahead.first_gone(&file).unwrap_or(first + BLOCK_PAGES);
    if first + BLOCK_PAGES <= end {
        return Ok(true);
    }
    stands_below(vault, file, first, end)
}

// Whether it has one anywhere.
fn is_open_there<V: Vault>(
    vault: &mut V,
    ahead: &Ahead,
    more: &CellMap,
    file: FileId,
    number: u32,
) -> Result<bool, CallFault>
    requires serving { IsTrue (V.serves vault.old) }
    requires within { number < PAGES_PER_FILE }
    ensures open { IsTrue (V.tells vault.old) → IfOk result (λ b. b ≡ has_block_there more.now ahead.now (V.held vault.old).cells (block_of file number)) }
    ensures looked { Looks V.Vault vault.old vault.new (fault_in result) }
{
    if has_page(more, file, number) || puts_page(ahead, file, number) {
        return Ok(true);
    }
    is_open(vault, ahead, file, number)
}

// Whether the put is that of a page whose block has none.
fn is_first<V: Vault>(
    vault: &mut V,
    ahead: &Ahead,
    more: &CellMap,
    put: &(Key, Cell),
) -> Result<bool, CallFault>
    requires serving { IsTrue (V.serves vault.old) }
    requires fits { fits_key put.now.0 put.now.1 ≡ true }
    ensures first { IsTrue (V.tells vault.old) → IfOk result (λ b. b ≡ is_first_there more.now ahead.now (V.held vault.old).cells put.now.0) }
    ensures looked { Looks V.Vault vault.old vault.new (fault_in result) }
{
    match &put.0 {
        Key::PageOf(file, number) => {
            let open = is_open_there(vault, ahead, more, *file, *number)?;
            Ok(!open)
        }
        _ => Ok(false),
    }
}

// Whether the call or the part puts a cell there.
fn is_put_there(ahead: &Ahead, more: &CellMap, key: &Key) -> bool
    ensures { result ≡ is_own more.now ahead.now key.now }
{
    more.get(key).is_some() || ahead.puts_at(key)
}

// What the part sees where the call puts a cell, behind earlier puts of it.
fn sight_at<V: Vault>(
    vault: &mut V,
    ahead: &Ahead,
    more: &CellMap,
    put: &(Key, Cell),
) -> Result<Sight, CallFault>
    requires serving { IsTrue (V.serves vault.old) }
    requires fits { fits_key put.now.0 put.now.1 ≡ true }
    ensures sight { IfOk result (λ s. IsSight (V.tells vault.old) more.now ahead.now (V.held vault.old).cells put.now.0 s) }
    ensures looked { Looks V.Vault vault.old vault.new (fault_in result) }
{
    if is_put_there(ahead, more, &put.0) {
        return Ok(Sight::Put);
    }
    let stood = fetched(vault, &put.0)?.is_some();
    if !ahead.is_gone(&put.0) && stood {
        return Ok(Sight::Stands);
    }
    if is_first(vault, ahead, more, put)? {
        return Ok(Sight::First);
    }
    if stood {
        return Ok(Sight::Again);
    }
    Ok(Sight::Beside)
}

// The counts with one put more.
fn count_put<V: Vault>(
    vault: &mut V,
    ahead: &Ahead,
    more: &mut CellMap,
    counts: Counts,
    put: &(Key, Cell),
) -> Result<Counts, CallFault>
    requires serving { IsTrue (V.serves vault.old) }
    requires fits { fits_key put.now.0 put.now.1 ≡ true }
    requires few { AreFew counts }
    requires room { counts.cells < 65536 }
    ensures counted { IfOk result (λ n. (s : ASight) × IsSight (V.tells vault.old) more.old ahead.now (V.held vault.old).cells put.now.0 s × (n ≡ counts_with counts put.now.0 s)) }
    ensures more { OnOk result (more.new ≡ map.insert more.old put.now.0 put.now.1) }
    ensures looked { Looks V.Vault vault.old vault.new (fault_in result) }
{
    let sight = sight_at(vault, ahead, more, put)?;
    more.put(put.0, put.1.clone()?)?;
    Ok(counts.with(&put.0, sight))
}

// The counts with all puts.
fn count_puts<V: Vault>(
    alloc: Global,
    vault: &mut V,
    ahead: &Ahead,
    start: Counts,
    puts: &[(Key, Cell)],
) -> Result<Counts, CallFault>
    requires serving { IsTrue (V.serves vault.old) }
    requires few { AreFew start }
    requires room { start.cells + length puts.now < 65536 }
    requires fit { fit_keys puts.now ≡ true }
    ensures counted { IfOk result (λ n. IsRaised (V.tells vault.old) (V.held vault.old).cells ahead.now (intents_from ahead.now (puts_of puts.now)) start n) }
    ensures most { IfOk result (λ n. n.cells ≤ start.cells + length puts.now) }
    ensures looked { Looks V.Vault vault.old vault.new (fault_in result) }
{
    let mut counts = start;
    let mut more = CellMap::new(alloc);
    for put in puts {
        counts = count_put(vault, ahead, &mut more, counts, put)?;
    }
    Ok(counts)
}

// What these puts of a file come to where nothing else of it is put, with so many cells besides.
fn count_file<V: Vault>(
    alloc: Global,
    vault: &mut V,
    intents: &Intents,
    gone: Option<Gone>,
    marks: u32,
    puts: &[(Key, Cell)],
) -> Result<Counts, CallFault>
    requires serving { IsTrue (V.serves vault.old) }
    requires room { marks + length puts.now < 65536 }
    requires fit { fit_keys puts.now ≡ true }
    ensures counted { IfOk result (λ n. IsRaised (V.tells vault.old) (V.held vault.old).cells (ahead_of intents.now gone map.empty) (intents_from (ahead_of intents.now gone map.empty) (puts_of puts.now)) (record no_counts { cells = marks }) n) }
    ensures most { IfOk result (λ n. n.cells ≤ marks + length puts.now) }
    ensures looked { Looks V.Vault vault.old vault.new (fault_in result) }
{
    let none = CellMap::new(alloc);
    let ahead = Ahead::new(intents, gone, &none);
    count_puts(alloc, vault, &ahead, Counts::of_cells(marks), puts)
}

// Those of the puts stay that what goes does not take.
fn keep_staying(puts: &mut Vec<(Key, Cell)>, gone: Gone)
    ensures { puts.new.items ≡ filter (λ e. not (takes_said (Some gone) e.0)) puts.old.items }
{
    puts.retain(|put| !takes(Some(gone), &put.0));
}

// What the part comes to where something of a file goes: of the file, what it comes to then in place of what it came to.
fn counts_turned<V: Vault>(
    alloc: Global,
    vault: &mut V,
    part: &Part,
    gone: Gone,
) -> Result<Counts, CallFault>
    requires serving { IsTrue (V.serves vault.old) }
    requires part { IsPart part.now }
    ensures counted { IfOk result (λ n. IsTurned (V.tells vault.old) (V.held vault.old).cells part.now.intents (intents_from part.now.intents (gone_edits (Some gone))) part.now.counts n) }
    ensures most { IfOk result (λ n. n.cells ≤ part.now.counts.cells + 1) }
    ensures looked { Looks V.Vault vault.old vault.new (fault_in result) }
{
    let intents = &part.intents;
    let file = gone.file();
    let mut puts = intents.puts().copies_of(alloc, file)?;
    let before = count_file(alloc, vault, intents, None, intents.marks_of(&file), &puts)?;
    keep_staying(&mut puts, gone);
    let now = count_file(
        alloc,
        vault,
        intents,
        Some(gone),
        intents.marks_with(gone),
        &puts,
    )?;
    Ok(part.counts.exchange(before, now))
}

// What the part comes to with what goes.
fn counts_without<V: Vault>(
    alloc: Global,
    vault: &mut V,
    part: &Part,
    gone: Option<Gone>,
) -> Result<Counts, CallFault>
    requires serving { IsTrue (V.serves vault.old) }
    requires part { IsPart part.now }
    ensures counted { IfOk result (λ n. IsTurned (V.tells vault.old) (V.held vault.old).cells part.now.intents (intents_from part.now.intents (gone_edits gone)) part.now.counts n) }
    ensures most { IfOk result (λ n. n.cells ≤ part.now.counts.cells + 1) }
    ensures looked { Looks V.Vault vault.old vault.new (fault_in result) }
{
    match gone {
        None => Ok(part.counts),
        Some(what) => counts_turned(alloc, vault, part, what),
    }
}

/// What the part comes to with what goes and with all puts.
pub(super) fn counts_after<V: Vault>(
    alloc: Global,
    vault: &mut V,
    part: &Part,
    gone: Option<Gone>,
    puts: &[(Key, Cell)],
) -> Result<Counts, CallFault>
    requires serving { IsTrue (V.serves vault.old) }
    requires part { IsPart part.now }
    requires puts { ArePuts puts.now }
    ensures counts { IsTrue (V.tells vault.old) → IfOk result (λ n. (es : List Edit) → part.now.intents ≡ intents_of es → AreCountsOf (V.held vault.old).cells es part.now.counts → AreCountsOf (V.held vault.old).cells (es ++ (gone_edits gone ++ puts_of puts.now)) n) }
    ensures cells { IfOk result (λ n. n.cells ≡ changed_by (intents_from part.now.intents (gone_edits gone ++ puts_of puts.now))) }
    ensures few { IfOk result (λ n. AreFew n) }
    ensures most { IfOk result (λ n. n.cells < 65536) }
    ensures looked { Looks V.Vault vault.old vault.new (fault_in result) }
{
    let counts = counts_without(alloc, vault, part, gone)?;
    let ahead = Ahead::new(&part.intents, gone, part.intents.puts());
    count_puts(alloc, vault, &ahead, counts, puts)
}
