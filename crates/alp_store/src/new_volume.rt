//! New disks.
ghost use Rattle.std.specs.Prelude.{◌≡◌, ◌≤◌, ◌<◌, ◌↔◌, IsTrue, IfOk, IfErr, OnOk, MatchResult, true, false};
ghost use Rattle.std.specs.FinMap as map;
ghost use Rattle.alp_anchor.specs.Anchor.{AreSizesOf};
ghost use Rattle.alp_base.specs.Allowances.{HasHaltCause};
ghost use Rattle.alp_base.specs.Crashes.{Adds, After, LeavesOnly};
ghost use Rattle.alp_base.specs.Faults.{IsOfVolume, IsCountKept, HasFaultCause};
ghost use Rattle.alp_base.specs.declared.faults.VaultFault.TheVariants as fault;
ghost use Rattle.alp_base.specs.Pages.{zero_page};
ghost use Rattle.alp_disk.specs.Calls.{IsSameDevice, OnlyRead};
ghost use Rattle.alp_disk.specs.Disk.{page as page_of};
ghost use Rattle.alp_disk.specs.Runs.{SameOutside};
ghost use Rattle.alp_pool.specs.Pools.{log_of, device_of};
ghost use Rattle.alp_vault.specs.Vault.{AreSizes, IsServer};
ghost use Rattle.alp_wal.specs.Wal.{disk_of, anchor_of, notes_of, room_of, is_dead};
ghost use Rattle.alp_format.specs.Format.{blank_state, first_anchor, Formatting};
ghost use Rattle.alp_store.specs.Commits.{HasPut};
ghost use Rattle.alp_store.specs.Shelves.{shelf_log, IsShelf};
ghost use Rattle.alp_store.specs.Starts.{IsNew, HasNoAnchor, Making, HasFormatted, HasOpenCause, header_batch as header_batch_said};
ghost use Rattle.alp_store.specs.Told.{contents_of, told_by};

use crate::commit::put;
use crate::home_pages::HomePages;
use crate::open::{buffered, shelve};
use crate::shelf::Shelf;
use alp_base::{Halt, OutOfMemory, Page, PageRef, Sizes, VaultFault};
use alp_batch::{Batch, Images, NoteChanges, PageImage};
use alp_disk::{Disk, write_span};
use alp_format::format;
use alp_pages::new_header;
use std::alloc::Global;

/// Whether the page is all zeros.
fn is_blank<D: Disk>(disk: &mut D, at: u32) -> Result<bool, Halt>
    requires { at < D.size disk.old }
    ensures blank { IsTrue (D.tells disk.old) → IfOk result (λ r. IsTrue r ↔ (page_of (D.seen disk.old) at ≡ zero_page)) }
    ensures read { OnlyRead D.Disk disk.old disk.new }
    ensures cause { HasHaltCause (D.faults disk.old) (D.faults disk.new) (D.allowance disk.new) result }
{
    let mut page = Page::zero();
    disk.read(at, &mut page)?;
    Ok(page.bytes() == Page::zero().bytes())
}

/// Whether the disk is new: its anchors are all zeros, and the sizes make it up.
pub(super) fn is_new<D: Disk>(disk: &mut D, sizes: Sizes) -> Result<bool, Halt>
    requires pages { 2 ≤ D.size disk.old }
    requires limits { AreSizes sizes }
    ensures size { IfOk result (λ r. IsTrue r → AreSizesOf (D.size disk.old) sizes) }
    ensures new { IsTrue (D.tells disk.old) → IfOk result (λ r. IsTrue r ↔ IsNew sizes (D.size disk.old) (D.seen disk.old)) }
    ensures read { OnlyRead D.Disk disk.old disk.new }
    ensures cause { HasHaltCause (D.faults disk.old) (D.faults disk.new) (D.allowance disk.new) result }
{
    if disk.pages() != 2 + 2 * sizes.area + sizes.home {
        return Ok(false);
    }
    if !is_blank(disk, 0)? {
        return Ok(false);
    }
    is_blank(disk, 1)
}

/// The header of a volume that holds nothing, as a batch.
fn header_batch(alloc: Global) -> Result<Batch, OutOfMemory>
    ensures { IfOk result (λ b. b ≡ header_batch_said) }
{
    let page = PageRef::new(alloc, new_header())?;
    let images = vec![in alloc; PageImage { at: 0, page }]?;
    Ok(Batch {
        images: Images::new(images),
        notes: NoteChanges::new(Vec::new(alloc)),
    })
}

/// Commits the header of a new volume.
fn put_header<D: Disk>(alloc: Global, pages: &mut HomePages<D>) -> Result<(), VaultFault>
    requires alive { is_dead (log_of pages.old) ≡ false }
    requires none { notes_of (log_of pages.old) ≡ map.empty }
    ensures { HasPut D.Disk header_batch_said (log_of pages.old) (log_of pages.new) result }
{
    pages.knows();
    let Ok(batch) = header_batch(alloc) else {
        return Err(VaultFault::OutOfMemory);
    };
    put(pages, &batch)
}

/// The home pages of a disk that is formatted, all zeros.
fn blank<D: Disk>(
    alloc: Global,
    disk: D,
    server: u8,
    servers: u8,
    sizes: Sizes,
) -> Result<HomePages<D>, (D, VaultFault)>
    requires { AreSizesOf (D.size disk) sizes }
    ensures told { IsTrue (D.tells disk) → IfOk result (λ p. told_by D.Disk (log_of p) ≡ blank_state sizes.home) }
    ensures anchor { IfOk result (λ p. anchor_of (log_of p) ≡ first_anchor server servers sizes) }
    ensures room { IfOk result (λ p. room_of (log_of p) ≡ sizes.area) }
    ensures none { IfOk result (λ p. notes_of (log_of p) ≡ map.empty) }
    ensures alive { IfOk result (λ p. is_dead (log_of p) ≡ false) }
    ensures moment { IsTrue (D.tells disk) → MatchResult result (λ p. LeavesOnly D.left_since disk (device_of p) (Formatting server servers (D.size disk) sizes (D.may_leave disk))) (λ e. LeavesOnly D.left_since disk e.0 (Formatting server servers (D.size disk) sizes (D.may_leave disk))) }
    ensures below { MatchResult result (λ p. IsSameDevice D.Disk disk (device_of p)) (λ e. IsSameDevice D.Disk disk e.0) }
    ensures volume { IfErr result (λ e. IsOfVolume e.1) }
    ensures cause { HasOpenCause D.Disk (λ p. device_of p) disk result }
{
    match format(alloc, disk, server, servers, sizes) {
        Ok(log) => buffered(alloc, log),
        Err(refused) => Err(refused),
    }
}

/// A volume on a disk that is formatted, which holds nothing.
fn made<D: Disk>(
    alloc: Global,
    disk: D,
    server: u8,
    servers: u8,
    sizes: Sizes,
) -> Result<Shelf<D>, (D, VaultFault)>
    requires sizes { AreSizesOf (D.size disk) sizes }
    requires server { IsServer server servers }
    ensures shelf { IfOk result (IsShelf D.Disk) }
    ensures empty { IsTrue (D.tells disk) → IfOk result (λ s. contents_of D.Disk (shelf_log s) ≡ record { cells = map.empty; notes = map.empty }) }
    ensures none { IfOk result (λ s. notes_of (shelf_log s) ≡ map.empty) }
    ensures anchor { IfOk result (λ s. anchor_of (shelf_log s) ≡ first_anchor server servers sizes) }
    ensures below { MatchResult result (λ s. IsSameDevice D.Disk disk (disk_of (shelf_log s))) (λ e. IsSameDevice D.Disk disk e.0) }
    ensures moment { IsTrue (D.tells disk) → MatchResult result (λ s. LeavesOnly D.left_since disk (disk_of (shelf_log s)) (Making server servers (D.size disk) sizes (D.may_leave disk))) (λ e. LeavesOnly D.left_since disk e.0 (Making server servers (D.size disk) sizes (D.may_leave disk))) }
    ensures volume { IsTrue (D.tells disk) → IfErr result (λ e. IsOfVolume e.1) }
    ensures cause { HasOpenCause D.Disk (λ s. disk_of (shelf_log s)) disk result }
{
    let mut pages = match blank(alloc, disk, server, servers, sizes) {
        Ok(pages) => pages,
        Err(refused) => return Err(refused),
    };
    if let Err(fault) = put_header(alloc, &mut pages) {
        return Err((pages.close().close(), fault));
    }
    shelve(alloc, pages)
}

/// Makes a disk new again: zeros over both anchors, and a sync.
fn renew<D: Disk>(disk: &mut D) -> Result<(), Halt>
    requires { 2 ≤ D.size disk.old }
    ensures blank { IsTrue (D.tells disk.old) → OnOk result (HasNoAnchor D.Disk disk.new) }
    ensures moment { Adds D.left_since disk.old disk.new (After (SameOutside 0 2) (D.may_leave disk.old)) }
    ensures below { IsSameDevice D.Disk disk.old disk.new }
    ensures cause { HasHaltCause (D.faults disk.old) (D.faults disk.new) (D.allowance disk.new) result }
{
    write_span(disk, 0, 2, &[0; 1024])?;
    disk.sync()?;
    Ok(())
}

/// The disk of a volume that wanted memory, made new again; or why it is not.
fn renewed<D: Disk>(disk: D) -> (D, VaultFault)
    requires { 2 ≤ D.size disk }
    ensures blank { IsTrue (D.tells disk) → result.1 ≡ fault.OutOfMemory → HasNoAnchor D.Disk result.0 }
    ensures moment { Adds D.left_since disk result.0 (After (SameOutside 0 2) (D.may_leave disk)) }
    ensures below { IsSameDevice D.Disk disk result.0 }
    ensures later { D.faults disk ≤ D.faults result.0 }
    ensures still { IsCountKept (D.faults disk) (D.faults result.0) result.1 }
    ensures cause { HasFaultCause (D.faults disk) (D.faults result.0) (D.allowance result.0) result.1 }
    ensures volume { IsOfVolume result.1 }
{
    let mut disk = disk;
    match renew(&mut disk) {
        Ok(()) => (disk, VaultFault::OutOfMemory),
        Err(Halt::Failed) => (disk, VaultFault::Failed),
        Err(Halt::Stopped) => (disk, VaultFault::Stopped),
    }
}

fn is_of_memory(why: &VaultFault) -> bool
    ensures yes { result ≡ true → why.now ≡ fault.OutOfMemory }
    ensures no { result ≡ false → why.now ≡ fault.OutOfMemory → ⊥ }
{
    matches!(why, VaultFault::OutOfMemory)
}

/// Formats a disk and opens the volume, which holds nothing. Where memory is not there, the disk is made new again.
pub(super) fn create<D: Disk>(
    alloc: Global,
    disk: D,
    server: u8,
    servers: u8,
    sizes: Sizes,
) -> Result<Shelf<D>, (D, VaultFault)>
    requires sizes { AreSizesOf (D.size disk) sizes }
    requires server { IsServer server servers }
    ensures shelf { IfOk result (IsShelf D.Disk) }
    ensures formatted { IsTrue (D.tells disk) → HasFormatted D.Disk (λ s. shelf_log s) server servers sizes disk result }
    ensures none { IfOk result (λ s. notes_of (shelf_log s) ≡ map.empty) }
    ensures anchor { IfOk result (λ s. anchor_of (shelf_log s) ≡ first_anchor server servers sizes) }
    ensures below { MatchResult result (λ s. IsSameDevice D.Disk disk (disk_of (shelf_log s))) (λ e. IsSameDevice D.Disk disk e.0) }
    ensures cause { HasOpenCause D.Disk (λ s. disk_of (shelf_log s)) disk result }
{
    let (disk, why) = match made(alloc, disk, server, servers, sizes) {
        Ok(shelf) => return Ok(shelf),
        Err(refused) => refused,
    };
    if !is_of_memory(&why) {
        return Err((disk, why));
    }
    Err(renewed(disk))
}
