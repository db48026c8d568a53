//! What a disk in memory makes of the writes since its last sync.
ghost use Rattle.std.specs.Prelude.{◌≡◌, ◌<◌, ◌≤◌, ◌+◌, ◌++◌, ◌∷◌, ℕ, [], length, replicate, vec_len, vec_capacity, IfOk, false, if◌then◌else◌, nat_lt};
ghost use Rattle.rand_core.specs.Steps.{stream_of, steps_u32};
ghost use Rattle.rand_pcg.specs.Pcg.{pcg32};
ghost use Rattle.alp_base.specs.Pages.{overwritten};
ghost use Rattle.alp_base.specs.Pages.{zero_page};
ghost use Rattle.alp_disk.specs.Disk.{Image, page as page_of, IsImage, with_bytes};
ghost use Rattle.alp_disk.specs.Pending.{written_bytes, replay, alternated, low_bytes, filled, words_of, MayLeave};

use crate::pending_write::PendingWrite;
use alp_base::Page;
use rand_core::{Rng, SeedableRng};
use rand_pcg::Pcg32;
use std::alloc::{AllocError, Global};

/// So many writes wait for a sync at most.
pub const ROOM: usize = 8192;

/// So many zero pages.
pub fn zero_pages(alloc: Global, count: u32) -> Result<Vec<Page>, AllocError>
    ensures { IfOk result (λ pages. pages.items ≡ replicate count zero_page) }
{
    let mut pages = Vec::with_capacity(alloc, count as usize)?;
    for _ in 0..count {
        pages.push(Page::zero())?;
    }
    Ok(pages)
}

/// Puts bytes into a page, where there is such a page.
#[tactic(auto, unfolding(crate::specs::Disk::with_bytes))]
fn put(pages: &mut Vec<Page>, at: u32, offset: u16, bytes: &[u8])
    requires { offset + length bytes.now ≤ 512 }
    ensures { pages.new.items ≡ with_bytes pages.old.items at offset bytes.now }
{
    if let Some(page) = pages.get_mut(at as usize) {
        *page = page.overwritten(offset as usize, bytes);
    }
}

/// Makes one more write in the page at that place. A write of another page copies nothing.
#[tactic(auto, using(crate::proofs::Replays::page_rules))]
fn overlay(page: &mut Page, at: u32, write: &PendingWrite)
    ensures { (image : Image) → at < length image → page.old ≡ page_of image at → page.new ≡ page_of (with_bytes image write.now.at write.now.offset (written_bytes write.now)) at }
{
    if write.at == at {
        *page = page.overwritten(write.offset as usize, write.bytes());
    }
}

/// A page as it reads, with the writes that wait for a sync.
pub fn newest(stable: &Vec<Page>, pending: &Vec<PendingWrite>, at: u32) -> Page
    requires { at < length stable.now.items }
    ensures { result ≡ page_of (replay stable.now.items pending.now.items) at }
{
    let mut page = stable[at as usize];
    for write in pending.iter() {
        overlay(&mut page, at, write);
    }
    page
}

/// Makes each of the writes.
fn keep_all(stable: &mut Vec<Page>, pending: &Vec<PendingWrite>)
    ensures { stable.new.items ≡ replay stable.old.items pending.now.items }
{
    for write in pending.iter() {
        put(stable, write.at, write.offset, write.bytes());
    }
}

/// Makes every other one of the writes, and not the first.
fn keep_every_other(stable: &mut Vec<Page>, pending: &Vec<PendingWrite>)
    ensures { stable.new.items ≡ alternated false stable.old.items pending.now.items }
{
    let mut keeps = false;
    for write in pending.iter() {
        if keeps {
            put(stable, write.at, write.offset, write.bytes());
        }
        keeps = !keeps;
    }
}

/// Takes the low bytes of successive words.
fn draw(bytes: &mut [u8], rng: &mut Pcg32)
    ensures { (bytes.new, stream_of (steps_u32 pcg32) rng.new) ≡ low_bytes (length bytes.old) (stream_of (steps_u32 pcg32) rng.old) }
{
    for i in 0..bytes.len() {
        bytes[i] = (rng.next_u32() % 256) as u8;
    }
}

/// Fills the range of a write.
fn fill(stable: &mut Vec<Page>, write: &PendingWrite, rng: &mut Pcg32)
    ensures bytes { stable.new.items ≡ with_bytes stable.old.items write.now.at write.now.offset (low_bytes write.now.len (stream_of (steps_u32 pcg32) rng.old)).0 }
    ensures words { stream_of (steps_u32 pcg32) rng.new ≡ (low_bytes write.now.len (stream_of (steps_u32 pcg32) rng.old)).1 }
{
    let mut bytes = [0; 512];
    let drawn = &mut bytes[..write.len as usize];
    draw(drawn, rng);
    put(stable, write.at, write.offset, drawn);
}

/// Fills the range of each of the writes.
#[tactic(auto, unfolding(crate::specs::Pending::words_of))]
fn fill_all(stable: &mut Vec<Page>, pending: &Vec<PendingWrite>, pick: u64)
    ensures { stable.new.items ≡ filled (words_of pick) stable.old.items pending.now.items }
{
    let mut rng = Pcg32::seed_from_u64(pick);
    for write in pending.iter() {
        fill(stable, write, &mut rng);
    }
}

/// Makes the writes stable.
pub fn settle(stable: &mut Vec<Page>, pending: &mut Vec<PendingWrite>)
    ensures stable { stable.new.items ≡ replay stable.old.items pending.old.items }
    ensures none { pending.new.items ≡ [] }
    ensures capacity { vec_capacity pending.new ≡ vec_capacity pending.old }
{
    keep_all(stable, pending);
    pending.clear();
}

/// Makes the writes stable where there is no room for one more.
fn make_room(stable: &mut Vec<Page>, pending: &mut Vec<PendingWrite>)
    requires { ROOM ≤ vec_capacity pending.old }
    ensures stable { stable.new.items ≡ (if nat_lt (length pending.old.items) ROOM then stable.old.items else replay stable.old.items pending.old.items) }
    ensures pending { pending.new.items ≡ (if nat_lt (length pending.old.items) ROOM then pending.old.items else []) }
    ensures capacity { vec_capacity pending.new ≡ vec_capacity pending.old }
    ensures room { vec_len pending.new < ROOM }
{
    if pending.len() >= ROOM {
        settle(stable, pending);
    }
}

/// Notes a write, where there is no room after the earlier ones are stable.
pub fn note(stable: &mut Vec<Page>, pending: &mut Vec<PendingWrite>, write: PendingWrite)
    requires { ROOM ≤ vec_capacity pending.old }
    ensures stable { stable.new.items ≡ (if nat_lt (length pending.old.items) ROOM then stable.old.items else replay stable.old.items pending.old.items) }
    ensures pending { pending.new.items ≡ (if nat_lt (length pending.old.items) ROOM then pending.old.items else []) ++ write ∷ [] }
    ensures capacity { vec_capacity pending.new ≡ vec_capacity pending.old }
{
    make_room(stable, pending);
    pending.push_reserved(write);
}

/// What a crash makes of the writes. Pick 0 drops them all, 1 keeps them all, 2 drops and keeps them
/// by turns, and a greater one fills their ranges.
#[tactic(auto, using(crate::proofs::Replays::crash_rules))]
pub fn crash(stable: &mut Vec<Page>, pending: &Vec<PendingWrite>, pick: u64)
    ensures drops { pick ≡ 0 → stable.new.items ≡ stable.old.items }
    ensures keeps { pick ≡ 1 → stable.new.items ≡ replay stable.old.items pending.now.items }
    ensures alternates { pick ≡ 2 → stable.new.items ≡ alternated false stable.old.items pending.now.items }
    ensures fills { 2 < pick → stable.new.items ≡ filled (words_of pick) stable.old.items pending.now.items }
    ensures left { (n : ℕ) → IsImage n stable.old.items → MayLeave n stable.old.items pending.now.items stable.new.items }
{
    match pick {
        0 => {}
        1 => keep_all(stable, pending),
        2 => keep_every_other(stable, pending),
        _ => fill_all(stable, pending, pick),
    }
}
