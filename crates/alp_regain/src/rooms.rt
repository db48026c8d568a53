//! Room for ready parts: on the volume, and in the log.
ghost use Rattle.std.specs.Prelude.{◌≡◌, ◌≤◌, ◌+◌, ◌^◌, true, false, nat_le, sum_by, List, IsTrue, IfOk, length, map as list_map};
ghost use Rattle.alp_regain.specs.Together.{log_sum};
ghost use Rattle.alp_regain.specs.Rooms.{part_size, HaveRoomFor, places_in, files_in, owners_in};

use crate::RegainedPart;
use alp_base::OutOfMemory;
use alp_vault::{FILES_PER_SERVER, HEAD_PAGES, OWNERS_PER_SERVER, Vault};
use alp_worker::{PartSize, ReadySum};
use std::alloc::Global;

// What is counted of the parts in the log.
fn sizes_of(alloc: Global, parts: &[RegainedPart]) -> Result<Vec<PartSize>, OutOfMemory>
    ensures { IfOk result (λ sizes. sizes.items ≡ list_map part_size parts.now) }
{
    let mut sizes = Vec::new(alloc);
    for part in parts {
        sizes.push(PartSize {
            cells: part.part.counts.cells,
            locks: part.locks,
        })?;
    }
    Ok(sizes)
}

/// Whether a log area of so many pages has room for the parts.
pub(super) fn log_has_room(
    alloc: Global,
    area: u32,
    parts: &[RegainedPart],
) -> Result<bool, OutOfMemory>
    requires { length parts.now ≤ 64 }
    ensures { IfOk result (λ b. b ≡ nat_le (log_sum (list_map part_size parts.now)) area) }
{
    let sizes = sizes_of(alloc, parts)?;
    let sum = ReadySum::of(sizes.as_slice());
    Ok(24 + sum.weights + sum.greatest <= u64::from(area))
}

fn places_of(parts: &[RegainedPart]) -> u64
    requires { length parts.now ≤ 64 }
    ensures same { result ≡ sum_by places_in parts.now }
    ensures few { result ≤ 2 ^ 40 }
{
    let mut places = 0;
    for part in parts {
        places += u64::from(part.part.counts.places);
    }
    places
}

fn files_of(parts: &[RegainedPart]) -> u64
    requires { length parts.now ≤ 64 }
    ensures same { result ≡ sum_by files_in parts.now }
    ensures few { result ≤ 2 ^ 40 }
{
    let mut files = 0;
    for part in parts {
        files += u64::from(part.part.counts.files);
    }
    files
}

fn owners_of(parts: &[RegainedPart]) -> u64
    requires { length parts.now ≤ 64 }
    ensures same { result ≡ sum_by owners_in parts.now }
    ensures few { result ≤ 2 ^ 40 }
{
    let mut owners = 0;
    for part in parts {
        owners += u64::from(part.part.counts.owners);
    }
    owners
}

/// Whether the volume has room for the parts, and there are no more files and owners with theirs than a server holds.
pub(super) fn volume_has_room<V: Vault>(vault: &V, parts: &[RegainedPart]) -> bool
    requires serving { IsTrue (V.serves vault.now) }
    requires few { length parts.now ≤ 64 }
    ensures yes { IsTrue (V.tells vault.now) → result ≡ true → HaveRoomFor (V.volume vault.now) (V.held vault.now).cells parts.now }
    ensures no { IsTrue (V.tells vault.now) → result ≡ false → HaveRoomFor (V.volume vault.now) (V.held vault.now).cells parts.now → ⊥ }
{
    let places = u64::from(vault.used()) + places_of(parts) + u64::from(HEAD_PAGES);
    if places > u64::from(vault.sizes().home) {
        return false;
    }
    let files = u64::from(vault.file_count()) + files_of(parts);
    if files > u64::from(FILES_PER_SERVER) {
        return false;
    }
    let owners = u64::from(vault.owner_count()) + owners_of(parts);
    owners <= u64::from(OWNERS_PER_SERVER)
}
