//! Reading a record.
ghost use Rattle.std.specs.Prelude.{◌≡◌, ◌≤◌, ◌<◌, ℕ, IsTrue, ◌^◌, length, IfOk, IfSome, MatchOption, IsErrOf};
ghost use Rattle.alp_disk.specs.Calls.{OnlyRead};
ghost use Rattle.alp_record.specs.Record.{RecordAt, IsEnd, IsDamaged, next_of};
ghost use Rattle.alp_record.specs.Read.{HasRecordCause};
ghost use Rattle.alp_record.specs.declared.fault.RecordFault.TheVariants.{Damaged};

use crate::body::{read_pages, unpadded};
use crate::header::body_size;
use crate::{Area, RecordFault, record_pages};
use alp_base::{Bytes, Page};
use alp_disk::{Disk, OPEN_GATE};
use std::alloc::Global;

/// The body of the record at a page of the area, or nothing where the records end.
///
/// An open gate with another letter or generation, with a body past the area, or with other bytes
/// than zeros behind the body, is damage.
pub fn read_record<D: Disk>(
    alloc: Global,
    disk: &mut D,
    area: &Area,
    at: u32,
) -> Result<Option<Bytes>, RecordFault>
    requires { area.now.end ≤ D.size disk.old }
    ensures read { IsTrue (D.tells disk.old) → IfOk result (λ found. MatchOption found (IsEnd (D.seen disk.old) area.now.end at) (λ body. RecordAt (D.seen disk.old) area.now.generation area.now.end at body)) }
    ensures fits { IfOk result (λ found. IfSome found (λ body. next_of at body ≤ area.now.end)) }
    ensures small { IfOk result (λ found. IfSome found (λ body. length body < 2 ^ 32)) }
    ensures damaged { IsTrue (D.tells disk.old) → (place : ℕ) → IsErrOf result (Damaged place) → (place ≡ at) × IsDamaged (D.seen disk.old) area.now.generation area.now.end at }
    ensures stays { OnlyRead D.Disk disk.old disk.new }
    ensures cause { HasRecordCause (D.faults disk.old) (D.faults disk.new) (D.allowance disk.new) result }
{
    if at >= area.end {
        return Ok(None);
    }
    let mut page = Page::zero();
    disk.read(at, &mut page)?;
    if page.bytes()[0] != OPEN_GATE {
        return Ok(None);
    }
    let Some(size) = body_size(&page, area.generation) else {
        return Err(RecordFault::Damaged { place: at });
    };
    let pages = record_pages(size);
    if area.end - at < pages {
        return Err(RecordFault::Damaged { place: at });
    }
    let bytes = read_pages(alloc, disk, at + 1, pages - 1)?;
    let Some(body) = unpadded(bytes, size) else {
        return Err(RecordFault::Damaged { place: at });
    };
    Ok(Some(Bytes::new(body)))
}
