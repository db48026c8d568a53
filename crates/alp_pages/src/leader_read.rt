//! Reading a leader page.
ghost use Rattle.std.specs.Prelude.{◌≡◌, IfOk, IfSome, Some, option_map};
ghost use Rattle.alp_fields.specs.Forms.{IsRead, whole, repeated, u32 as word};
ghost use Rattle.alp_pages.specs.declared.leader.Leader.{Leader as LeaderValue};
ghost use Rattle.alp_pages.specs.Leader.{head, sized_numbers, tail, leader_fields, leader_body, leader_page};

use crate::leader_form::UNUSED_BYTES;
use crate::{INDEX_PLACES, Leader, Places};
use alp_base::{AccessList, FileId, Name, OutOfMemory, PAGES_PER_FILE, Page, Props};
use alp_fields::FieldReader;
use std::alloc::Global;

#[tactic(auto, unfolding(crate::specs::Leader::head))]
fn read_head(reader: &mut FieldReader) -> Option<(FileId, Name, Name)>
    ensures { IsRead head reader.old reader.new (option_map (λ x. (x.0, (x.1, x.2))) result) }
{
    let file = reader.file_id()?;
    let owner = reader.named_field()?;
    let name = reader.named_field()?;
    Some((file, owner, name))
}

#[tactic(auto, unfolding(crate::specs::Leader::sized_numbers, alp_fields::specs::PropsField::numbers))]
fn read_numbers(reader: &mut FieldReader) -> Option<(u16, u64, u64, u32, u32)>
    ensures { IsRead sized_numbers reader.old reader.new (option_map (λ x. (x.0, (x.1, (x.2, (x.3, x.4))))) result) }
{
    let type_no = reader.u16()?;
    let create_time = reader.u64()?;
    let byte_length = reader.u64()?;
    let size = reader.u32()?;
    let high_water = reader.u32()?;
    if size > PAGES_PER_FILE {
        return None;
    }
    Some((type_no, create_time, byte_length, size, high_water))
}

fn read_places(reader: &mut FieldReader) -> Option<Places>
    ensures { IsRead (repeated word INDEX_PLACES) reader.old reader.new result }
{
    let mut places = [0u32; 32];
    reader.u32s(&mut places)?;
    Some(Places::new(places))
}

#[tactic(auto, unfolding(crate::specs::Leader::tail))]
fn read_tail(
    alloc: Global,
    reader: &mut FieldReader,
) -> Result<Option<(AccessList, AccessList, Places)>, OutOfMemory>
    ensures { IfOk result (λ found. IsRead tail reader.old reader.new (option_map (λ x. (x.0, (x.1, x.2))) found)) }
{
    let Some(read) = reader.list_field(alloc)? else {
        return Ok(None);
    };
    let Some(modify) = reader.list_field(alloc)? else {
        return Ok(None);
    };
    let Some(index) = read_places(reader) else {
        return Ok(None);
    };
    Ok(Some((read, modify, index)))
}

#[tactic(auto, unfolding(crate::specs::Leader::leader_fields))]
fn read_fields(alloc: Global, reader: &mut FieldReader) -> Result<Option<Leader>, OutOfMemory>
    ensures { IfOk result (IsRead leader_fields reader.old reader.new) }
{
    let Some((file, owner, name)) = read_head(reader) else {
        return Ok(None);
    };
    let Some((type_no, create_time, byte_length, size, high_water)) = read_numbers(reader) else {
        return Ok(None);
    };
    let Some((read, modify, index)) = read_tail(alloc, reader)? else {
        return Ok(None);
    };
    let props = Props {
        owner,
        name,
        type_no,
        create_time,
        byte_length,
        size,
        high_water,
        read,
        modify,
    };
    Ok(Some(Leader { file, props, index }))
}

#[tactic(auto, unfolding(crate::specs::Leader::leader_body))]
fn read_body(alloc: Global, reader: &mut FieldReader) -> Result<Option<Leader>, OutOfMemory>
    ensures { IfOk result (IsRead leader_body reader.old reader.new) }
{
    let Some(found) = read_fields(alloc, reader)? else {
        return Ok(None);
    };
    let Some(()) = reader.zeros(UNUSED_BYTES) else {
        return Ok(None);
    };
    Ok(Some(found))
}

#[tactic(auto, unfolding(crate::specs::Leader::leader_page, crate::specs::Leader::format_no))]
fn read_with_format(alloc: Global, reader: &mut FieldReader) -> Result<Option<Leader>, OutOfMemory>
    ensures { IfOk result (IsRead leader_page reader.old reader.new) }
{
    match reader.u8() {
        Some(1) => read_body(alloc, reader),
        _ => Ok(None),
    }
}

fn exact(alloc: Global, page: &Page) -> Result<Option<Leader>, OutOfMemory>
    ensures { IfOk result (λ found. found ≡ whole leader_page page.now) }
{
    let mut reader = FieldReader::new(page.bytes());
    let Some(found) = read_with_format(alloc, &mut reader)? else {
        return Ok(None);
    };
    if !reader.is_empty() {
        return Ok(None);
    }
    Ok(Some(found))
}

/// The leader that the page is, if it is one.
pub fn decode_leader(alloc: Global, page: &Page) -> Result<Option<Leader>, OutOfMemory>
    ensures exact { IfOk result (λ found. found ≡ whole leader_page page.now) }
    // What is read is spelled so.
    ensures found { IfOk result (λ found. IfSome found (λ l. (page.now ≡ leader_page.spell l) × leader_page.Fits l)) }
    // What is spelled so is read.
    ensures only { (l : LeaderValue) → leader_page.Fits l → page.now ≡ leader_page.spell l → IfOk result (λ found. found ≡ Some l) }
{
    exact(alloc, page)
}
