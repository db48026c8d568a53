//! Cells and changes of cells, as they stand in notes.
ghost use Rattle.std.specs.Prelude.{◌≡◌, IfOk, OnOk, true};
ghost use Rattle.alp_fields.specs.Forms.{IsRead, IsWritten};
ghost use Rattle.alp_fields.specs.Fields.{file_id};
ghost use Rattle.alp_fields.specs.ChangeField.{is_cell_of, cell_at, cut, placed, change_form, IsNotedChange};

use crate::FieldReader;
use crate::ids::put_file_id;
use crate::items::{Item, put_rising, read_rising};
use crate::keys::put_key;
use crate::names::put_page;
use crate::numbers::put_u32;
use crate::owner_field::{put_owner, read_owner};
use crate::props_field::{put_props, read_props};
use alp_base::{Cell, Change, FileId, Key, OutOfMemory, PageRef};
use std::alloc::Global;

// ---- items

impl Item for FileId {
    ghost form = { file_id };

    ghost can_put = { λ _. Unit {0} };

    fn read(_alloc: Global, reader: &mut FieldReader) -> Result<Option<FileId>, OutOfMemory> {
        Ok(reader.file_id())
    }

    fn put(&self, out: &mut Vec<u8>) -> Result<(), OutOfMemory> {
        put_file_id(out, *self)
    }
}

#[tactic(auto, unfolding(crate::specs::ChangeField::cut))]
fn read_cut(reader: &mut FieldReader) -> Option<(FileId, u32)>
    ensures { IsRead cut reader.old reader.new result }
{
    let file = reader.file_id()?;
    let size = reader.u32()?;
    Some((file, size))
}

#[tactic(auto, unfolding(crate::specs::ChangeField::cut))]
fn put_cut(out: &mut Vec<u8>, file: FileId, size: u32) -> Result<(), OutOfMemory>
    ensures { OnOk result (IsWritten cut (file, size) out.old.items out.new.items) }
{
    put_file_id(out, file)?;
    put_u32(out, size)
}

impl Item for (FileId, u32) {
    ghost form = { cut };

    ghost can_put = { λ _. Unit {0} };

    fn read(
        _alloc: Global,
        reader: &mut FieldReader,
    ) -> Result<Option<(FileId, u32)>, OutOfMemory> {
        Ok(read_cut(reader))
    }

    fn put(&self, out: &mut Vec<u8>) -> Result<(), OutOfMemory> {
        put_cut(out, self.0, self.1)
    }
}

// What stands behind the key: it says of which kind the cell is.
fn read_cell(alloc: Global, reader: &mut FieldReader, at: &Key) -> Result<Option<Cell>, OutOfMemory>
    ensures { IfOk result (IsRead (cell_at at.now) reader.old reader.new) }
{
    match at {
        Key::Leader(_) => {
            let Some(props) = read_props(alloc, reader)? else {
                return Ok(None);
            };
            Ok(Some(Cell::Leader(props)))
        }
        Key::PageOf(_, _) => {
            let Some(page) = reader.page() else {
                return Ok(None);
            };
            let shared = PageRef::new(alloc, page)?;
            Ok(Some(Cell::Page(shared)))
        }
        Key::OwnerOf(_) => {
            let Some(owner) = read_owner(alloc, reader)? else {
                return Ok(None);
            };
            Ok(Some(Cell::Owner(owner)))
        }
    }
}

fn put_cell(out: &mut Vec<u8>, at: &Key, cell: &Cell) -> Result<(), OutOfMemory>
    requires { is_cell_of at.now cell.now ≡ true }
    ensures { OnOk result (IsWritten (cell_at at.now) cell.now out.old.items out.new.items) }
{
    match cell {
        Cell::Leader(props) => put_props(out, props),
        Cell::Page(page) => put_page(out, page.bytes()),
        Cell::Owner(owner) => put_owner(out, owner),
    }
}

#[tactic(auto, unfolding(crate::specs::ChangeField::placed))]
fn read_placed(alloc: Global, reader: &mut FieldReader) -> Result<Option<(Key, Cell)>, OutOfMemory>
    ensures { IfOk result (IsRead placed reader.old reader.new) }
{
    let Some(at) = reader.key() else {
        return Ok(None);
    };
    let Some(cell) = read_cell(alloc, reader, &at)? else {
        return Ok(None);
    };
    Ok(Some((at, cell)))
}

#[tactic(auto, unfolding(crate::specs::ChangeField::placed))]
fn put_placed(out: &mut Vec<u8>, at: &Key, cell: &Cell) -> Result<(), OutOfMemory>
    requires { is_cell_of at.now cell.now ≡ true }
    ensures { OnOk result (IsWritten placed (at.now, cell.now) out.old.items out.new.items) }
{
    put_key(out, at)?;
    put_cell(out, at, cell)
}

impl Item for (Key, Cell) {
    ghost form = { placed };

    ghost can_put = { λ p. is_cell_of p.0 p.1 ≡ true };

    fn read(alloc: Global, reader: &mut FieldReader) -> Result<Option<(Key, Cell)>, OutOfMemory> {
        read_placed(alloc, reader)
    }

    fn put(&self, out: &mut Vec<u8>) -> Result<(), OutOfMemory> {
        put_placed(out, &self.0, &self.1)
    }
}

// ---- changes

/// The change at the front of the bytes that are left, if one is spelled there.
#[tactic(auto, unfolding(crate::specs::ChangeField::change_form))]
pub(super) fn read_change(
    alloc: Global,
    reader: &mut FieldReader,
) -> Result<Option<Change>, OutOfMemory>
    ensures { IfOk result (IsRead change_form reader.old reader.new) }
{
    let Some(drops) = read_rising::<FileId>(alloc, reader)? else {
        return Ok(None);
    };
    let Some(cuts) = read_rising::<(FileId, u32)>(alloc, reader)? else {
        return Ok(None);
    };
    let Some(puts) = read_rising::<(Key, Cell)>(alloc, reader)? else {
        return Ok(None);
    };
    Ok(Some(Change { drops, cuts, puts }))
}

/// Writes the change behind what stands there.
#[tactic(auto, unfolding(crate::specs::ChangeField::change_form))]
pub(super) fn put_change(out: &mut Vec<u8>, change: &Change) -> Result<(), OutOfMemory>
    requires { IsNotedChange change.now }
    ensures { OnOk result (IsWritten change_form change.now out.old.items out.new.items) }
{
    put_rising(out, change.drops.as_slice())?;
    put_rising(out, change.cuts.as_slice())?;
    put_rising(out, change.puts.as_slice())
}
