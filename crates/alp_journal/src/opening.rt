//! What a server was started on.
ghost use Rattle.alp_base.specs.Notes.{Notes as NotesOf};
ghost use Rattle.alp_base.specs.declared.faults.Sizes.{Sizes as SizesOf};
ghost use Rattle.alp_files.specs.Cells.{Cells as CellsOf};

/// What a server held when it was started, its epoch raised. Only contracts see it.
pub trait Opening: Drop {
    ghost cells: { Self → CellsOf };

    ghost notes: { Self → NotesOf };

    /// The sizes of its volume.
    ghost sizes: { Self → SizesOf };
}
