//! How large the servers, owners and files of a script are that is made.
ghost use Rattle.std.specs.Prelude.{◌≡◌};
ghost use Rattle.alp_drill.specs.Shapes.{drill_shape as drill_said, files_of as files_said, IsShape};

use alp_base::Choice;

/// So many files are created in one transaction.
pub(crate) const FILES_PER_GROUP: u32 = 10;

/// How many there are of what is declared and created.
#[derive(Clone, Copy)]
pub struct Shape {
    pub servers: u8,
    /// So many owners have the files, each with a client of its own.
    pub owners: u8,
    /// So many transactions create the files.
    pub groups: u32,
    /// The most pages that a file has.
    pub pages: u32,
}

/// Whose transaction it is, and on what it is played.
#[derive(Clone, Copy)]
pub struct Turn {
    pub shape: Shape,
    pub client: u8,
    /// The number of its round, or in its job, from 0 on.
    pub number: u32,
    /// What its calls are to do where another transaction holds a lock in their way.
    pub choice: Choice,
}

/// What a drill is played on.
pub(crate) fn drill_shape() -> Shape
    ensures shape { result ≡ drill_said }
    ensures sizes { IsShape result }
{
    Shape {
        servers: 3,
        owners: 8,
        groups: 20,
        pages: 900,
    }
}

/// So many files are created.
pub(crate) fn files_of(shape: Shape) -> u32
    requires { IsShape shape }
    ensures { result ≡ files_said shape }
{
    FILES_PER_GROUP * shape.groups
}
