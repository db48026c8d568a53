//! A reader over bytes.
ghost use Rattle.std.specs.Prelude.{◌≡◌, ℕ, List, [], ◌↔◌, IsTrue};

use std::marker::Model;

/// What is left of some bytes, seen as the list of them.
///
/// Each method reads one field from the front. It answers a value exactly where the bytes begin
/// with its spelling, and then stands behind it. After a `None` what is left is not said, and after
/// want of memory it is what it was.
#[derive(Drop)]
pub struct FieldReader<'a> {
    pub(super) rest: &'a [u8],
}

impl<'a> Model for FieldReader<'a> {
    ghost use Rattle.std.specs.Prelude.{ℕ, List};

    ghost Value = { List ℕ };

    ghost view = { λ r. r.rest.now };
}

impl<'a> FieldReader<'a> {
    pub fn new(bytes: &'a [u8]) -> FieldReader<'a>
        ensures { result ≡ bytes.now }
    {
        FieldReader { rest: bytes }
    }

    /// Whether nothing is left.
    pub fn is_empty(&self) -> bool
        ensures { IsTrue result ↔ (self.now ≡ []) }
    {
        self.rest.is_empty()
    }

    /// A second reader of what is left.
    pub fn copy(&self) -> FieldReader<'a>
        ensures { result ≡ self.now }
    {
        FieldReader { rest: self.rest }
    }

    /// What is left.
    pub fn rest(&self) -> &'a [u8]
        ensures { result.now ≡ self.now }
    {
        self.rest
    }
}
