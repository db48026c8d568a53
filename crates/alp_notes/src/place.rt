//! Where a name stands among names.
ghost use Rattle.std.specs.Prelude.{◌≡◌, IfOk, IfErr};
ghost use Rattle.std.specs.List.Sorted.{IsStrictlySortedBy};
ghost use Rattle.alp_base.specs.Notes.{text_cmp};
ghost use Rattle.alp_notes.specs.Rows.{IsAt, IsPlace};

use alp_base::Bytes;

/// Where the name stands, or where it would. A search takes the logarithm of their number.
pub(super) fn find(name: &Bytes, names: &[Bytes]) -> Result<usize, usize>
    requires { IsStrictlySortedBy text_cmp names.now }
    ensures found { IfOk result (IsAt name.now names.now) }
    ensures absent { IfErr result (IsPlace name.now names.now) }
{
    names.binary_search(name)
}
