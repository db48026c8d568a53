//! Tables in two rows: keys in rising order, and beside each its value.
ghost use Rattle.std.specs.Prelude.{◌≡◌, ◌+◌, ◌<◌, ◌≤◌, length, IfOk, IfErr};
ghost use Rattle.std.specs.FinMap as map;
ghost use Rattle.std.specs.List.Sorted.{IsStrictlySortedBy};
ghost use Rattle.std.proofs.lemmas.Map.Lookups.{CmpEqualImpliesEq};
ghost use Rattle.alp_tables.specs.Tables.{AreRows, IsAt, IsPlace, rows_in};

/// Where the key stands, or where it would. A search takes the logarithm of the number of keys.
pub fn find<K: Ord>(keys: &[K], key: &K) -> Result<usize, usize>
    requires rising { IsStrictlySortedBy K.cmp keys.now }
    requires exact { CmpEqualImpliesEq K.cmp }
    ensures found { IfOk result (IsAt K.cmp key.now keys.now) }
    ensures absent { IfErr result (IsPlace K.cmp key.now keys.now) }
{
    keys.binary_search(key)
}
