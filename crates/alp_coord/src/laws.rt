//! What follows of all transactions.
ghost use Rattle.std.specs.Prelude.{List};
ghost use Rattle.std.specs.List.Sorted.{IsStrictlySortedBy};
ghost use Rattle.alp_base.specs.declared.ids.TransId.{TransId as ATransId};
ghost use Rattle.alp_base.specs.Orders.{trans_cmp};
ghost use Rattle.alp_coord.specs.declared.coordinator.Coordinator.{Coordinator as ACoordinator};
ghost use Rattle.alp_coord.specs.Coordinators.{open_ids};
ghost use Rattle.alp_coord.specs.Ticks.{AreAll, SaysAll};

/// Those that are settled are not asked and not told, and do not count: what a tick says of those that are not is what it
/// says of all.
pub fn ticks_say_all()
    ensures { (s : ACoordinator) (ts : List ATransId) → IsStrictlySortedBy trans_cmp (open_ids s) → AreAll s ts → SaysAll s ts }
{}
