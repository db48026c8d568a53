//! What holds of asks, grants and releases, over all tables.
ghost use Rattle.alp_locks.specs.Laws.{IsAllOrNone, IsAllOfWaiter, IsAllOfPlan, EnteringKeepsHeld, NamesFirst, NamesAny, ReleasesInOrder, LeavesNoneFree, ReleasesAlone};

/// A grant is of all that was asked, and any other answer of none: each transaction holds on each
/// resource what it held, joined with all that it asked where it was granted.
pub fn grants_are_of_all_or_none()
    ensures asked { IsAllOrNone }
    ensures woken { IsAllOfWaiter }
    ensures taken { IsAllOfPlan }
    ensures entered { EnteringKeepsHeld }
{}

/// Who is named stands in the way on the first resource where anybody does, and is the least there.
pub fn holders_are_first_and_least()
    ensures first { NamesFirst }
    ensures any { NamesAny }
{}

/// A release takes away the locks and the request of that transaction alone. Of those who wait it grants some and wakes
/// them in their order, and the others go on waiting in theirs; nobody is left waiting who is free.
pub fn releases_grant_what_is_free()
    ensures in_order { ReleasesInOrder }
    ensures none_free { LeavesNoneFree }
    ensures alone { ReleasesAlone }
{}
