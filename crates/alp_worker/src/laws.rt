//! What the kept joins and the journal have in common.
ghost use Rattle.std.specs.Prelude.{◌≡◌, ℕ, Bool, true, false, [], List, ◌==◌, flat_map, is_some, None};
ghost use Rattle.std.specs.List.Sorted.{IsPermutation};
ghost use Rattle.alp_base.specs.declared.ids.JoinNo.{JoinNo};
ghost use Rattle.alp_base.specs.declared.ids.TransId.{TransId};
ghost use Rattle.alp_journal.specs.Deeds.{Deed};
ghost use Rattle.alp_journal.specs.Desk.{waiting_of};
ghost use Rattle.alp_journal.specs.Messages.{all_ready, why_not, why_not_own, first_why, clock_end};
ghost use Rattle.alp_journal.specs.Participant.{Phase, live_in};
ghost use Rattle.alp_journal.specs.State.{State, state_deed};
ghost use Rattle.alp_worker.specs.Joins.{AreJoinsOf, is_move, joins_after};
ghost use Rattle.alp_worker.specs.Lives.{phase_of};
ghost use Rattle.alp_worker.specs.Rooms.{sum_of, IsSizeOf, AreSizesOf, room_for, own_room};
ghost use Rattle.alp_worker.specs.declared.joins.Joins.{Joins};
ghost use Rattle.alp_worker.specs.declared.live.LiveJoin.{LiveJoin};
ghost use Rattle.alp_worker.specs.declared.room.PartSize.{PartSize};

/// Whatever comes about, but a draw and a restart, becomes of the kept joins what becomes of the journal's.
pub fn joins_follow_the_journal()
    ensures { (s : State) (k : Joins) (d : Deed) → is_move d ≡ true → AreJoinsOf s k → AreJoinsOf (state_deed s d) (joins_after d k) }
{}

/// A walk over the live joins comes to the same transactions as one over all joins of the journal, where those that are not live
/// give none; in another order, maybe.
pub fn walks_are_alike()
    ensures { (s : State) (k : Joins) (f : JoinNo → Phase → List TransId) → ((j : JoinNo) (p : Phase) → live_in p ≡ None → f j p ≡ []) → AreJoinsOf s k → IsPermutation (flat_map (λ j. f j (s.phases j)) s.joined) (flat_map (λ (l : LiveJoin). f l.join (phase_of l)) k.lives) }
{}

/// What is in the way of a vote is told by the sum over the ready parts, in whatever order they are walked.
pub fn votes_look_at_the_sum()
    ensures other { (failed : Bool) (s : State) (client : ℕ) (t : TransId) (ts : List TransId) (ns : List PartSize) (n : PartSize) → IsPermutation (all_ready s) ts → AreSizesOf s ts ns → IsSizeOf s t n → why_not failed s client t ≡ first_why failed (is_some (waiting_of s.desk client t)) (s.holder.clock == clock_end) (room_for s.sizes.area (sum_of ns) n) }
    ensures own { (failed : Bool) (s : State) (t : TransId) (ts : List TransId) (ns : List PartSize) (n : PartSize) → IsPermutation (all_ready s) ts → AreSizesOf s ts ns → IsSizeOf s t n → why_not_own failed s t ≡ first_why failed false (s.holder.clock == clock_end) (own_room s.sizes.area (sum_of ns) n) }
{}
