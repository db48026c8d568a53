//! The laws of what calls mean, as contracts.
ghost use Rattle.std.specs.Prelude.{◌≡◌, ℕ, List, ◌∷◌, Option};
ghost use Rattle.std.specs.FinMap as map;
ghost use Rattle.alp_base.specs.declared.ids.FileId.{FileId};
ghost use Rattle.alp_base.specs.declared.ids.Stamp.{Stamp};
ghost use Rattle.alp_files.specs.declared.call.Call.{Call};
ghost use Rattle.alp_files.specs.declared.reply.Reply.{Reply};
ghost use Rattle.alp_files.specs.Cells.{Cells, View};
ghost use Rattle.alp_files.specs.Edits.{edits_map};
ghost use Rattle.alp_files.specs.Act.{Own, answer, id_in};
ghost use Rattle.alp_files.specs.History.{Standing, PerformedCall, Decided, begun, IsSerial, serial_end, steps};
ghost use Rattle.alp_files.specs.Holdings.{Holding, IsIntended, DoAgreeOnLeaves};
ghost use Rattle.alp_files.specs.Locks.{Need, Reads, Writes, HoldsEach, IsMore, granted, with_made, needs_of, needs_done, AreCovered};
ghost use Rattle.alp_files.specs.Apart.{IsWithin, DoShowSame, OpensRead, AreSized, AreNewAlike, AreFormed, changes, standing, DoesSame, Locked, after_part, IsRightUnder, DoCommute, decided_as};
ghost use Rattle.alp_files.specs.Sound.{AreSound, HasItsPages, HaveTheirPages, IsSoundAfterEach};

/// No files are sound, and what any call changes keeps sound files so.
///
/// Sound files are well formed, and each owner's record holds the sum of the sizes of its files.
/// The call may come from anybody, with any opens, and be answered anything. All that is asked of
/// it is that a write has as many pages as its run.
pub fn acts_keep_files_sound()
    ensures none { AreSound map.empty }
    ensures call { (m : Cells) → AreSound m
        → (server : ℕ) (made : List FileId) (who : List ℕ) (own : Own) (c : Call) (given : Reply) → HasItsPages c
        → AreSound (edits_map (answer server made (map.get m) who own c given).edits m) }
{}

/// Where the files of a thread are sound at first, they are so after each of its transactions,
/// and at the end.
pub fn histories_keep_files_sound()
    ensures after_each { (server : ℕ) (s : Standing) (ds : List Decided) → HaveTheirPages ds → AreSound s.files → IsSoundAfterEach server s ds }
    ensures at_end { (server : ℕ) (s : Standing) (ds : List Decided) → HaveTheirPages ds → AreSound s.files → AreSound (serial_end server s ds).files }
{}

/// Where what a transaction holds covers the locks of its calls, they look only at places that it
/// may read, and change only places that it may write.
///
/// So on two maps that show the same where it may read, its calls get the same replies and make the
/// same changes (`frame`), and all its changes are of places that it may write (`change`). Of the
/// ids that it gives, the same must have been given before.
pub fn calls_keep_to_their_locks()
    ensures frame { (held : Holding) (server : ℕ) (who : List ℕ) (ds : List PerformedCall) (m n : Cells) (made others : List FileId) (own : Own)
        → AreFormed ds → AreSized (map.get m) → OpensRead (Reads held) own.opens → AreCovered held server (standing m made own) who ds
        → DoShowSame (Reads held) (map.get m) (map.get n) → AreNewAlike made others ds
        → DoesSame held server (standing m made own) (standing n others own) who ds }
    ensures change { (held : Holding) (server : ℕ) (who : List ℕ) (ds : List PerformedCall) (m : Cells) (made : List FileId) (own : Own)
        → AreFormed ds → AreSized (map.get m) → OpensRead (Reads held) own.opens → AreCovered held server (standing m made own) who ds
        → IsWithin (Writes held) (changes server (standing m made own) who ds) × AreSized (map.get (steps server (standing m made own) who ds).files) }
    ensures files { (server : ℕ) (who : List ℕ) (ds : List PerformedCall) (s : Standing) → (steps server s who ds).files ≡ edits_map (changes server s who ds) s.files }
{}

/// Two transactions' parts whose locks agree on each place may go in either order: each reply stays
/// right, and the files at the end are the same (`parts`). So do two parts that follow one another
/// in one thread's history (`history`).
pub fn agreeing_parts_commute()
    ensures parts { (server : ℕ) (s : Standing) (p q : Locked) → AreSized (map.get s.files) → DoAgreeOnLeaves p.held q.held
        → IsRightUnder server s p → IsRightUnder server (after_part server s p) q → DoCommute server s p q }
    ensures history { (server : ℕ) (s : Standing) (p q : Locked) (a b : Stamp) (ds : List Decided)
        → AreSized (map.get s.files) → DoAgreeOnLeaves p.held q.held → AreFormed p.calls → AreFormed q.calls
        → AreCovered p.held server (begun s) p.who p.calls → AreCovered q.held server (begun (after_part server s p)) q.who q.calls
        → IsSerial server s (decided_as a p ∷ decided_as b q ∷ ds)
        → IsSerial server s (decided_as b q ∷ decided_as a p ∷ ds)
        × ((serial_end server s (decided_as a p ∷ decided_as b q ∷ ds)).files ≡ (serial_end server s (decided_as b q ∷ decided_as a p ∷ ds)).files) }
{}

/// What is asked for a call's locks gives them once it is granted, and all that was held before,
/// and leaves beside each lock on a leaf the intention on its file. A call that makes a file then
/// holds that too.
pub fn grants_cover_needs()
    ensures needs { (held : Holding) (ns : List Need) → HoldsEach (granted held ns) ns }
    ensures more { (held : Holding) (ns : List Need) → IsMore held (granted held ns) }
    ensures intended { (held : Holding) (ns : List Need) → IsIntended held → IsIntended (granted held ns) }
    ensures made { (held : Holding) (m : View) (own : Own) (d : PerformedCall) → HoldsEach held (needs_of m own d.call) → HoldsEach (with_made held (id_in d.reply)) (needs_done m own d) }
    ensures made_more { (held : Holding) (id : Option FileId) → IsMore held (with_made held id) }
    ensures made_intended { (held : Holding) (id : Option FileId) → IsIntended held → IsIntended (with_made held id) }
{}

/// Sizes stay numbers of pages, whatever locks are held.
pub fn acts_keep_sizes()
    ensures { (server : ℕ) (s : Standing) (who : List ℕ) (ds : List PerformedCall) → AreFormed ds → AreSized (map.get s.files) → AreSized (map.get (steps server s who ds).files) }
{}
