//! What follows from the laws of a journal.
ghost use Rattle.std.specs.Prelude.{◌≡◌, ◌&&◌, ℕ, Bool, None, Some, true, false};
ghost use Rattle.alp_base.specs.declared.choices.Access.{Access};
ghost use Rattle.alp_base.specs.declared.choices.Choice.{Choice};
ghost use Rattle.alp_base.specs.declared.ids.FileId.{FileId};
ghost use Rattle.alp_base.specs.declared.ids.TransId.{TransId};
ghost use Rattle.alp_modes.specs.declared.Mode.{Mode};
ghost use Rattle.alp_files.specs.declared.call.Call.{Call};
ghost use Rattle.alp_files.specs.declared.call.Call.TheVariants as call;
ghost use Rattle.alp_files.specs.declared.refusal.Cause.{Cause};
ghost use Rattle.alp_files.specs.declared.refusal.Refusal.{Refusal};
ghost use Rattle.alp_files.specs.declared.refusal.Refusal.TheVariants as refusal;
ghost use Rattle.alp_files.specs.declared.reply.Reply.TheVariants as reply;
ghost use Rattle.alp_files.specs.Passing.{is_passing_refusal};
ghost use Rattle.alp_journal.specs.declared.entry.Entry.{Entry};
ghost use Rattle.alp_journal.specs.declared.event.Event.TheVariants as event;
ghost use Rattle.alp_journal.specs.Coordinator.{is_running};
ghost use Rattle.alp_journal.specs.Holder.{with_life};
ghost use Rattle.alp_journal.specs.State.{State, is_file_drawn};
ghost use Rattle.alp_journal.specs.Moves.{is_new, next};
ghost use Rattle.alp_journal.specs.Laws.{IsLawfulEntry};
ghost use Rattle.alp_journal.specs.Answered.{IsAnsweredEntry};
ghost use Rattle.alp_journal.specs.Refused.{IsAsBefore, IsReached, is_finish, is_turned_away};

/// A passing refusal leaves files, intents and opens as they were, and what was granted stays: as the answer to a call
/// that is no `Finish`, and to a `Finish` of an old session, of a transaction that is unknown here, or of one that was
/// finished before. So does the refusal of an open of a file whose id was never given, and a `Finish` that is told of an
/// end that came before it. A transaction that its `Finish` ends goes with what it intended and held, and leaves all else.
pub fn passing_refusals_change_nothing()
    ensures refused { (s : State) (e : Entry) (client epoch number : ℕ) (c : Call) (f : Refusal) → IsLawfulEntry s e → e.event ≡ event.Call client epoch number c → is_finish c ≡ false → e.reply ≡ Some (reply.Refused f) → is_passing_refusal f ≡ true → IsAsBefore s.holder (next s e).holder }
    ensures unknown { (s : State) (e : Entry) (client epoch number : ℕ) (t : TransId) (file : FileId) (access : Access) (mode : Mode) (choice : Choice) → IsLawfulEntry s e → e.event ≡ event.Call client epoch number (call.OpenFile t file access mode choice) → e.reply ≡ Some (reply.Refused refusal.UnknownFile) → is_file_drawn s file ≡ false → IsAsBefore s.holder (next s e).holder }
    ensures finish { (failed : Bool) (s : State) (e : Entry) (client epoch number : ℕ) (t : TransId) (commit : Bool) (f : Refusal) → IsReached s → IsLawfulEntry s e → IsAnsweredEntry failed s e → e.event ≡ event.Call client epoch number (call.Finish t commit) → e.reply ≡ Some (reply.Refused f) → is_turned_away f ≡ true → IsAsBefore s.holder (next s e).holder }
    ensures ended { (s : State) (e : Entry) (client epoch number : ℕ) (t : TransId) (commit : Bool) (why : Cause) → IsReached s → IsLawfulEntry s e → e.event ≡ event.Call client epoch number (call.Finish t commit) → e.reply ≡ Some (reply.Refused (refusal.Aborted why)) → (is_new s client epoch number && is_running (s.fates t)) ≡ false → IsAsBefore s.holder (next s e).holder }
    ensures aborted { (failed : Bool) (s : State) (e : Entry) (client epoch number : ℕ) (t : TransId) (commit : Bool) (why : Cause) → IsReached s → IsLawfulEntry s e → IsAnsweredEntry failed s e → e.event ≡ event.Call client epoch number (call.Finish t commit) → e.reply ≡ Some (reply.Refused (refusal.Aborted why)) → is_new s client epoch number ≡ true → is_running (s.fates t) ≡ true → IsAsBefore (with_life s.holder t None) (next s e).holder }
{}
