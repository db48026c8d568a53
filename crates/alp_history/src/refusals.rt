//! What a refusal leaves.
ghost use Rattle.std.specs.Prelude.{◌≡◌, ℕ, List, Some, false};
ghost use Rattle.alp_base.specs.declared.ids.FileId.{FileId};
ghost use Rattle.alp_files.specs.declared.call.Call.{Call};
ghost use Rattle.alp_files.specs.declared.refusal.Refusal.{Refusal};
ghost use Rattle.alp_files.specs.declared.reply.Reply.{Reply};
ghost use Rattle.alp_files.specs.declared.reply.Reply.TheVariants as reply;
ghost use Rattle.alp_files.specs.Cells.{View};
ghost use Rattle.alp_files.specs.Act.{Own, answer, refused};
ghost use Rattle.alp_journal.specs.declared.entry.Entry.{Entry};
ghost use Rattle.alp_journal.specs.declared.event.Event.TheVariants as event;
ghost use Rattle.alp_journal.specs.State.{State};
ghost use Rattle.alp_journal.specs.Moves.{next};
ghost use Rattle.alp_journal.specs.Laws.{IsLawfulEntry};
ghost use Rattle.alp_journal.specs.Refused.{is_finish};
ghost use Rattle.alp_history.specs.Refusals.{StandsAsBefore};

/// A refusal changes nothing. A thread that is refused a call makes no change of files and keeps its opens. A server that
/// refuses a call other than a `Finish`, whatever the refusal, has its files, and the intents and opens of each part, as they
/// were before, no part is new or gone, and what was granted stays.
///
/// A part may hold more than before: the locks of the refused call, which is then among its calls, and those that a waiting
/// call was granted. Of a `Finish` this is not so: one that is told of an abort ends its transaction.
pub fn refusals_change_nothing()
    ensures thread { (server : ℕ) (made : List FileId) (m : View) (who : List ℕ) (own : Own) (c : Call) (given : Reply) (f : Refusal) → (answer server made m who own c given).reply ≡ Some (reply.Refused f) → answer server made m who own c given ≡ refused own f }
    ensures refused { (s : State) (e : Entry) (client epoch number : ℕ) (c : Call) (f : Refusal) → IsLawfulEntry s e → e.event ≡ event.Call client epoch number c → is_finish c ≡ false → e.reply ≡ Some (reply.Refused f) → StandsAsBefore f s.holder (next s e).holder }
{}
