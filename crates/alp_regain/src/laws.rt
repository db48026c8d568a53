//! What the format of notes says of ready parts.
ghost use Rattle.std.specs.Prelude.{◌≡◌, ◌≤◌, ℕ, true, List, map as list_map};
ghost use Rattle.std.specs.List.{AllByRecursion};
ghost use Rattle.std.specs.FinMap as map;
ghost use Rattle.alp_base.specs.Notes.{Notes};
ghost use Rattle.alp_files.specs.Cells.{Cells};
ghost use Rattle.alp_files.specs.Files.{AreFiles};
ghost use Rattle.alp_files.specs.Needs.{Intents};
ghost use Rattle.alp_vault.specs.Volumes.{AreServerNotes};
ghost use Rattle.alp_calls.specs.Parts.{AllFit};
ghost use Rattle.alp_journal.specs.Laws.{are_joins_apart};
ghost use Rattle.alp_journal.specs.Opening.{ReadyNote, ready_kept, decisions_kept};
ghost use Rattle.alp_regain.specs.Owners.{AreReadyHere, AreDecidedHere, joins_of};
ghost use Rattle.alp_regain.specs.Rooms.{FitsLogAlone};
ghost use Rattle.alp_regain.specs.Together.{log_sum, size_of};
ghost use Rattle.alp_regain.specs.Touched.{AreFilesJustSo, DoChargesFollow};

/// Ready parts are of this server, and of transactions of others of the run; decisions are of this server's transactions, with at
/// least one part, and parts on others of the run alone. No two ready parts have one number.
pub fn notes_name_their_servers()
    ensures ready { (server servers : ℕ) (notes : Notes) → AreServerNotes server servers notes → AreReadyHere server servers (ready_kept notes) }
    ensures decided { (server servers : ℕ) (notes : Notes) → AreServerNotes server servers notes → AreDecidedHere server servers (decisions_kept notes) }
    ensures apart { (notes : Notes) → are_joins_apart (joins_of (ready_kept notes)) ≡ true }
{}

/// Where files are well formed, they are so with what a part intends just where each cell that it puts is good: a leader whose owner
/// is there and that has no page at or past its size, or a page below the size in its leader. So it is enough to look at these.
pub fn puts_tell_of_files()
    ensures { (i : Intents) (m : Cells) → AreFiles (map.get m) → AllFit i.puts → AreFilesJustSo i m }
{}

/// With what a part intends the charge of each owner falls by the sizes of its leaders that are put anew or go, and rises by those of
/// its leaders that are put. So it is enough to look at these.
pub fn charges_follow_leaders()
    ensures { (i : Intents) (m : Cells) → AreFiles (map.get m) → AllFit i.puts → DoChargesFollow i m }
{}

/// Where the log has room for all ready parts, each of them takes no more of it while it runs than there is.
pub fn ready_parts_fit_the_log()
    ensures { (ns : List ReadyNote) (area : ℕ) → log_sum (list_map size_of ns) ≤ area → AllByRecursion (FitsLogAlone area) ns }
{}
