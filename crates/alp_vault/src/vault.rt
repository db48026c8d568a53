//! A vault as all that stands on it sees it.
ghost use Rattle.std.specs.Prelude.{◌≡◌, ◌+◌, ◌<◌, ◌≤◌, ◌^◌, ℕ, Bool, IsTrue, OnOk, IfOk, IfErr, IfSome, IsErrOf, MatchResult, true, false};
ghost use Rattle.std.specs.Option.{option_copied as copied};
ghost use Rattle.std.specs.FinMap as map;
ghost use Rattle.alp_base.specs.Causes.{Rose};
ghost use Rattle.alp_base.specs.Allowances.{Spends, Sets};
ghost use Rattle.alp_base.specs.declared.allowance.Allowance.{Allowance as Limit};
ghost use Rattle.alp_base.specs.declared.allowance.Allowance.TheVariants.{Free};
ghost use Rattle.alp_base.specs.declared.faults.Sizes.{Sizes as SizesOf};
ghost use Rattle.alp_base.specs.declared.faults.VaultFault.TheVariants as fault;
ghost use Rattle.alp_files.specs.Counts.{used_of, file_count_of, owner_count_of, owner_names_of};
ghost use Rattle.alp_files.specs.Edits.{edits_map};
ghost use Rattle.alp_vault.specs.Contents.{Contents};
ghost use Rattle.alp_base.specs.Notes.{notes_after};
ghost use Rattle.alp_files.specs.Changes.{edits_of};
ghost use Rattle.alp_vault.specs.Contents.{made};
ghost use Rattle.alp_base.specs.Crashes.{Only, NoMore, SameOutcomes, Either, Adds};
ghost use Rattle.alp_base.specs.Faults.{HasFaultCause, HasVaultCause, IsCountKept, IsOfVolume};
ghost use Rattle.alp_vault.specs.Vault.{AreSizes, IsServer, HasEnded, HasSpent, IsOneOf, IsSameVault, serves_past_read};
ghost use Rattle.alp_vault.specs.Volumes.{IsCommit, IsVolumeOf, fits_key, has_block_in};

use crate::limits::{BLOCKS_PER_FILE, HEAD_PAGES};
use alp_base::{Bytes, Cell, Change, FileId, Key, Name, NoteChange, Sizes, VaultFault};

/// Cells and notes that stand through crashes, and change by commits that are made whole or not at all.
///
/// After a `commit` or `recover` that answered `Failed`, and after any `Stopped`, a vault serves only
/// `stop_after`, `power_off` and `recover`. What it holds is said only where it tells it; what a call may
/// answer, and why, always is.
pub trait Vault: Sized + Drop {
    /// Whether the contents are told.
    ghost tells: { Self → Bool };

    /// Whether all calls are served.
    ghost serves: { Self → Bool };

    /// The sizes of its volume.
    ghost volume: { Self → SizesOf };

    /// Its server, by its number.
    ghost server: { Self → ℕ };

    /// How many servers there are.
    ghost servers: { Self → ℕ };

    /// What it holds.
    ghost held: { Self → Contents };

    /// What a crash now may leave.
    ghost may_leave: { Self → Contents → Type 0 };

    /// What a crash at some moment since the first of these might have left.
    ghost left_since: { Self → Self → Contents → Type 0 };

    /// How often it has failed.
    ghost faults: { Self → ℕ };

    /// How many further changing calls pass, where a number was set.
    ghost allowance: { Self → Limit };

    /// What `power_off` with a pick may give.
    ghost crashed: { Self → ℕ → Self → Type 0 };

    fn sizes(&self) -> Sizes
        ensures { result ≡ volume self.now };

    /// The places that the cells take: one for each file, for each page, and for each 128 page numbers of a file that have a page.
    fn used(&self) -> u32
        requires { IsTrue (serves self.now) }
        ensures places { IsTrue (tells self.now) → result ≡ used_of (held self.now).cells }
        ensures room { result + HEAD_PAGES ≤ (volume self.now).home };

    fn file_count(&self) -> u32
        requires { IsTrue (serves self.now) }
        ensures { IsTrue (tells self.now) → result ≡ file_count_of (held self.now).cells };

    fn owner_count(&self) -> u32
        requires { IsTrue (serves self.now) }
        ensures { IsTrue (tells self.now) → result ≡ owner_count_of (held self.now).cells };

    /// The owners' names, in rising order of their bytes.
    fn owners(&self) -> &[Name]
        requires { IsTrue (serves self.now) }
        ensures { IsTrue (tells self.now) → result.now ≡ owner_names_of (held self.now).cells };

    /// Whether the file has a page in that block, each of which has 128 page numbers.
    fn has_block(&self, file: FileId, block: u32) -> bool
        requires serving { IsTrue (serves self.now) }
        requires within { block < BLOCKS_PER_FILE }
        ensures { IsTrue (tells self.now) → result ≡ has_block_in (held self.now).cells file block };

    /// The cell at the key. It is of the key's kind and within the limits of a file, whatever the vault stands on.
    fn fetch(&mut self, key: &Key) -> Result<Option<Cell>, VaultFault>
        requires { IsTrue (serves self.old) }
        ensures cell { IsTrue (tells self.old) → IfOk result (λ c. c ≡ map.get (held self.old).cells key.now) }
        ensures fits { IfOk result (λ c. IfSome c (λ x. fits_key key.now x ≡ true)) }
        ensures kept { IsSameVault tells volume server servers self.old self.new }
        ensures serves { MatchResult result (λ _. IsTrue (serves self.new)) (λ f. serves self.new ≡ serves_past_read f) }
        ensures held { held self.new ≡ held self.old }
        ensures crash { NoMore (may_leave self.old) (may_leave self.new) }
        ensures time { Adds left_since self.old self.new (may_leave self.new) }
        ensures allowance { allowance self.new ≡ allowance self.old }
        ensures cause { HasVaultCause (faults self.old) (faults self.new) (allowance self.new) result };

    /// The value of the note, if it stands.
    fn note(&self, name: &Bytes) -> Option<&Bytes>
        requires { IsTrue (serves self.now) }
        ensures { copied result ≡ map.get (held self.now).notes name.now };

    /// The names of the notes, in rising order of their bytes.
    fn note_names(&self) -> &[Bytes]
        requires { IsTrue (serves self.now) }
        ensures { result.now ≡ map.keys (held self.now).notes };

    /// Makes the change of the cells and then those of the notes, all or nothing.
    fn commit(&mut self, change: &Change, notes: &[NoteChange]) -> Result<(), VaultFault>
        requires serving { IsTrue (serves self.old) }
        requires asked { IsCommit (volume self.old) (server self.old) (servers self.old) (held self.old).notes change.now notes.now }
        // What is made is a volume that its sizes have room for.
        requires room { IsTrue (tells self.old) → IsVolumeOf (volume self.old) (edits_map (edits_of change.now) (held self.old).cells) }
        ensures made { IsTrue (tells self.old) → OnOk result (held self.new ≡ made change.now notes.now (held self.old)) }
        ensures notes { OnOk result ((held self.new).notes ≡ notes_after notes.now (held self.old).notes) }
        // Through the whole call a crash leaves what was held before, or what is held after it.
        ensures crash { IsTrue (tells self.old) → NoMore (Either (held self.old) (made change.now notes.now (held self.old))) (may_leave self.new) }
        ensures time { IsTrue (tells self.old) → Adds left_since self.old self.new (Either (held self.old) (made change.now notes.now (held self.old))) }
        // Want of memory leaves all as it was, through the whole call.
        ensures same { IsErrOf result fault.OutOfMemory → (held self.new ≡ held self.old) × (allowance self.new ≡ allowance self.old) }
        ensures memory { IsTrue (tells self.old) → IsErrOf result fault.OutOfMemory → Adds left_since self.old self.new (λ c. c ≡ held self.old) }
        ensures kept { IsSameVault tells volume server servers self.old self.new }
        ensures ended { HasEnded serves faults allowance self.old self.new result };

    /// Lets so many further changing calls pass, or all of them: commits and recoveries of a vault in memory, writes and
    /// syncs of one on a disk that can be stopped.
    fn stop_after(&mut self, calls: Option<u32>)
        ensures kept { IsSameVault tells volume server servers self.old self.new }
        ensures serves { serves self.new ≡ serves self.old }
        ensures held { held self.new ≡ held self.old }
        ensures crash { SameOutcomes (may_leave self.old) (may_leave self.new) }
        ensures time { Adds left_since self.old self.new (may_leave self.new) }
        ensures faults { faults self.new ≡ faults self.old }
        ensures allowance { Sets calls (allowance self.old) (allowance self.new) };

    /// A crash, and the vault as it comes back: with one of the outcomes there were, and nothing pending. It serves once it
    /// is recovered.
    fn power_off(self, pick: u64) -> Self
        ensures left { IsTrue (tells self) → IsOneOf (may_leave self) (may_leave result) }
        ensures crashed { crashed self pick result }
        ensures rests { serves result ≡ false }
        ensures kept { IsSameVault tells volume server servers self result }
        ensures faults { faults result ≡ faults self }
        ensures allowance { allowance result ≡ Free };

    /// A vault that serves, with what a crash left. What cannot be recovered comes back with the cause.
    ///
    /// It begins with a sync. So after want of memory fewer crashes may be possible than before, and some of the
    /// allowance may be spent.
    fn recover(self) -> Result<Self, (Self, VaultFault)>
        requires halted { serves self ≡ false }
        ensures left { IsTrue (tells self) → IfOk result (λ v. may_leave self (held v)) }
        ensures serves { MatchResult result (λ v. IsTrue (serves v)) (λ e. serves e.0 ≡ false) }
        ensures crash { MatchResult result (λ v. NoMore (may_leave self) (may_leave v)) (λ e. NoMore (may_leave self) (may_leave e.0)) }
        ensures time { MatchResult result (λ v. Adds left_since self v (may_leave v)) (λ e. Adds left_since self e.0 (may_leave self)) }
        ensures same { IfErr result (λ e. e.1 ≡ fault.OutOfMemory → held e.0 ≡ held self) }
        ensures kept { MatchResult result (IsSameVault tells volume server servers self) (λ e. IsSameVault tells volume server servers self e.0) }
        ensures spent { MatchResult result (HasSpent faults allowance self) (λ e. HasSpent faults allowance self e.0) }
        ensures cause { MatchResult result (λ v. faults v ≡ faults self) (λ e. HasFaultCause (faults self) (faults e.0) (allowance e.0) e.1) }
        // The count of faults moves only where the vault failed or was stopped.
        ensures still { IfErr result (λ e. IsCountKept (faults self) (faults e.0) e.1) }
        // What a vault tells is a volume in its format, and so is all that a crash leaves of it.
        ensures volume { IsTrue (tells self) → IfErr result (λ e. IsOfVolume e.1) };

    /// What a vault knows of itself. The call does nothing, and stands for laws that rest on an invariant.
    fn knows(&self)
        ensures limits { AreSizes (volume self.now) }
        ensures server { IsServer (server self.now) (servers self.now) }
        // All cells that a crash may leave are well formed and charged, each of its key's kind, owners under their own
        // names, and the volume has room for them.
        ensures fitting { (c : Contents) → IsTrue (tells self.now) → may_leave self.now c → IsVolumeOf (volume self.now) c.cells }
        // So are all that there might have been.
        ensures fitted { (start : Self) (c : Contents) → IsTrue (tells self.now) → left_since start self.now c → IsVolumeOf (volume self.now) c.cells }
        // A vault that serves has nothing half made: a crash leaves what is held.
        ensures as_held { IsTrue (tells self.now) → IsTrue (serves self.now) → may_leave self.now (held self.now) }
        ensures settled { IsTrue (tells self.now) → IsTrue (serves self.now) → Only (held self.now) (may_leave self.now) };

    /// The count of faults stands still at the end of its range.
    ghost faults_end: { (vault : Self) → faults vault < 2 ^ 64 };

    /// This moment is one of those since an earlier one.
    ghost counts_now: { (start : Self) (vault : Self) (c : Contents) → may_leave vault c → left_since start vault c };

    /// Since this moment there is no other.
    ghost only_now: { (vault : Self) (c : Contents) → left_since vault vault c → may_leave vault c };
}
