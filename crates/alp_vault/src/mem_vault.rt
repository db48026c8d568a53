//! A vault in memory.
ghost use Rattle.std.specs.Prelude.{◌≡◌, ◌≢◌, ◌↔◌, ◌<◌, ◌≤◌, ◌%◌, ℕ, Bool, true, IsTrue, OnOk, IfOk, IfErr, IfSome, IsErrOf, MatchResult, Ok, Err, false};
ghost use Rattle.std.specs.Option.{option_copied as copied};
ghost use Rattle.std.specs.FinMap as map;
ghost use Rattle.alp_base.specs.Allowances.{Spends, Sets, allowance_given, burnt, IsAtEnd, Passes};
ghost use Rattle.alp_base.specs.declared.allowance.Allowance.TheVariants.{Free, Left, Spent};
ghost use Rattle.alp_base.specs.declared.faults.VaultFault.TheVariants as fault;
ghost use Rattle.alp_files.specs.Counts.{used_of, file_count_of, owner_count_of, owner_names_of};
ghost use Rattle.alp_files.specs.Edits.{edits_map};
ghost use Rattle.alp_vault.specs.Contents.{Contents};
ghost use Rattle.alp_base.specs.Notes.{notes_after};
ghost use Rattle.alp_files.specs.Changes.{edits_of};
ghost use Rattle.alp_vault.specs.Contents.{made};
ghost use Rattle.alp_base.specs.Crashes.{Only, NoMore, SameOutcomes, Either, Adds};
ghost use Rattle.alp_vault.specs.Stages.{IsFit, IsFit-prop, is_serving, fallen_by, held_at};
ghost use Rattle.alp_base.specs.Faults.{HasFaultCause, HasVaultCause, IsCountKept, IsOfVolume};
ghost use Rattle.alp_vault.specs.Vault.{AreSizes, IsServer, HasEnded, HasSpent, IsOneOf, IsSameVault, serves_past_read};
ghost use Rattle.alp_vault.specs.Volumes.{IsVolumeOf, IsVolumeOf-prop, fits_key, has_block_in};

use crate::Vault;
use crate::held::Held;
use crate::stage::{Pending, Stage};
use alp_base::{
    Allowance, Bytes, Cell, Change, FileId, Key, Name, NoteChange, OutOfMemory, Sizes, VaultFault,
};
use alp_files::CellMap;
use alp_notes::copies_of;
use std::alloc::Global;

/// Cells and notes in memory. It tells what it holds, and its count of faults stays 0.
///
/// It stops only where `stop_after` asked: so many commits and recoveries pass, and the next one is stopped. The
/// commit that is stopped may have been made or not: `power_off` decides, by an odd pick that it was.
#[derive(Drop)]
pub struct MemVault {
    alloc: Global,
    sizes: Sizes,
    server: u8,
    servers: u8,
    held: Held,
    stage: Stage,
    allowance: Allowance,
    ghost within: { AreSizes sizes },
    ghost numbered: { IsServer server servers },
    ghost fits: { IsVolumeOf sizes held.cells } by { IsVolumeOf-prop sizes held.cells },
    ghost fit: { IsFit sizes stage held.cells } by { IsFit-prop sizes stage held.cells },
}

// The allowance after one more changing call that passes.
fn one_less(allowance: Allowance) -> Allowance
    requires { Passes allowance }
    ensures spends { Spends allowance result }
    ensures burnt { result ≡ burnt allowance }
{
    match allowance {
        Allowance::Left(calls) => Allowance::Left(calls - 1),
        other => other,
    }
}

fn pending_of(alloc: Global, change: &Change, notes: &[NoteChange]) -> Result<Pending, OutOfMemory>
    ensures { IfOk result (λ p. (p.change ≡ change.now) × (p.notes.items ≡ notes.now)) }
{
    let change = change.clone()?;
    let notes = copies_of(alloc, notes)?;
    Ok(Pending { change, notes })
}

// What a crash makes of the stage.
fn fallen(stage: Stage, pick: u64) -> Stage
    ensures { result ≡ fallen_by pick stage }
{
    match stage {
        Stage::Torn(pending) => {
            if pick % 2 == 1 {
                return Stage::Made(pending);
            }
            Stage::Stopped
        }
        Stage::Made(pending) => Stage::Made(pending),
        Stage::Serving | Stage::Stopped => Stage::Stopped,
    }
}

impl MemVault {
    ghost use Rattle.alp_vault.specs.MemVault.{kept_by, held_by, IsSame};

    /// A vault of this server, one of so many, that holds nothing.
    pub fn new(alloc: Global, sizes: Sizes, server: u8, servers: u8) -> MemVault
        requires sizes { AreSizes sizes }
        requires server { IsServer server servers }
        ensures empty { held_by result ≡ record { cells = map.empty; notes = map.empty } }
        ensures serves { is_serving result.stage ≡ true }
        ensures sizes { result.sizes ≡ sizes }
        ensures server { (result.server ≡ server) × (result.servers ≡ servers) }
        ensures allowance { result.allowance ≡ Free }
    {
        MemVault {
            alloc,
            sizes,
            server,
            servers,
            held: Held::new(alloc),
            stage: Stage::Serving,
            allowance: Allowance::Free,
        }
    }

    /// The cells that it holds.
    pub fn cells(&self) -> &CellMap
        requires { is_serving self.now.stage ≡ true }
        ensures { result.now ≡ (held_by self.now).cells }
    {
        self.held.cells.cells()
    }

    // The vault with what a crash left, and with this allowance.
    fn recovered(self, allowance: Allowance) -> Result<MemVault, (MemVault, VaultFault)>
        requires { Spends self.allowance allowance }
        ensures held { IfOk result (λ v. held_by v ≡ held_by self) }
        ensures serves { IfOk result (λ v. is_serving v.stage ≡ true) }
        ensures allowance { IfOk result (λ v. v.allowance ≡ allowance) }
        ensures same { MatchResult result (IsSame self) (λ e. IsSame self e.0) }
        ensures fault { IfErr result (λ e. e.1 ≡ fault.OutOfMemory) }
        ensures stage { IfErr result (λ e. e.0.stage ≡ self.stage) }
        ensures kept { IfErr result (λ e. kept_by e.0 ≡ kept_by self) }
        ensures as_was { IfErr result (λ e. e.0.allowance ≡ self.allowance) }
    {
        let MemVault {
            alloc,
            sizes,
            server,
            servers,
            held,
            stage,
            allowance: before,
        } = self;
        match stage {
            Stage::Made(pending) => {
                let mut after = held;
                if after
                    .make(alloc, &pending.change, pending.notes.as_slice())
                    .is_err()
                {
                    let as_was = MemVault {
                        alloc,
                        sizes,
                        server,
                        servers,
                        held: after,
                        stage: Stage::Made(pending),
                        allowance: before,
                    };
                    return Err((as_was, VaultFault::OutOfMemory));
                }
                Ok(MemVault {
                    alloc,
                    sizes,
                    server,
                    servers,
                    held: after,
                    stage: Stage::Serving,
                    allowance,
                })
            }
            Stage::Serving | Stage::Stopped | Stage::Torn(_) => Ok(MemVault {
                alloc,
                sizes,
                server,
                servers,
                held,
                stage: Stage::Serving,
                allowance,
            }),
        }
    }
}

impl Vault for MemVault {
    ghost use Rattle.alp_vault.specs.Stages.{no_faults};
    ghost use Rattle.alp_vault.specs.MemVault.{kept_by, held_by, LeftBy, IsSame, IsAsWas, IsPassed};

    ghost tells = { λ _. true };

    ghost serves = { λ v. is_serving v.stage };

    ghost volume = { λ v. v.sizes };

    ghost server = { λ v. v.server };

    ghost servers = { λ v. v.servers };

    ghost held = { λ v. held_by v };

    ghost may_leave = { λ v. LeftBy v };

    ghost left_since = { λ _ v. LeftBy v };

    ghost faults = { λ _. 0 };

    ghost allowance = { λ v. v.allowance };

    // An odd pick leaves the commit made that was stopped, and an even one leaves it unmade.
    ghost crashed = { λ v pick w. held_by w ≡ held_at (fallen_by pick v.stage) (kept_by v) };

    ghost faults_end = { λ _. no_faults };

    ghost counts_now = { λ _ _ _ left. left };

    ghost only_now = { λ _ _ left. left };

    fn knows(&self) {}

    fn sizes(&self) -> Sizes {
        self.sizes
    }

    fn used(&self) -> u32 {
        self.held.cells.used()
    }

    fn file_count(&self) -> u32 {
        self.held.cells.file_count()
    }

    fn owner_count(&self) -> u32 {
        self.held.owners.len() as u32
    }

    fn owners(&self) -> &[Name] {
        self.held.owners.as_slice()
    }

    fn has_block(&self, file: FileId, block: u32) -> bool {
        self.held.cells.has_block(file, block)
    }

    fn fetch(&mut self, key: &Key) -> Result<Option<Cell>, VaultFault> {
        let Some(cell) = self.held.cells.get(key) else {
            return Ok(None);
        };
        match cell.clone() {
            Ok(copy) => Ok(Some(copy)),
            Err(_) => Err(VaultFault::OutOfMemory),
        }
    }

    fn note(&self, name: &Bytes) -> Option<&Bytes> {
        self.held.notes.value(name)
    }

    fn note_names(&self) -> &[Bytes] {
        self.held.notes.names()
    }

    /// It has no log, and asks nothing of the change but that the volume has room for what is made.
    fn commit(&mut self, change: &Change, notes: &[NoteChange]) -> Result<(), VaultFault>
        requires serving { is_serving self.old.stage ≡ true }
        requires room { IsVolumeOf self.old.sizes (edits_map (edits_of change.now) (held_by self.old).cells) }
        ensures made { OnOk result (held_by self.new ≡ made change.now notes.now (held_by self.old)) }
        ensures crash { NoMore (Either (held_by self.old) (made change.now notes.now (held_by self.old))) (LeftBy self.new) }
        ensures time { Adds (λ _ v. LeftBy v) self.old self.new (Either (held_by self.old) (made change.now notes.now (held_by self.old))) }
        ensures same { IsErrOf result fault.OutOfMemory → (held_by self.new ≡ held_by self.old) × (self.new.allowance ≡ self.old.allowance) }
        ensures memory { IsErrOf result fault.OutOfMemory → Adds (λ _ v. LeftBy v) self.old self.new (λ c. c ≡ held_by self.old) }
        ensures kept { IsSame self.old self.new }
        ensures ended { HasEnded (λ v. is_serving v.stage) (λ _. 0) (λ v. v.allowance) self.old self.new result }

        // It stops where the allowance is spent or this call spends it, and only there.
        ensures counted { MatchResult result (λ _. IsPassed self.old.allowance self.new.allowance) (λ f. f ≡ fault.Stopped → IsAtEnd self.old.allowance) }
        // The commit that stops may have been made or not, and a crash may leave either.
        ensures either { IsErrOf result fault.Stopped → self.old.allowance ≡ Left 0 → NoMore (LeftBy self.new) (Either (held_by self.old) (made change.now notes.now (held_by self.old))) }
    {
        match self.allowance {
            Allowance::Spent => {
                self.stage = Stage::Stopped;
                Err(VaultFault::Stopped)
            }
            Allowance::Left(0) => match pending_of(self.alloc, change, notes) {
                Ok(pending) => {
                    self.stage = Stage::Torn(pending);
                    self.allowance = Allowance::Spent;
                    Err(VaultFault::Stopped)
                }
                Err(OutOfMemory) => Err(VaultFault::OutOfMemory),
            },
            passing => {
                if self.held.make(self.alloc, change, notes).is_err() {
                    return Err(VaultFault::OutOfMemory);
                }
                self.allowance = one_less(passing);
                Ok(())
            }
        }
    }

    fn stop_after(&mut self, calls: Option<u32>)
        ensures kept { IsSame self.old self.new }
        ensures serves { is_serving self.new.stage ≡ is_serving self.old.stage }
        ensures held { held_by self.new ≡ held_by self.old }
        ensures crash { SameOutcomes (LeftBy self.old) (LeftBy self.new) }
        ensures time { Adds (λ _ v. LeftBy v) self.old self.new (LeftBy self.new) }
        ensures allowance { Sets calls self.old.allowance self.new.allowance }

        ensures given { self.new.allowance ≡ allowance_given calls }
    {
        self.allowance = match calls {
            None => Allowance::Free,
            Some(calls) => Allowance::Left(calls),
        };
    }

    fn power_off(self, pick: u64) -> Self
        ensures left { IsOneOf (LeftBy self) (LeftBy result) }
        ensures crashed { held_by result ≡ held_at (fallen_by pick self.stage) (kept_by self) }
        ensures rests { is_serving result.stage ≡ false }
        ensures kept { IsSame self result }
        ensures allowance { result.allowance ≡ Free }
    {
        MemVault {
            alloc: self.alloc,
            sizes: self.sizes,
            server: self.server,
            servers: self.servers,
            held: self.held,
            stage: fallen(self.stage, pick),
            allowance: Allowance::Free,
        }
    }

    /// It has no device to sync, so that want of memory leaves it as it was.
    fn recover(self) -> Result<Self, (Self, VaultFault)>
        requires halted { is_serving self.stage ≡ false }
        ensures left { IfOk result (λ v. LeftBy self (held_by v)) }
        ensures serves { MatchResult result (λ v. is_serving v.stage ≡ true) (λ e. is_serving e.0.stage ≡ false) }
        ensures crash { MatchResult result (λ v. NoMore (LeftBy self) (LeftBy v)) (λ e. NoMore (LeftBy self) (LeftBy e.0)) }
        ensures time { MatchResult result (λ v. Adds (λ _ v. LeftBy v) self v (LeftBy v)) (λ e. Adds (λ _ v. LeftBy v) self e.0 (LeftBy self)) }
        ensures kept { MatchResult result (IsSame self) (λ e. IsSame self e.0) }
        ensures spent { MatchResult result (HasSpent (λ _. 0) (λ v. v.allowance) self) (λ e. HasSpent (λ _. 0) (λ v. v.allowance) self e.0) }
        ensures cause { MatchResult result (λ v. ◌≡◌ {A = ℕ} 0 0) (λ e. HasFaultCause 0 0 e.0.allowance e.1) }
        ensures still { IfErr result (λ e. IsCountKept 0 0 e.1) }
        ensures volume { IfErr result (λ e. IsOfVolume e.1) }

        // What a crash left is not decided by a recovery that was stopped.
        ensures as_was { IfErr result (λ e. IsAsWas self e.0 × (e.1 ≡ fault.OutOfMemory → e.0.allowance ≡ self.allowance)) }
        // What it recovers is what a crash left, and not the other outcome of a stopped commit.
        ensures held { IfOk result (λ v. held_by v ≡ held_by self) }
        ensures counted { MatchResult result (λ v. IsPassed self.allowance v.allowance) (λ e. e.1 ≡ fault.Stopped → IsAtEnd self.allowance) }
    {
        match self.allowance {
            Allowance::Spent => Err((self, VaultFault::Stopped)),
            Allowance::Left(0) => {
                let mut stopped = self;
                stopped.allowance = Allowance::Spent;
                Err((stopped, VaultFault::Stopped))
            }
            passing => self.recovered(one_less(passing)),
        }
    }
}
