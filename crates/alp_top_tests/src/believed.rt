//! A run in a folder that is believed.
ghost use Rattle.std.specs.Prelude.{map, string_bytes};
ghost use Rattle.alp_top.specs.Besides.{HasLawsFor};
ghost use Rattle.alp_top.specs.Headline.{IsPlayed};
ghost use Rattle.alp_top.specs.Statuses.{OnReport};

use alp_base::{Sink, Source};
use alp_bay::Bay;
use alp_belief::{Believed, BelievedBay};
use alp_disk::{Disk, Fuse};
use alp_store::Store;
use alp_top::{Status, run_alpine};
use alp_vault::Vault;
use std::alloc::Global;

/// Plays what the words name as `run_alpine` does, whatever folder they name. What is said of disks is said of the believed ones:
/// of a file for one who believes that it keeps what was not read again.
pub fn run_believed<S: Source, K: Sink, B: Bay + Drop>(
    alloc: Global,
    words: &[String],
    script: &mut S,
    out: &mut K,
    bay: &mut BelievedBay<B>,
) -> Status<Believed<B::Device>>
    ensures headline { OnReport result (K.written out.old) (K.written out.new) (IsPlayed ⟦<Store<Fuse<Believed<B::Device>>> as Vault>⟧ ⟦<Believed<B::Device> as Disk>⟧ (map string_bytes words.now) (S.left script.old) (S.left script.new) (⟦<BelievedBay<B> as Bay>⟧.at bay.old) (⟦<BelievedBay<B> as Bay>⟧.at bay.new)) }
    ensures laws { OnReport result (K.written out.old) (K.written out.new) (HasLawsFor ⟦<Store<Fuse<Believed<B::Device>>> as Vault>⟧ ⟦<Believed<B::Device> as Disk>⟧ (map string_bytes words.now) (S.left script.old) (S.left script.new) (⟦<BelievedBay<B> as Bay>⟧.at bay.old) (⟦<BelievedBay<B> as Bay>⟧.at bay.new)) }
{
    run_alpine(alloc, words, script, out, bay)
}
