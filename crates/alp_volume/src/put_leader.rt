//! Leaders that are put.
ghost use Rattle.std.specs.Prelude.{◌≡◌, ◌≤◌, ◌<◌, ℕ, List, [], ◌∷◌, IsTrue, IfOk, IfSome, OnOk, Some, ◌+◌};
ghost use Rattle.std.specs.FinMap as map;
ghost use Rattle.alp_base.specs.declared.ids.FileId.{FileId as File};
ghost use Rattle.alp_base.specs.declared.key.Key.TheVariants.{Leader as LeaderKey};
ghost use Rattle.alp_fields.specs.Forms.{whole};
ghost use Rattle.alp_base.specs.declared.cell.Cell.TheVariants.{Leader as LeaderCell};
ghost use Rattle.alp_files.specs.Cells.{View};
ghost use Rattle.alp_files.specs.Edits.{Put, after};
ghost use Rattle.alp_pages.specs.Leader.{leader_page};
ghost use Rattle.alp_volume.specs.declared.catalog.Catalog.{Catalog as ACatalog};
ghost use Rattle.alp_volume.specs.Drafts.{IsDraft, laid};
ghost use Rattle.alp_pages.specs.Nodes.{LeaderOf};
ghost use Rattle.alp_pages.specs.Reading.{HasRead};

use crate::draft::Draft;
use alp_base::{OutOfMemory, PAGES_PER_FILE, Page, Props, VaultFault};
use alp_pages::{Leader, PageReader, copy_of, decode_leader, encode_leader};
use std::alloc::Global;

/// The leader at a place, as the change has it.
pub fn draft_leader<R: PageReader>(
    alloc: Global,
    draft: &Draft,
    reader: &mut R,
    at: u32,
) -> Result<Option<Leader>, VaultFault>
    requires { at < R.home reader.old }
    ensures leader { IsTrue (R.tells reader.old) → IfOk result (λ o. o ≡ whole leader_page (laid draft.now.pages (R.pages reader.old) at)) }
    ensures size { IfOk result (λ o. IfSome o (λ l. l.props.size ≤ PAGES_PER_FILE)) }
    ensures read { HasRead R.ReadOn R.faults R.allowance reader.old reader.new result }
{
    let page = copy_of(&draft.page(reader, at)?);
    match decode_leader(alloc, &page) {
        Ok(leader) => Ok(leader),
        Err(OutOfMemory) => Err(VaultFault::OutOfMemory),
    }
}

// The page that spells the leader.
pub(crate) fn leader_page_of(leader: &Leader) -> Page
    requires { leader.now.props.size ≤ PAGES_PER_FILE }
    ensures { whole leader_page result ≡ Some leader.now }
{
    let mut page = Page::zero();
    encode_leader(leader, &mut page);
    page
}

/// Puts the properties of a file whose leader stands there. Its index pages stay.
pub fn put_known_leader<R: PageReader>(
    alloc: Global,
    draft: &mut Draft,
    reader: &mut R,
    at: u32,
    props: Props,
) -> Result<(), VaultFault>
    requires at { at < R.home reader.old }
    requires size { props.size ≤ PAGES_PER_FILE }
    ensures put { (home : ℕ) (m : View) (c : ACatalog) (f : File) (d : IsDraft home (laid draft.old.pages (R.pages reader.old)) m c) → IsTrue (R.tells reader.old) → d.volume.places.of (LeaderOf f) ≡ Some at → OnOk result (IsDraft home (laid draft.new.pages (R.pages reader.old)) (after (Put (LeaderKey f) (LeaderCell props) ∷ []) m) c) }
    ensures undos { draft.new.undos ≡ draft.old.undos }
    ensures few { map.len draft.new.pages ≤ map.len draft.old.pages + 1 }
    ensures read { HasRead R.ReadOn R.faults R.allowance reader.old reader.new result }
{
    let Some(old) = draft_leader(alloc, draft, reader, at)? else {
        return Err(VaultFault::OutOfMemory);
    };
    let leader = Leader {
        file: old.file,
        props,
        index: old.index,
    };
    match draft.write(at, leader_page_of(&leader)) {
        Ok(()) => Ok(()),
        Err(OutOfMemory) => Err(VaultFault::OutOfMemory),
    }
}
