//! What a changed page makes of a volume, as contracts: each step of a change is one of these.
ghost use Rattle.std.specs.Prelude.{◌≡◌, ◌<◌, ◌+◌, ◌/◌, ◌%◌, slice_set, ℕ, Bool, List, [], ◌∷◌, Some, None};
ghost use Rattle.alp_base.specs.declared.ids.FileId.{FileId as File};
ghost use Rattle.alp_base.specs.declared.key.Key.TheVariants.{PageOf, Leader as LeaderKey, OwnerOf};
ghost use Rattle.alp_fields.specs.Forms.{whole};
ghost use Rattle.alp_base.specs.declared.cell.Cell.TheVariants.{Page as PageCell, Leader as LeaderCell, Owner as OwnerCell};
ghost use Rattle.alp_base.specs.declared.cell.OwnerRecord.{OwnerRecord as Owner};
ghost use Rattle.alp_files.specs.Cells.{View, same_name};
ghost use Rattle.alp_files.specs.Edits.{Put, Drop, Cut, after};
ghost use Rattle.alp_pages.specs.declared.leader.Leader.{Leader as LeaderValue};
ghost use Rattle.alp_pages.specs.Leader.{leader_page};
ghost use Rattle.alp_pages.specs.Changes.{HasRow, HasSlot, IsBareLeader, IsCutOff, IsFree, NamesBlock, NamesOne, volume_cut, volume_with, volume_with_file, volume_without};
ghost use Rattle.alp_pages.specs.Naming.{named};
ghost use Rattle.alp_pages.specs.Nodes.{Node, LeaderOf, IndexOf, DataOf};
ghost use Rattle.alp_pages.specs.Pages.{Pages as PagesOf, index_page, written};
ghost use Rattle.alp_pages.specs.Volume.{Volume as VolumeOf, Spells, row_of_node};

/// A page of data is put at its place.
pub fn a_page_is_put()
    ensures { (home : ℕ) (pages : PagesOf) (v : VolumeOf) (m : View) → Spells home pages v m → (f : File) (n place : ℕ) → v.places.of (DataOf f n) ≡ Some place → (bytes : List ℕ) → Spells home (written place bytes pages) v (after (Put (PageOf f n) (PageCell bytes) ∷ []) m) }
{}

/// A page of data that has no place gets one that is free, and the index page of its block names it.
pub fn a_new_page_is_put()
    ensures { (home : ℕ) (pages : PagesOf) (v : VolumeOf) (m : View) → Spells home pages v m → (f : File) (n index place : ℕ) → v.places.of (IndexOf f (n / 128)) ≡ Some index → v.places.of (DataOf f n) ≡ None → IsFree home v place → (bytes ix row : List ℕ) → whole index_page (pages index) ≡ Some row → whole index_page ix ≡ Some (slice_set row (n % 128) place) → Spells home (written index ix (written place bytes pages)) (volume_with (DataOf f n) place v) (after (Put (PageOf f n) (PageCell bytes) ∷ []) m) }
{}

/// The first page of a block brings an index page, which the leader names.
pub fn a_new_block_is_put()
    ensures { (home : ℕ) (pages : PagesOf) (v : VolumeOf) (m : View) → Spells home pages v m → (f : File) (n leader index place : ℕ) → v.places.of (LeaderOf f) ≡ Some leader → n < 4096 → v.places.of (IndexOf f (n / 128)) ≡ None → IsFree home v index → IsFree home v place → (index ≡ place → ⊥) → (bytes ix lbytes : List ℕ) → NamesOne ix (n % 128) place → NamesBlock f (pages leader) lbytes (n / 128) index → Spells home (written leader lbytes (written index ix (written place bytes pages))) (volume_with (DataOf f n) place (volume_with (IndexOf f (n / 128)) index v)) (after (Put (PageOf f n) (PageCell bytes) ∷ []) m) }
{}

/// A leader is put at its place, with its index places as they were.
pub fn a_leader_is_put()
    ensures { (home : ℕ) (pages : PagesOf) (v : VolumeOf) (m : View) → Spells home pages v m → (f : File) (place : ℕ) → v.places.of (LeaderOf f) ≡ Some place → (bytes : List ℕ) (l : LeaderValue) → whole leader_page bytes ≡ Some l → row_of_node (LeaderOf f) bytes ≡ row_of_node (LeaderOf f) (pages place) → Spells home (written place bytes pages) v (after (Put (LeaderKey f) (LeaderCell l.props) ∷ []) m) }
{}

/// An owner's record is put into its row, or into one that is free.
pub fn an_owner_is_put()
    ensures known { (home : ℕ) (pages : PagesOf) (v : VolumeOf) (m : View) → Spells home pages v m → (row : ℕ) (bytes : List ℕ) (o : Owner) → v.rows.of o.name ≡ Some row → HasRow pages bytes row o → Spells home (written (129 + row / 2) bytes pages) v (after (Put (OwnerOf o.name) (OwnerCell o) ∷ []) m) }
    ensures new { (home : ℕ) (pages : PagesOf) (v : VolumeOf) (m : View) → Spells home pages v m → (row : ℕ) (bytes : List ℕ) (o : Owner) → v.rows.of o.name ≡ None → v.rows.at row ≡ None → row < 256 → HasRow pages bytes row o → Spells home (written (129 + row / 2) bytes pages) (record v { rows = named same_name o.name row v.rows }) (after (Put (OwnerOf o.name) (OwnerCell o) ∷ []) m) }
{}

/// A file goes, with all its places, where its entry is cleared.
pub fn a_file_goes()
    ensures { (home : ℕ) (pages : PagesOf) (v : VolumeOf) (m : View) → Spells home pages v m → (f : File) (slot : ℕ) → v.slots.of f ≡ Some slot → (bytes : List ℕ) → HasSlot pages bytes slot None → Spells home (written (1 + slot / 32) bytes pages) (volume_without f v) (after (Drop f ∷ []) m) }
{}

/// A new file gets a free slot and a place for its leader, which names no index page yet.
pub fn a_file_comes()
    ensures { (home : ℕ) (pages : PagesOf) (v : VolumeOf) (m : View) → Spells home pages v m → (f : File) (slot place : ℕ) → v.slots.of f ≡ None → v.slots.at slot ≡ None → slot < 4096 → IsFree home v place → ((n : ℕ) → m (PageOf f n) ≡ None) → (dbytes lbytes : List ℕ) (l : LeaderValue) → HasSlot pages dbytes slot (Some (record { file = f; place = place })) → IsBareLeader f lbytes l → Spells home (written (1 + slot / 32) dbytes (written place lbytes pages)) (volume_with_file f slot place v) (after (Put (LeaderKey f) (LeaderCell l.props) ∷ []) m) }
{}

/// A file's pages from a number on go, with the index pages of blocks that have no other.
pub fn a_file_is_cut()
    ensures { (home : ℕ) (pages new : PagesOf) (v : VolumeOf) (m : View) → Spells home pages v m → (f : File) (from : ℕ) (gone : Node → Bool) → IsCutOff pages new v f from gone → Spells home new (volume_cut gone v) (after (Cut f from ∷ []) m) }
{}
