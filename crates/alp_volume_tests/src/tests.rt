ghost use Rattle.std.specs.Prelude.{◌≡◌, ◌≤◌, ◌<◌, [], true, false, refl, length, IfOk};
ghost use Rattle.std.proofs.Math.Nat.{le_refl};
ghost use Rattle.alp_vault.specs.Volumes.{fit_keys};
ghost use Rattle.alp_base.specs.declared.allowance.Allowance.TheVariants.{Free};

mod plain;
mod turns;

use alp_base::{
    AccessList, Cell, Change, FileId, Key, Name, OutOfMemory, OwnerRecord, Page, PageRef, Props,
    Sequence, VaultFault,
};
use alp_pages::{
    Entry, Leader, PageReader, Places, clear_entry, decode_index, decode_leader, encode_leader,
    entry_at, fetch_block, fetch_leader, fetch_owner, fetch_page, new_header, owner_at, set_entry,
    set_owner,
};
use alp_tables::FileSlot;
use alp_volume::{Catalog, Draft, plan_change, read_volume};
use std::alloc::Global;
use std::test::*;

// The volume of docs/FORMATS.md, of 300 home pages. Each line is a home page, a place in it, and the bytes from there
// on; the others are zeros.
const DUMP: &str = "\
0 0 56 4f 4c 55 4d 45 31 01
1 0 01 00 00 00 01 00 00 00 03
1 12 00 00 01 01
129 0 03 61 6e 6e
129 25 00 00 00 0a
129 29 00 00 00 04
129 33 02
129 34 05 57 6f 72 6c 64
129 59 05 4f 77 6e 65 72
257 0 01
257 1 01 00 00 00 01 00 00 00 03
257 10 03 61 6e 6e
257 35 01 41
257 60 00 07
257 62 00 00 00 00 00 00 00 02
257 70 00 00 00 00 00 00 03 e8
257 78 00 00 00 04
257 82 00 00 00 02
257 86 01
257 87 05 57 6f 72 6c 64
257 187 02
257 188 05 4f 77 6e 65 72
257 213 03 62 6f 62
257 288 00 00 01 02
258 0 00 00 01 03
258 4 00 00 01 04
259 0 68 65 6c 6c 6f
";

const HOME: u32 = 300;

// Home pages in memory, of which nothing is told.
#[derive(Drop)]
struct MemPages {
    pages: Vec<PageRef>,
}

impl PageReader for MemPages {
    ghost tells = { λ _. false };

    ghost home = { λ _. 300 };

    ghost pages = { λ _ _. [] };

    ghost faults = { λ _. 0 };

    ghost allowance = { λ _. Free };

    ghost ReadOn = { λ _ _. Unit {0} };

    fn page(&mut self, at: u32) -> Result<PageRef, VaultFault> {
        let Some(page) = self.pages.get(at as usize) else {
            return Err(VaultFault::OutOfMemory);
        };
        match page.share() {
            Ok(page) => Ok(page),
            Err(OutOfMemory) => Err(VaultFault::OutOfMemory),
        }
    }

    ghost still = { λ _. tt };

    ghost then_on = { λ _ _ _ _ _. tt };

    ghost same_pages = { λ _ _ _. refl };

    ghost same_home = { λ _ _ _. refl };

    ghost same_tells = { λ _ _ _. refl };

    ghost same_allowance = { λ _ _ _. refl };

    ghost later = { λ _ _ _. le_refl 0 };
}

// Puts the bytes of the dump for that page over it.
fn dumped(dump: &str, page: u32) -> Option<[u8; 512]> {
    let mut bytes = [0u8; 512];
    for line in dump.lines() {
        let mut words = line.split(' ');
        let of: u32 = words.next()?.parse().ok()?;
        let mut at: usize = words.next()?.parse().ok()?;
        for word in words {
            if of == page {
                *bytes.get_mut(at)? = u8::from_str_radix(word, 16).ok()?;
            }
            at = at.checked_add(1)?;
        }
    }
    Some(bytes)
}

fn list_of(alloc: Global, names: &[Name]) -> Result<AccessList, OutOfMemory>
    requires { length names.now ≤ 4 }
{
    Ok(AccessList::new(Vec::from_slice(alloc, names)?))
}

const FILE: FileId = FileId {
    server: 1,
    epoch: 1,
    counter: 3,
};

fn world() -> Name {
    Name::spelled(b"World")
}

fn owner() -> Name {
    Name::spelled(b"Owner")
}

// A file of ann's of that size.
fn props(alloc: Global, size: u32) -> Result<Props, OutOfMemory>
    ensures { IfOk result (λ props. props.size ≡ size) }
{
    let read = list_of(alloc, &[world()])?;
    let modify = list_of(alloc, &[owner(), Name::spelled(b"bob")])?;
    Ok(Props {
        owner: Name::spelled(b"ann"),
        name: Name::spelled(b"A"),
        type_no: 7,
        create_time: 2,
        byte_length: 1000,
        size,
        high_water: 2,
        read,
        modify,
    })
}

fn leader(alloc: Global) -> Result<Leader, OutOfMemory>
    ensures { IfOk result (λ leader. leader.props.size ≡ 4) }
{
    let props = props(alloc, 4)?;
    let mut index = Places::new([0; 32]);
    index.set(0, 258);
    Ok(Leader {
        file: FILE,
        props,
        index,
    })
}

// The owner with that charge.
fn ann(alloc: Global, charge: u32) -> Result<OwnerRecord, OutOfMemory> {
    let create = list_of(alloc, &[world(), owner()])?;
    Ok(OwnerRecord {
        name: Name::spelled(b"ann"),
        quota: 10,
        charge,
        create,
    })
}

// The pages of the dump, as the functions of alp_pages make them.
fn page_made(alloc: Global, at: u32) -> Result<Page, OutOfMemory> {
    match at {
        0 => Ok(new_header()),
        1 => Ok(directory()),
        129 => owners(alloc),
        257 => leader_page(alloc),
        258 => Ok(Page::beginning(&[0, 0, 1, 3, 0, 0, 1, 4])),
        259 => Ok(Page::beginning(b"hello")),
        _ => Ok(Page::zero()),
    }
}

fn directory() -> Page {
    let mut bytes = [0u8; 512];
    let entry = Entry {
        file: FILE,
        place: 257,
    };
    set_entry(&mut bytes, 0, &entry);
    set_entry(&mut bytes, 1, &entry);
    clear_entry(&mut bytes, 1);
    Page::new(bytes)
}

fn owners(alloc: Global) -> Result<Page, OutOfMemory> {
    let owner = ann(alloc, 4)?;
    let mut bytes = [0u8; 512];
    set_owner(&mut bytes, 0, &owner);
    Ok(Page::new(bytes))
}

fn leader_page(alloc: Global) -> Result<Page, OutOfMemory> {
    let leader = leader(alloc)?;
    let mut page = Page::zero();
    encode_leader(&leader, &mut page);
    Ok(page)
}

fn page_ref(alloc: Global, at: u32) -> Result<PageRef, OutOfMemory> {
    let page = page_made(alloc, at)?;
    PageRef::new(alloc, page)
}

fn volume(alloc: Global) -> Result<MemPages, OutOfMemory> {
    let mut pages = Vec::new(alloc);
    for at in 0..HOME {
        pages.push(page_ref(alloc, at)?)?;
    }
    Ok(MemPages { pages })
}

fn is_page_dumped(alloc: Global, at: u32) -> Result<bool, OutOfMemory> {
    let page = page_made(alloc, at)?;
    match dumped(DUMP, at) {
        Some(bytes) => Ok(page.bytes() == bytes.as_slice()),
        None => Ok(false),
    }
}

// Whether the leader page of the dump is read as the leader.
fn is_leader_read(alloc: Global) -> Result<bool, OutOfMemory> {
    let Some(bytes) = dumped(DUMP, 257) else {
        return Ok(false);
    };
    let wanted = leader(alloc)?;
    match decode_leader(alloc, &Page::new(bytes))? {
        Some(found) => Ok(found == wanted),
        None => Ok(false),
    }
}

// Whether the index page of the dump has its two places, of which one is cleared, and zeros are no index page.
fn are_places_read() -> bool {
    let Some(bytes) = dumped(DUMP, 258) else {
        return false;
    };
    let Some(mut places) = decode_index(&bytes) else {
        return false;
    };
    if places.at(0) != 259 || places.at(1) != 260 || places.at(2) != 0 {
        return false;
    }
    places.set(1, 0);
    places.at(1) == 0 && decode_index(&[0; 512]).is_none()
}

#[test]
fn pages_are_those_of_the_dump(rt: HostRuntime) -> Result<(), Fail> {
    for at in [0, 1, 129, 257, 258, 259] {
        assert!(rt; is_page_dumped(rt.alloc(), at)?, "page {at}");
    }
    assert!(rt; is_leader_read(rt.alloc())?);
    assert!(rt; are_places_read());
    Ok(())
}

fn gives_props(alloc: Global, pages: &mut MemPages) -> Result<bool, VaultFault> {
    let Ok(wanted) = props(alloc, 4) else {
        return Err(VaultFault::OutOfMemory);
    };
    match fetch_leader(alloc, pages, 257)? {
        Some(found) => Ok(found == wanted),
        None => Ok(false),
    }
}

fn gives_owner(alloc: Global, pages: &mut MemPages) -> Result<bool, VaultFault> {
    let Ok(wanted) = ann(alloc, 4) else {
        return Err(VaultFault::OutOfMemory);
    };
    match fetch_owner(alloc, pages, 0)? {
        Some(found) => Ok(found == wanted),
        None => Ok(false),
    }
}

fn gives_second_owner(alloc: Global, pages: &mut MemPages) -> Result<bool, VaultFault> {
    match fetch_owner(alloc, pages, 1)? {
        Some(_owner) => Ok(true),
        None => Ok(false),
    }
}

// The page of the file with that number: whether it begins with these bytes, or nothing where it does not stand.
fn page_begins(
    alloc: Global,
    pages: &mut MemPages,
    number: u32,
    bytes: &[u8],
) -> Result<Option<bool>, VaultFault>
    requires { number < 4096 }
{
    match fetch_page(alloc, pages, HOME, FILE, 257, number)? {
        Some(page) => Ok(Some(page.bytes().starts_with(bytes))),
        None => Ok(None),
    }
}

#[test]
fn fetches_the_cells(rt: HostRuntime) -> Result<(), Fail> {
    let alloc = rt.alloc();
    let mut pages = volume(alloc)?;
    assert!(rt; gives_props(alloc, &mut pages)?);
    assert!(rt; gives_owner(alloc, &mut pages)? && !gives_second_owner(alloc, &mut pages)?);
    assert!(rt; page_begins(alloc, &mut pages, 0, b"hello\0")? == Some(true));
    assert!(rt; page_begins(alloc, &mut pages, 2, b"")?.is_none());
    assert!(rt; fetch_block(alloc, &mut pages, FILE, 257, 0)?);
    assert!(rt; !fetch_block(alloc, &mut pages, FILE, 257, 1)?);
    Ok(())
}

// Whether the page of the dump has the entry of the file and no other, and neither a file without a place nor other bytes than
// zeros after an id make one.
fn are_entries_read(page: &[u8; 512]) -> bool {
    let entry = Entry {
        file: FILE,
        place: 257,
    };
    let mut named = *page;
    named[16] = 1;
    let mut longer = *page;
    longer[9] = 1;
    entry_at(page, 0) == Some(Some(entry))
        && entry_at(page, 31) == Some(None)
        && entry_at(&named, 1).is_none()
        && entry_at(&longer, 0).is_none()
}

#[derive(Clone, Copy, PartialEq)]
enum Row {
    Wrong,
    Unused,
    Ann,
    Another,
}

// What stands in that row of a page.
fn row_at(alloc: Global, page: &[u8; 512], row: usize) -> Result<Row, OutOfMemory>
    requires { row < 2 }
{
    let wanted = ann(alloc, 4)?;
    match owner_at(alloc, page, row)? {
        Some(Some(found)) => Ok(if found == wanted {
            Row::Ann
        } else {
            Row::Another
        }),
        Some(None) => Ok(Row::Unused),
        None => Ok(Row::Wrong),
    }
}

#[test]
fn entries_and_rows_are_read_exactly(rt: HostRuntime) -> Result<(), Fail> {
    let alloc = rt.alloc();
    let entries = dumped(DUMP, 1).ok_or("a dump")?;
    assert!(rt; are_entries_read(&entries));
    let owners = dumped(DUMP, 129).ok_or("a dump")?;
    assert!(rt; row_at(alloc, &owners, 0)? == Row::Ann);
    assert!(rt; row_at(alloc, &owners, 1)? == Row::Unused);
    let mut torn = owners;
    torn[511] = 1;
    assert!(rt;
        row_at(alloc, &torn, 1)? == Row::Wrong,
        "no record, and not unused"
    );
    Ok(())
}

// Whether the catalog has the file and the owner of the volume.
fn has_both(catalog: &Catalog) -> bool {
    let kept = FileSlot {
        slot: 0,
        place: 257,
        blocks: 1,
    };
    catalog.files.len() == 1
        && catalog.files.get(FILE) == Some(kept)
        && catalog.owners.len() == 1
        && catalog.owners.get(&Name::spelled(b"ann")) == Some(0)
}

// Whether it has their pages, and no other.
fn has_their_pages(catalog: &Catalog) -> bool {
    catalog.places.is_taken(260)
        && !catalog.places.is_taken(261)
        && catalog.has_block(FILE, 0)
        && !catalog.has_block(FILE, 1)
}

// Whether ann is its only owner.
fn names_ann(catalog: &Catalog) -> bool {
    catalog.owners.names().len() == 1
        && catalog.owner_names().first() == Some(&Name::spelled(b"ann"))
        && catalog.file_count() == 1
        && catalog.owner_count() == 1
}

// Whether the first slot and row are taken, and of the places those of the head.
fn has_first_ones(catalog: &Catalog) -> bool {
    catalog.slots.is_taken(0)
        && !catalog.slots.is_taken(1)
        && catalog.rows.is_taken(0)
        && !catalog.rows.is_taken(1)
        && catalog.places.is_taken(256)
        && !catalog.places.is_taken(299)
}

fn is_read(alloc: Global, pages: &mut MemPages) -> Result<bool, VaultFault> {
    let catalog = read_volume(alloc, pages, HOME)?;
    Ok(
        has_both(&catalog)
            && has_their_pages(&catalog)
            && names_ann(&catalog)
            && has_first_ones(&catalog),
    )
}

#[test]
fn reads_a_volume(rt: HostRuntime) -> Result<(), Fail> {
    let mut pages = volume(rt.alloc())?;
    assert!(rt; is_read(rt.alloc(), &mut pages)?);
    Ok(())
}

// ---- changes

fn crosses<T: Send + Sync>(_value: &T) {}

// Puts the pages of a plan over those in memory.
fn apply(pages: &mut MemPages, plan: &Draft) -> Result<(), OutOfMemory> {
    for at in 0..HOME {
        if let Some(page) = plan.pages.get(at) {
            let page = page.share()?;
            if let Some(place) = pages.pages.get_mut(at as usize) {
                *place = page;
            }
        }
    }
    Ok(())
}

fn change_of(alloc: Global, drops: &[FileId], cuts: &[(FileId, u32)]) -> Result<Change, OutOfMemory>
    ensures empty { IfOk result (λ change. change.puts ≡ []) }
    ensures fit { IfOk result (λ change. fit_keys change.puts ≡ true) }
{
    let mut gone = Vec::new(alloc);
    for file in drops {
        gone.push(*file)?;
    }
    let mut shorter = Vec::new(alloc);
    for cut in cuts {
        shorter.push(*cut)?;
    }
    Ok(Change {
        drops: Sequence::new(gone),
        cuts: Sequence::new(shorter),
        puts: Sequence::new(Vec::new(alloc)),
    })
}

// What is looked for in a plan.
#[derive(Clone, Copy)]
enum Wanted {
    Dropped,
    Cut,
    Put,
}

// Whether no place of the file is taken.
fn are_places_free(catalog: &Catalog) -> bool {
    for place in [257, 258, 259, 260] {
        if catalog.places.is_taken(place) {
            return false;
        }
    }
    true
}

// Whether the file is gone, and of its pages only the one of the directory changes.
fn is_dropped(catalog: &Catalog, plan: &Draft) -> bool {
    crosses(plan);
    crosses(catalog);
    let Some(entries) = plan.pages.get(1) else {
        return false;
    };
    catalog.files.get(FILE).is_none()
        && !catalog.slots.is_taken(0)
        && are_places_free(catalog)
        && entries.bytes() == Page::zero().bytes()
        && plan.pages.get(257).is_none()
}

// Whether the index page of a plan has these as the first places.
fn has_places(plan: &Draft, wanted: &[u32; 4]) -> bool {
    let Some(index) = plan.pages.get(258) else {
        return false;
    };
    match decode_index(index.bytes()) {
        Some(places) => {
            places.at(0) == wanted[0]
                && places.at(1) == wanted[1]
                && places.at(2) == wanted[2]
                && places.at(3) == wanted[3]
        }
        None => false,
    }
}

// Whether the volume with the plan is read as the catalog has the file, without its second page.
fn is_read_as(alloc: Global, pages: &mut MemPages, catalog: &Catalog) -> Result<bool, VaultFault> {
    let again = read_volume(alloc, pages, HOME)?;
    Ok(again.files.get(FILE) == catalog.files.get(FILE) && !again.places.is_taken(260))
}

// Whether the second page is gone.
fn is_cut(
    alloc: Global,
    pages: &mut MemPages,
    catalog: &Catalog,
    plan: &Draft,
) -> Result<bool, VaultFault> {
    if !catalog.places.is_taken(259)
        || catalog.places.is_taken(260)
        || !has_places(plan, &[259, 0, 0, 0])
    {
        return Ok(false);
    }
    if apply(pages, plan).is_err() {
        return Err(VaultFault::OutOfMemory);
    }
    is_read_as(alloc, pages, catalog)
}

fn has_two_images(alloc: Global, plan: &Draft) -> Result<bool, OutOfMemory> {
    let images = plan.pages.images(alloc)?;
    Ok(images.len() == 2)
}

// Whether one of the two is at a new place, which is that one.
fn has_new_image(alloc: Global, plan: &Draft, catalog: &Catalog) -> Result<bool, OutOfMemory> {
    let parts = plan.parted(alloc, catalog)?;
    match parts.new.as_slice() {
        [new] => Ok(new.0 == 261 && parts.others.len() == 1),
        _ => Ok(false),
    }
}

// Whether the page is put at the lowest free place.
fn is_put(alloc: Global, catalog: &Catalog, plan: &Draft) -> Result<bool, OutOfMemory> {
    let Some(there) = plan.pages.get(261) else {
        return Ok(false);
    };
    Ok(
        there.bytes().starts_with(b"new\0")
            && has_places(plan, &[259, 260, 0, 261])
            && catalog.places.is_taken(261)
            && !catalog.places.is_taken(262)
            && has_two_images(alloc, plan)?
            && has_new_image(alloc, plan, catalog)?,
    )
}

// Whether a plan for the change, of the volume and what was read of it, is as wanted.
fn plans(
    alloc: Global,
    pages: &mut MemPages,
    change: &Change,
    wanted: Wanted,
) -> Result<bool, VaultFault>
    requires { fit_keys change.now.puts ≡ true }
{
    let mut catalog = read_volume(alloc, pages, HOME)?;
    let plan = plan_change(alloc, pages, &mut catalog, change)?;
    match wanted {
        Wanted::Dropped => Ok(is_dropped(&catalog, &plan)),
        Wanted::Cut => is_cut(alloc, pages, &catalog, &plan),
        Wanted::Put => match is_put(alloc, &catalog, &plan) {
            Ok(is) => Ok(is),
            Err(OutOfMemory) => Err(VaultFault::OutOfMemory),
        },
    }
}

#[test]
fn drops_a_file(rt: HostRuntime) -> Result<(), Fail> {
    let alloc = rt.alloc();
    let mut pages = volume(alloc)?;
    let change = change_of(alloc, &[FILE], &[])?;
    assert!(rt; plans(alloc, &mut pages, &change, Wanted::Dropped)?);
    Ok(())
}

#[test]
fn cuts_a_file(rt: HostRuntime) -> Result<(), Fail> {
    let alloc = rt.alloc();
    let mut pages = volume(alloc)?;
    let change = change_of(alloc, &[], &[(FILE, 1)])?;
    assert!(rt; plans(alloc, &mut pages, &change, Wanted::Cut)?);
    Ok(())
}

// Whether a plan frees the place of a page, and is taken back, as it is where memory is wanting: all is there again.
fn is_taken_back(alloc: Global, pages: &mut MemPages, change: &Change) -> Result<bool, VaultFault>
    requires { change.now.puts ≡ [] }
{
    let mut catalog = read_volume(alloc, pages, HOME)?;
    let mut plan = plan_change(alloc, pages, &mut catalog, change)?;
    let freed = !catalog.places.is_taken(260);
    catalog.take_back(&mut plan.undos);
    Ok(freed && has_both(&catalog) && has_their_pages(&catalog))
}

#[test]
fn takes_a_plan_back(rt: HostRuntime) -> Result<(), Fail> {
    let alloc = rt.alloc();
    let mut pages = volume(alloc)?;
    let change = change_of(alloc, &[FILE], &[])?;
    assert!(rt; is_taken_back(alloc, &mut pages, &change)?);
    Ok(())
}

// A page of the file is put.
fn put_of(alloc: Global, page: PageRef) -> Result<Change, OutOfMemory>
    ensures { IfOk result (λ change. fit_keys change.puts ≡ true) }
{
    Ok(Change {
        drops: Sequence::new(Vec::new(alloc)),
        cuts: Sequence::new(Vec::new(alloc)),
        puts: Sequence::new(vec![in alloc; (Key::PageOf(FILE, 3), Cell::Page(page))]?),
    })
}

#[test]
fn puts_a_page_at_the_lowest_free_place(rt: HostRuntime) -> Result<(), Fail> {
    let alloc = rt.alloc();
    let mut pages = volume(alloc)?;
    let page = PageRef::new(alloc, Page::beginning(b"new"))?;
    let change = put_of(alloc, page)?;
    assert!(rt; plans(alloc, &mut pages, &change, Wanted::Put)?);
    Ok(())
}
