//! A random sequence of changes, beside a plain map.
ghost use Rattle.std.specs.Prelude.{◌≡◌, ◌<◌, true};
ghost use Rattle.alp_base.specs.declared.cell.Cell.TheVariants.{Leader as LeaderCell, Owner as OwnerCell, Page as PageCell};
ghost use Rattle.alp_vault.specs.Volumes.{fit_keys, fits_key};
ghost use Rattle.alp_volume.specs.Known.{IsCatalog};

use super::*;

const FILES: usize = 4;

const PAGES: usize = 512;

// A plain map of what a volume holds: the size of each file that there is, and a byte for each page that stands.
#[derive(Drop)]
struct PlainMap {
    sizes: Vec<Option<u32>>,
    bytes: Vec<u8>,
}

impl PlainMap {
    fn new(alloc: Global) -> Result<PlainMap, OutOfMemory> {
        let mut sizes = Vec::new(alloc);
        sizes.resize(FILES, None)?;
        let mut bytes = Vec::new(alloc);
        bytes.resize(FILES * PAGES, 0)?;
        Ok(PlainMap { sizes, bytes })
    }

    fn copy(&self, alloc: Global) -> Result<PlainMap, OutOfMemory> {
        let mut sizes = Vec::new(alloc);
        for size in &self.sizes {
            sizes.push(*size)?;
        }
        let mut bytes = Vec::new(alloc);
        for byte in &self.bytes {
            bytes.push(*byte)?;
        }
        Ok(PlainMap { sizes, bytes })
    }

    fn size(&self, file: u32) -> Option<u32> {
        match self.sizes.get(file as usize) {
            Some(size) => *size,
            None => None,
        }
    }

    fn set_size(&mut self, file: u32, size: Option<u32>) {
        if let Some(place) = self.sizes.get_mut(file as usize) {
            *place = size;
        }
    }

    fn byte(&self, file: u32, number: u32) -> u8 {
        let at = (file as usize)
            .saturating_mul(PAGES)
            .saturating_add(number as usize);
        match self.bytes.get(at) {
            Some(byte) => *byte,
            None => 0,
        }
    }

    fn set_byte(&mut self, file: u32, number: u32, byte: u8) {
        let at = (file as usize)
            .saturating_mul(PAGES)
            .saturating_add(number as usize);
        if let Some(place) = self.bytes.get_mut(at) {
            *place = byte;
        }
    }

    fn clear_from(&mut self, file: u32, from: u32) {
        for number in from..512 {
            self.set_byte(file, number, 0);
        }
    }

    fn charge(&self) -> u32 {
        let mut sum = 0u32;
        for size in &self.sizes {
            if let Some(size) = size {
                sum = sum.saturating_add(*size);
            }
        }
        sum
    }

    // How many places a block takes.
    fn block(&self, file: u32, block: u32) -> u32 {
        let mut count = 0u32;
        for number in 0..128u32 {
            if self.byte(file, block.saturating_mul(128).saturating_add(number)) != 0 {
                count = count.saturating_add(1);
            }
        }
        if count > 0 {
            count.saturating_add(1)
        } else {
            0
        }
    }

    // How many places the files take.
    fn used(&self) -> u32 {
        let mut count = 0u32;
        for file in 0..4u32 {
            if self.size(file).is_some() {
                count = count.saturating_add(1);
            }
            for block in 0..4u32 {
                count = count.saturating_add(self.block(file, block));
            }
        }
        count
    }
}

// The next of numbers that look random.
fn next_number(seed: &mut u64) -> u32 {
    *seed = seed
        .wrapping_mul(6364136223846793005)
        .wrapping_add(1442695040888963407);
    (*seed >> 33) as u32
}

fn file_of(number: u32) -> FileId {
    FileId {
        server: 1,
        epoch: 1,
        counter: number,
    }
}

fn put_of_file(alloc: Global, file: u32, size: u32) -> Result<(Key, Cell), OutOfMemory> {
    let props = props(alloc, size)?;
    Ok((Key::Leader(file_of(file)), Cell::Leader(props)))
}

fn put_of_page(
    alloc: Global,
    file: u32,
    number: u32,
    byte: u8,
) -> Result<(Key, Cell), OutOfMemory> {
    let page = PageRef::new(alloc, Page::new([byte; 512]))?;
    Ok((Key::PageOf(file_of(file), number), Cell::Page(page)))
}

fn put_of_owner(alloc: Global, charge: u32) -> Result<(Key, Cell), OutOfMemory> {
    let owner = ann(alloc, charge)?;
    Ok((Key::OwnerOf(owner.name), Cell::Owner(owner)))
}

// Puts up to three pages of the file, in a row, as far as they stand. The map has them too.
fn put_pages(
    alloc: Global,
    map: &mut PlainMap,
    file: u32,
    seed: &mut u64,
    puts: &mut Vec<(Key, Cell)>,
) -> Result<(), OutOfMemory> {
    let first = next_number(seed) % 512;
    for number in first..first + next_number(seed) % 4 {
        if Some(number) < map.size(file) {
            let byte = (next_number(seed) % 255 + 1) as u8;
            map.set_byte(file, number, byte);
            puts.push(put_of_page(alloc, file, number, byte)?)?;
        }
    }
    Ok(())
}

// The file goes, where the kind of a change is a drop. The map has it no more either.
fn drops_of(
    alloc: Global,
    map: &mut PlainMap,
    file: u32,
    kind: u32,
) -> Result<Vec<FileId>, OutOfMemory> {
    let mut drops = Vec::new(alloc);
    if map.size(file).is_some() && kind == 0 {
        drops.push(file_of(file))?;
        map.set_size(file, None);
        map.clear_from(file, 0);
    }
    Ok(drops)
}

// The file loses its last pages, where the kind of a change is a cut.
fn cuts_of(
    alloc: Global,
    map: &mut PlainMap,
    file: u32,
    kind: u32,
    seed: &mut u64,
) -> Result<Vec<(FileId, u32)>, OutOfMemory> {
    let mut cuts = Vec::new(alloc);
    if map.size(file).is_some() && kind == 1 {
        let to = next_number(seed) % 513;
        cuts.push((file_of(file), to))?;
        map.clear_from(file, to);
    }
    Ok(cuts)
}

// The file comes, where there is none and the kind allows it, pages of it are written, and its owner is charged.
fn puts_of(
    alloc: Global,
    map: &mut PlainMap,
    file: u32,
    kind: u32,
    seed: &mut u64,
) -> Result<Vec<(Key, Cell)>, OutOfMemory> {
    let mut puts = Vec::new(alloc);
    let size = next_number(seed) % 513;
    if map.size(file).is_none() && kind < 6 {
        map.set_size(file, Some(size));
        puts.push(put_of_file(alloc, file, size)?)?;
    }
    put_pages(alloc, map, file, seed, &mut puts)?;
    puts.push(put_of_owner(alloc, map.charge())?)?;
    puts.reverse();
    Ok(puts)
}

// A drop or a cut, a new file, pages that are put: each of one file, with the charge of the owner. The map has it too.
fn random_change(alloc: Global, map: &mut PlainMap, seed: &mut u64) -> Result<Change, OutOfMemory> {
    let file = next_number(seed) % 4;
    let kind = next_number(seed) % 8;
    let drops = drops_of(alloc, map, file, kind)?;
    let cuts = cuts_of(alloc, map, file, kind, seed)?;
    let puts = puts_of(alloc, map, file, kind, seed)?;
    Ok(Change {
        drops: Sequence::new(drops),
        cuts: Sequence::new(cuts),
        puts: Sequence::new(puts),
    })
}

fn leader_fits(key: &Key, props: &Props) -> bool
    ensures { result ≡ fits_key key.now (LeaderCell props.now) }
{
    match key {
        Key::Leader(_) => props.size <= 4096,
        _ => false,
    }
}

fn page_fits(key: &Key, page: &PageRef) -> bool
    ensures { result ≡ fits_key key.now (PageCell page.now) }
{
    match key {
        Key::PageOf(_, number) => *number < 4096,
        _ => false,
    }
}

fn owner_fits(key: &Key, owner: &OwnerRecord) -> bool
    ensures { result ≡ fits_key key.now (OwnerCell owner.now) }
{
    match key {
        Key::OwnerOf(name) => owner.name == *name,
        _ => false,
    }
}

fn fits(key: &Key, cell: &Cell) -> bool
    ensures { result ≡ fits_key key.now cell.now }
{
    match cell {
        Cell::Leader(props) => leader_fits(key, props),
        Cell::Page(page) => page_fits(key, page),
        Cell::Owner(owner) => owner_fits(key, owner),
    }
}

fn all_fit(puts: &[(Key, Cell)]) -> bool
    ensures { result ≡ fit_keys puts.now }
{
    puts.iter().all(|put| fits(&put.0, &put.1))
}

fn empty_volume(alloc: Global) -> Result<MemPages, OutOfMemory> {
    let mut pages = Vec::new(alloc);
    pages.push(PageRef::new(alloc, new_header())?)?;
    for _ in 1..HOME {
        pages.push(PageRef::new(alloc, Page::zero())?)?;
    }
    Ok(MemPages { pages })
}

// Whether both say the same of four files, of the first entries, of the rows, and of all places.
fn agree(one: &Catalog, other: &Catalog) -> bool {
    for file in 0..4u32 {
        if one.files.get(file_of(file)) != other.files.get(file_of(file)) {
            return false;
        }
    }
    for number in 0..HOME {
        if one.places.is_taken(number) != other.places.is_taken(number) {
            return false;
        }
        if one.slots.is_taken(number) != other.slots.is_taken(number) {
            return false;
        }
        if one.rows.is_taken(number) != other.rows.is_taken(number) {
            return false;
        }
    }
    one.files.len() == other.files.len() && one.owners.len() == other.owners.len()
}

// Makes the change of the volume, and tells whether it was made: where room is missing it is not.
fn is_made(
    alloc: Global,
    pages: &mut MemPages,
    catalog: &mut Catalog,
    change: &Change,
) -> Result<bool, OutOfMemory>
    requires sized { IsCatalog 300 catalog.old }
    requires fits { fit_keys change.now.puts ≡ true }
    ensures { IsCatalog 300 catalog.new }
{
    match plan_change(alloc, pages, catalog, change) {
        Ok(plan) => {
            apply(pages, &plan)?;
            Ok(true)
        }
        Err(_fault) => Ok(false),
    }
}

// Makes one change of the volume and of the map, or of neither, and tells whether that was right: only where room is missing is none made.
fn make_turn(
    alloc: Global,
    pages: &mut MemPages,
    catalog: &mut Catalog,
    map: &mut PlainMap,
    seed: &mut u64,
) -> Result<bool, OutOfMemory>
    requires { IsCatalog 300 catalog.old }
    ensures { IsCatalog 300 catalog.new }
{
    let mut next = map.copy(alloc)?;
    let change = random_change(alloc, &mut next, seed)?;
    if !all_fit(change.puts.as_slice()) {
        return Ok(false);
    }
    if is_made(alloc, pages, catalog, &change)? {
        *map = next;
        return Ok(true);
    }
    Ok(next.used().saturating_add(257) > HOME)
}

// Whether a page of a file is what the map says.
fn page_agrees(
    alloc: Global,
    pages: &mut MemPages,
    catalog: &Catalog,
    map: &PlainMap,
    file: u32,
    number: u32,
) -> Result<bool, VaultFault>
    requires { number < 4096 }
{
    let Some(kept) = catalog.files.get(file_of(file)) else {
        return Ok(map.size(file).is_none());
    };
    if kept.place >= HOME || map.size(file).is_none() {
        return Ok(false);
    }
    let byte = map.byte(file, number);
    match fetch_page(alloc, pages, HOME, file_of(file), kept.place, number)? {
        Some(page) => Ok(page.bytes() == [byte; 512].as_slice()),
        None => Ok(byte == 0),
    }
}

// How many places of the volume are taken.
fn places_taken(catalog: &Catalog) -> u32 {
    let mut count = 0u32;
    for place in 257..HOME {
        if catalog.places.is_taken(place) {
            count = count.saturating_add(1);
        }
    }
    count
}

// One turn: a change, then the count of places and a page of each file, and now and then the whole volume.
fn turn_is_right(
    alloc: Global,
    pages: &mut MemPages,
    catalog: &mut Catalog,
    map: &mut PlainMap,
    seed: &mut u64,
    whole: bool,
) -> Result<bool, VaultFault>
    requires { IsCatalog 300 catalog.old }
    ensures { IsCatalog 300 catalog.new }
{
    let Ok(right) = make_turn(alloc, pages, catalog, map, seed) else {
        return Err(VaultFault::OutOfMemory);
    };
    if !right || places_taken(catalog) != map.used() {
        return Ok(false);
    }
    let number = next_number(seed) % 512;
    for file in 0..4u32 {
        if !page_agrees(alloc, pages, catalog, map, file, number)? {
            return Ok(false);
        }
    }
    if !whole {
        return Ok(true);
    }
    let read = read_volume(alloc, pages, HOME)?;
    Ok(agree(catalog, &read))
}

// The first turn that is wrong, if there is one.
fn wrong_turn(
    alloc: Global,
    pages: &mut MemPages,
    map: &mut PlainMap,
) -> Result<Option<u32>, VaultFault> {
    let mut seed = 7u64;
    let mut catalog = read_volume(alloc, pages, HOME)?;
    for turn in 0..2000u32 {
        if !turn_is_right(alloc, pages, &mut catalog, map, &mut seed, turn % 200 == 0)? {
            return Ok(Some(turn));
        }
    }
    Ok(None)
}

#[test]
fn changes_like_a_plain_map(rt: HostRuntime) -> Result<(), Fail> {
    let alloc = rt.alloc();
    let mut map = PlainMap::new(alloc)?;
    let mut pages = empty_volume(alloc)?;
    assert!(rt; wrong_turn(alloc, &mut pages, &mut map)? == None);
    Ok(())
}
