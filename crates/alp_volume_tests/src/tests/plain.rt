//! Each byte of a small volume changed, beside a plain decoder of docs/FORMATS.md.
ghost use Rattle.std.specs.Prelude.{◌<◌};

use super::*;

// ---- fields

// So many bytes from a place on; none where there are not so many.
fn part(bytes: &[u8], at: usize, len: usize) -> &[u8] {
    match bytes.get(at..at.saturating_add(len)) {
        Some(part) => part,
        None => &[],
    }
}

// The highest byte first.
fn number(bytes: &[u8]) -> u64 {
    let mut value = 0u64;
    for byte in bytes {
        value = value.wrapping_mul(256).wrapping_add(u64::from(*byte));
    }
    value
}

fn are_zeros(bytes: &[u8]) -> bool {
    bytes.iter().all(|byte| *byte == 0)
}

fn is_letter(byte: u8) -> bool {
    byte.is_ascii_alphanumeric() || byte == b'.' || byte == b'-' || byte == b'_'
}

// The name in a field of 25 bytes; empty where there is none.
fn name_in(field: &[u8]) -> &[u8] {
    let len = number(part(field, 0, 1)) as usize;
    let name = part(field, 1, len);
    let behind = part(field, len.saturating_add(1), 24usize.saturating_sub(len));
    if len > 24 || !are_zeros(behind) || !name.iter().all(|byte| is_letter(*byte)) {
        return &[];
    }
    name
}

fn is_name(field: &[u8]) -> bool {
    !name_in(field).is_empty()
}

// One of the four name fields of a list.
fn name_of(list: &[u8], at: usize) -> &[u8] {
    part(list, at.saturating_mul(25).saturating_add(1), 25)
}

fn is_list(field: &[u8]) -> bool {
    let count = number(part(field, 0, 1)) as usize;
    for at in 0..4usize {
        let name = name_of(field, at);
        if at < count && !is_name(name) {
            return false;
        }
        if count <= at && !are_zeros(name) {
            return false;
        }
    }
    count <= 4
}

// ---- pages

fn page(pages: &MemPages, at: u64) -> &[u8] {
    match pages.pages.get(at as usize) {
        Some(page) => page.bytes(),
        None => &[],
    }
}

fn entry(pages: &MemPages, slot: u64) -> &[u8] {
    part(page(pages, 1 + slot / 32), (slot % 32) as usize * 16, 16)
}

fn row(pages: &MemPages, row: u64) -> &[u8] {
    part(page(pages, 129 + row / 2), (row % 2) as usize * 256, 256)
}

fn is_header(page: &[u8]) -> bool {
    part(page, 0, 8) == b"VOLUME1\x01".as_slice() && are_zeros(part(page, 8, 504))
}

fn is_record(record: &[u8]) -> bool {
    is_name(part(record, 0, 25))
        && is_list(part(record, 33, 101))
        && are_zeros(part(record, 134, 122))
}

fn is_leader(page: &[u8]) -> bool {
    number(part(page, 0, 1)) == 1
        && is_name(part(page, 10, 25))
        && is_name(part(page, 35, 25))
        && number(part(page, 78, 4)) <= 4096
        && is_list(part(page, 86, 101))
        && is_list(part(page, 187, 101))
        && are_zeros(part(page, 416, 96))
}

// ---- damage, in the order of the format

// The places that are named so far.
#[derive(Drop)]
struct Named {
    places: Vec<u64>,
}

impl Named {
    // Names a place, unless no page may be there or it is named.
    fn add(&mut self, place: u64) -> Result<bool, OutOfMemory> {
        if place < 257 || u64::from(HOME) <= place {
            return Ok(false);
        }
        if self.places.iter().any(|other| *other == place) {
            return Ok(false);
        }
        self.places.push(place)?;
        Ok(true)
    }
}

// The slots of the directory whose entries are not zeros.
fn used_slots(alloc: Global, pages: &MemPages) -> Result<Vec<u64>, OutOfMemory> {
    let mut slots = Vec::new(alloc);
    for slot in 0..4096u64 {
        if !are_zeros(entry(pages, slot)) {
            slots.push(slot)?;
        }
    }
    Ok(slots)
}

// Whether a slot in front of that one has its file.
fn is_second(pages: &MemPages, slots: &[u64], slot: u64) -> bool {
    let id = part(entry(pages, slot), 0, 9);
    slots.iter().any(|other| *other < slot && part(entry(pages, *other), 0, 9) == id)
}

fn damaged_entry(
    pages: &MemPages,
    slots: &[u64],
    named: &mut Named,
) -> Result<Option<u64>, OutOfMemory> {
    for slot in slots {
        let bytes = entry(pages, *slot);
        let new = named.add(number(part(bytes, 12, 4)))?;
        if !new || !are_zeros(part(bytes, 9, 3)) || is_second(pages, slots, *slot) {
            return Ok(Some(1 + *slot / 32));
        }
    }
    Ok(None)
}

// The sum of the sizes of the leaders that name the owner.
fn charge(pages: &MemPages, slots: &[u64], owner: &[u8]) -> u64 {
    let mut sum = 0u64;
    for slot in slots {
        let leader = page(pages, number(part(entry(pages, *slot), 12, 4)));
        if is_leader(leader) && part(leader, 10, 25) == owner {
            sum = sum.wrapping_add(number(part(leader, 78, 4)));
        }
    }
    sum
}

// Whether one of the first rows has a record of the owner.
fn has_record(pages: &MemPages, rows: u64, owner: &[u8]) -> bool {
    for number in 0..rows {
        if part(row(pages, number), 0, 25) == owner {
            return true;
        }
    }
    false
}

fn damaged_row(pages: &MemPages, slots: &[u64]) -> Option<u64> {
    for at in 0..256u64 {
        let record = row(pages, at);
        if are_zeros(record) {
            continue;
        }
        let owner = part(record, 0, 25);
        if !is_record(record) || has_record(pages, at, owner) {
            return Some(129 + at / 2);
        }
        if number(part(record, 29, 4)) != charge(pages, slots, owner) {
            return Some(129 + at / 2);
        }
    }
    None
}

// Names the places in a row of them, each of 4 bytes; as many may be named as are allowed, and zeros behind.
fn name_places(places: &[u8], allowed: u64, named: &mut Named) -> Result<bool, OutOfMemory> {
    let mut at = 0u64;
    for place in places.chunks(4) {
        let place = number(place);
        if place != 0 {
            if allowed <= at || !named.add(place)? {
                return Ok(false);
            }
        }
        at = at.wrapping_add(1);
    }
    Ok(true)
}

// The first index page of a leader that is damaged.
fn damaged_index(
    pages: &MemPages,
    leader: &[u8],
    named: &mut Named,
) -> Result<Option<u64>, OutOfMemory> {
    let size = number(part(leader, 78, 4));
    for block in 0..32u64 {
        let place = number(part(leader, 288 + block as usize * 4, 4));
        if place == 0 {
            continue;
        }
        let index = page(pages, place);
        let allowed = size.saturating_sub(block * 128);
        if are_zeros(index) || !name_places(index, allowed, named)? {
            return Ok(Some(place));
        }
    }
    Ok(None)
}

// The leader of an entry, or an index page of it, where that is damaged.
fn damaged_file(
    pages: &MemPages,
    entry: &[u8],
    named: &mut Named,
) -> Result<Option<u64>, OutOfMemory> {
    let place = number(part(entry, 12, 4));
    let leader = page(pages, place);
    if !is_leader(leader) || part(leader, 1, 9) != part(entry, 0, 9) {
        return Ok(Some(place));
    }
    if !has_record(pages, 256, part(leader, 10, 25)) {
        return Ok(Some(place));
    }
    if !name_places(part(leader, 288, 128), 32, named)? {
        return Ok(Some(place));
    }
    damaged_index(pages, leader, named)
}

fn damaged_files(
    pages: &MemPages,
    slots: &[u64],
    named: &mut Named,
) -> Result<Option<u64>, OutOfMemory> {
    for slot in slots {
        if let Some(place) = damaged_file(pages, entry(pages, *slot), named)? {
            return Ok(Some(place));
        }
    }
    Ok(None)
}

// The first page that is damaged.
fn damaged(alloc: Global, pages: &MemPages) -> Result<Option<u64>, OutOfMemory> {
    let slots = used_slots(alloc, pages)?;
    let mut named = Named {
        places: Vec::new(alloc),
    };
    if !is_header(page(pages, 0)) {
        return Ok(Some(0));
    }
    if let Some(place) = damaged_entry(pages, slots.as_slice(), &mut named)? {
        return Ok(Some(place));
    }
    if let Some(place) = damaged_row(pages, slots.as_slice()) {
        return Ok(Some(place));
    }
    damaged_files(pages, slots.as_slice(), &mut named)
}

// ---- cells

fn are_names(list: &AccessList, field: &[u8]) -> bool {
    let mut at = 0usize;
    for name in list.names() {
        if name.as_bytes() != name_in(name_of(field, at)) {
            return false;
        }
        at = at.wrapping_add(1);
    }
    at as u64 == number(part(field, 0, 1))
}

// Whether the properties are those of the leader page.
fn are_props(props: &Props, page: &[u8]) -> bool {
    props.owner.as_bytes() == name_in(part(page, 10, 25))
        && props.name.as_bytes() == name_in(part(page, 35, 25))
        && u64::from(props.type_no) == number(part(page, 60, 2))
        && props.create_time == number(part(page, 62, 8))
        && props.byte_length == number(part(page, 70, 8))
        && u64::from(props.size) == number(part(page, 78, 4))
        && u64::from(props.high_water) == number(part(page, 82, 4))
        && are_names(&props.read, part(page, 86, 101))
        && are_names(&props.modify, part(page, 187, 101))
}

// Whether the owner is that of the record.
fn is_owner(owner: &OwnerRecord, record: &[u8]) -> bool {
    owner.name.as_bytes() == name_in(part(record, 0, 25))
        && u64::from(owner.quota) == number(part(record, 25, 4))
        && u64::from(owner.charge) == number(part(record, 29, 4))
        && are_names(&owner.create, part(record, 33, 101))
}

// The place of a page of the first block, or 0.
fn place_of(pages: &MemPages, leader: &[u8], number_of: u32) -> u64 {
    let index = page(pages, number(part(leader, 288, 4)));
    number(part(index, number_of as usize % 128 * 4, 4))
}

// Whether a page of the file in the first entry is fetched as it stands.
fn fetches_data(
    alloc: Global,
    pages: &mut MemPages,
    file: FileId,
    at: u32,
    wanted: u32,
) -> Result<bool, VaultFault>
    requires at { at < 300 }
    requires wanted { wanted < 4096 }
{
    let place = place_of(pages, page(pages, u64::from(at)), wanted);
    match fetch_page(alloc, pages, HOME, file, at, wanted)? {
        Some(data) => Ok(place != 0 && data.bytes() == page(pages, place)),
        None => Ok(place == 0),
    }
}

// The file of an entry.
fn file_in(entry: &[u8]) -> FileId {
    FileId {
        server: (number(part(entry, 0, 1)) % 256) as u8,
        epoch: (number(part(entry, 1, 4)) % 4294967296) as u32,
        counter: (number(part(entry, 5, 4)) % 4294967296) as u32,
    }
}

// Whether the file in the first entry is what was read, with its properties and first eight pages.
fn tells_file(alloc: Global, pages: &mut MemPages, catalog: &Catalog) -> Result<bool, VaultFault> {
    let file = file_in(entry(pages, 0));
    let wanted = number(part(entry(pages, 0), 12, 4));
    let Some(kept) = catalog.files.get(file) else {
        return Ok(false);
    };
    if u64::from(kept.place) != wanted || kept.place >= HOME {
        return Ok(false);
    }
    for number in 0..8u32 {
        if !fetches_data(alloc, pages, file, kept.place, number)? {
            return Ok(false);
        }
    }
    match fetch_leader(alloc, pages, kept.place)? {
        Some(props) => Ok(are_props(&props, page(pages, wanted))),
        None => Ok(false),
    }
}

// Whether the owner in the first row is what was read.
fn tells_owner(alloc: Global, pages: &mut MemPages, catalog: &Catalog) -> Result<bool, VaultFault> {
    match fetch_owner(alloc, pages, 0)? {
        Some(owner) => {
            let kept = catalog.owners.get(&owner.name);
            Ok(kept == Some(0) && is_owner(&owner, row(pages, 0)))
        }
        None => Ok(false),
    }
}

// Whether one file and one owner are all that was read, and right.
fn tells(alloc: Global, pages: &mut MemPages, catalog: &Catalog) -> Result<bool, VaultFault> {
    if catalog.files.len() != 1 || catalog.owners.len() != 1 {
        return Ok(false);
    }
    if !tells_file(alloc, pages, catalog)? {
        return Ok(false);
    }
    tells_owner(alloc, pages, catalog)
}

// ---- all bytes

// Whether reading names the page that is damaged, or gives the cells.
fn reads_right(alloc: Global, pages: &mut MemPages) -> Result<bool, VaultFault> {
    let Ok(wanted) = damaged(alloc, pages) else {
        return Err(VaultFault::OutOfMemory);
    };
    match read_volume(alloc, pages, HOME) {
        Ok(catalog) => Ok(wanted.is_none() && tells(alloc, pages, &catalog)?),
        Err(VaultFault::Damaged { place }) => Ok(wanted == Some(u64::from(place))),
        Err(fault) => Err(fault),
    }
}

// Puts the page with so much more in one byte.
fn change_byte(
    alloc: Global,
    pages: &mut MemPages,
    page: u32,
    at: usize,
    more: u8,
) -> Result<(), OutOfMemory> {
    let Some(place) = pages.pages.get_mut(page as usize) else {
        return Ok(());
    };
    let mut bytes = [0u8; 512];
    bytes.copy_from_slice(place.bytes());
    if let Some(byte) = bytes.get_mut(at) {
        *byte = byte.wrapping_add(more);
    }
    *place = PageRef::new(alloc, Page::new(bytes))?;
    Ok(())
}

// Whether reading is right with that byte changed. The byte is put back.
fn is_right_at(
    alloc: Global,
    pages: &mut MemPages,
    page: u32,
    at: usize,
    more: u8,
) -> Result<bool, VaultFault> {
    if change_byte(alloc, pages, page, at, more).is_err() {
        return Err(VaultFault::OutOfMemory);
    }
    let right = reads_right(alloc, pages)?;
    if change_byte(alloc, pages, page, at, 0u8.wrapping_sub(more)).is_err() {
        return Err(VaultFault::OutOfMemory);
    }
    Ok(right)
}

// The first byte of the page at which reading is wrong.
fn wrong_byte(
    alloc: Global,
    pages: &mut MemPages,
    page: u32,
    more: u8,
) -> Result<Option<usize>, VaultFault> {
    for at in 0..512usize {
        if !is_right_at(alloc, pages, page, at, more)? {
            return Ok(Some(at));
        }
    }
    Ok(None)
}

// Header, directory, owners, leader, index page, and a page of data.
const READ: [u32; 6] = [0, 1, 129, 257, 258, 259];

#[test]
fn reads_each_changed_byte_as_a_plain_decoder(rt: HostRuntime) -> Result<(), Fail> {
    let alloc = rt.alloc();
    let mut pages = volume(alloc)?;
    assert!(rt; damaged(alloc, &pages)?.is_none());
    for page in READ {
        for more in [1u8, 128] {
            let wrong = wrong_byte(alloc, &mut pages, page, more)?;
            assert!(rt; wrong.is_none(), "page {page}, {more} more");
        }
    }
    Ok(())
}
