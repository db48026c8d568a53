ghost use Rattle.std.specs.Prelude.{◌≡◌, ◌≤◌, ◌+◌, length};

use alp_base::Page;

/// A write since the last sync: so many bytes, which stand at the front of a page of their own.
#[derive(Drop)]
pub struct PendingWrite {
    pub at: u32,
    pub offset: u16,
    pub len: u16,
    pub page: Page,
    ghost fits: { offset + len ≤ 512 },
    ghost full: { length page ≡ 512 },
}

impl PendingWrite {
    ghost use Rattle.alp_disk.specs.Pending.{written_bytes};

    pub fn new(at: u32, offset: u16, bytes: &[u8]) -> PendingWrite
        requires { offset + length bytes.now ≤ 512 }
        ensures at_page { result.at ≡ at }
        ensures from { result.offset ≡ offset }
        ensures size { result.len ≡ length bytes.now }
        ensures holds { written_bytes result ≡ bytes.now }
    {
        PendingWrite {
            at,
            offset,
            len: bytes.len() as u16,
            page: Page::beginning(bytes),
        }
    }

    pub fn bytes(&self) -> &[u8]
        ensures same { result.now ≡ written_bytes self.now }
        ensures size { length result.now ≡ self.now.len }
        ensures fits { self.now.offset + length result.now ≤ 512 }
    {
        &self.page.bytes()[..self.len as usize]
    }
}
