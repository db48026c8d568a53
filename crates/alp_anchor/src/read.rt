//! Which anchor counts.
ghost use Rattle.std.specs.Prelude.{◌≡◌, ◌≤◌, take, IsTrue, IfOk, IfErr};
ghost use Rattle.alp_base.specs.Crashes.{NoMore, Adds};
ghost use Rattle.alp_anchor.specs.Anchor.{Counts};
ghost use Rattle.alp_anchor.specs.declared.anchor.Anchor.{Anchor as Said};
ghost use Rattle.alp_anchor.specs.Read.{WhyNot, ReadsAs, IsOf, HasAnchorCause, Chosen, NoneChosen};

use crate::spelling::own_anchor;
use crate::{Anchor, AnchorFault};
use alp_base::Page;
use alp_disk::Disk;

/// How a page begins.
fn front(page: &Page) -> [u8; 24]
    ensures { result ≡ take 24 page.now }
{
    let mut found = [0; 24];
    found.copy_from_slice(&page.bytes()[..24]);
    found
}

/// Of two open anchors the one counts whose generation is the other's successor.
fn choose(
    first: Option<Anchor>,
    second: Option<Anchor>,
    found: [u8; 24],
) -> Result<Anchor, AnchorFault>
    ensures ok { IfOk result (Chosen first second) }
    ensures err { IfErr result (NoneChosen first second found) }
{
    match (first, second) {
        (None, None) => Err(AnchorFault::NotAVolume { found }),
        (Some(a), None) => Ok(a),
        (None, Some(b)) => Ok(b),
        (Some(a), Some(b)) => {
            if a.generation == b.generation.wrapping_add(1) {
                Ok(a)
            } else if b.generation == a.generation.wrapping_add(1) {
                Ok(b)
            } else {
                Err(AnchorFault::Damaged { place: 1 })
            }
        }
    }
}

/// The anchor that counts among the open ones that name this server.
///
/// An anchor that names another server, or another number of servers, is passed over. Where no
/// anchor counts, there is none that names this server, or two of which neither is the other's
/// successor; each of these answers excludes the others. Where one counts, it is the answer, unless
/// the disk halts.
pub fn read_anchor<D: Disk>(disk: &mut D, server: u8, servers: u8) -> Result<Anchor, AnchorFault>
    requires { 2 ≤ D.size disk.old }
    ensures counts { IsTrue (D.tells disk.old) → IfOk result (λ a. Counts (D.size disk.old) (D.seen disk.old) a) }
    ensures own { IfOk result (IsOf server servers (D.size disk.old)) }
    ensures why_not { IsTrue (D.tells disk.old) → IfErr result (WhyNot server servers (D.size disk.old) (D.seen disk.old)) }
    ensures exact { IsTrue (D.tells disk.old) → (a : Said) → Counts (D.size disk.old) (D.seen disk.old) a → a.server ≡ server → a.servers ≡ servers → ReadsAs a result }
    ensures tells { D.tells disk.new ≡ D.tells disk.old }
    ensures size { D.size disk.new ≡ D.size disk.old }
    ensures seen { D.seen disk.new ≡ D.seen disk.old }
    ensures crash { NoMore (D.may_leave disk.old) (D.may_leave disk.new) }
    ensures time { Adds D.left_since disk.old disk.new (D.may_leave disk.old) }
    ensures allowance { D.allowance disk.new ≡ D.allowance disk.old }
    ensures cause { HasAnchorCause (D.faults disk.old) (D.faults disk.new) (D.allowance disk.new) result }
{
    let pages = disk.pages();
    let mut page = Page::zero();
    disk.read(0, &mut page)?;
    let found = front(&page);
    let first = own_anchor(&page, 0, pages, server, servers);
    disk.read(1, &mut page)?;
    let second = own_anchor(&page, 1, pages, server, servers);
    choose(first, second, found)
}
