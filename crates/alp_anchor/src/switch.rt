//! The switch from one anchor to the other.
ghost use Rattle.std.specs.Prelude.{◌≡◌, ◌-◌, ℕ, IsTrue, IfOk};
ghost use Rattle.alp_disk.specs.Disk.{Image};
ghost use Rattle.alp_base.specs.Crashes.{LeavesOnly};
ghost use Rattle.alp_base.specs.Allowances.{Spends, HasHaltCause};
ghost use Rattle.alp_anchor.specs.Anchor.{IsSound, Counts, next_anchor, Switching, Switched};

use crate::Anchor;
use crate::gate::{close_gate, open_gate};
use crate::spelling::anchor_page;
use alp_base::Halt;
use alp_disk::Disk;

/// Makes the other anchor the one that counts, with the next generation and the other area.
///
/// A crash at any moment leaves the old anchor counting, with only the other anchor's page touched,
/// or the new one, with the rest as it was synced.
pub fn switch_anchor<D: Disk>(disk: &mut D, old: &Anchor, area: u8) -> Result<Anchor, Halt>
    requires sound { IsSound (D.size disk.old) old.now }
    requires area { area ≡ 1 - old.now.area }
    requires counts { IsTrue (D.tells disk.old) → (c : Image) → D.may_leave disk.old c → Counts (D.size disk.old) c old.now }
    ensures next { IfOk result (λ anchor. anchor ≡ next_anchor old.now area) }
    ensures switched { IsTrue (D.tells disk.old) → IfOk result (λ _. Switched (D.size disk.old) old.now area (D.seen disk.old) (D.seen disk.new) (D.may_leave disk.new)) }
    ensures any_moment { IsTrue (D.tells disk.old) → LeavesOnly D.left_since disk.old disk.new
        (Switching (D.size disk.old) old.now area (D.may_leave disk.old) (D.seen disk.old)) }
    ensures tells { D.tells disk.new ≡ D.tells disk.old }
    ensures size { D.size disk.new ≡ D.size disk.old }
    ensures allowance { Spends (D.allowance disk.old) (D.allowance disk.new) }
    ensures cause { HasHaltCause (D.faults disk.old) (D.faults disk.new) (D.allowance disk.new) result }
{
    let next = Anchor {
        page: 1 - old.page,
        generation: old.generation.wrapping_add(1),
        area,
        server: old.server,
        servers: old.servers,
        sizes: old.sizes,
    };
    let at = next.page as u32;
    let page = anchor_page(&next);
    close_gate(disk, at)?;
    open_gate(disk, at, &page)?;
    Ok(next)
}
