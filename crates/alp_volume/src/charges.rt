//! Reading what the files of a volume cost their owners.
ghost use Rattle.std.specs.Prelude.{◌≡◌, ◌≤◌, ◌<◌, ◌+◌, ◌++◌, ℕ, length, IsTrue, IfOk, option_map};
ghost use Rattle.std.specs.Option.{option_to_list};
ghost use Rattle.alp_pages.specs.Pages.{entry_in};
ghost use Rattle.alp_pages.specs.Damage.{entry_there, leader_at};
ghost use Rattle.alp_volume.specs.Reached.{AreCosts, AreWithin, cost_in};
ghost use Rattle.alp_pages.specs.Reading.{HasRead};

use crate::directory::read_slot;
use alp_base::VaultFault;
use alp_pages::{Leader, PageReader, read_leader};
use alp_tables::Cost;
use alp_vault::HEAD_PAGES;
use std::alloc::Global;

fn cost_of(leader: &Leader) -> Cost
    ensures { result ≡ cost_in leader.now }
{
    let owner = leader.props.owner;
    Cost {
        owner,
        size: leader.props.size,
    }
}

// What the file in a slot costs, if there is one and its leader can be read.
fn read_cost<R: PageReader>(
    alloc: Global,
    reader: &mut R,
    home: u32,
    slot: u32,
) -> Result<Option<Cost>, VaultFault>
    requires slot { slot < 4096 }
    requires home { home ≡ R.home reader.old }
    requires head { HEAD_PAGES ≤ home }
    ensures cost { IsTrue (R.tells reader.old) → AreWithin home (R.pages reader.old) → IfOk result (λ o. o ≡ option_map cost_in (leader_at (R.pages reader.old) (entry_there (entry_in (R.pages reader.old) slot)))) }
    ensures read { HasRead R.ReadOn R.faults R.allowance reader.old reader.new result }
{
    let Some(found) = read_slot(reader, slot)? else {
        return Ok(None);
    };
    let Some(entry) = found else {
        return Ok(None);
    };
    if entry.place >= home {
        return Ok(None);
    }
    let Some(leader) = read_leader(alloc, reader, entry.place)? else {
        return Ok(None);
    };
    Ok(Some(cost_of(&leader)))
}

fn add_cost(costs: &mut Vec<Cost>, cost: Option<Cost>)
    requires { length costs.old.items < costs.old.cap }
    ensures added { costs.new.items ≡ costs.old.items ++ option_to_list cost }
    ensures room { costs.new.cap ≡ costs.old.cap }
{
    if let Some(cost) = cost {
        costs.push_reserved(cost);
    }
}

/// What the files cost, as far as their leaders can be read.
pub fn read_costs<R: PageReader>(
    alloc: Global,
    reader: &mut R,
    home: u32,
) -> Result<Vec<Cost>, VaultFault>
    requires home { home ≡ R.home reader.old }
    requires head { HEAD_PAGES ≤ home }
    ensures costs { IsTrue (R.tells reader.old) → AreWithin home (R.pages reader.old) → IfOk result (λ v. AreCosts (R.pages reader.old) v.items) }
    ensures few { IfOk result (λ v. length v.items ≤ 4096) }
    ensures read { HasRead R.ReadOn R.faults R.allowance reader.old reader.new result }
{
    let Ok(mut costs) = Vec::with_capacity(alloc, 4096) else {
        return Err(VaultFault::OutOfMemory);
    };
    for slot in 0..4096u32 {
        let cost = read_cost(alloc, reader, home, slot)?;
        add_cost(&mut costs, cost);
    }
    Ok(costs)
}
