//! What files cost their owners.
ghost use Rattle.std.specs.Prelude.{◌≡◌, ◌≤◌, length, sum_by};
ghost use Rattle.alp_tables.specs.Costs.{cost_to};

use crate::cost::Cost;
use alp_base::Name;

fn cost_to(cost: &Cost, owner: &Name) -> u32
    ensures { result ≡ cost_to owner.now cost.now }
{
    if cost.owner == *owner { cost.size } else { 0 }
}

/// The sum of an owner's sizes.
pub fn charge_of(costs: &[Cost], owner: &Name) -> u64
    requires { length costs.now ≤ 4096 }
    ensures { result ≡ sum_by (cost_to owner.now) costs.now }
{
    let mut charge = 0;
    for cost in costs {
        charge += u64::from(cost_to(cost, owner));
    }
    charge
}
