// The least bound on the greatest cost that some schedule meets.
ghost use Rattle.std.specs.Prelude.{◌≡◌, ◌*◌, ◌<◌, ◌≤◌, ◌↔◌, ◌⊎◌, length, pos, ◌≤ℤ◌, All, IfOk, IsTrue};
ghost use Rattle.msp_class.specs.declared.sizes.TheConstants.{MOST_JOBS};
ghost use Rattle.msp_instance.specs.Conditions.{Inner, LiesWithin};
ghost use Rattle.msp_pieces.specs.Within.{greatest_cost};
ghost use Rattle.msp_route.specs.Halving.{IsLeastBound, IsRange};
ghost use Rattle.msp_due.specs.Due.{tree_class, pair_class, CanMeet};
ghost use Rattle.msp_due.specs.Steps.{cost_in, IsReady, IsGreatestCost, CanPlace};
ghost use Rattle.msp_due.specs.laws.Rising.{CanPlace-rises};

use crate::due_slot::cost_in;
use crate::listing::{Shared, in_time, listed, shared_of};
use msp_class::NoMemory;
use msp_instance::Instance;
use msp_route::{Question, Range, least_in};
use std::alloc::Global;

/// Whether some schedule of the instance meets a bound.
#[derive(Drop)]
struct Bounds<'a> {
    inst: &'a Instance,
    shared: &'a Shared,
}

impl<'a> Question for Bounds<'a> {
    ghost may_ask = { λ q. IsReady q.inst.now q.shared.now.paths q.shared.now.order };

    ghost limit = { λ _. greatest_cost };

    ghost met = { λ q. CanPlace q.inst.now };

    fn ask(&self, alloc: Global, bound: i128) -> Result<bool, NoMemory> {
        let in_slots = listed(alloc, self.inst, self.shared, &bound)?;
        Ok(in_time(in_slots.pieces.as_slice(), in_slots.slots.as_slice()))
    }

    ghost rises = { λ q. CanPlace-rises q.inst.now };
}

/// Whether some feasible schedule, over any unit, costs at most the bound.
pub fn can_meet(alloc: Global, inst: &Instance, bound: &i128) -> Result<bool, NoMemory>
    requires inner { Inner inst.now }
    requires class { (inst.now.class ≡ tree_class) ⊎ (inst.now.class ≡ pair_class) }
    ensures { IfOk result (λ can. IsTrue can ↔ CanMeet inst.now bound.now) }
{
    let shared = shared_of(alloc, inst)?;
    let in_slots = listed(alloc, inst, &shared, bound)?;
    Ok(in_time(in_slots.pieces.as_slice(), in_slots.slots.as_slice()))
}

/// The greatest cost of a job that ends when so many slots are over.
fn greatest_after(inst: &Instance, slots: u64) -> i128
    requires inner { Inner inst.now }
    requires class { (inst.now.class ≡ tree_class) ⊎ (inst.now.class ≡ pair_class) }
    requires few { slots ≤ MOST_JOBS }
    ensures greatest { IsGreatestCost inst.now slots (length inst.now.jobs) result }
    ensures size { LiesWithin greatest_cost result }
{
    let mut greatest = cost_in(inst, 0, slots);
    for job in 1..inst.jobs.len() as u32 {
        greatest = greatest.max(cost_in(inst, job, slots));
    }
    greatest
}

/// The bounds between which the least one lies: no job ends before one slot is over, and one slot for each job is enough.
fn first_range(inst: &Instance) -> Range
    requires inner { Inner inst.now }
    requires class { (inst.now.class ≡ tree_class) ⊎ (inst.now.class ≡ pair_class) }
    ensures { IsRange (CanPlace inst.now) greatest_cost result }
{
    Range {
        low: greatest_after(inst, 1),
        high: greatest_after(inst, inst.jobs.len() as u64),
    }
}

/// The least bound that can be met.
pub fn least_bound(alloc: Global, inst: &Instance, shared: &Shared) -> Result<i128, NoMemory>
    requires ready { IsReady inst.now shared.now.paths shared.now.order }
    ensures least { IfOk result (IsLeastBound (CanPlace inst.now)) }
    ensures size { IfOk result (LiesWithin greatest_cost) }
{
    let range = first_range(inst);
    least_in(&Bounds { inst, shared }, alloc, range)
}
