// The least lateness, and the least end of the schedules that have it, over the number of machines.
ghost use Rattle.std.specs.Prelude.{◌≡◌, ◌*◌, ◌≤◌, pos, ◌-ℤ◌, ◌*ℤ◌, IfOk};
ghost use Rattle.msp_class.specs.declared.sizes.TheConstants.{MOST_JOBS, MOST_MACHINES, GREATEST};
ghost use Rattle.msp_instance.specs.Conditions.{LiesWithin};
ghost use Rattle.msp_route.specs.Halving.{IsLeastBound, IsRange};
ghost use Rattle.msp_stairs.specs.Bounds.{greatest_bound, CanMeet, CanEnd, AreLeast, IsReady, IsReadyFor};
ghost use Rattle.msp_stairs.specs.laws.Rising.{CanMeet-rises, CanEnd-rises};

use crate::climb::{Limits, climbed};
use msp_class::NoMemory;
use msp_instance::{Instance, first_time};
use msp_route::{Question, Range, least_in, total_time};
use std::alloc::Global;

/// Whether some schedule of the instance meets a bound on the lateness.
#[derive(Drop)]
struct Bounds<'a> {
    inst: &'a Instance,
    order: &'a [u32],
}

impl<'a> Question for Bounds<'a> {
    ghost may_ask = { λ q. IsReady q.inst.now q.order.now };

    ghost limit = { λ _. greatest_bound };

    ghost met = { λ q. CanMeet q.inst.now };

    fn ask(&self, alloc: Global, bound: i128) -> Result<bool, NoMemory> {
        let limits = Limits {
            late: bound,
            end: None,
        };
        let pieces = climbed(alloc, self.inst, self.order, &limits)?;
        Ok(pieces.is_some())
    }

    ghost rises = { λ q. CanMeet-rises q.inst.now };
}

/// Whether some schedule of the instance that is no later ends by a moment.
#[derive(Drop)]
struct Ends<'a> {
    inst: &'a Instance,
    order: &'a [u32],
    late: i128,
}

impl<'a> Question for Ends<'a> {
    ghost may_ask = { λ q. IsReadyFor q.inst.now q.order.now q.late };

    ghost limit = { λ _. greatest_bound };

    ghost met = { λ q. CanEnd q.inst.now q.late };

    fn ask(&self, alloc: Global, bound: i128) -> Result<bool, NoMemory> {
        let limits = Limits {
            late: self.late,
            end: Some(bound),
        };
        let laid = climbed(alloc, self.inst, self.order, &limits)?;
        Ok(laid.is_some())
    }

    ghost rises = { λ q. CanEnd-rises q.inst.now q.late };
}

/// A time less a due date, times the number of machines.
fn over_machines(machines: u32, time: u64, due: i64) -> i128
    requires few { machines ≤ MOST_MACHINES }
    requires time { time ≤ GREATEST * MOST_JOBS }
    requires date { LiesWithin (2 * GREATEST) due }
    ensures value { result ≡ pos machines *ℤ (pos time -ℤ due) }
    ensures size { LiesWithin greatest_bound result }
{
    i128::from(machines) * (i128::from(time) - i128::from(due))
}

/// The bounds between which the least one lies: the job that is due first has its time, and all jobs one after another have enough.
fn first_range(inst: &Instance, order: &[u32]) -> Range
    requires ready { IsReady inst.now order.now }
    ensures { IsRange (CanMeet inst.now) greatest_bound result }
{
    let first = &inst.jobs.as_slice()[order[0] as usize];
    let alone = first_time(first.needs.as_slice());
    let all = total_time(inst, order);
    Range {
        low: over_machines(inst.machines, alone, first.due),
        high: over_machines(inst.machines, all, first.due),
    }
}

/// The least bound on the lateness that can be met.
fn least_bound(alloc: Global, inst: &Instance, order: &[u32]) -> Result<i128, NoMemory>
    requires ready { IsReady inst.now order.now }
    ensures least { IfOk result (IsLeastBound (CanMeet inst.now)) }
    ensures size { IfOk result (LiesWithin greatest_bound) }
{
    let range = first_range(inst, order);
    least_in(&Bounds { inst, order }, alloc, range)
}

/// The moments between which the least end lies: no schedule ends before 0, and all jobs one after another have enough.
fn range_of_ends(inst: &Instance, order: &[u32], late: &i128) -> Range
    requires ready { IsReady inst.now order.now }
    requires met { CanMeet inst.now late.now }
    ensures { IsRange (CanEnd inst.now late.now) greatest_bound result }
{
    let all = total_time(inst, order);
    Range {
        low: 0,
        high: over_machines(inst.machines, all, 0),
    }
}

/// The least moment by which a schedule ends that is no later.
fn least_end(alloc: Global, inst: &Instance, order: &[u32], late: &i128) -> Result<i128, NoMemory>
    requires ready { IsReadyFor inst.now order.now late.now }
    requires met { CanMeet inst.now late.now }
    ensures least { IfOk result (IsLeastBound (CanEnd inst.now late.now)) }
    ensures size { IfOk result (LiesWithin greatest_bound) }
{
    let range = range_of_ends(inst, order, late);
    let late = *late;
    least_in(&Ends { inst, order, late }, alloc, range)
}

/// The least lateness, and the least end of the schedules that have it.
pub fn least_limits(alloc: Global, inst: &Instance, order: &[u32]) -> Result<Limits, NoMemory>
    requires ready { IsReady inst.now order.now }
    ensures { IfOk result (AreLeast inst.now) }
{
    let late = least_bound(alloc, inst, order)?;
    let end = least_end(alloc, inst, order, &late)?;
    Ok(Limits {
        late,
        end: Some(end),
    })
}
