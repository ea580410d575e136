// Due slots for a bound on the greatest cost.
ghost use Rattle.std.specs.Prelude.{◌≡◌, ◌+◌, ◌-◌, ◌<◌, ◌≤◌, ◌⊎◌, ◌↔◌, length, ◌≤ℤ◌, IfOk, IsTrue, if◌then◌else◌};
ghost use Rattle.msp_class.specs.declared.sizes.TheConstants.{MOST_JOBS};
ghost use Rattle.msp_instance.specs.Conditions.{Inner, LiesWithin};
ghost use Rattle.msp_pieces.specs.Within.{greatest_cost};
ghost use Rattle.msp_due.specs.Due.{tree_class, pair_class};
ghost use Rattle.msp_due.specs.Steps.{cost_in, IsDueSlot, AreDueSlots, IsBetween};

use msp_class::NoMemory;
use msp_instance::{Instance, common_time};
use msp_pieces::job_cost_at;
use std::alloc::Global;

/// What the job costs that ends when so many slots are over.
pub fn cost_in(inst: &Instance, job: u32, slots: u64) -> i128
    requires inner { Inner inst.now }
    requires class { (inst.now.class ≡ tree_class) ⊎ (inst.now.class ≡ pair_class) }
    requires inside { job < length inst.now.jobs }
    requires few { slots ≤ MOST_JOBS }
    ensures value { result ≡ cost_in inst.now job slots }
    ensures size { LiesWithin greatest_cost result }
{
    let moment = common_time(inst) * slots;
    job_cost_at(
        inst.class.crit,
        1,
        &inst.jobs.as_slice()[job as usize],
        i128::from(moment),
    )
}

/// Whether the job costs at most the bound after so many slots.
fn is_met(inst: &Instance, job: u32, slots: u64, bound: &i128) -> bool
    requires inner { Inner inst.now }
    requires class { (inst.now.class ≡ tree_class) ⊎ (inst.now.class ≡ pair_class) }
    requires inside { job < length inst.now.jobs }
    requires few { slots ≤ MOST_JOBS }
    ensures { IsTrue result ↔ (cost_in inst.now job slots ≤ℤ bound.now) }
{
    cost_in(inst, job, slots) <= *bound
}

/// Slots between which the due slot lies: after the lesser the job costs at most the bound, after the greater it costs more.
#[derive(Clone, Copy)]
pub struct Between {
    pub met: u64,
    pub beyond: u64,
}

/// The half of the slots in which the due slot lies, where the middle is met or not.
fn halved(between: Between, middle: u64, is_met: bool) -> Between
    ensures met { result.met ≡ (if is_met then middle else between.met) }
    ensures beyond { result.beyond ≡ (if is_met then between.beyond else middle) }
{
    if is_met {
        Between {
            met: middle,
            beyond: between.beyond,
        }
    } else {
        Between {
            met: between.met,
            beyond: middle,
        }
    }
}

/// The half of the slots in which the due slot lies.
fn narrowed(inst: &Instance, job: u32, bound: &i128, between: Between) -> Between
    requires inner { Inner inst.now }
    requires class { (inst.now.class ≡ tree_class) ⊎ (inst.now.class ≡ pair_class) }
    requires inside { job < length inst.now.jobs }
    requires between { IsBetween inst.now bound.now job between }
    requires wide { between.met + 1 < between.beyond }
    ensures between { IsBetween inst.now bound.now job result }
    ensures shorter { result.beyond - result.met < between.beyond - between.met }
{
    let middle = between.met + (between.beyond - between.met) / 2;
    halved(between, middle, is_met(inst, job, middle, bound))
}

/// The last slot after which the job costs at most the bound, or 0 where it costs more after the first.
pub fn due_slot(inst: &Instance, job: u32, bound: &i128) -> u64
    requires inner { Inner inst.now }
    requires class { (inst.now.class ≡ tree_class) ⊎ (inst.now.class ≡ pair_class) }
    requires inside { job < length inst.now.jobs }
    ensures { IsDueSlot inst.now bound.now job result }
{
    let mut between = Between {
        met: 0,
        beyond: inst.jobs.len() as u64 + 1,
    };
    while between.met + 1 < between.beyond {
        between = narrowed(inst, job, bound, between);
    }
    between.met
}

/// The due slots of all jobs.
pub fn due_slots(alloc: Global, inst: &Instance, bound: &i128) -> Result<Vec<u64>, NoMemory>
    requires inner { Inner inst.now }
    requires class { (inst.now.class ≡ tree_class) ⊎ (inst.now.class ≡ pair_class) }
    ensures whole { IfOk result (λ slots. length slots.items ≡ length inst.now.jobs) }
    ensures slots { IfOk result (λ slots. AreDueSlots inst.now bound.now (length inst.now.jobs) slots.items) }
{
    let mut slots = Vec::new(alloc);
    for job in 0..inst.jobs.len() as u32 {
        slots.push(due_slot(inst, job, bound))?;
    }
    Ok(slots)
}
