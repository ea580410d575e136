// A slot of the earliest schedule for each job, all together at least cost.
ghost use Rattle.std.specs.Prelude.{◌≡◌, ◌-◌, ◌*◌, ◌≤◌, pos, ◌-ℤ◌, length, map, All, IfOk};
ghost use Rattle.msp_class.specs.declared.sizes.TheConstants.{MOST_JOBS, MOST_MACHINES, GREATEST};
ghost use Rattle.msp_instance.specs.Conditions.{LiesWithin};
ghost use Rattle.msp_total.specs.LeastSlots.{HasSmallDates, IsTable, AreLeastSlots};

use crate::slot_assignment::assigned;
use crate::slot_table::Slots;
use msp_assign::Assignment;
use msp_class::{List, NoMemory};
use msp_instance::{Instance, Job};
use msp_slots::{Slot, earliest_slots, releases_of, sorted_releases, starts_of};
use std::alloc::Global;

/// When the slots of the jobs are due, which end the span after their slots begin.
fn dues_of(alloc: Global, jobs: &[Job], span: u32) -> Result<Vec<i64>, NoMemory>
    requires dues { All (λ j. LiesWithin (2 * GREATEST) j.due) jobs.now }
    requires span { 1 ≤ span }
    ensures { IfOk result (λ all. all.items ≡ map (λ j. j.due -ℤ pos (span - 1)) jobs.now) }
{
    let mut all = Vec::new(alloc);
    for job in jobs {
        all.push(job.due - i64::from(span - 1))?;
    }
    Ok(all)
}

fn weights_of(alloc: Global, jobs: &[Job]) -> Result<Vec<u64>, NoMemory>
    ensures { IfOk result (λ all. all.items ≡ map (λ j. j.weight) jobs.now) }
{
    Ok(jobs.iter().map(|job| job.weight).collect(alloc)?)
}

/// What the jobs cost in the slots, where they end the span after these begin.
fn table_of(
    alloc: Global,
    inst: &Instance,
    slots: &[Slot],
    late: bool,
    span: u32,
) -> Result<Slots, NoMemory>
    requires jobs { length inst.now.jobs ≤ MOST_JOBS }
    requires slots { length slots.now ≤ MOST_JOBS }
    requires dues { All (λ j. LiesWithin (2 * GREATEST) j.due) inst.now.jobs }
    requires light { All (λ w. w ≤ GREATEST) (map (λ j. j.weight) inst.now.jobs) }
    requires span { 1 ≤ span }
    ensures { IfOk result (IsTable inst.now late span slots.now) }
{
    let jobs = inst.jobs.as_slice();
    let start = List::from_vec(starts_of(alloc, slots)?);
    let release = List::from_vec(releases_of(alloc, jobs)?);
    let due = List::from_vec(dues_of(alloc, jobs, span)?);
    let weight = List::from_vec(weights_of(alloc, jobs)?);
    Ok(Slots {
        late,
        start,
        release,
        due,
        weight,
    })
}

/// Slots, and which of them each job has.
#[derive(Drop)]
pub(crate) struct JobSlots {
    pub slots: Vec<Slot>,
    pub column: List<u32>,
}

/// Gives each job a slot of its own of the earliest schedule on so many machines, all together at least cost: by the weighted tardiness, or
/// where `late` is false, by the weight of late jobs. A job ends `span` units of time after its slot begins.
pub(crate) fn least_slots(
    alloc: Global,
    inst: &Instance,
    late: bool,
    machines: u32,
    span: u32,
) -> Result<JobSlots, NoMemory>
    requires small { HasSmallDates inst.now }
    requires some { 1 ≤ machines }
    requires few { machines ≤ MOST_MACHINES }
    requires span { 1 ≤ span }
    requires short { span ≤ MOST_MACHINES }
    ensures { IfOk result (λ s. AreLeastSlots inst.now late machines span s.slots.items s.column) }
{
    let heads = sorted_releases(alloc, inst.jobs.as_slice())?;
    let slots = earliest_slots(alloc, heads.as_slice(), machines)?;
    let table = table_of(alloc, inst, slots.as_slice(), late, span)?;
    let Assignment { column, .. } = assigned(alloc, &table)?;
    Ok(JobSlots { slots, column })
}
