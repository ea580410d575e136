// The longest jobs take two places each, as long as their works are more than the last place can do.
ghost use Rattle.std.specs.Prelude.{◌≡◌, ◌<◌, ◌≤◌, ◌*◌, ◌∷◌, drop, List, ℕ, length as len, IfOk};
ghost use Rattle.msp_class.specs.declared.sizes.TheConstants.{GREATEST};
ghost use Rattle.msp_uniform.specs.declared.unit.TheConstants.{GREATEST_PRODUCT};
ghost use Rattle.msp_uniform.specs.Segments.{at};
ghost use Rattle.msp_uniform.specs.Plans.{IsTask, IsReached, IsNextPlan, AreShort};

use crate::filling::turn;
use crate::task::{Plan, Task};
use crate::turning::work_of;
use msp_class::NoMemory;
use std::alloc::Global;
use std::mem;

/// What the job needs over the unit.
pub(crate) fn need_of(times: &[u64], unit: u128, job: u32) -> u128
    requires job { job < len times.now }
    requires time { at times.now job ≤ GREATEST }
    requires unit { unit ≤ GREATEST_PRODUCT }
    ensures { result ≡ unit * at times.now job }
{
    unit * u128::from(times[job as usize])
}

/// Lays the job where it needs more than the last place can do, and says whether it did.
fn turn_next(alloc: Global, plan: &mut Plan, task: &Task, job: u32) -> Result<bool, NoMemory>
    requires task { IsTask task.now }
    requires reached { (left : List ℕ) × IsReached task.now (job ∷ left) plan.old.unit plan.old.places plan.old.segments.items }
    ensures { IfOk result (λ turned. IsNextPlan task.now job turned plan.old.unit plan.old.places plan.old.segments.items plan.new.unit plan.new.places plan.new.segments.items) }
{
    let work = need_of(task.times.as_slice(), plan.unit, job);
    if work
        <= work_of(
            plan.segments.as_slice(),
            task.speeds.as_slice(),
            plan.places - 1,
        )
    {
        return Ok(false);
    }
    let segments = mem::replace(&mut plan.segments, Vec::new(alloc));
    let turned = turn(
        alloc,
        segments,
        task.speeds.as_slice(),
        plan.places,
        job,
        work,
    )?;
    plan.unit *= turned.factor;
    plan.places -= 1;
    plan.segments = turned.segments;
    Ok(true)
}

/// Lays the longest jobs, and says how many of them.
pub(crate) fn take_turns(
    alloc: Global,
    plan: &mut Plan,
    task: &Task,
    jobs: &[u32],
) -> Result<usize, NoMemory>
    requires task { IsTask task.now }
    requires reached { IsReached task.now jobs.now plan.old.unit plan.old.places plan.old.segments.items }
    ensures reached { IfOk result (λ k. IsReached task.now (drop k jobs.now) plan.new.unit plan.new.places plan.new.segments.items) }
    ensures short { IfOk result (λ k. AreShort task.now (drop k jobs.now) plan.new.unit plan.new.places plan.new.segments.items) }
    ensures some { IfOk result (λ k. k ≤ len jobs.now) }
{
    for k in 0..jobs.len() {
        let turned = turn_next(alloc, plan, task, jobs[k])?;
        if !turned {
            return Ok(k);
        }
    }
    Ok(jobs.len())
}
