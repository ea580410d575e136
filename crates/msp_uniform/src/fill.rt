// All jobs are laid: the longest ones over two places each, the others one after another.
ghost use Rattle.std.specs.Prelude.{◌≡◌, ◌<◌, ◌≤◌, length as len, All, IfOk};
ghost use Rattle.msp_class.specs.declared.sizes.TheConstants.{MOST_MACHINES};
ghost use Rattle.msp_uniform.specs.Plans.{IsTask, IsAsked, IsFirstPlan, IsFilled};

use crate::numbers::Numbers;
use crate::segments::{Body, Segment};
use crate::tape::lay_all;
use crate::task::{Filled, Plan, Task};
use crate::turns::take_turns;
use msp_class::NoMemory;
use std::alloc::Global;

/// The numbers of all machines, as segments hold them.
fn all_free(machines: &[u32]) -> Numbers
    requires few { len machines.now ≤ MOST_MACHINES }
    requires small { All (λ m. m < 256) machines.now }
    ensures { result ≡ machines.now }
{
    let mut free = Numbers::same(0, 0);
    for machine in machines {
        free.push(*machine as u16);
    }
    free
}

/// All machines are free up to the least end.
fn first_plan(alloc: Global, task: &Task, machines: &[u32]) -> Result<Plan, NoMemory>
    requires task { IsTask task.now }
    requires few { len machines.now ≤ MOST_MACHINES }
    requires small { All (λ m. m < 256) machines.now }
    ensures { IfOk result (λ p. IsFirstPlan task.now machines.now p.unit p.places p.segments.items) }
{
    let jobs = Numbers::same(task.times.len() as u16, machines.len());
    let free = all_free(machines);
    let body = Box::new(alloc, Body { jobs, free })?;
    let length = u128::from(task.work);
    let mut segments = Vec::new(alloc);
    segments.push(Segment { length, body })?;
    Ok(Plan {
        unit: u128::from(task.speed),
        places: machines.len(),
        segments,
    })
}

/// Lays all jobs.
pub(crate) fn fill(
    alloc: Global,
    task: &Task,
    jobs: &[u32],
    machines: &[u32],
) -> Result<Filled, NoMemory>
    requires task { IsTask task.now }
    requires asked { IsAsked task.now jobs.now machines.now }
    ensures { IfOk result (λ f. IsFilled task.now f.unit f.segments.items) }
{
    let mut plan = first_plan(alloc, task, machines)?;
    let turned = take_turns(alloc, &mut plan, task, jobs)?;
    lay_all(alloc, plan, task, &jobs[turned..])
}
