// Copies of instances.
ghost use Rattle.std.specs.Prelude.{◌≡◌, IfOk, IsSome};
ghost use Rattle.msp_table.specs.Rows.{goes_of};
ghost use Rattle.msp_route.specs.Changes.{led};

use msp_class::{Class, List, NoMemory};
use msp_instance::{Curve, Instance, Job};
use msp_table::{Row, goes};
use std::alloc::Global;

fn copied<T: Copy>(alloc: Global, list: &List<T>) -> Result<List<T>, NoMemory>
    ensures { IfOk result (λ copy. copy ≡ list.now) }
{
    Ok(List::from_vec(list.as_slice().iter().copied().collect(alloc)?))
}

fn copied_job(alloc: Global, job: &Job) -> Result<Job, NoMemory>
    ensures { IfOk result (λ copy. copy ≡ job.now) }
{
    Ok(Job {
        release: job.release,
        due: job.due,
        weight: job.weight,
        needs: copied(alloc, &job.needs)?,
        curve: Curve {
            slope: job.curve.slope,
            base: job.curve.base,
            steps: copied(alloc, &job.curve.steps)?,
        },
    })
}

fn copied_jobs(alloc: Global, jobs: &[Job]) -> Result<List<Job>, NoMemory>
    ensures { IfOk result (λ copy. copy ≡ jobs.now) }
{
    let mut copies = List::new(alloc);
    for job in jobs {
        let copy = copied_job(alloc, job)?;
        copies.put(copy)?;
    }
    Ok(copies)
}

/// The same instance in another class.
pub fn recast(alloc: Global, inst: &Instance, class: Class) -> Result<Instance, NoMemory>
    ensures { IfOk result (λ copy. copy ≡ record inst.now { class = class }) }
{
    Ok(Instance {
        class,
        machines: inst.machines,
        speeds: copied(alloc, &inst.speeds)?,
        jobs: copied_jobs(alloc, inst.jobs.as_slice())?,
        arcs: copied(alloc, &inst.arcs)?,
    })
}

/// The same instance in the class to which the row leads.
pub fn led(alloc: Global, inst: &Instance, row: Row) -> Result<Instance, NoMemory>
    requires applies { IsSome (goes_of row inst.now.class) }
    ensures { IfOk result (λ copy. copy ≡ led row inst.now) }
{
    recast(alloc, inst, goes(row, inst.class).unwrap())
}
