// Jobs by their data.
ghost use Rattle.std.specs.Prelude.{◌≡◌, map, IfOk};
ghost use Rattle.msp_samples.specs.declared.job_data.TheConstants.{UNIT_JOB};
ghost use Rattle.msp_samples.specs.Samples.{steps_of, job_of, plain_job};

use crate::list_of;
use msp_class::{List, NoMemory};
use msp_instance::{Curve, Job, Need, Step};
use std::alloc::Global;

/// A job of one operation, on machine 0, and its cost curve of at most one step.
#[derive(Clone, Copy)]
pub struct JobData {
    pub release: u64,
    pub time: u64,
    pub due: i64,
    pub weight: u64,
    pub slope: u64,
    pub base: i64,
    pub step: Option<Step>,
}

/// A job of time 1 and weight 1, without dates or a cost curve.
pub const UNIT_JOB: JobData = JobData {
    release: 0,
    time: 1,
    due: 0,
    weight: 1,
    slope: 0,
    base: 0,
    step: None,
};

/// A job with a time alone.
pub const fn timed(time: u64) -> JobData
    ensures { result ≡ record UNIT_JOB { time = time } }
{
    JobData { time, ..UNIT_JOB }
}

/// A job with a time and a weight alone.
pub const fn load(time: u64, weight: u64) -> JobData
    ensures { result ≡ record UNIT_JOB { time = time; weight = weight } }
{
    JobData {
        weight,
        ..timed(time)
    }
}

/// The need of a time on a machine.
pub const fn need(machine: u32, time: u64) -> Need
    ensures { result ≡ record { machine = machine; time = time } }
{
    Need { machine, time }
}

fn steps(alloc: Global, step: Option<Step>) -> Result<List<Step>, NoMemory>
    ensures { IfOk result (λ steps. steps ≡ steps_of step) }
{
    match step {
        Some(step) => list_of(alloc, &[step]),
        None => Ok(List::new(alloc)),
    }
}

/// The job of the data.
fn job(alloc: Global, given: &JobData) -> Result<Job, NoMemory>
    ensures { IfOk result (λ job. job ≡ job_of given.now) }
{
    Ok(Job {
        release: given.release,
        due: given.due,
        weight: given.weight,
        needs: list_of(alloc, &[need(0, given.time)])?,
        curve: Curve {
            slope: given.slope,
            base: given.base,
            steps: steps(alloc, given.step)?,
        },
    })
}

/// The jobs of the data, in order.
pub fn jobs(alloc: Global, all: &[JobData]) -> Result<List<Job>, NoMemory>
    ensures { IfOk result (λ jobs. jobs ≡ map job_of all.now) }
{
    let mut jobs = List::new(alloc);
    for data in all {
        jobs.put(job(alloc, data)?)?;
    }
    Ok(jobs)
}

/// A job with needs alone: of weight 1, without dates or a cost curve.
fn plain_job(alloc: Global, needs: List<Need>) -> Job
    ensures { result ≡ plain_job needs }
{
    Job {
        release: 0,
        due: 0,
        weight: 1,
        needs,
        curve: Curve {
            slope: 0,
            base: 0,
            steps: List::new(alloc),
        },
    }
}

/// Jobs with needs alone.
pub(crate) fn jobs_by_needs(alloc: Global, all: &[&[Need]]) -> Result<List<Job>, NoMemory>
    ensures { IfOk result (λ jobs. jobs ≡ map plain_job (map (λ needs. needs.now) all.now)) }
{
    let mut jobs = List::new(alloc);
    for needs in all {
        jobs.put(plain_job(alloc, list_of(alloc, needs)?))?;
    }
    Ok(jobs)
}
