// The jobs by the machine on which they begin, and their times.
ghost use Rattle.std.specs.Prelude.{◌≡◌, ◌≤◌, ◌<◌, ◌*◌, ◌++◌, [], ◌∷◌, if◌then◌else◌, length, slice_index_or, All, IfOk, OnOk, sum_by};
ghost use Rattle.msp_class.specs.declared.sizes.TheConstants.{MOST_JOBS, GREATEST};
ghost use Rattle.msp_instance.specs.Instance.{no_need, need_at};
ghost use Rattle.msp_shops.specs.Groups.{route_times, begins_on, times_from, IsTwoMachineShop, IsJohnsonGroup};

use crate::order::put_in_order;
use crate::pass::JobTimes;
use msp_class::NoMemory;
use msp_instance::{Instance, Need};
use std::alloc::Global;

/// The machine of the job's first operation.
fn first_machine(inst: &Instance, job: u32) -> u32
    requires shop { IsTwoMachineShop inst.now }
    requires inside { job < length inst.now.jobs }
    ensures { result ≡ (need_at inst.now job 0).machine }
{
    inst.jobs.as_slice()[job as usize].needs.as_slice()[0].machine
}

/// The time of an operation; one that the job has not takes none.
pub fn time_of(needs: &[Need], op: usize) -> u64
    ensures { result ≡ (slice_index_or needs.now op no_need).time }
{
    if op < needs.len() { needs[op].time } else { 0 }
}

/// The job's times on the machines of its first and of its second operation.
pub fn times_of(inst: &Instance, job: u32) -> JobTimes
    requires inside { job < length inst.now.jobs }
    ensures { result ≡ route_times inst.now job }
{
    let needs = inst.jobs.as_slice()[job as usize].needs.as_slice();
    JobTimes {
        job,
        first: time_of(needs, 0),
        second: time_of(needs, 1),
    }
}

/// Puts the job at the end, where it begins on the machine.
fn put_job(
    times: &mut Vec<JobTimes>,
    inst: &Instance,
    machine: u32,
    job: u32,
) -> Result<(), NoMemory>
    requires shop { IsTwoMachineShop inst.now }
    requires inside { job < length inst.now.jobs }
    ensures { OnOk result (times.new.items ≡ times.old.items ++ (if begins_on inst.now machine job then route_times inst.now job ∷ [] else [])) }
{
    if first_machine(inst, job) != machine {
        return Ok(());
    }
    times.push(times_of(inst, job))?;
    Ok(())
}

/// The jobs that begin on the machine, in order of number.
fn jobs_from(alloc: Global, inst: &Instance, machine: u32) -> Result<Vec<JobTimes>, NoMemory>
    requires shop { IsTwoMachineShop inst.now }
    ensures { IfOk result (λ ts. ts.items ≡ times_from inst.now machine) }
{
    let mut times = Vec::new(alloc);
    for k in 0..inst.jobs.len() {
        put_job(&mut times, inst, machine, k as u32)?;
    }
    Ok(times)
}

/// The jobs that begin on the machine, in Johnson's order.
pub fn johnson_group(
    alloc: Global,
    inst: &Instance,
    machine: u32,
) -> Result<Vec<JobTimes>, NoMemory>
    requires shop { IsTwoMachineShop inst.now }
    ensures { IfOk result (λ ts. IsJohnsonGroup inst.now machine ts.items) }
{
    let mut times = jobs_from(alloc, inst, machine)?;
    put_in_order(&mut times)?;
    Ok(times)
}

/// How long the jobs take together on the machine on which they begin.
pub fn first_total(jobs: &[JobTimes]) -> u64
    requires few { length jobs.now ≤ MOST_JOBS }
    requires times { All (λ t. t.first ≤ GREATEST) jobs.now }
    ensures value { result ≡ sum_by (λ t. t.first) jobs.now }
    ensures size { result ≤ GREATEST * MOST_JOBS }
{
    let mut total: u64 = 0;
    for k in 0..jobs.len() {
        total += jobs[k].first;
    }
    total
}
