// The test whether an instance belongs to its class.
ghost use Rattle.std.specs.Prelude.{◌≡◌, ◌≢◌, ℕ, ◌<◌, ◌↔◌, true, length, IsTrue, IsOk, OnOk, IfErr, All, AllPairs, slice_index_or};
ghost use Rattle.msp_instance.specs.Instance.{job_at, no_need, common_time};
ghost use Rattle.msp_instance.specs.Conditions.{text_limits, HasMachines, HasArcs, leaving, entering, HasDegree, IsJobOf, MeetsConditions};
ghost use Rattle.msp_instance.specs.Faults.{HasJobs, HasArc, HasFrame, HasJobsBefore, HasAllJobs, IsFirstFault};

use crate::jobs::{has_curve, has_due, has_needs, has_release, has_same_times, has_weight};
use crate::speeds::{has_small_multiple, has_speeds};
use crate::{Arc, Instance, Need};
use msp_class::{MOST_ARCS, MOST_JOBS, MOST_MACHINES, Order, fixed_machines};

/// The first condition of its class that an instance breaks. Jobs and arcs are numbered from 0.
#[derive(Clone, Copy, PartialEq, Eq)]
pub enum ClassFault {
    /// There is no job, or there are more than 400.
    Jobs,
    /// The number of machines is not the one of the environment, or not from 1 to 32.
    Machines,
    /// There is not one speed in range for each uniform machine, or a speed for other machines.
    Speeds,
    /// The least common multiple of the speeds is above 2^30.
    Multiple,
    /// The job's needs are not those of the environment, or a time is out of range.
    Need { job: u32 },
    /// A time of the job is not 1, in a class of unit times, or not that of the first job's first need, in one of equal times.
    Unit { job: u32 },
    /// The release date is out of range, or not 0 in a class without release dates.
    Head { job: u32 },
    /// The due date is out of range, or not 0 where the criterion uses none.
    Due { job: u32 },
    /// The weight is out of range, or not 1 where the criterion uses none.
    Weight { job: u32 },
    /// The cost curve is out of range, or there is one and the criterion is not `fmax`.
    Curve { job: u32 },
    /// There are more than 20,000 arcs, or there is one in a class without precedence.
    Arcs,
    /// An end of the arc is no job, or an earlier arc is the same.
    Arc { at: u32 },
    /// Too many arcs leave or enter the job for chains or a tree.
    Degree { job: u32 },
}

fn has_jobs(inst: &Instance) -> bool
    ensures { IsTrue result ↔ HasJobs inst.now }
{
    1 <= inst.jobs.len() && inst.jobs.len() <= MOST_JOBS
}

fn has_machines(inst: &Instance) -> bool
    ensures { IsTrue result ↔ HasMachines inst.now }
{
    let fits = match fixed_machines(inst.class.env) {
        Some(machines) => inst.machines == machines,
        None => true,
    };
    1 <= inst.machines && inst.machines <= MOST_MACHINES && fits
}

/// The conditions on the number of jobs, the machines and the speeds.
fn check_frame(inst: &Instance) -> Result<(), ClassFault>
    ensures ok { OnOk result (HasFrame inst.now) }
    ensures fault { IfErr result (IsFirstFault inst.now) }
{
    if !has_jobs(inst) {
        return Err(ClassFault::Jobs);
    }
    if !has_machines(inst) {
        return Err(ClassFault::Machines);
    }
    if !has_speeds(inst.class.env, inst.machines, inst.speeds.as_slice()) {
        return Err(ClassFault::Speeds);
    }
    if !has_small_multiple(inst.speeds.as_slice()) {
        return Err(ClassFault::Multiple);
    }
    Ok(())
}

/// The time of the first need, and 0 where there is none.
pub fn first_time(needs: &[Need]) -> u64
    ensures { result ≡ (slice_index_or needs.now 0 no_need).time }
{
    match needs.first() {
        Some(need) => need.time,
        None => 0,
    }
}

/// The time that all operations share in a class of equal times: that of the first job's first need.
pub fn common_time(inst: &Instance) -> u64
    ensures { result ≡ common_time inst.now }
{
    match inst.jobs.as_slice().first() {
        Some(job) => first_time(job.needs.as_slice()),
        None => 0,
    }
}

fn check_job(inst: &Instance, job: u32) -> Result<(), ClassFault>
    requires frame { HasFrame inst.now }
    requires before { HasJobsBefore inst.now job }
    requires inside { job < length inst.now.jobs }
    ensures ok { OnOk result (IsJobOf text_limits inst.now (job_at inst.now job)) }
    ensures fault { IfErr result (IsFirstFault inst.now) }
{
    let class = inst.class;
    let data = &inst.jobs.as_slice()[job as usize];
    let needs = data.needs.as_slice();
    if !has_needs(inst, needs) {
        return Err(ClassFault::Need { job });
    }
    if !has_same_times(class.times, common_time(inst), needs) {
        return Err(ClassFault::Unit { job });
    }
    if !has_release(class.heads, data.release) {
        return Err(ClassFault::Head { job });
    }
    if !has_due(class.crit, data.due) {
        return Err(ClassFault::Due { job });
    }
    if !has_weight(class.crit, data.weight) {
        return Err(ClassFault::Weight { job });
    }
    if !has_curve(class.crit, &data.curve) {
        return Err(ClassFault::Curve { job });
    }
    Ok(())
}

fn check_jobs(inst: &Instance) -> Result<(), ClassFault>
    requires { HasFrame inst.now }
    ensures ok { OnOk result (All (IsJobOf text_limits inst.now) inst.now.jobs) }
    ensures fault { IfErr result (IsFirstFault inst.now) }
{
    for job in 0..inst.jobs.len() as u32 {
        check_job(inst, job)?;
    }
    Ok(())
}

/// Whether the arc's ends are jobs, and no earlier arc is the same: there is none where all arcs are distinct.
fn has_arc(inst: &Instance, distinct: bool, at: u32) -> bool
    requires inside { at < length inst.now.arcs }
    requires distinct { distinct ≡ true → AllPairs (λ a b. a ≢ b) inst.now.arcs }
    ensures { IsTrue result ↔ HasArc inst.now at }
{
    let arcs = inst.arcs.as_slice();
    let jobs = inst.jobs.len();
    let arc = arcs[at as usize];
    (arc.before as usize) < jobs
        && (arc.after as usize) < jobs
        && (distinct || is_new(&arcs[..at as usize], arc))
}

fn is_new(earlier: &[Arc], arc: Arc) -> bool
    ensures { IsTrue result ↔ All (λ a. a ≢ arc) earlier.now }
{
    earlier.iter().all(|a| *a != arc)
}

fn has_arcs(order: Order, arcs: &[Arc]) -> bool
    ensures { IsTrue result ↔ HasArcs order arcs.now }
{
    match order {
        Order::Free => arcs.is_empty(),
        Order::Chains | Order::Intree | Order::Outtree | Order::Prec => arcs.len() <= MOST_ARCS,
    }
}

fn check_arcs(inst: &Instance, distinct: bool) -> Result<(), ClassFault>
    requires jobs { HasAllJobs inst.now }
    requires distinct { distinct ≡ true → AllPairs (λ a b. a ≢ b) inst.now.arcs }
    ensures few { OnOk result (HasArcs inst.now.class.order inst.now.arcs) }
    ensures each { OnOk result ((at : ℕ) → at < length inst.now.arcs → HasArc inst.now at) }
    ensures fault { IfErr result (IsFirstFault inst.now) }
{
    let arcs = inst.arcs.as_slice();
    if !has_arcs(inst.class.order, arcs) {
        return Err(ClassFault::Arcs);
    }
    for at in 0..arcs.len() as u32 {
        if !has_arc(inst, distinct, at) {
            return Err(ClassFault::Arc { at });
        }
    }
    Ok(())
}

fn leaving(arcs: &[Arc], job: u32) -> usize
    ensures { result ≡ leaving arcs.now job }
{
    arcs.iter().filter(|a| a.before == job).count()
}

fn entering(arcs: &[Arc], job: u32) -> usize
    ensures { result ≡ entering arcs.now job }
{
    arcs.iter().filter(|a| a.after == job).count()
}

fn has_degree(order: Order, arcs: &[Arc], job: u32) -> bool
    ensures { IsTrue result ↔ HasDegree order arcs.now job }
{
    match order {
        Order::Free | Order::Prec => true,
        Order::Chains => leaving(arcs, job) <= 1 && entering(arcs, job) <= 1,
        Order::Intree => leaving(arcs, job) <= 1,
        Order::Outtree => entering(arcs, job) <= 1,
    }
}

fn check_degrees(inst: &Instance) -> Result<(), ClassFault>
    requires jobs { HasAllJobs inst.now }
    requires few { HasArcs inst.now.class.order inst.now.arcs }
    requires arcs { (at : ℕ) → at < length inst.now.arcs → HasArc inst.now at }
    ensures ok { OnOk result ((j : ℕ) → j < length inst.now.jobs → HasDegree inst.now.class.order inst.now.arcs j) }
    ensures fault { IfErr result (IsFirstFault inst.now) }
{
    for job in 0..inst.jobs.len() as u32 {
        if !has_degree(inst.class.order, inst.arcs.as_slice(), job) {
            return Err(ClassFault::Degree { job });
        }
    }
    Ok(())
}

/// Tests all conditions. The flag says that the arcs are known to be distinct.
fn checked(inst: &Instance, distinct: bool) -> Result<(), ClassFault>
    requires { distinct ≡ true → AllPairs (λ a b. a ≢ b) inst.now.arcs }
    ensures ok { IsOk result ↔ MeetsConditions text_limits inst.now }
    ensures fault { IfErr result (IsFirstFault inst.now) }
{
    check_frame(inst)?;
    check_jobs(inst)?;
    check_arcs(inst, distinct)?;
    check_degrees(inst)
}

/// Tests the conditions of the instance's class, within the limits of texts, but for cycles, which `forward` finds.
///
/// The fault is the first condition that is broken, in the order in which `ClassFault` lists them: job by job all of a job's, then
/// arc by arc, then job by job the degrees.
pub fn check(inst: &Instance) -> Result<(), ClassFault>
    ensures ok { IsOk result ↔ MeetsConditions text_limits inst.now }
    ensures fault { IfErr result (IsFirstFault inst.now) }
{
    checked(inst, false)
}

/// Answers as `check` does, where no arc stands twice, and compares no arcs with each other.
pub fn check_distinct_arcs(inst: &Instance) -> Result<(), ClassFault>
    requires distinct { AllPairs (λ a b. a ≢ b) inst.now.arcs }
    ensures ok { IsOk result ↔ MeetsConditions text_limits inst.now }
    ensures fault { IfErr result (IsFirstFault inst.now) }
{
    checked(inst, true)
}
