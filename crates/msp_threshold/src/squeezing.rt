// An instance squeezed to the kept moments, by a bound on the greatest lateness.
ghost use Rattle.std.specs.Prelude.{◌≡◌, ◌↔◌, ◌+◌, ◌*◌, ◌≤◌, ◌≤ℤ◌, length, map, pos, int_le, All, IfOk, IfSome, IsTrue, MatchOption};
ghost use Rattle.msp_class.specs.declared.sizes.TheConstants.{MOST_JOBS, GREATEST};
ghost use Rattle.msp_instance.specs.Conditions.{Inner, InClass, LiesWithin};
ghost use Rattle.msp_threshold.specs.Limits.{AreLimits};
ghost use Rattle.msp_threshold.specs.Squeezed.{lateness_class, greatest_bound, squeezed_release, squeezed_due, squeezed_job, squeezed_by, HasTime, IsSqueezed, CanMeet, CanBeFree};

use crate::kept::kept_moments;
use msp_class::{Class, Crit, Env, List, NoMemory, Order, Times};
use msp_instance::{Instance, Job};
use msp_route::recast;
use std::alloc::Global;

/// The class of squeezed instances: `P|r,p=1|sumU`.
pub const LATE_COUNT_CLASS: Class = Class {
    env: Env::P,
    cut: false,
    order: Order::Free,
    heads: true,
    times: Times::Unit,
    crit: Crit::SumU,
};

/// The limits by their numbers.
pub fn law_of_limits()
    ensures { AreLimits }
{}

/// How many of the moments are before the release date.
fn moments_before(kept: &[u64], release: u64) -> u64
    requires { length kept.now ≤ MOST_JOBS }
    ensures { result ≡ squeezed_release kept.now release }
{
    kept.iter().filter(|moment| **moment < release).count() as u64
}

/// Whether a job that begins at the moment ends by the date.
fn ends_by(moment: u64, date: i64) -> bool
    ensures { result ≡ int_le (pos (moment + 1)) date }
{
    i128::from(moment) + 1 <= i128::from(date)
}

/// At how many of the moments a job can begin that ends by the date.
fn moments_until(kept: &[u64], date: i64) -> i64
    requires { length kept.now ≤ MOST_JOBS }
    ensures { result ≡ pos (squeezed_due kept.now date) }
{
    kept.iter().filter(|moment| ends_by(**moment, date)).count() as i64
}

fn squeeze(job: &mut Job, kept: &[u64], bound: i64)
    requires few { length kept.now ≤ MOST_JOBS }
    requires due { LiesWithin (2 * GREATEST) job.old.due }
    requires bound { LiesWithin greatest_bound bound }
    ensures { job.new ≡ squeezed_job kept.now bound job.old }
{
    job.release = moments_before(kept, job.release);
    job.due = moments_until(kept, job.due + bound);
}

fn squeeze_all(jobs: &mut [Job], kept: &[u64], bound: i64)
    requires few { length kept.now ≤ MOST_JOBS }
    requires dues { All (λ j. LiesWithin (2 * GREATEST) j.due) jobs.old }
    requires bound { LiesWithin greatest_bound bound }
    ensures { jobs.new ≡ map (squeezed_job kept.now bound) jobs.old }
{
    for job in jobs.iter_mut() {
        squeeze(job, kept, bound);
    }
}

/// The instance squeezed to the moments.
pub fn squeezed_at(
    alloc: Global,
    inst: &Instance,
    kept: &[u64],
    bound: i64,
) -> Result<Instance, NoMemory>
    requires inner { Inner inst.now }
    requires class { inst.now.class ≡ lateness_class }
    requires few { length kept.now ≤ MOST_JOBS }
    requires bound { LiesWithin greatest_bound bound }
    ensures value { IfOk result (λ lower. lower ≡ squeezed_by kept.now bound inst.now) }
    ensures inside { IfOk result InClass }
    ensures small { IfOk result (λ lower. All (λ j. (j.release ≤ MOST_JOBS) × (pos 0 ≤ℤ j.due) × (j.due ≤ℤ pos MOST_JOBS)) lower.jobs) }
{
    let mut lower = recast(alloc, inst, LATE_COUNT_CLASS)?;
    let mut jobs = lower.jobs.take_all();
    squeeze_all(&mut jobs, kept, bound);
    lower.jobs = List::from_vec(jobs);
    Ok(lower)
}

/// Whether the job has a unit of time from its release date on up to its due date and the bound together.
fn has_time(job: &Job, bound: i64) -> bool
    ensures { IsTrue result ↔ HasTime bound job.now }
{
    i128::from(job.release) + 1 <= i128::from(job.due) + i128::from(bound)
}

fn all_have_time(jobs: &[Job], bound: i64) -> bool
    ensures { IsTrue result ↔ All (HasTime bound) jobs.now }
{
    jobs.iter().all(|job| has_time(job, bound))
}

/// The instance squeezed by a bound on the greatest lateness: release and due dates are counted in the moments at which the earliest
/// schedule begins jobs, and late jobs are counted. It can be free of late jobs exactly where the bound can be met. There is none where some
/// job has no time.
pub fn squeezed(alloc: Global, inst: &Instance, bound: i64) -> Result<Option<Instance>, NoMemory>
    requires inner { Inner inst.now }
    requires class { inst.now.class ≡ lateness_class }
    requires bound { LiesWithin greatest_bound bound }
    ensures value { IfOk result (λ found. MatchOption found (¬ All (HasTime bound) inst.now.jobs) (IsSqueezed inst.now bound)) }
    ensures inside { IfOk result (λ found. IfSome found InClass) }
    ensures small { IfOk result (λ found. IfSome found (λ lower. All (λ j. (j.release ≤ MOST_JOBS) × (pos 0 ≤ℤ j.due) × (j.due ≤ℤ pos MOST_JOBS)) lower.jobs)) }
    ensures law { IfOk result (λ found. MatchOption found (¬ CanMeet inst.now bound) (λ lower. CanBeFree lower ↔ CanMeet inst.now bound)) }
{
    if !all_have_time(inst.jobs.as_slice(), bound) {
        return Ok(None);
    }
    let kept = kept_moments(alloc, inst)?;
    let lower = squeezed_at(alloc, inst, kept.as_slice(), bound)?;
    Ok(Some(lower))
}
