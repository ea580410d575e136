// Levels of jobs.
ghost use Rattle.std.specs.Prelude.{◌≡◌, ◌↔◌, ◌+◌, ◌-◌, ◌/◌, ◌≤◌, nat_le, count_by, length, Any, IsTrue, IfSome, if◌then◌else◌};
ghost use Rattle.std.specs.List.{range_with_len};
ghost use Rattle.msp_class.specs.declared.sizes.TheConstants.{MOST_JOBS};
ghost use Rattle.msp_instance.specs.Conditions.{InClass};
ghost use Rattle.msp_pieces.specs.Fraction.{IsComparable};
ghost use Rattle.msp_pieces.specs.Levels.{StepsDown, level_bound};
ghost use Rattle.msp_cert.specs.declared.Proof.TheVariants.{Levels};
ghost use Rattle.msp_cert.specs.Small.{Supports, StepsFrom};
ghost use Rattle.msp_cert.specs.Certificates.{HasUnitJobs, AreSteps, of_job};
ghost use Rattle.msp_cert.specs.Worth.{IsWorth};

use crate::worth::over;
use msp_class::{Crit, EnvKind, Times, env_kind};
use msp_instance::{Arc, Instance};
use msp_pieces::Frac;

/// Whether the makespan of jobs of one unit of time is asked for, which run on identical machines and may not be cut.
pub(crate) fn has_unit_jobs(inst: &Instance) -> bool
    ensures { IsTrue result ↔ HasUnitJobs inst.now }
{
    inst.class.crit == Crit::Cmax
        && env_kind(inst.class.env) == EnvKind::Identical
        && !inst.class.cut
        && inst.class.times == Times::Unit
}

/// The level of a job.
pub(crate) fn level_of(level: &[u32], job: u32) -> u32
    ensures { result ≡ of_job level.now job }
{
    let at = job as usize;
    if at < level.len() { level[at] } else { 0 }
}

/// Whether the arc leads from the job to one that is at most one level lower.
fn supports(level: &[u32], job: u32, arc: &Arc) -> bool
    ensures { IsTrue result ↔ Supports (of_job level.now) job arc.now }
{
    let own = u64::from(level_of(level, job));
    let next = u64::from(level_of(level, arc.after));
    arc.before == job && own <= next + 1
}

/// Whether such an arc leaves the job.
fn is_supported(level: &[u32], job: u32, arcs: &[Arc]) -> bool
    ensures { IsTrue result ↔ Any (Supports (of_job level.now) job) arcs.now }
{
    arcs.iter().any(|arc| supports(level, job, arc))
}

/// Whether the job is of level 0, or such an arc leaves it.
fn steps_from(inst: &Instance, level: &[u32], job: u32) -> bool
    ensures { IsTrue result ↔ StepsFrom inst.now (of_job level.now) job }
{
    level_of(level, job) == 0 || is_supported(level, job, inst.arcs.as_slice())
}

/// The same for each job.
fn steps_down(inst: &Instance, level: &[u32]) -> bool
    requires { InClass inst.now }
    ensures { IsTrue result ↔ StepsDown inst.now (of_job level.now) }
{
    for k in 0..inst.jobs.len() {
        if !steps_from(inst, level, k as u32) {
            return false;
        }
    }
    true
}

/// 1 where the job has at least the level, and else 0.
fn one_if_high(level: &[u32], tail: u32, job: u32) -> u32
    ensures { result ≡ (if nat_le tail (of_job level.now job) then 1 else 0) }
{
    if tail <= level_of(level, job) { 1 } else { 0 }
}

/// How many jobs have at least the level.
fn jobs_from(level: &[u32], tail: u32, jobs: u32) -> u32
    requires { jobs ≤ MOST_JOBS }
    ensures value { result ≡ count_by (λ j. nat_le tail (of_job level.now j)) (range_with_len 0 jobs) }
    ensures size { result ≤ jobs }
{
    let mut high: u32 = 0;
    for job in 0..jobs {
        high += one_if_high(level, tail, job);
    }
    high
}

pub(crate) fn is_reached(level: &[u32], tail: u32) -> bool
    ensures { IsTrue result ↔ Any (λ l. tail ≤ l) level.now }
{
    level.iter().any(|l| tail <= *l)
}

/// Whether there is a level for each job.
fn is_for_each(inst: &Instance, level: &[u32]) -> bool
    ensures { IsTrue result ↔ (length level.now ≡ length inst.now.jobs) }
{
    level.len() == inst.jobs.len()
}

/// Whether the levels are evidence.
fn are_steps(inst: &Instance, level: &[u32], tail: u32) -> bool
    requires { InClass inst.now }
    ensures { IsTrue result ↔ AreSteps inst.now level.now tail }
{
    if !has_unit_jobs(inst) {
        return false;
    }
    if !is_for_each(inst, level) {
        return false;
    }
    if !steps_down(inst, level) {
        return false;
    }
    is_reached(level, tail)
}

/// The tail and so many jobs over the number of machines, rounded up.
pub(crate) fn bound_of(inst: &Instance, tail: u32, high: u32) -> u64
    requires class { InClass inst.now }
    requires few { high ≤ MOST_JOBS }
    ensures { result ≡ tail + (high + (inst.now.machines - 1)) / inst.now.machines }
{
    u64::from(tail) + u64::from((high + (inst.machines - 1)) / inst.machines)
}

/// The level and the number of jobs of at least that level over the number of machines, rounded up.
fn level_bound(inst: &Instance, level: &[u32], tail: u32) -> u64
    requires { InClass inst.now }
    ensures { result ≡ level_bound inst.now (of_job level.now) tail }
{
    let high = jobs_from(level, tail, inst.jobs.len() as u32);
    bound_of(inst, tail, high)
}

/// What the levels are worth.
#[tactic(auto, using(crate::proofs::Decided::worth_nothing, crate::proofs::Decided::levels_are_worth))]
pub(crate) fn levels_worth(inst: &Instance, level: &[u32], tail: u32) -> Option<Frac>
    requires { InClass inst.now }
    ensures worth { IsWorth inst.now (Levels level.now tail) result }
    ensures small { IfSome result IsComparable }
{
    if !are_steps(inst, level, tail) {
        return None;
    }
    Some(over(level_bound(inst, level, tail), 1))
}
