// Groups of jobs.
ghost use Rattle.std.specs.Prelude.{◌≡◌, ◌≢◌, ◌↔◌, ◌*◌, ◌<◌, ◌≤◌, ℕ, false, length, sum, take, All, AllPairs, IsTrue, IfOk, IfSome, IsPermutation, slice_index_or};
ghost use Rattle.std.specs.List.Sorted.{IsNonDecreasing};
ghost use Rattle.msp_class.specs.declared.sizes.TheConstants.{MOST_JOBS, MOST_MACHINES, GREATEST, GREATEST_SPEED};
ghost use Rattle.msp_instance.specs.Conditions.{InClass};
ghost use Rattle.msp_pieces.specs.Fraction.{IsComparable};
ghost use Rattle.msp_pieces.specs.Speeds.{HaveSpeeds, speed_of};
ghost use Rattle.msp_pieces.specs.Blocks.{total_time};
ghost use Rattle.msp_cert.specs.declared.limits.TheConstants.{MOST_ENTRIES};
ghost use Rattle.msp_cert.specs.Small.{HasSmallNeeds};
ghost use Rattle.msp_cert.specs.Certificates.{IsGroup, speeds_of};
ghost use Rattle.msp_cert.specs.Places.{HasRelatedMachines};
ghost use Rattle.msp_cert.specs.Worth.{IsWorth};
ghost use Rattle.msp_cert.specs.declared.Proof.TheVariants.{Group};

use crate::worth::over;
use msp_class::{Crit, EnvKind, NoMemory, env_kind};
use msp_instance::{Instance, Job, MOST_JOBS};
use msp_pieces::Frac;
use std::alloc::Global;

/// Whether each is a job.
pub(crate) fn are_jobs(count: usize, jobs: &[u32]) -> bool
    ensures { IsTrue result ↔ All (λ j. j < count) jobs.now }
{
    jobs.iter().all(|job| (*job as usize) < count)
}

fn none_seen() -> [bool; MOST_JOBS]
    ensures { (j : ℕ) → j < MOST_JOBS → slice_index_or result j false ≡ false }
{
    [false; MOST_JOBS]
}

/// Whether no job stands twice.
pub(crate) fn are_apart(jobs: &[u32]) -> bool
    requires { All (λ j. j < MOST_JOBS) jobs.now }
    ensures { IsTrue result ↔ AllPairs (λ j k. j ≢ k) jobs.now }
{
    let mut seen = none_seen();
    for k in 0..jobs.len() {
        let at = jobs[k] as usize;
        if seen[at] {
            return false;
        }
        seen[at] = true;
    }
    true
}

/// How long the jobs take together.
pub(crate) fn total_time(inst: &Instance, jobs: &[u32]) -> u64
    requires few { length jobs.now ≤ MOST_ENTRIES }
    requires inside { All (λ j. j < length inst.now.jobs) jobs.now }
    requires small { All HasSmallNeeds inst.now.jobs }
    ensures value { result ≡ total_time inst.now jobs.now }
    ensures size { result ≤ GREATEST * MOST_ENTRIES }
{
    let all = inst.jobs.as_slice();
    let mut total: u64 = 0;
    for k in 0..jobs.len() {
        total += all[jobs[k] as usize].needs.as_slice()[0].time;
    }
    total
}

fn have_speeds(kind: EnvKind) -> bool
    ensures { IsTrue result ↔ HaveSpeeds kind }
{
    kind == EnvKind::Identical || kind == EnvKind::Uniform
}

/// The speed that stands at a place, and 0 past the end.
pub(crate) fn own_speed(speeds: &[u64], machine: u32) -> u64
    ensures { result ≡ slice_index_or speeds.now machine 0 }
{
    let at = machine as usize;
    if at < speeds.len() { speeds[at] } else { 0 }
}

/// The speed of a machine.
fn speed_of(inst: &Instance, machine: u32) -> u64
    ensures { result ≡ speed_of inst.now machine }
{
    let own = own_speed(inst.speeds.as_slice(), machine);
    match env_kind(inst.class.env) {
        EnvKind::Uniform => own,
        _ => 1,
    }
}

/// The speeds of all machines.
fn all_speeds(alloc: Global, inst: &Instance) -> Result<Vec<u64>, NoMemory>
    ensures { IfOk result (λ all. all.items ≡ speeds_of inst.now) }
{
    let mut all = Vec::new(alloc);
    for machine in 0..inst.machines {
        all.push(speed_of(inst, machine))?;
    }
    Ok(all)
}

/// The speeds of all machines, by rising speed.
fn rising_speeds(alloc: Global, inst: &Instance) -> Result<Vec<u64>, NoMemory>
    ensures all { IfOk result (λ all. IsPermutation (speeds_of inst.now) all.items) }
    ensures rising { IfOk result (λ all. IsNonDecreasing all.items) }
{
    let mut all = all_speeds(alloc, inst)?;
    all.sort_unstable();
    Ok(all)
}

/// The least speed last.
fn turn(speeds: &mut Vec<u64>)
    requires { IsNonDecreasing speeds.old.items }
    ensures all { IsPermutation speeds.old.items speeds.new.items }
    ensures falls { AllPairs (λ x y. y ≤ x) speeds.new.items }
{
    speeds.reverse();
}

/// The speeds of all machines, by falling speed.
pub(crate) fn falling_speeds(alloc: Global, inst: &Instance) -> Result<Vec<u64>, NoMemory>
    ensures all { IfOk result (λ all. IsPermutation (speeds_of inst.now) all.items) }
    ensures falls { IfOk result (λ all. AllPairs (λ x y. y ≤ x) all.items) }
{
    let mut all = rising_speeds(alloc, inst)?;
    turn(&mut all);
    Ok(all)
}

/// The first speeds together.
fn first_together(speeds: &[u64], count: usize) -> u64
    requires few { length speeds.now ≤ MOST_MACHINES }
    requires slow { All (λ s. s ≤ GREATEST_SPEED) speeds.now }
    ensures value { result ≡ sum (take count speeds.now) }
    ensures size { result ≤ GREATEST_SPEED * MOST_MACHINES }
{
    let first = count.min(speeds.len());
    let mut total: u64 = 0;
    for k in 0..first {
        total += speeds[k];
    }
    total
}

/// Whether the makespan on related machines is asked for: one machine, identical or uniform ones.
pub(crate) fn has_related_machines(inst: &Instance) -> bool
    ensures { IsTrue result ↔ HasRelatedMachines inst.now }
{
    inst.class.crit == Crit::Cmax && have_speeds(env_kind(inst.class.env))
}

/// Whether the jobs are a group.
fn is_group(inst: &Instance, jobs: &[u32]) -> bool
    requires { length inst.now.jobs ≤ MOST_JOBS }
    ensures { IsTrue result ↔ IsGroup inst.now jobs.now }
{
    has_related_machines(inst)
        && !jobs.is_empty()
        && are_jobs(inst.jobs.len(), jobs)
        && are_apart(jobs)
}

/// What the group is worth.
#[tactic(auto, using(crate::proofs::Decided::worth_nothing))]
pub(crate) fn group_worth(
    alloc: Global,
    inst: &Instance,
    jobs: &[u32],
) -> Result<Option<Frac>, NoMemory>
    requires class { InClass inst.now }
    requires few { length jobs.now ≤ MOST_ENTRIES }
    ensures worth { IfOk result (IsWorth inst.now (Group jobs.now)) }
    ensures small { IfOk result (λ w. IfSome w IsComparable) }
{
    if !is_group(inst, jobs) {
        return Ok(None);
    }
    let speeds = falling_speeds(alloc, inst)?;
    let time = total_time(inst, jobs);
    let speed = first_together(speeds.as_slice(), jobs.len());
    Ok(Some(over(time, speed)))
}
