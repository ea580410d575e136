// Blocks on one machine.
ghost use Rattle.std.specs.Prelude.{◌≡◌, ◌↔◌, ◌<◌, ◌≤◌, ◌⊎◌, length, All, Any, IsTrue, IfOk, IfSome};
ghost use Rattle.msp_class.specs.declared.class.Crit.TheVariants.{Fmax};
ghost use Rattle.msp_instance.specs.Conditions.{InClass, LiesWithin};
ghost use Rattle.msp_instance.specs.Instance.{need_at, job_at};
ghost use Rattle.msp_pieces.specs.Blocks.{IsSound, cost_at};
ghost use Rattle.msp_pieces.specs.Fraction.{IsComparable};
ghost use Rattle.msp_cert.specs.declared.Proof.TheVariants.{Block};
ghost use Rattle.msp_cert.specs.declared.limits.TheConstants.{GREATEST_HEAD, MOST_ENTRIES};
ghost use Rattle.msp_cert.specs.Certificates.{IsBlockOf, of_job};
ghost use Rattle.msp_cert.specs.Least.{Backs, IsBacked, IsLast, IsLeast, IsOwnCost, lesser};
ghost use Rattle.msp_cert.specs.Worth.{IsWorth, greatest_value, latest_end};

use crate::group::{are_apart, are_jobs, total_time};
use crate::worth::whole;
use msp_class::{Crit, Env, NoMemory};
use msp_instance::{Arc, Instance, Paths, first_time};
use msp_pieces::{Frac, job_cost_at};
use std::alloc::Global;

/// The head of a job.
fn head_of(head: &[u64], job: u32) -> u64
    ensures { result ≡ of_job head.now job }
{
    let at = job as usize;
    if at < head.len() { head[at] } else { 0 }
}

fn release_of(inst: &Instance, job: u32) -> u64
    ensures { result ≡ (job_at inst.now job).release }
{
    match inst.jobs.get(job as usize) {
        Some(own) => own.release,
        None => 0,
    }
}

pub(crate) fn time_of(inst: &Instance, job: u32) -> u64
    ensures { result ≡ (need_at inst.now job 0).time }
{
    match inst.jobs.get(job as usize) {
        Some(own) => first_time(own.needs.as_slice()),
        None => 0,
    }
}

/// Whether the arc leads to the job from one whose head and time together reach the job's head.
fn backs(inst: &Instance, head: &[u64], job: u32, arc: &Arc) -> bool
    ensures { IsTrue result ↔ Backs inst.now (of_job head.now) job arc.now }
{
    let own = head_of(head, job);
    let time = time_of(inst, arc.before);
    arc.after == job && own.saturating_sub(time) <= head_of(head, arc.before)
}

/// Whether the head is at most the release date, or an arc backs it.
fn is_backed(inst: &Instance, head: &[u64], job: u32) -> bool
    ensures { IsTrue result ↔ IsBacked inst.now (of_job head.now) job }
{
    head_of(head, job) <= release_of(inst, job)
        || inst
            .arcs
            .as_slice()
            .iter()
            .any(|arc| backs(inst, head, job, arc))
}

/// Whether no job can begin before its head.
fn is_sound(inst: &Instance, head: &[u64]) -> bool
    requires { InClass inst.now }
    ensures { IsTrue result ↔ IsSound inst.now (of_job head.now) }
{
    for k in 0..inst.jobs.len() {
        if !is_backed(inst, head, k as u32) {
            return false;
        }
    }
    true
}

/// Whether there is a head for each job, and the jobs are a block.
fn is_block(inst: &Instance, head: &[u64], jobs: &[u32]) -> bool
    requires { InClass inst.now }
    ensures { IsTrue result ↔ IsBlockOf inst.now head.now jobs.now }
{
    inst.class.env == Env::One
        && inst.class.crit == Crit::Fmax
        && head.len() == inst.jobs.len()
        && is_sound(inst, head)
        && !jobs.is_empty()
        && are_jobs(inst.jobs.len(), jobs)
        && are_apart(jobs)
}

fn lower(a: u64, b: u64) -> u64
    ensures one { (result ≡ a) ⊎ (result ≡ b) }
    ensures low { (result ≤ a) × (result ≤ b) }
{
    if b < a { b } else { a }
}

/// The least head of the jobs.
fn least_head(head: &[u64], jobs: &[u32]) -> u64
    requires some { 0 < length jobs.now }
    ensures first { Any (λ j. of_job head.now j ≡ result) jobs.now }
    ensures after { All (λ j. result ≤ of_job head.now j) jobs.now }
{
    let mut least = head_of(head, jobs[0]);
    for k in 1..jobs.len() {
        least = lower(least, head_of(head, jobs[k]));
    }
    least
}

/// Whether no path leads from the job to one of the jobs.
fn is_last(paths: &Paths, jobs: &[u32], job: u32) -> bool
    ensures { IsTrue result ↔ IsLast paths.now jobs.now job }
{
    jobs.iter().all(|k| !paths.leads(job, *k))
}

/// What the job costs that ends at the moment.
fn cost_of(inst: &Instance, job: u32, moment: u64) -> i128
    requires class { InClass inst.now }
    requires greatest { inst.now.class.crit ≡ Fmax }
    requires job { job < length inst.now.jobs }
    requires moment { moment ≤ latest_end }
    ensures { result ≡ cost_at inst.now job moment }
{
    let own = &inst.jobs.as_slice()[job as usize];
    job_cost_at(Crit::Fmax, 1, own, i128::from(moment))
}

/// The same, and that it is small.
fn own_cost(inst: &Instance, job: u32, moment: u64) -> i128
    requires class { InClass inst.now }
    requires greatest { inst.now.class.crit ≡ Fmax }
    requires job { job < length inst.now.jobs }
    requires moment { moment ≤ latest_end }
    ensures value { result ≡ cost_at inst.now job moment }
    ensures size { LiesWithin greatest_value result }
{
    cost_of(inst, job, moment)
}

/// What the job costs that ends at the moment, where no path leads from it to one of the jobs.
fn cost_if_last(inst: &Instance, paths: &Paths, jobs: &[u32], job: u32, moment: u64) -> Option<i128>
    requires class { InClass inst.now }
    requires greatest { inst.now.class.crit ≡ Fmax }
    requires job { job < length inst.now.jobs }
    requires moment { moment ≤ latest_end }
    ensures value { IsOwnCost (IsLast paths.now jobs.now job) (cost_at inst.now job moment) result }
    ensures size { IfSome result (LiesWithin greatest_value) }
{
    if is_last(paths, jobs, job) {
        Some(own_cost(inst, job, moment))
    } else {
        None
    }
}

fn lesser(a: Option<i128>, b: Option<i128>) -> Option<i128>
    ensures { result ≡ lesser a b }
{
    match (a, b) {
        (Some(x), Some(y)) => Some(if y < x { y } else { x }),
        (Some(x), None) => Some(x),
        (None, other) => other,
    }
}

/// The least that one of the jobs costs that ends at the moment, of those from which no path leads to another of them.
fn least_cost(inst: &Instance, paths: &Paths, jobs: &[u32], moment: u64) -> Option<i128>
    requires class { InClass inst.now }
    requires greatest { inst.now.class.crit ≡ Fmax }
    requires inside { All (λ j. j < length inst.now.jobs) jobs.now }
    requires moment { moment ≤ latest_end }
    ensures value { IsLeast (IsLast paths.now jobs.now) (λ j. cost_at inst.now j moment) jobs.now result }
    ensures size { IfSome result (LiesWithin greatest_value) }
{
    let mut least = None;
    for k in 0..jobs.len() {
        least = lesser(least, cost_if_last(inst, paths, jobs, jobs[k], moment));
    }
    least
}

/// What the block is worth.
pub(crate) fn block_worth(
    alloc: Global,
    inst: &Instance,
    head: &[u64],
    jobs: &[u32],
) -> Result<Option<Frac>, NoMemory>
    requires class { InClass inst.now }
    requires early { All (λ h. h ≤ GREATEST_HEAD) head.now }
    requires few { length jobs.now ≤ MOST_ENTRIES }
    ensures worth { IfOk result (IsWorth inst.now (Block head.now jobs.now)) }
    ensures small { IfOk result (λ w. IfSome w IsComparable) }
{
    if !is_block(inst, head, jobs) {
        return Ok(None);
    }
    let paths = Paths::of(alloc, inst)?;
    let end = least_head(head, jobs) + total_time(inst, jobs);
    match least_cost(inst, &paths, jobs, end) {
        Some(value) => Ok(Some(whole(value))),
        None => Ok(None),
    }
}
