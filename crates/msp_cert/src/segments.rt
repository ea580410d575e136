// Lists of jobs, of which each is done only after the one before it.
ghost use Rattle.std.specs.Prelude.{◌≡◌, ◌≢◌, ◌↔◌, ◌+◌, ◌-◌, ◌/◌, ◌<◌, ◌≤◌, length, All, AllPairs, IsTrue, IfOk, IfSome};
ghost use Rattle.std.specs.List.{AllAdjacentBelow, flat_map};
ghost use Rattle.msp_class.specs.declared.sizes.TheConstants.{MOST_JOBS, MOST_MACHINES};
ghost use Rattle.msp_instance.specs.Conditions.{InClass};
ghost use Rattle.msp_instance.specs.Paths.{leads};
ghost use Rattle.msp_pieces.specs.Fraction.{IsComparable};
ghost use Rattle.msp_pieces.specs.Segments.{AreSegments, segments_bound};
ghost use Rattle.msp_cert.specs.declared.Proof.TheVariants.{Segments};
ghost use Rattle.msp_cert.specs.declared.limits.TheConstants.{MOST_ENTRIES};
ghost use Rattle.msp_cert.specs.Small.{ShowLeads};
ghost use Rattle.msp_cert.specs.Worth.{IsWorth};

use crate::group::{are_apart, are_jobs};
use crate::levels::has_unit_jobs;
use crate::worth::over;
use msp_class::{List, NoMemory};
use msp_instance::{Instance, Paths};
use msp_pieces::Frac;
use std::alloc::Global;

/// Whether none of the lists is empty.
fn are_filled(lists: &[List<u32>]) -> bool
    ensures { IsTrue result ↔ All (λ jobs. 0 < length jobs) lists.now }
{
    lists.iter().all(|jobs| 0 < jobs.len())
}

/// Whether each of each list is a job.
fn are_lists_of_jobs(count: usize, lists: &[List<u32>]) -> bool
    ensures { IsTrue result ↔ All (λ jobs. All (λ j. j < count) jobs) lists.now }
{
    lists.iter().all(|jobs| are_jobs(count, jobs.as_slice()))
}

/// The jobs of all lists.
fn jobs_of_all(alloc: Global, lists: &[List<u32>]) -> Result<Vec<u32>, NoMemory>
    ensures { IfOk result (λ all. all.items ≡ flat_map (λ jobs. jobs) lists.now) }
{
    let mut all = Vec::new(alloc);
    for jobs in lists {
        all.extend_from_slice(jobs.as_slice())?;
    }
    Ok(all)
}

/// Whether no job stands twice in the lists.
fn are_all_apart(alloc: Global, lists: &[List<u32>]) -> Result<bool, NoMemory>
    requires { All (λ jobs. All (λ j. j < MOST_JOBS) jobs) lists.now }
    ensures { IfOk result (λ yes. IsTrue yes ↔ AllPairs (λ j k. j ≢ k) (flat_map (λ jobs. jobs) lists.now)) }
{
    let all = jobs_of_all(alloc, lists)?;
    Ok(are_apart(all.as_slice()))
}

/// Whether paths lead from the job to all of these.
fn leads_to_all(paths: &Paths, job: u32, next: &[u32]) -> bool
    ensures { IsTrue result ↔ All (λ k. IsTrue (leads paths.now job k)) next.now }
{
    next.iter().all(|k| paths.leads(job, *k))
}

/// Whether paths lead from each of the jobs to all of the next.
fn lead_to_all(paths: &Paths, jobs: &[u32], next: &[u32]) -> bool
    ensures { IsTrue result ↔ All (λ j. All (λ k. IsTrue (leads paths.now j k)) next.now) jobs.now }
{
    jobs.iter().all(|job| leads_to_all(paths, *job, next))
}

/// Whether paths lead from each job of a list to each job of the next list.
fn lead_on(paths: &Paths, lists: &[List<u32>]) -> bool
    ensures { IsTrue result ↔ AllAdjacentBelow (ShowLeads paths.now) lists.now (length lists.now) }
{
    for k in 1..lists.len() {
        if !lead_to_all(paths, lists[k - 1].as_slice(), lists[k].as_slice()) {
            return false;
        }
    }
    true
}

/// Whether the lists are segments.
fn are_segments(alloc: Global, inst: &Instance, lists: &[List<u32>]) -> Result<bool, NoMemory>
    requires { InClass inst.now }
    ensures { IfOk result (λ yes. IsTrue yes ↔ AreSegments inst.now lists.now) }
{
    if !are_filled(lists) {
        return Ok(false);
    }
    if !are_lists_of_jobs(inst.jobs.len(), lists) {
        return Ok(false);
    }
    if !are_all_apart(alloc, lists)? {
        return Ok(false);
    }
    let paths = Paths::of(alloc, inst)?;
    Ok(lead_on(&paths, lists))
}

/// So many jobs over the number of machines, rounded up.
fn rounds(count: usize, machines: u32) -> u64
    requires count { count ≤ MOST_ENTRIES }
    requires some { 1 ≤ machines }
    requires few { machines ≤ MOST_MACHINES }
    ensures value { result ≡ (count + (machines - 1)) / machines }
    ensures size { result ≤ MOST_ENTRIES + MOST_MACHINES }
{
    let all = count as u64 + u64::from(machines - 1);
    all / u64::from(machines)
}

/// The numbers of jobs of the lists, each over the number of machines and rounded up, together.
fn segments_bound(inst: &Instance, lists: &[List<u32>]) -> u64
    requires class { InClass inst.now }
    requires few { length lists.now ≤ MOST_ENTRIES }
    requires short { All (λ jobs. length jobs ≤ MOST_ENTRIES) lists.now }
    ensures { result ≡ segments_bound inst.now lists.now }
{
    let mut total: u64 = 0;
    for k in 0..lists.len() {
        total += rounds(lists[k].len(), inst.machines);
    }
    total
}

/// What the lists are worth.
pub(crate) fn segments_worth(
    alloc: Global,
    inst: &Instance,
    lists: &[List<u32>],
) -> Result<Option<Frac>, NoMemory>
    requires class { InClass inst.now }
    requires few { length lists.now ≤ MOST_ENTRIES }
    requires short { All (λ jobs. length jobs ≤ MOST_ENTRIES) lists.now }
    ensures worth { IfOk result (IsWorth inst.now (Segments lists.now)) }
    ensures small { IfOk result (λ w. IfSome w IsComparable) }
{
    if !has_unit_jobs(inst) || !are_segments(alloc, inst, lists)? {
        return Ok(None);
    }
    Ok(Some(over(segments_bound(inst, lists), 1)))
}
