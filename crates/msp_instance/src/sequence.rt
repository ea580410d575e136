// An order of the jobs in which every arc goes forward, or the least job on a cycle.
ghost use Rattle.std.specs.Prelude.{◌≡◌, ℕ, ◌+◌, ◌-◌, ◌<◌, ◌≤◌, ◌==◌, ◌++◌, length, IfOk, IfErr, OnOk, IsTrue, ◌↔◌, All, Contains, true, false, slice_index, slice_index_or};
ghost use Rattle.std.specs.Prelude.{slice_set, take, filter, [], ◌∷◌, if◌then◌else◌};
ghost use Rattle.std.specs.List.{range_with_len};
ghost use Rattle.std.specs.List.Sorted.{IsNonDecreasingBy};
ghost use Rattle.msp_class.specs.declared.list.TheConstants.{PLACES};
ghost use Rattle.msp_instance.specs.Conditions.{entering, IsSequence, GoesForward};
ghost use Rattle.msp_instance.specs.Paths.{HasPath, IsLeastOnCycle, IsOrderFault};
ghost use Rattle.msp_instance.specs.Listing.{IsListing, IsLongestOrder, IsMet};

use crate::arcs::{arcs_by_before, leaving_of};
use crate::{Arc, Instance};
use msp_class::List;
use std::alloc::{AllocError, Global};

/// Why there is no order of the jobs in which every arc goes forward.
#[derive(Clone, Copy, Debug, PartialEq, Eq)]
pub enum OrderFault {
    /// There is none: a path of arcs leads from the job to itself, and from no lesser one.
    Cycle { job: u32 },
    /// Out of memory.
    Memory,
}

impl From<AllocError> for OrderFault {
    ghost use Rattle.msp_instance.specs.declared.sequence.OrderFault.TheVariants.{Memory};

    ghost from_gives = { λ _ e. e ≡ Memory };

    fn from(_e: AllocError) -> OrderFault {
        OrderFault::Memory
    }
}

/// How many arcs enter each job.
fn entering_counts(alloc: Global, jobs: usize, arcs: &[Arc]) -> Result<Vec<usize>, AllocError>
    requires { All (λ a. a.after < jobs) arcs.now }
    ensures len { IfOk result (λ counts. length counts.items ≡ jobs) }
    ensures each { IfOk result (λ counts. (k : ℕ) → k < jobs → slice_index counts.items k ≡ entering arcs.now k) }
{
    let mut counts = vec![in alloc; 0; jobs]?;
    for a in arcs {
        counts[a.after as usize] += 1;
    }
    Ok(counts)
}

/// The jobs that no arc enters.
fn free_jobs(alloc: Global, entering: &[usize]) -> Result<Vec<u32>, AllocError>
    requires { length entering.now < PLACES }
    ensures { IfOk result (λ free. free.items ≡ filter (λ k. slice_index entering.now k == 0) (range_with_len 0 (length entering.now))) }
{
    let mut free = Vec::new(alloc);
    for job in 0..entering.len() as u32 {
        if entering[job as usize] == 0 {
            free.push(job)?;
        }
    }
    Ok(free)
}

/// Takes an arc away, and lists its job after where no other is left.
fn pass(counts: &mut [usize], order: &mut Vec<u32>, after: u32) -> Result<(), AllocError>
    requires inside { after < length counts.old }
    requires some { 0 < slice_index counts.old after }
    ensures counts { OnOk result (counts.new ≡ slice_set counts.old after (slice_index counts.old after - 1)) }
    ensures order { OnOk result (order.new.items ≡ (if slice_index counts.old after == 1 then order.old.items ++ after ∷ [] else order.old.items)) }
{
    let at = after as usize;
    counts[at] -= 1;
    if counts[at] == 0 {
        order.push(after)?;
    }
    Ok(())
}

/// Takes the arcs of a job away, and lists the jobs that no other arc enters.
fn release(counts: &mut [usize], order: &mut Vec<u32>, leaving: &[Arc]) -> Result<(), AllocError>
    requires ends { All (λ a. a.after < length counts.old) leaving.now }
    requires enough { (k : ℕ) → k < length counts.old → entering leaving.now k ≤ slice_index counts.old k }
    requires listing { IsListing (length counts.old) (λ k. slice_index counts.old k == 0) order.old.items }
    ensures counts { OnOk result ((k : ℕ) → k < length counts.old → slice_index counts.new k + entering leaving.now k ≡ slice_index counts.old k) }
    ensures listing { OnOk result (IsListing (length counts.old) (λ k. slice_index counts.new k == 0) order.new.items) }
    ensures kept { OnOk result (take (length order.old.items) order.new.items ≡ order.old.items) }
{
    for a in leaving {
        pass(counts, order, a.after)?;
    }
    Ok(())
}

/// The jobs in an order in which every arc goes forward, as far as there is one: a job is listed once every arc into it comes from a
/// job before it (Kahn 1962).
fn longest_order(alloc: Global, jobs: usize, sorted: &[Arc]) -> Result<Vec<u32>, AllocError>
    requires few { jobs < PLACES }
    requires sorted { IsNonDecreasingBy (λ a. a.before) sorted.now }
    requires ends { All (λ a. (a.before < jobs) × (a.after < jobs)) sorted.now }
    ensures { IfOk result (λ order. IsLongestOrder sorted.now jobs order.items) }
{
    let mut entering = entering_counts(alloc, jobs, sorted)?;
    let mut order = free_jobs(alloc, entering.as_slice())?;
    let counts = entering.as_mut_slice();
    let mut done = 0;
    while done < order.len() {
        let leaving = leaving_of(sorted, order[done]);
        release(counts, &mut order, leaving)?;
        done += 1;
    }
    Ok(order)
}

/// Lists a job that was not seen before.
fn note(seen: &mut [bool], found: &mut Vec<u32>, job: u32) -> Result<(), AllocError>
    requires { job < length seen.old }
    ensures seen { OnOk result (seen.new ≡ slice_set seen.old job true) }
    ensures found { OnOk result (found.new.items ≡ (if slice_index_or seen.old job false then found.old.items else found.old.items ++ job ∷ [])) }
{
    let at = job as usize;
    if !seen[at] {
        seen[at] = true;
        found.push(job)?;
    }
    Ok(())
}

/// Lists the jobs to which arcs of one job lead.
fn meet(seen: &mut [bool], found: &mut Vec<u32>, leaving: &[Arc]) -> Result<(), AllocError>
    requires ends { All (λ a. a.after < length seen.old) leaving.now }
    requires listing { IsListing (length seen.old) (λ k. slice_index_or seen.old k false) found.old.items }
    ensures listing { OnOk result (IsListing (length seen.old) (λ k. slice_index_or seen.new k false) found.new.items) }
    ensures kept { OnOk result (take (length found.old.items) found.new.items ≡ found.old.items) }
    ensures met { OnOk result (All (λ a. Contains found.new.items a.after) leaving.now) }
    ensures only { OnOk result (All (λ k. IsMet found.old.items leaving.now k) found.new.items) }
{
    for a in leaving {
        note(seen, found, a.after)?;
    }
    Ok(())
}

/// Whether a path of arcs leads from a job to itself.
fn leads_to_itself(
    alloc: Global,
    jobs: usize,
    sorted: &[Arc],
    start: u32,
) -> Result<bool, AllocError>
    requires sorted { IsNonDecreasingBy (λ a. a.before) sorted.now }
    requires ends { All (λ a. (a.before < jobs) × (a.after < jobs)) sorted.now }
    requires start { start < jobs }
    ensures { IfOk result (λ found. IsTrue found ↔ HasPath sorted.now start start) }
{
    let mut flags = vec![in alloc; false; jobs]?;
    let seen = flags.as_mut_slice();
    let mut found = Vec::new(alloc);
    meet(seen, &mut found, leaving_of(sorted, start))?;
    let mut done = 0;
    while done < found.len() {
        let leaving = leaving_of(sorted, found[done]);
        meet(seen, &mut found, leaving)?;
        done += 1;
    }
    Ok(seen[start as usize])
}

/// The least job from which a path of arcs leads to itself.
fn least_on_cycle(alloc: Global, jobs: usize, sorted: &[Arc]) -> Result<u32, AllocError>
    requires few { jobs < PLACES }
    requires sorted { IsNonDecreasingBy (λ a. a.before) sorted.now }
    requires ends { All (λ a. (a.before < jobs) × (a.after < jobs)) sorted.now }
    requires some { (j : ℕ) × (j < jobs) × HasPath sorted.now j j }
    ensures { IfOk result (IsLeastOnCycle jobs sorted.now) }
{
    for job in 0..jobs as u32 {
        if leads_to_itself(alloc, jobs, sorted, job)? {
            return Ok(job);
        }
    }
    unreachable!()
}

/// All jobs, each once, in an order in which every arc goes forward.
///
/// It takes time linear in the jobs and arcs, up to sorting the arcs. Where there is a cycle, the search for the least job on one
/// takes as long again for each job.
pub fn forward(alloc: Global, inst: &Instance) -> Result<List<u32>, OrderFault>
    requires few { length inst.now.jobs < PLACES }
    requires ends { All (λ a. (a.before < length inst.now.jobs) × (a.after < length inst.now.jobs)) inst.now.arcs }
    ensures sequence { IfOk result (IsSequence inst.now) }
    ensures forward { IfOk result (λ order. All (GoesForward order) inst.now.arcs) }
    ensures fault { IfErr result (IsOrderFault inst.now) }
{
    let jobs = inst.jobs.len();
    let sorted = arcs_by_before(alloc, inst.arcs.as_slice())?;
    let arcs = sorted.as_slice();
    let order = longest_order(alloc, jobs, arcs)?;
    if order.len() == jobs {
        return Ok(List::from_vec(order));
    }
    let job = least_on_cycle(alloc, jobs, arcs)?;
    Err(OrderFault::Cycle { job })
}
