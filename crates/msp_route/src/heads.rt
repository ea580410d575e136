// Heads: the moments before which jobs cannot begin, raised along the arcs.
ghost use Rattle.std.specs.Prelude.{◌≡◌, ◌+◌, ◌*◌, ◌<◌, ◌≤◌, length, All, IfOk};
ghost use Rattle.std.specs.List.Sorted.{IsPermutation, IsNonDecreasingBy};
ghost use Rattle.msp_class.specs.declared.class.Env.TheVariants.{One};
ghost use Rattle.msp_class.specs.declared.sizes.TheConstants.{MOST_JOBS, GREATEST};
ghost use Rattle.msp_instance.specs.Instance.{job_at};
ghost use Rattle.msp_instance.specs.Conditions.{Inner, IsSequence, GoesForward};
ghost use Rattle.msp_pieces.specs.BackToBack.{time_at};
ghost use Rattle.msp_route.specs.Heads.{head_in, IsRaised, AreHeads};

use msp_class::NoMemory;
use msp_instance::{Arc, Instance, OrderFault, arcs_by_after, entering_of, forward};
use std::alloc::Global;

/// The time of a job's one operation.
pub fn time_of(inst: &Instance, job: u32) -> u64
    requires inner { Inner inst.now }
    requires machine { inst.now.class.env ≡ One }
    requires inside { job < length inst.now.jobs }
    ensures value { result ≡ time_at inst.now job }
    ensures size { result ≤ GREATEST }
{
    inst.jobs.as_slice()[job as usize].needs.as_slice()[0].time
}

/// The release date of a job.
fn release_of(inst: &Instance, job: u32) -> u64
    requires inner { Inner inst.now }
    requires machine { inst.now.class.env ≡ One }
    requires inside { job < length inst.now.jobs }
    ensures value { result ≡ (job_at inst.now job).release }
    ensures size { result ≤ 2 * GREATEST }
{
    inst.jobs.as_slice()[job as usize].release
}

/// When the job before is done, where it begins at its head.
fn end_from_head(inst: &Instance, heads: &[u64], job: u32) -> u64
    requires inner { Inner inst.now }
    requires machine { inst.now.class.env ≡ One }
    requires inside { job < length inst.now.jobs }
    requires each { length heads.now ≡ length inst.now.jobs }
    requires small { All (λ h. h ≤ GREATEST * (1 + MOST_JOBS)) heads.now }
    ensures { result ≡ head_in heads.now job + time_at inst.now job }
{
    heads[job as usize] + time_of(inst, job)
}

/// The head of a job, by those of the jobs from which arcs enter it.
fn raised(inst: &Instance, entering: &[Arc], heads: &[u64], job: u32) -> u64
    requires inner { Inner inst.now }
    requires machine { inst.now.class.env ≡ One }
    requires inside { job < length inst.now.jobs }
    requires entering { All (λ a. (a.after ≡ job) × (a.before < length inst.now.jobs)) entering.now }
    requires each { length heads.now ≡ length inst.now.jobs }
    requires small { All (λ h. h ≤ GREATEST * (1 + MOST_JOBS)) heads.now }
    ensures { IsRaised inst.now entering.now (head_in heads.now) job result }
{
    let mut head = release_of(inst, job);
    for arc in entering {
        head = head.max(end_from_head(inst, heads, arc.before));
    }
    head
}

/// Puts the heads of the jobs, from the first of a forward order to the last.
fn put_heads(inst: &Instance, sorted: &[Arc], order: &[u32], heads: &mut [u64])
    requires inner { Inner inst.now }
    requires machine { inst.now.class.env ≡ One }
    requires same { IsPermutation inst.now.arcs sorted.now }
    requires sorted { IsNonDecreasingBy (λ a. a.after) sorted.now }
    requires sequence { IsSequence inst.now order.now }
    requires forward { All (GoesForward order.now) inst.now.arcs }
    requires each { length heads.old ≡ length inst.now.jobs }
    requires none { All (λ h. h ≡ 0) heads.old }
    ensures { AreHeads inst.now heads.new }
{
    for place in 0..order.len() {
        let job = order[place];
        let entering = entering_of(sorted, job);
        heads[job as usize] = raised(inst, entering, heads, job);
    }
}

/// A zero for each job.
fn no_heads(alloc: Global, count: usize) -> Result<Vec<u64>, NoMemory>
    ensures each { IfOk result (λ heads. length heads.items ≡ count) }
    ensures none { IfOk result (λ heads. All (λ h. h ≡ 0) heads.items) }
{
    Ok(vec![in alloc; 0; count]?)
}

/// The head of each job.
pub fn heads_of(alloc: Global, inst: &Instance) -> Result<Vec<u64>, NoMemory>
    requires inner { Inner inst.now }
    requires machine { inst.now.class.env ≡ One }
    ensures { IfOk result (λ heads. AreHeads inst.now heads.items) }
{
    let order = match forward(alloc, inst) {
        Ok(order) => order,
        Err(OrderFault::Cycle { .. }) => unreachable!(),
        Err(OrderFault::Memory) => return Err(NoMemory),
    };
    let sorted = arcs_by_after(alloc, inst.arcs.as_slice())?;
    let mut heads = no_heads(alloc, inst.jobs.len())?;
    put_heads(inst, &sorted, order.as_slice(), heads.as_mut_slice());
    Ok(heads)
}
