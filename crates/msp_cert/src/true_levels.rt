// The levels of all jobs.
ghost use Rattle.std.specs.Prelude.{◌≡◌, ◌≢◌, ℕ, ◌+◌, ◌<◌, ◌≤◌, length, max, slice_index, slice_set, All, AllPairs, IfOk, IsPermutation};
ghost use Rattle.std.specs.List.Sorted.{IsNonDecreasingBy};
ghost use Rattle.msp_class.specs.declared.sizes.TheConstants.{MOST_JOBS};
ghost use Rattle.msp_instance.specs.Conditions.{InClass};
ghost use Rattle.msp_cert.specs.Certificates.{of_job};
ghost use Rattle.msp_cert.specs.Heights.{AreHeights, AreBalanced};
ghost use Rattle.msp_cert.specs.Search.{AreAllLevels};

use crate::levels::level_of;
use msp_class::NoMemory;
use msp_instance::{Arc, Instance, OrderFault, forward};
use std::alloc::Global;

/// A 0 for each of so many jobs.
fn all_zero(alloc: Global, count: usize) -> Result<Vec<u32>, NoMemory>
    ensures len { IfOk result (λ all. length all.items ≡ count) }
    ensures none { IfOk result (λ all. (j : ℕ) → of_job all.items j ≡ 0) }
{
    Ok(vec![in alloc; 0; count]?)
}

/// Puts the height of each job in the order: how many stand after it.
fn put_heights(order: &[u32], heights: &mut Vec<u32>)
    requires inside { All (λ j. j < length heights.old.items) order.now }
    requires apart { AllPairs (λ j k. j ≢ k) order.now }
    requires few { length order.now ≤ MOST_JOBS }
    ensures len { length heights.new.items ≡ length heights.old.items }
    ensures after { (k : ℕ) → k < length order.now → of_job heights.new.items (slice_index order.now k) + k + 1 ≡ length order.now }
{
    for k in 0..order.len() {
        heights[order[k] as usize] = (order.len() - 1 - k) as u32;
    }
}

/// A height for each job, below the number of jobs, that falls along each arc.
fn heights_of(alloc: Global, inst: &Instance) -> Result<Vec<u32>, NoMemory>
    requires { InClass inst.now }
    ensures { IfOk result (λ all. AreHeights inst.now all.items) }
{
    let order = match forward(alloc, inst) {
        Ok(order) => order,
        Err(OrderFault::Cycle { .. }) => unreachable!(),
        Err(OrderFault::Memory) => return Err(NoMemory),
    };
    let mut heights = all_zero(alloc, inst.jobs.len())?;
    put_heights(order.as_slice(), &mut heights);
    Ok(heights)
}

/// The arcs, those from the lowest jobs first.
fn lowest_first(alloc: Global, arcs: &[Arc], heights: &[u32]) -> Result<Vec<Arc>, NoMemory>
    ensures same { IfOk result (λ sorted. IsPermutation arcs.now sorted.items) }
    ensures sorted { IfOk result (λ sorted. IsNonDecreasingBy (λ a. of_job heights.now a.before) sorted.items) }
{
    let mut sorted = Vec::from_slice(alloc, arcs)?;
    sorted.sort_unstable_by_key(|arc| level_of(heights, arc.before));
    Ok(sorted)
}

/// Raises the level of the job that the arc leaves above that of the other one.
fn raise(level: &mut Vec<u32>, arc: Arc)
    requires inside { arc.before < length level.old.items }
    requires small { of_job level.old.items arc.after < MOST_JOBS }
    ensures { level.new.items ≡ slice_set level.old.items arc.before (max (of_job level.old.items arc.before) (of_job level.old.items arc.after + 1)) }
{
    let own = level_of(level, arc.before);
    let above = level_of(level, arc.after) + 1;
    level[arc.before as usize] = if own < above { above } else { own };
}

/// Puts the levels: each job's is one more than the greatest of those to which its arcs lead.
fn put_levels(sorted: &[Arc], heights: &[u32], level: &mut Vec<u32>)
    requires inside { All (λ a. a.before < length level.old.items) sorted.now }
    requires small { All (λ h. h < MOST_JOBS) heights.now }
    requires falls { All (λ a. of_job heights.now a.after < of_job heights.now a.before) sorted.now }
    requires sorted { IsNonDecreasingBy (λ a. of_job heights.now a.before) sorted.now }
    requires none { (j : ℕ) → of_job level.old.items j ≡ 0 }
    ensures len { length level.new.items ≡ length level.old.items }
    ensures levels { AreBalanced sorted.now (of_job level.new.items) }
{
    for arc in sorted {
        raise(level, *arc);
    }
}

/// The levels of all jobs.
pub(crate) fn levels_of_all(alloc: Global, inst: &Instance) -> Result<Vec<u32>, NoMemory>
    requires { InClass inst.now }
    ensures { IfOk result (λ level. AreAllLevels inst.now level.items) }
{
    let heights = heights_of(alloc, inst)?;
    let sorted = lowest_first(alloc, inst.arcs.as_slice(), heights.as_slice())?;
    let mut level = all_zero(alloc, inst.jobs.len())?;
    put_levels(sorted.as_slice(), heights.as_slice(), &mut level);
    Ok(level)
}
