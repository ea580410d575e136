// The arcs by one of the two jobs that they join.
ghost use Rattle.std.specs.Prelude.{◌≡◌, ◌==◌, filter, IfOk};
ghost use Rattle.std.specs.List.Sorted.{IsPermutation, IsNonDecreasingBy};

use crate::Arc;
use std::alloc::{AllocError, Global};

/// The arcs by their jobs before.
pub(crate) fn arcs_by_before(alloc: Global, arcs: &[Arc]) -> Result<Vec<Arc>, AllocError>
    ensures same { IfOk result (λ sorted. IsPermutation arcs.now sorted.items) }
    ensures sorted { IfOk result (λ sorted. IsNonDecreasingBy (λ a. a.before) sorted.items) }
{
    let mut sorted = Vec::from_slice(alloc, arcs)?;
    sorted.sort_unstable_by_key(|a| a.before);
    Ok(sorted)
}

/// The arcs by their jobs after.
pub fn arcs_by_after(alloc: Global, arcs: &[Arc]) -> Result<Vec<Arc>, AllocError>
    ensures same { IfOk result (λ sorted. IsPermutation arcs.now sorted.items) }
    ensures sorted { IfOk result (λ sorted. IsNonDecreasingBy (λ a. a.after) sorted.items) }
{
    let mut sorted = Vec::from_slice(alloc, arcs)?;
    sorted.sort_unstable_by_key(|a| a.after);
    Ok(sorted)
}

/// The arcs that leave a job, of arcs by their jobs before.
pub(crate) fn leaving_of(sorted: &[Arc], job: u32) -> &[Arc]
    requires { IsNonDecreasingBy (λ a. a.before) sorted.now }
    ensures { result.now ≡ filter (λ a. a.before == job) sorted.now }
{
    let first = sorted.partition_point(|a| a.before < job);
    let rest = &sorted[first..];
    let end = rest.partition_point(|a| a.before <= job);
    &rest[..end]
}

/// The arcs that enter a job, of arcs by their jobs after.
pub fn entering_of(sorted: &[Arc], job: u32) -> &[Arc]
    requires { IsNonDecreasingBy (λ a. a.after) sorted.now }
    ensures { result.now ≡ filter (λ a. a.after == job) sorted.now }
{
    let first = sorted.partition_point(|a| a.after < job);
    let rest = &sorted[first..];
    let end = rest.partition_point(|a| a.after <= job);
    &rest[..end]
}
