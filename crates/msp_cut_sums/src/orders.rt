// Jobs by falling time, and by falling weight.
ghost use Rattle.std.specs.Prelude.{◌≡◌, ◌≤◌, map, length as len, IfOk, slice_index_or};
ghost use Rattle.msp_class.specs.declared.sizes.TheConstants.{MOST_JOBS};
ghost use Rattle.msp_instance.specs.Instance.{no_need};
ghost use Rattle.msp_pieces.specs.BackToBack.{time_at};
ghost use Rattle.msp_cut_sums.specs.Sums.{weight_at, IsByFalling};

use msp_class::NoMemory;
use msp_instance::{Instance, first_time};
use msp_route::jobs_by_falling_key;
use std::alloc::Global;

/// The times of all jobs.
fn times_of(alloc: Global, inst: &Instance) -> Result<Vec<u64>, NoMemory>
    ensures { IfOk result (λ times. times.items ≡ map (λ j. (slice_index_or j.needs 0 no_need).time) inst.now.jobs) }
{
    Ok(
        inst.jobs
            .as_slice()
            .iter()
            .map(|job| first_time(job.needs.as_slice()))
            .collect(alloc)?,
    )
}

/// The weights of all jobs.
fn weights_of(alloc: Global, inst: &Instance) -> Result<Vec<u64>, NoMemory>
    ensures { IfOk result (λ weights. weights.items ≡ map (λ j. j.weight) inst.now.jobs) }
{
    Ok(
        inst.jobs
            .as_slice()
            .iter()
            .map(|job| job.weight)
            .collect(alloc)?,
    )
}

/// All jobs, the longest first, ties to the lesser job.
pub(crate) fn jobs_by_time(alloc: Global, inst: &Instance) -> Result<Vec<u32>, NoMemory>
    requires few { len inst.now.jobs ≤ MOST_JOBS }
    ensures { IfOk result (λ order. IsByFalling (len inst.now.jobs) (time_at inst.now) order.items) }
{
    let times = times_of(alloc, inst)?;
    jobs_by_falling_key(alloc, times.as_slice())
}

/// All jobs, the heaviest first, ties to the lesser job.
pub(crate) fn jobs_by_weight(alloc: Global, inst: &Instance) -> Result<Vec<u32>, NoMemory>
    requires few { len inst.now.jobs ≤ MOST_JOBS }
    ensures { IfOk result (λ order. IsByFalling (len inst.now.jobs) (weight_at inst.now) order.items) }
{
    let weights = weights_of(alloc, inst)?;
    jobs_by_falling_key(alloc, weights.as_slice())
}
