// The kept moments: those at which the earliest schedule begins a job.
ghost use Rattle.std.specs.Prelude.{◌≡◌, ◌≤◌, length, IfOk};
ghost use Rattle.msp_class.specs.declared.sizes.TheConstants.{MOST_JOBS};
ghost use Rattle.msp_instance.specs.Conditions.{Inner};
ghost use Rattle.msp_threshold.specs.Squeezed.{lateness_class, AreKept};

use msp_class::NoMemory;
use msp_instance::Instance;
use msp_slots::{earliest_slots, sorted_releases, starts_of};
use std::alloc::Global;

/// The moments at which the earliest schedule begins a job, in rising order.
pub fn kept_moments(alloc: Global, inst: &Instance) -> Result<Vec<u64>, NoMemory>
    requires inner { Inner inst.now }
    requires class { inst.now.class ≡ lateness_class }
    ensures kept { IfOk result (λ kept. AreKept inst.now kept.items) }
    ensures few { IfOk result (λ kept. length kept.items ≤ MOST_JOBS) }
{
    let heads = sorted_releases(alloc, inst.jobs.as_slice())?;
    let slots = earliest_slots(alloc, heads.as_slice(), inst.machines)?;
    let mut kept = starts_of(alloc, slots.as_slice())?;
    kept.dedup();
    Ok(kept)
}
