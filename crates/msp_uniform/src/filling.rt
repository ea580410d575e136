// The longest job takes the two places that can do its work, and leaves one place of the two.
ghost use Rattle.std.specs.Prelude.{ℕ, ◌-◌, ◌*◌, ◌<◌, ◌≤◌, ◌^◌, length as len, All, IfOk};
ghost use Rattle.msp_class.specs.declared.sizes.TheConstants.{GREATEST_SPEED};
ghost use Rattle.msp_uniform.specs.Segments.{at, rate_at, amount, IsSegment, IsDifference, greatest_length};
ghost use Rattle.msp_uniform.specs.Plans.{IsTurned};

use crate::laying::{Parts, lay_over_all};
use crate::segments::Segment;
use crate::turning::{last_gain, place_for, scaled, work_of};
use msp_class::NoMemory;
use std::alloc::Global;

/// Segments over a unit that is finer by a factor.
#[derive(Drop)]
pub(crate) struct Turned {
    pub(crate) factor: u128,
    pub(crate) segments: Vec<Segment>,
}

/// The segments with a job whose work is more than the last place can do, and no more than the first.
pub(crate) fn turn(
    alloc: Global,
    segments: Vec<Segment>,
    speeds: &[u64],
    places: usize,
    job: u32,
    work: u128,
) -> Result<Turned, NoMemory>
    requires job { job < 2 ^ 16 }
    requires some { 2 ≤ places }
    requires each { (n : ℕ) × All (IsSegment (len speeds.now) n (at speeds.now) places) segments.items }
    requires speeds { All (λ s. s ≤ GREATEST_SPEED) speeds.now }
    requires short { (d : ℕ) → IsDifference speeds.now d → amount (λ _. 1) segments.items * d ≤ greatest_length }
    requires first { work ≤ amount (rate_at (at speeds.now) 0) segments.items }
    requires last { amount (rate_at (at speeds.now) (places - 1)) segments.items < work }
    ensures { IfOk result (λ t. IsTurned speeds.now places job work segments.items t.factor t.segments.items) }
{
    let coarse = segments.as_slice();
    let place = place_for(coarse, speeds, places, work);
    let gain = work - work_of(coarse, speeds, place + 1);
    let factor = last_gain(coarse, speeds, place, gain);
    let fine = scaled(alloc, segments, factor)?;
    let parts = lay_over_all(alloc, fine, speeds, job, place, gain * factor)?;
    let Parts {
        mut first,
        mut second,
    } = parts;
    first.append(&mut second)?;
    Ok(Turned {
        factor,
        segments: first.into_vec(),
    })
}
