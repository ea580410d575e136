// Whether the greatest lateness can be kept within a bound, as a question on sums.
ghost use Rattle.std.specs.Prelude.{◌≡◌, ◌↔◌, ◌<◌, length, IfOk, IsTrue, All, map, ◌+ℤ◌};
ghost use Rattle.msp_class.specs.declared.class.Crit.TheVariants.{Lmax};
ghost use Rattle.msp_class.specs.Env.{kind_of};
ghost use Rattle.msp_instance.specs.Conditions.{Inner, LiesWithin, inner_limits};
ghost use Rattle.msp_pieces.specs.Feasible.{Feasible};
ghost use Rattle.msp_pieces.specs.Within.{Within, IsUnit};
ghost use Rattle.msp_plain.specs.Changes.{raised, shift_of};
ghost use Rattle.msp_plain.specs.Threshold.{IsThresholdSum, IsInTime, Meets, ThresholdLaw, greatest_threshold};
ghost use Rattle.msp_route.specs.Sizes.{greatest_row_date};

use msp_class::{Class, Crit, List, NoMemory};
use msp_instance::{Instance, Job};
use msp_pieces::{Piece, Schedule};
use msp_route::recast;
use std::alloc::Global;

fn raise(job: &mut Job, bound: i64)
    requires { LiesWithin greatest_row_date (job.old.due +ℤ bound) }
    ensures { job.new ≡ raised bound job.old }
{
    job.due += bound;
}

fn raise_all(jobs: &mut [Job], bound: i64)
    requires { All (λ j. LiesWithin greatest_row_date (j.due +ℤ bound)) jobs.old }
    ensures { jobs.new ≡ map (raised bound) jobs.old }
{
    for job in jobs.iter_mut() {
        raise(job, bound);
    }
}

/// The instance with its due dates raised by the bound, and the number of late jobs or the total tardiness as its criterion.
pub fn shifted(alloc: Global, inst: &Instance, bound: i64, crit: Crit) -> Result<Instance, NoMemory>
    requires inner { Inner inst.now }
    requires lateness { inst.now.class.crit ≡ Lmax }
    requires sum { IsThresholdSum crit }
    requires dates { All (λ j. LiesWithin (inner_limits (kind_of inst.now.class.env)).greatest_date (j.due +ℤ bound)) inst.now.jobs }
    ensures value { IfOk result (λ j. j ≡ shift_of bound crit inst.now) }
    ensures inner { IfOk result Inner }
{
    let mut shifted = recast(alloc, inst, Class { crit, ..inst.class })?;
    let mut jobs = shifted.jobs.take_all();
    raise_all(&mut jobs, bound);
    shifted.jobs = List::from_vec(jobs);
    Ok(shifted)
}

/// The due date raised by the bound, without limit.
fn raised_due(due: i64, bound: i64) -> i128
    ensures { result ≡ due +ℤ bound }
{
    due as i128 + bound as i128
}

/// Whether the piece ends no later than its job's due date and the bound together.
fn is_in_time(jobs: &[Job], unit: i128, bound: i64, piece: &Piece) -> bool
    requires unit { IsUnit unit }
    requires job { piece.now.job < length jobs.now }
    requires due { All (λ j. LiesWithin greatest_row_date j.due) jobs.now }
    requires bound { LiesWithin greatest_threshold bound }
    ensures { IsTrue result ↔ IsInTime jobs.now unit bound piece.now }
{
    let due = jobs[piece.job as usize].due;
    piece.to <= unit * raised_due(due, bound)
}

fn all_in_time(jobs: &[Job], s: &Schedule, bound: i64) -> bool
    requires unit { IsUnit s.now.unit }
    requires jobs { All (λ p. p.job < length jobs.now) s.now.pieces }
    requires due { All (λ j. LiesWithin greatest_row_date j.due) jobs.now }
    requires bound { LiesWithin greatest_threshold bound }
    ensures { IsTrue result ↔ All (IsInTime jobs.now s.now.unit bound) s.now.pieces }
{
    for piece in s.pieces.as_slice() {
        if !is_in_time(jobs, s.unit, bound, piece) {
            return false;
        }
    }
    true
}

/// Whether the greatest lateness is at most the bound.
pub fn meets(inst: &Instance, s: &Schedule, bound: i64) -> bool
    requires inner { Inner inst.now }
    requires within { Within inst.now s.now }
    requires feasible { Feasible inst.now s.now }
    requires lateness { inst.now.class.crit ≡ Lmax }
    requires bound { LiesWithin greatest_threshold bound }
    ensures { IsTrue result ↔ Meets inst.now s.now bound }
{
    all_in_time(inst.jobs.as_slice(), s, bound)
}

/// The law of the two threshold rows: the greatest lateness is at most the bound exactly where the sum is 0 at raised due dates.
pub fn threshold_law()
    ensures { ThresholdLaw }
{}
