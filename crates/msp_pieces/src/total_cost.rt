// The cost of a schedule: that of all jobs together.
ghost use Rattle.std.specs.Prelude.{◌≡◌, ℕ, ◌<◌, ◌≤◌, pos, length, All, slice_index_or, slice_set};
ghost use Rattle.std.specs.Int.{int_max};
ghost use Rattle.msp_pieces.specs.Cost.{last_end, job_costs, greatest, combined, cost_of};
ghost use Rattle.msp_pieces.specs.Feasible.{total, Feasible};
ghost use Rattle.msp_pieces.specs.Fraction.{IsOver, IsLowest};
ghost use Rattle.msp_class.specs.declared.sizes.TheConstants.{MOST_JOBS};
ghost use Rattle.msp_instance.specs.Conditions.{LiesWithin, Inner};
ghost use Rattle.msp_pieces.specs.Within.{IsMoment, IsUnit, HasSmallCost, Within, greatest_total};

use crate::fraction::lowest;
use crate::job_cost::job_cost_at;
use crate::{Frac, Piece, Schedule};
use msp_class::{Crit, is_greatest};
use msp_instance::{Instance, Job, MOST_JOBS};

fn raise(ends: &mut [i128], piece: &Piece)
    requires { piece.now.job < length ends.old }
    ensures { ends.new ≡ slice_set ends.old piece.now.job (int_max (slice_index_or ends.old piece.now.job (pos 0)) piece.now.to) }
{
    let at = piece.job as usize;
    if ends[at] < piece.to {
        ends[at] = piece.to;
    }
}

fn no_ends() -> [i128; MOST_JOBS]
    ensures { (j : ℕ) → j < MOST_JOBS → slice_index_or result j (pos 0) ≡ pos 0 }
{
    [0; MOST_JOBS]
}

/// The end of each job, by number, and 0 where a job has no piece.
pub fn ends_of(pieces: &[Piece]) -> [i128; MOST_JOBS]
    requires jobs { All (λ p. p.job < MOST_JOBS) pieces.now }
    requires moments { All (λ p. IsMoment p.to) pieces.now }
    ensures ends { (j : ℕ) → j < MOST_JOBS → slice_index_or result j (pos 0) ≡ last_end pieces.now j }
    ensures moments { (j : ℕ) → j < MOST_JOBS → IsMoment (last_end pieces.now j) }
{
    let mut ends = no_ends();
    for piece in pieces {
        raise(&mut ends, piece);
    }
    ends
}

/// The sum of the jobs' costs, where `ends` says when each job ends.
fn sum_of_costs(crit: Crit, unit: i128, jobs: &[Job], ends: &[i128]) -> i128
    requires unit { IsUnit unit }
    requires few { length jobs.now ≤ MOST_JOBS }
    requires each { length jobs.now ≤ length ends.now }
    requires moments { (k : ℕ) → k < length jobs.now → IsMoment (slice_index_or ends.now k (pos 0)) }
    requires small { All (HasSmallCost unit) jobs.now }
    ensures value { result ≡ total (job_costs crit unit (λ k. slice_index_or ends.now k (pos 0)) 0 jobs.now) }
    ensures size { LiesWithin greatest_total result }
{
    let mut sum: i128 = 0;
    for k in 0..jobs.len() {
        sum += job_cost_at(crit, unit, &jobs[k], ends[k]);
    }
    sum
}

/// The greatest of the jobs' costs, where `ends` says when each job ends.
fn greatest_of_costs(crit: Crit, unit: i128, jobs: &[Job], ends: &[i128]) -> i128
    requires unit { IsUnit unit }
    requires some { 0 < length jobs.now }
    requires each { length jobs.now ≤ length ends.now }
    requires moments { (k : ℕ) → k < length jobs.now → IsMoment (slice_index_or ends.now k (pos 0)) }
    requires small { All (HasSmallCost unit) jobs.now }
    ensures value { result ≡ greatest (job_costs crit unit (λ k. slice_index_or ends.now k (pos 0)) 0 jobs.now) }
    ensures size { LiesWithin greatest_total result }
{
    let mut top = job_cost_at(crit, unit, &jobs[0], ends[0]);
    for k in 1..jobs.len() {
        top = top.max(job_cost_at(crit, unit, &jobs[k], ends[k]));
    }
    top
}

/// The cost of all jobs together, where `ends` says when each job ends.
fn combined_cost(crit: Crit, unit: i128, jobs: &[Job], ends: &[i128]) -> i128
    requires unit { IsUnit unit }
    requires some { 0 < length jobs.now }
    requires few { length jobs.now ≤ MOST_JOBS }
    requires each { length jobs.now ≤ length ends.now }
    requires moments { (k : ℕ) → k < length jobs.now → IsMoment (slice_index_or ends.now k (pos 0)) }
    requires small { All (HasSmallCost unit) jobs.now }
    ensures value { result ≡ combined crit (job_costs crit unit (λ k. slice_index_or ends.now k (pos 0)) 0 jobs.now) }
    ensures size { LiesWithin greatest_total result }
{
    if is_greatest(crit) {
        greatest_of_costs(crit, unit, jobs, ends)
    } else {
        sum_of_costs(crit, unit, jobs, ends)
    }
}

/// The cost of a feasible schedule, in lowest terms.
pub fn cost(inst: &Instance, s: &Schedule) -> Frac
    requires inner { Inner inst.now }
    requires within { Within inst.now s.now }
    requires feasible { Feasible inst.now s.now }
    ensures value { IsOver result (cost_of inst.now s.now) s.now.unit }
    ensures lowest { IsLowest result }
{
    let ends = ends_of(s.pieces.as_slice());
    let num = combined_cost(inst.class.crit, s.unit, inst.jobs.as_slice(), &ends);
    lowest(Frac { num, den: s.unit })
}
