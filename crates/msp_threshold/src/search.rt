// The search for the least bound on the greatest lateness that some schedule meets.
ghost use Rattle.std.specs.Prelude.{◌≡◌, ◌*◌, ◌+◌, ◌<◌, ◌≤◌, length, pos, ◌-ℤ◌, All, IfOk};
ghost use Rattle.msp_class.specs.declared.sizes.TheConstants.{GREATEST};
ghost use Rattle.msp_instance.specs.Conditions.{Inner, LiesWithin};
ghost use Rattle.msp_pieces.specs.Cost.{IsBest, Best, cost_of};
ghost use Rattle.msp_route.specs.Bounds.{IsAnswer};
ghost use Rattle.msp_threshold.specs.Squeezed.{lateness_class, late_count_class, greatest_bound, CanMeet, HoldsSqueezed};
ghost use Rattle.msp_threshold.specs.Search.{CanAsk, IsLowest};
ghost use Rattle.msp_route.specs.Halving.{IsLeastBound, IsRange};
ghost use Rattle.msp_threshold.specs.laws.Rising.{CanMeet-rises};

use crate::back::pieces_back;
use crate::by_due_date::met_bound;
use crate::kept::kept_moments;
use crate::squeezing::{squeezed, squeezed_at};
use msp_class::{Class, Crit, Env, NoMemory, Order, Times};
use msp_instance::{Instance, Job};
use msp_pieces::{Frac, Schedule, Solution};
use msp_route::{Question, Range, Solver, least_in};
use std::alloc::Global;

/// The class that the search solves: `P|r,p=1|Lmax`.
const LATENESS_CLASS: Class = Class {
    env: Env::P,
    cut: false,
    order: Order::Free,
    heads: true,
    times: Times::Unit,
    crit: Crit::Lmax,
};

/// By how much the job ends late that begins at its release date.
fn least_lateness(job: &Job) -> i64
    requires release { job.now.release ≤ 2 * GREATEST }
    requires due { LiesWithin (2 * GREATEST) job.now.due }
    ensures { result ≡ pos (job.now.release + 1) -ℤ job.now.due }
{
    job.release as i64 + 1 - job.due
}

/// The least bound for which each job has time.
fn lowest_bound(jobs: &[Job]) -> i64
    requires some { 0 < length jobs.now }
    requires releases { All (λ j. j.release ≤ 2 * GREATEST) jobs.now }
    requires dues { All (λ j. LiesWithin (2 * GREATEST) j.due) jobs.now }
    ensures lowest { IsLowest jobs.now result }
    ensures size { LiesWithin (4 * GREATEST + 1) result }
{
    let mut lowest = least_lateness(&jobs[0]);
    for job in jobs {
        lowest = lowest.max(least_lateness(job));
    }
    lowest
}

/// The bounds between which the least one lies: a schedule by due dates meets the greater one.
fn first_range(alloc: Global, inst: &Instance) -> Result<Range, NoMemory>
    requires inner { Inner inst.now }
    requires class { inst.now.class ≡ lateness_class }
    ensures { IfOk result (IsRange (CanMeet inst.now) greatest_bound) }
{
    let low = lowest_bound(inst.jobs.as_slice());
    let high = met_bound(alloc, inst, low)?;
    Ok(Range {
        low: i128::from(low),
        high: i128::from(high),
    })
}

/// Whether some schedule of the instance meets a bound, asked of a solver of the number of late jobs.
#[derive(Drop)]
struct LateJobs<'a, S: Solver> {
    inner: &'a S,
    inst: &'a Instance,
}

impl<'a, S: Solver> Question for LateJobs<'a, S> {
    ghost may_ask = { λ q. CanAsk (S.solved q.inner.now) (S.can_solve q.inner.now) q.inst.now };

    ghost limit = { λ _. greatest_bound };

    ghost met = { λ q. CanMeet q.inst.now };

    fn ask(&self, alloc: Global, bound: i128) -> Result<bool, NoMemory> {
        match squeezed(alloc, self.inst, bound as i64)? {
            None => Ok(false),
            Some(lower) => {
                let solution = self.inner.solve(alloc, &lower)?;
                Ok(solution.cost.num == 0)
            }
        }
    }

    ghost rises = { λ q. CanMeet-rises q.inst.now };
}

/// The least bound that some schedule meets. A schedule by due dates is mostly best, so its lateness is the greatest bound of the range.
fn least_bound<S: Solver>(inner: &S, alloc: Global, inst: &Instance) -> Result<i64, NoMemory>
    requires solves { S.solved inner.now ≡ late_count_class }
    requires inner { Inner inst.now }
    requires class { inst.now.class ≡ lateness_class }
    requires fits { HoldsSqueezed (S.can_solve inner.now) inst.now }
    ensures least { IfOk result (IsLeastBound (CanMeet inst.now)) }
    ensures small { IfOk result (LiesWithin greatest_bound) }
{
    let range = first_range(alloc, inst)?;
    let least = least_in(&LateJobs { inner, inst }, alloc, range)?;
    Ok(least as i64)
}

/// A schedule that meets the least bound.
fn schedule_within<S: Solver>(
    inner: &S,
    alloc: Global,
    inst: &Instance,
    bound: i64,
) -> Result<Schedule, NoMemory>
    requires solves { S.solved inner.now ≡ late_count_class }
    requires inner { Inner inst.now }
    requires class { inst.now.class ≡ lateness_class }
    requires fits { HoldsSqueezed (S.can_solve inner.now) inst.now }
    requires least { IsLeastBound (CanMeet inst.now) bound }
    requires bound { LiesWithin greatest_bound bound }
    ensures best { IfOk result (λ s. Best inst.now s) }
    ensures bounds { IfOk result (λ s. IsAnswer inst.now s) }
    ensures unit { IfOk result (λ s. s.unit ≡ pos 1) }
    ensures cost { IfOk result (λ s. cost_of inst.now s ≡ bound) }
{
    let kept = kept_moments(alloc, inst)?;
    let lower = squeezed_at(alloc, inst, kept.as_slice(), bound)?;
    let solution = inner.solve(alloc, &lower)?;
    let pieces = pieces_back(alloc, kept.as_slice(), &solution.schedule)?;
    Ok(Schedule { unit: 1, pieces })
}

/// Finds a schedule of unit jobs with release dates on identical machines whose greatest lateness is least: it halves the range of bounds,
/// and asks a solver of the number of late jobs whether a bound can be met.
#[derive(Drop)]
pub struct Search<S: Solver> {
    pub inner: S,
    ghost solves: { S.solved inner ≡ late_count_class },
}

impl<S: Solver> Solver for Search<S> {
    ghost solved = { λ _. lateness_class };

    ghost can_solve = { λ search i. HoldsSqueezed (S.can_solve search.inner) i };

    ghost may_ask = { λ search i. HoldsSqueezed (S.can_solve search.inner) i };

    fn target(&self) -> Class {
        LATENESS_CLASS
    }

    fn fits(&self, _inst: &Instance) -> bool {
        true
    }

    fn solve(&self, alloc: Global, inst: &Instance) -> Result<Solution, NoMemory>
        requires inner { Inner inst.now }
        requires class { inst.now.class ≡ lateness_class }
        requires fits { HoldsSqueezed (S.can_solve self.now.inner) inst.now }
        ensures best { IfOk result (λ s. IsBest inst.now s) }
        ensures bounds { IfOk result (λ s. IsAnswer inst.now s.schedule) }
        ensures whole { IfOk result (λ s. s.cost.den ≡ pos 1) }
    {
        let bound = least_bound(&self.inner, alloc, inst)?;
        let schedule = schedule_within(&self.inner, alloc, inst, bound)?;
        let cost = Frac {
            num: i128::from(bound),
            den: 1,
        };
        Ok(Solution { schedule, cost })
    }
}
