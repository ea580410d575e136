// Open shops of two machines, `O2||Cmax`: the rule of Gonzalez and Sahni (1976).
//
// Rule: of all jobs take the one whose lesser time is greatest, and call the machine on which it takes longer the second. It runs first on
// the second machine and last on the first. Between run the others, on the first machine and then on the second, each as early as it can:
// first those that take no longer on the first machine, then those that do.
//
// In the loop (`proofs/OpenSteps.antt`): the first machine has no gap, the second is packed from some job on.
//
// Best (`proofs/OpenFacts.antt`): the machines end by the greatest of their loads and of the lengths of the jobs, and no schedule ends
// before any of these (`law_of_machines` and `law_of_lines` of `msp_pieces`).
ghost use Rattle.std.specs.Prelude.{◌≡◌, ◌≢◌, ◌<◌, ◌≤◌, ◌∷◌, length, map, All, AllPairs, IfOk, IsPermutation};
ghost use Rattle.msp_class.specs.declared.sizes.TheConstants.{MOST_JOBS, GREATEST};
ghost use Rattle.msp_instance.specs.Conditions.{Inner};
ghost use Rattle.msp_pieces.specs.Cost.{IsBest};
ghost use Rattle.msp_route.specs.Bounds.{IsAnswer};
ghost use Rattle.msp_shops.specs.Open.{open_class, IsOpenCost};
ghost use Rattle.msp_shops.specs.OpenOrder.{all_times, turned, lesser, IsLaid, IsOpenPlan};

use crate::groups::times_of;
use crate::order::put_in_order;
use crate::pass::{JobTimes, Moments, Stage, pass, put};
use msp_class::{Class, Crit, Env, List, NoMemory, Order, Times};
use msp_instance::Instance;
use msp_pieces::{Piece, Schedule, Solution};
use msp_route::Solver;
use std::alloc::Global;

/// The class that the rule solves: `O2||Cmax`.
const OPEN_CLASS: Class = Class {
    env: Env::O2,
    cut: false,
    order: Order::Free,
    heads: false,
    times: Times::General,
    crit: Crit::Cmax,
};

/// The operation on the first machine, and that on the second.
const ON_FIRST: Stage = Stage { op: 0, machine: 0 };

const ON_SECOND: Stage = Stage { op: 1, machine: 1 };

/// The times of all jobs on both machines, in order of number.
fn times_of_jobs(alloc: Global, inst: &Instance) -> Result<Vec<JobTimes>, NoMemory>
    requires { length inst.now.jobs ≤ MOST_JOBS }
    ensures { IfOk result (λ times. times.items ≡ all_times inst.now 0 1) }
{
    let mut times = Vec::new(alloc);
    for k in 0..inst.jobs.len() {
        times.push(times_of(inst, k as u32))?;
    }
    Ok(times)
}

/// The lesser of a job's times.
fn lesser_time(job: &JobTimes) -> u64
    ensures { result ≡ lesser job.now }
{
    job.first.min(job.second)
}

/// Takes out a job whose lesser time is greatest.
fn take_special(times: &mut Vec<JobTimes>) -> JobTimes
    requires { 0 < length times.old.items }
    ensures all { IsPermutation times.old.items (result ∷ times.new.items) }
    ensures greatest { All (λ t. lesser t ≤ lesser result) times.new.items }
{
    times.sort_unstable_by_key(|t| lesser_time(t));
    times.pop().unwrap()
}

/// The job with its machines exchanged.
fn turn(job: &JobTimes) -> JobTimes
    ensures { result ≡ turned job.now }
{
    JobTimes {
        job: job.job,
        first: job.second,
        second: job.first,
    }
}

fn turn_all(alloc: Global, jobs: &[JobTimes]) -> Result<Vec<JobTimes>, NoMemory>
    ensures { IfOk result (λ times. times.items ≡ map turned jobs.now) }
{
    Ok(jobs.iter().map(|job| turn(job)).collect(alloc)?)
}

/// The special job first on the second machine and last on the first one, and the others between.
fn lay(
    alloc: Global,
    special: JobTimes,
    others: &[JobTimes],
    first: Stage,
    second: Stage,
) -> Result<List<Piece>, NoMemory>
    requires machines { first.machine ≢ second.machine }
    requires operations { first.op ≢ second.op }
    requires few { length others.now ≤ MOST_JOBS }
    requires once { AllPairs (λ a b. a.job ≢ b.job) others.now }
    requires times { All (λ j. (j.first ≤ GREATEST) × (j.second ≤ GREATEST)) others.now }
    requires special { (special.first ≤ GREATEST) × (special.second ≤ GREATEST) }
    ensures { IfOk result (λ pieces. IsLaid first second special others.now pieces) }
{
    let mut pieces = List::new(alloc);
    put(&mut pieces, special.job, second, 0, special.second)?;
    let from = Moments {
        first: 0,
        second: special.second,
    };
    let to = pass(&mut pieces, others, first, second, from)?;
    let begin = to.first.max(special.second);
    put(&mut pieces, special.job, first, begin, special.first)?;
    Ok(pieces)
}

/// The pieces by the rule. The special job goes last on the machine on which it takes no longer than on the other. The others go over
/// that machine first, in Johnson's order.
fn open_pieces(alloc: Global, inst: &Instance) -> Result<List<Piece>, NoMemory>
    requires inner { Inner inst.now }
    requires class { inst.now.class ≡ open_class }
    ensures { IfOk result (λ pieces. IsOpenPlan inst.now pieces) }
{
    let mut others = times_of_jobs(alloc, inst)?;
    let special = take_special(&mut others);
    if special.first <= special.second {
        put_in_order(&mut others)?;
        return lay(alloc, special, &others, ON_FIRST, ON_SECOND);
    }
    let mut exchanged = turn_all(alloc, &others)?;
    put_in_order(&mut exchanged)?;
    lay(alloc, turn(&special), &exchanged, ON_SECOND, ON_FIRST)
}

/// Finds a schedule of least length in an open shop of two machines: a job whose lesser time is greatest runs first on one machine and
/// last on the other, and between them the other jobs, each as early as it can (Gonzalez and Sahni 1976).
#[derive(Clone, Copy)]
pub struct Open2;

impl Solver for Open2 {
    ghost solved = { λ _. open_class };

    fn target(&self) -> Class {
        OPEN_CLASS
    }

    fn fits(&self, _inst: &Instance) -> bool {
        true
    }

    fn solve(&self, alloc: Global, inst: &Instance) -> Result<Solution, NoMemory>
        requires inner { Inner inst.now }
        requires class { inst.now.class ≡ open_class }
        ensures best { IfOk result (λ s. IsBest inst.now s) }
        ensures bounds { IfOk result (λ s. IsAnswer inst.now s.schedule) }
        ensures cost { IfOk result (λ s. IsOpenCost inst.now s.cost) }
    {
        let pieces = open_pieces(alloc, inst)?;
        let schedule = Schedule { unit: 1, pieces };
        let cost = msp_pieces::cost(inst, &schedule);
        Ok(Solution { schedule, cost })
    }
}
