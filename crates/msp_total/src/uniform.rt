// Total completion time on uniform machines, `Q||sumC` (Horowitz and Sahni 1976).
//
// Rule: a job with k − 1 jobs behind it on a machine counts k times in the sum of all ends, over the machine's speed: that multiplier
// belongs to the position. The jobs by falling time, ties by number, take the positions one after another, each time the one of least
// multiplier that is left, ties to the lesser machine. The unit is the least common multiple of the speeds.
//
// In the loop (`proofs/Greedy.antt`): the positions taken are the last ones of each machine, and no other one has a lesser multiplier.
//
// Best (`proofs/UniformBest.antt`): in any schedule the jobs stand at positions of their own, counted from the end of each machine
// (`law_of_prices` of `msp_pieces` stands on the same count), and cost at least their times by the multipliers. Any q positions have
// multipliers that add up to at least those of the first q taken, so the longest times at the least multipliers add up to the least.
ghost use Rattle.std.specs.Prelude.{◌≡◌, ◌+◌, ◌*◌, ◌/◌, ◌<◌, ◌≤◌, length, map, slice_set, All, IfOk};
ghost use Rattle.std.specs.List.{range_with_len};
ghost use Rattle.msp_class.specs.declared.sizes.TheConstants.{MOST_JOBS, MOST_MACHINES, GREATEST, GREATEST_MULTIPLE};
ghost use Rattle.msp_instance.specs.Instance.{need_at};
ghost use Rattle.msp_instance.specs.Conditions.{Inner};
ghost use Rattle.msp_pieces.specs.Cost.{IsBest};
ghost use Rattle.msp_route.specs.Bounds.{IsAnswer};
ghost use Rattle.msp_total.specs.Classes.{uniform_class};
ghost use Rattle.msp_total.specs.Multipliers.{IsByMultipliers};
ghost use Rattle.msp_total.specs.Turns.{IsByTime, IsFirstLeast, AreTurns, number_at};

use crate::lay::{Place, lay};
use msp_class::{Class, Crit, Env, NoMemory, Order, Times};
use msp_instance::{Instance, first_time, multiple_of_all};
use msp_pieces::{Schedule, Solution};
use msp_route::{Keyed, Solver, best_solution, sort_by_falling_key};
use std::alloc::Global;

/// The class that the rule solves: `Q||sumC`.
const UNIFORM_CLASS: Class = Class {
    env: Env::Q,
    cut: false,
    order: Order::Free,
    heads: false,
    times: Times::General,
    crit: Crit::SumC,
};

/// The jobs with their times.
fn timed_jobs(alloc: Global, inst: &Instance) -> Result<Vec<Keyed>, NoMemory>
    requires { length inst.now.jobs ≤ MOST_JOBS }
    ensures jobs { IfOk result (λ all. map (λ t. t.job) all.items ≡ range_with_len 0 (length inst.now.jobs)) }
    ensures times { IfOk result (λ all. All (λ t. t.key ≡ (need_at inst.now t.job 0).time) all.items) }
{
    let jobs = inst.jobs.as_slice();
    let mut all = Vec::new(alloc);
    for k in 0..jobs.len() {
        let time = first_time(jobs[k].needs.as_slice());
        let timed = Keyed {
            job: k as u32,
            key: time,
        };
        all.push(timed)?;
    }
    Ok(all)
}

/// All jobs by falling time, ties by number.
fn jobs_by_time(alloc: Global, inst: &Instance) -> Result<Vec<Keyed>, NoMemory>
    requires inner { Inner inst.now }
    requires class { inst.now.class ≡ uniform_class }
    ensures { IfOk result (λ jobs. IsByTime inst.now jobs.items) }
{
    let mut jobs = timed_jobs(alloc, inst)?;
    sort_by_falling_key(&mut jobs);
    Ok(jobs)
}

/// What one end counts on each machine: the unit over its speed.
fn steps_of(alloc: Global, speeds: &[u64], unit: u64) -> Result<Vec<u64>, NoMemory>
    requires { All (λ s. 1 ≤ s) speeds.now }
    ensures { IfOk result (λ steps. steps.items ≡ map (λ s. unit / s) speeds.now) }
{
    let mut steps = Vec::new(alloc);
    for speed in speeds {
        steps.push(unit / *speed)?;
    }
    Ok(steps)
}

/// The place of the least number, ties to the first.
fn least_of(numbers: &[u64]) -> usize
    requires { 0 < length numbers.now }
    ensures { IsFirstLeast numbers.now result }
{
    let mut least = 0;
    for k in 1..numbers.len() {
        if numbers[k] < numbers[least] {
            least = k;
        }
    }
    least
}

/// The place of the next job: the machine where it counts least. `next` has what it counts on each.
fn take_turn(next: &mut Vec<u64>, steps: &[u64], timed: Keyed) -> Place
    requires some { 0 < length steps.now }
    requires few { length steps.now ≤ MOST_MACHINES }
    requires same { length next.old.items ≡ length steps.now }
    requires steps { All (λ s. s ≤ GREATEST_MULTIPLE) steps.now }
    requires next { All (λ s. s ≤ MOST_JOBS * GREATEST_MULTIPLE) next.old.items }
    requires time { timed.key ≤ GREATEST }
    ensures least { IsFirstLeast next.old.items result.machine }
    ensures job { result.job ≡ timed.job }
    ensures length_is { result.length ≡ timed.key * number_at steps.now result.machine }
    ensures next { next.new.items ≡ slice_set next.old.items result.machine (number_at next.old.items result.machine + number_at steps.now result.machine) }
{
    let machine = least_of(next);
    let step = steps[machine];
    next[machine] += step;
    Place {
        job: timed.job,
        machine: machine as u32,
        length: timed.key * step,
    }
}

/// The places of the jobs, in turn.
fn places_of(alloc: Global, jobs: &[Keyed], steps: &[u64]) -> Result<Vec<Place>, NoMemory>
    requires some { 0 < length steps.now }
    requires few { length steps.now ≤ MOST_MACHINES }
    requires jobs { length jobs.now ≤ MOST_JOBS }
    requires steps { All (λ s. s ≤ GREATEST_MULTIPLE) steps.now }
    requires times { All (λ t. t.key ≤ GREATEST) jobs.now }
    ensures { IfOk result (λ places. AreTurns steps.now jobs.now places.items) }
{
    let mut places = Vec::new(alloc);
    let mut next = Vec::from_slice(alloc, steps)?;
    for timed in jobs {
        let place = take_turn(&mut next, steps, *timed);
        places.push(place)?;
    }
    Ok(places)
}

/// A best schedule on uniform machines. The longest job comes first and takes the position of least multiplier, and so on: a job that k
/// others follow on a machine of speed s counts (k + 1) / s times its time (Horowitz and Sahni 1976). The unit is the least common
/// multiple of the speeds.
fn schedule_by_multipliers(alloc: Global, inst: &Instance) -> Result<Solution, NoMemory>
    requires inner { Inner inst.now }
    requires class { inst.now.class ≡ uniform_class }
    ensures best { IfOk result (λ s. IsBest inst.now s) }
    ensures bounds { IfOk result (λ s. IsAnswer inst.now s.schedule) }
    ensures order { IfOk result (λ s. IsByMultipliers inst.now s.schedule) }
{
    let speeds = inst.speeds.as_slice();
    let unit = multiple_of_all(speeds);
    let steps = steps_of(alloc, speeds, unit)?;
    let jobs = jobs_by_time(alloc, inst)?;
    let places = places_of(alloc, jobs.as_slice(), steps.as_slice())?;
    let pieces = lay(alloc, places.as_slice())?;
    let schedule = Schedule {
        unit: i128::from(unit),
        pieces,
    };
    Ok(best_solution(inst, schedule))
}

/// Finds a schedule of least total completion time on uniform machines: the longest jobs take the least multipliers, ties to the lesser
/// job and the lesser machine (Horowitz and Sahni 1976).
#[derive(Clone, Copy)]
pub struct Uniform;

impl Solver for Uniform {
    ghost solved = { λ _. uniform_class };

    fn target(&self) -> Class {
        UNIFORM_CLASS
    }

    fn fits(&self, _inst: &Instance) -> bool {
        true
    }

    fn solve(&self, alloc: Global, inst: &Instance) -> Result<Solution, NoMemory>
        requires inner { Inner inst.now }
        requires class { inst.now.class ≡ uniform_class }
        ensures best { IfOk result (λ s. IsBest inst.now s) }
        ensures bounds { IfOk result (λ s. IsAnswer inst.now s.schedule) }
        ensures order { IfOk result (λ s. IsByMultipliers inst.now s.schedule) }
    {
        schedule_by_multipliers(alloc, inst)
    }
}
