// Identical machines with preemption: each machine runs its jobs from the shortest to the longest.
ghost use Rattle.std.specs.Prelude.{◌≡◌, ◌*◌, ◌<◌, ◌≤◌, map, length, All, IfOk};
ghost use Rattle.msp_class.specs.declared.sizes.TheConstants.{MOST_JOBS, MOST_MACHINES, GREATEST};
ghost use Rattle.msp_instance.specs.Conditions.{Inner};
ghost use Rattle.msp_pieces.specs.BackToBack.{time_at};
ghost use Rattle.msp_pieces.specs.Cost.{IsBest};
ghost use Rattle.msp_route.specs.Bounds.{IsAnswer};
ghost use Rattle.msp_cut_sums.specs.Sums.{at, cut_sum_class, IsCutSumCost};
ghost use Rattle.msp_cut_sums.specs.Schedules.{AreEnds, CutsNone, IsStackedSchedule};
ghost use Rattle.msp_cut_sums.specs.Pieces.{stacked, IsStacked};

use crate::orders::jobs_by_time;
use crate::parts::{Task, put};
use msp_class::{Class, Crit, Env, List, NoMemory, Order, Times};
use msp_instance::{Instance, first_time};
use msp_pieces::{Piece, Schedule, Solution};
use msp_route::Solver;
use std::alloc::Global;

/// The class that the rule solves: `P|pmtn|sumC`.
const CUT_SUM_CLASS: Class = Class {
    env: Env::P,
    cut: true,
    order: Order::Free,
    heads: false,
    times: Times::General,
    crit: Crit::SumC,
};

/// The times of the jobs, in the order.
fn times_in(alloc: Global, inst: &Instance, order: &[u32]) -> Result<Vec<u64>, NoMemory>
    requires { All (λ j. j < length inst.now.jobs) order.now }
    ensures { IfOk result (λ times. times.items ≡ map (time_at inst.now) order.now) }
{
    let jobs = inst.jobs.as_slice();
    let mut times = Vec::new(alloc);
    for job in order {
        times.push(first_time(jobs[*job as usize].needs.as_slice()))?;
    }
    Ok(times)
}

/// No ends yet.
fn no_ends(alloc: Global, count: usize) -> Result<Vec<u64>, NoMemory>
    requires { count ≤ MOST_JOBS }
    ensures many { IfOk result (λ ends. length ends.items ≡ count) }
    ensures none { IfOk result (λ ends. All (λ e. e ≡ 0) ends.items) }
{
    Ok(vec![in alloc; 0; count]?)
}

/// The end at the place, and 0 behind the last.
fn end_at(ends: &[u64], place: usize) -> u64
    ensures { result ≡ at ends.now place }
{
    match ends.get(place) {
        Some(end) => *end,
        None => 0,
    }
}

/// When the job of each place ends: it follows the job that stands as many places behind it as there are machines.
fn ends_of(alloc: Global, times: &[u64], machines: usize) -> Result<Vec<u64>, NoMemory>
    requires few { length times.now ≤ MOST_JOBS }
    requires some { 1 ≤ machines }
    requires machines { machines ≤ MOST_MACHINES }
    requires short { All (λ t. t ≤ GREATEST) times.now }
    ensures ends { IfOk result (λ ends. AreEnds machines times.now ends.items) }
    ensures early { IfOk result (λ ends. All (λ e. e ≤ MOST_JOBS * GREATEST) ends.items) }
{
    let mut ends = no_ends(alloc, times.len())?;
    for back in 0..times.len() {
        let place = times.len() - 1 - back;
        let begin = end_at(ends.as_slice(), place + machines);
        ends[place] = times[place] + begin;
    }
    Ok(ends)
}

/// The pieces of the jobs in the order, with their ends.
fn stacked_pieces(
    alloc: Global,
    order: &[u32],
    ends: &[u64],
    machines: usize,
) -> Result<List<Piece>, NoMemory>
    requires few { length order.now ≤ MOST_JOBS }
    requires many { length ends.now ≡ length order.now }
    requires some { 1 ≤ machines }
    requires machines { machines ≤ MOST_MACHINES }
    ensures { IfOk result (λ pieces. pieces ≡ stacked machines order.now ends.now) }
{
    let mut pieces = List::new(alloc);
    for place in 0..order.len() {
        let task = Task {
            job: order[place],
            op: 0,
            machine: (place % machines) as u32,
        };
        put(
            &mut pieces,
            task,
            end_at(ends, place + machines),
            ends[place],
        )?;
    }
    Ok(pieces)
}

/// The pieces of the jobs, the longest of each machine last.
fn pieces_by_time(alloc: Global, inst: &Instance) -> Result<List<Piece>, NoMemory>
    requires inner { Inner inst.now }
    requires class { inst.now.class ≡ cut_sum_class }
    ensures { IfOk result (IsStacked inst.now) }
{
    let machines = inst.machines as usize;
    let order = jobs_by_time(alloc, inst)?;
    let times = times_in(alloc, inst, order.as_slice())?;
    let ends = ends_of(alloc, times.as_slice(), machines)?;
    stacked_pieces(alloc, order.as_slice(), ends.as_slice(), machines)
}

/// Finds a schedule of least total completion time on identical machines where jobs may be cut, without cutting any: the k-th job by
/// falling time, from 0, runs on machine k mod m, before the longer ones there (McNaughton 1959).
#[derive(Clone, Copy)]
pub struct CutSum;

impl Solver for CutSum {
    ghost solved = { λ _. cut_sum_class };

    fn target(&self) -> Class {
        CUT_SUM_CLASS
    }

    fn fits(&self, _inst: &Instance) -> bool {
        true
    }

    fn solve(&self, alloc: Global, inst: &Instance) -> Result<Solution, NoMemory>
        requires inner { Inner inst.now }
        requires class { inst.now.class ≡ cut_sum_class }
        ensures best { IfOk result (λ s. IsBest inst.now s) }
        ensures bounds { IfOk result (λ s. IsAnswer inst.now s.schedule) }
        ensures cost { IfOk result (λ s. IsCutSumCost inst.now s.cost) }
        ensures pieces { IfOk result (λ s. IsStackedSchedule inst.now s.schedule) }
        ensures uncut { IfOk result (λ s. CutsNone s.schedule) }
    {
        let pieces = pieces_by_time(alloc, inst)?;
        let schedule = Schedule { unit: 1, pieces };
        let cost = msp_pieces::cost(inst, &schedule);
        Ok(Solution { schedule, cost })
    }
}
