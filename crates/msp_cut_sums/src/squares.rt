// Open shops whose operations take one time: the heaviest jobs first, in squares of as many jobs and slots as there are machines.
ghost use Rattle.std.specs.Prelude.{◌≡◌, ◌+◌, ◌*◌, ◌<◌, ◌≤◌, ◌⊎◌, length, IfOk};
ghost use Rattle.msp_class.specs.declared.sizes.TheConstants.{MOST_JOBS, MOST_MACHINES, GREATEST_EQUAL_TIME};
ghost use Rattle.msp_instance.specs.Conditions.{Inner};
ghost use Rattle.msp_pieces.specs.Cost.{IsBest};
ghost use Rattle.msp_route.specs.Bounds.{IsAnswer};
ghost use Rattle.msp_cut_sums.specs.Sums.{open_weights_class, cut_open_weights_class, IsOpenCost};
ghost use Rattle.msp_cut_sums.specs.Schedules.{CutsNone, IsRoundSchedule};
ghost use Rattle.msp_cut_sums.specs.Pieces.{slot, squared, IsSquared};

use crate::blocks::shared_time;
use crate::orders::jobs_by_weight;
use crate::parts::{Task, put_in_slot};
use msp_class::{Class, Crit, Env, List, NoMemory, Order, Times};
use msp_instance::Instance;
use msp_pieces::{Piece, Schedule, Solution};
use msp_route::Solver;
use std::alloc::Global;

/// The class that the rule solves: `O|p=1|sumwC`.
const OPEN_WEIGHTS_CLASS: Class = Class {
    env: Env::O,
    cut: false,
    order: Order::Free,
    heads: false,
    times: Times::Unit,
    crit: Crit::SumWC,
};

/// The class that the rule solves: `O|pmtn,p=p|sumwC`.
const CUT_OPEN_WEIGHTS_CLASS: Class = Class {
    env: Env::O,
    cut: true,
    order: Order::Free,
    heads: false,
    times: Times::Equal,
    crit: Crit::SumWC,
};

/// The slot of the job at the place on the machine: in the block of the place, the machines go round from that of its seat.
fn slot_of(machines: usize, place: usize, machine: usize) -> usize
    requires some { 1 ≤ machines }
    requires machines { machines ≤ MOST_MACHINES }
    requires place { place < MOST_JOBS }
    requires machine { machine < machines }
    ensures value { result ≡ slot machines place machine }
    ensures size { result < MOST_JOBS + MOST_MACHINES }
{
    let seat = place % machines;
    place / machines * machines + (machine + (machines - seat)) % machines
}

/// The pieces of the jobs in the order, each on all machines.
fn squared_pieces(
    alloc: Global,
    order: &[u32],
    machines: usize,
    time: u64,
) -> Result<List<Piece>, NoMemory>
    requires few { length order.now ≤ MOST_JOBS }
    requires some { 1 ≤ machines }
    requires machines { machines ≤ MOST_MACHINES }
    requires short { time ≤ GREATEST_EQUAL_TIME }
    ensures { IfOk result (λ pieces. pieces ≡ squared machines time order.now) }
{
    let mut pieces = List::new(alloc);
    for turn in 0..order.len() * machines {
        let place = turn / machines;
        let machine = turn % machines;
        let task = Task {
            job: order[place],
            op: machine as u32,
            machine: machine as u32,
        };
        let slot = slot_of(machines, place, machine) as u64;
        put_in_slot(&mut pieces, task, slot, time)?;
    }
    Ok(pieces)
}

/// The pieces of all jobs, the heaviest first.
fn pieces_by_weight(alloc: Global, inst: &Instance) -> Result<List<Piece>, NoMemory>
    requires inner { Inner inst.now }
    requires class { (inst.now.class ≡ open_weights_class) ⊎ (inst.now.class ≡ cut_open_weights_class) }
    ensures { IfOk result (IsSquared inst.now) }
{
    let order = jobs_by_weight(alloc, inst)?;
    squared_pieces(
        alloc,
        order.as_slice(),
        inst.machines as usize,
        shared_time(inst),
    )
}

/// A best schedule, with its cost.
fn solution(alloc: Global, inst: &Instance) -> Result<Solution, NoMemory>
    requires inner { Inner inst.now }
    requires class { (inst.now.class ≡ open_weights_class) ⊎ (inst.now.class ≡ cut_open_weights_class) }
    ensures best { IfOk result (λ s. IsBest inst.now s) }
    ensures bounds { IfOk result (λ s. IsAnswer inst.now s.schedule) }
    ensures cost { IfOk result (λ s. IsOpenCost inst.now s.cost) }
    ensures pieces { IfOk result (λ s. IsRoundSchedule inst.now s.schedule) }
    ensures uncut { IfOk result (λ s. CutsNone s.schedule) }
{
    let pieces = pieces_by_weight(alloc, inst)?;
    let schedule = Schedule { unit: 1, pieces };
    let cost = msp_pieces::cost(inst, &schedule);
    Ok(Solution { schedule, cost })
}

/// Finds a schedule of least weighted completion time in an open shop whose operations take one unit of time: the heaviest jobs first, in
/// blocks of as many as there are machines, which they go round in as many slots (Adiri and Amit 1984 for equal weights).
#[derive(Clone, Copy)]
pub struct OpenWeights;

impl Solver for OpenWeights {
    ghost solved = { λ _. open_weights_class };

    fn target(&self) -> Class {
        OPEN_WEIGHTS_CLASS
    }

    fn fits(&self, _inst: &Instance) -> bool {
        true
    }

    fn solve(&self, alloc: Global, inst: &Instance) -> Result<Solution, NoMemory>
        requires inner { Inner inst.now }
        requires class { inst.now.class ≡ open_weights_class }
        ensures best { IfOk result (λ s. IsBest inst.now s) }
        ensures bounds { IfOk result (λ s. IsAnswer inst.now s.schedule) }
        ensures cost { IfOk result (λ s. IsOpenCost inst.now s.cost) }
        ensures pieces { IfOk result (λ s. IsRoundSchedule inst.now s.schedule) }
        ensures uncut { IfOk result (λ s. CutsNone s.schedule) }
    {
        solution(alloc, inst)
    }
}

/// The same with preemption, and operations that share any time: no operation is cut.
#[derive(Clone, Copy)]
pub struct CutOpenWeights;

impl Solver for CutOpenWeights {
    ghost solved = { λ _. cut_open_weights_class };

    fn target(&self) -> Class {
        CUT_OPEN_WEIGHTS_CLASS
    }

    fn fits(&self, _inst: &Instance) -> bool {
        true
    }

    fn solve(&self, alloc: Global, inst: &Instance) -> Result<Solution, NoMemory>
        requires inner { Inner inst.now }
        requires class { inst.now.class ≡ cut_open_weights_class }
        ensures best { IfOk result (λ s. IsBest inst.now s) }
        ensures bounds { IfOk result (λ s. IsAnswer inst.now s.schedule) }
        ensures cost { IfOk result (λ s. IsOpenCost inst.now s.cost) }
        ensures pieces { IfOk result (λ s. IsRoundSchedule inst.now s.schedule) }
        ensures uncut { IfOk result (λ s. CutsNone s.schedule) }
    {
        solution(alloc, inst)
    }
}
