// Identical machines with preemption, and jobs of one time: the heaviest jobs first.
ghost use Rattle.std.specs.Prelude.{◌≡◌, ◌<◌, ◌≤◌, length, IfOk};
ghost use Rattle.msp_class.specs.declared.sizes.TheConstants.{MOST_JOBS, MOST_MACHINES, GREATEST_EQUAL_TIME};
ghost use Rattle.msp_instance.specs.Instance.{common_time};
ghost use Rattle.msp_instance.specs.Conditions.{Inner};
ghost use Rattle.msp_pieces.specs.Cost.{IsBest};
ghost use Rattle.msp_route.specs.Bounds.{IsAnswer};
ghost use Rattle.msp_cut_sums.specs.Sums.{cut_weights_class, IsWeightsCost};
ghost use Rattle.msp_cut_sums.specs.Schedules.{CutsNone, IsBlockedSchedule};
ghost use Rattle.msp_cut_sums.specs.Pieces.{blocked, IsBlocked};

use crate::orders::jobs_by_weight;
use crate::parts::{Task, put_in_slot};
use msp_class::{Class, Crit, Env, List, NoMemory, Order, Times};
use msp_instance::{Instance, first_time};
use msp_pieces::{Piece, Schedule, Solution};
use msp_route::Solver;
use std::alloc::Global;

/// The class that the rule solves: `P|pmtn,p=p|sumwC`.
const CUT_WEIGHTS_CLASS: Class = Class {
    env: Env::P,
    cut: true,
    order: Order::Free,
    heads: false,
    times: Times::Equal,
    crit: Crit::SumWC,
};

/// The time that all operations share.
pub(crate) fn shared_time(inst: &Instance) -> u64
    requires { 1 ≤ length inst.now.jobs }
    ensures { result ≡ common_time inst.now }
{
    first_time(inst.jobs.as_slice()[0].needs.as_slice())
}

/// The pieces of the jobs in the order, as many at a time as there are machines.
fn blocked_pieces(
    alloc: Global,
    order: &[u32],
    machines: usize,
    time: u64,
) -> Result<List<Piece>, NoMemory>
    requires few { length order.now ≤ MOST_JOBS }
    requires some { 1 ≤ machines }
    requires machines { machines ≤ MOST_MACHINES }
    requires short { time ≤ GREATEST_EQUAL_TIME }
    ensures { IfOk result (λ pieces. pieces ≡ blocked machines time order.now) }
{
    let mut pieces = List::new(alloc);
    for place in 0..order.len() {
        let task = Task {
            job: order[place],
            op: 0,
            machine: (place % machines) as u32,
        };
        put_in_slot(&mut pieces, task, (place / machines) as u64, time)?;
    }
    Ok(pieces)
}

/// The pieces of all jobs, the heaviest first.
fn pieces_by_weight(alloc: Global, inst: &Instance) -> Result<List<Piece>, NoMemory>
    requires inner { Inner inst.now }
    requires class { inst.now.class ≡ cut_weights_class }
    ensures { IfOk result (IsBlocked inst.now) }
{
    let order = jobs_by_weight(alloc, inst)?;
    blocked_pieces(
        alloc,
        order.as_slice(),
        inst.machines as usize,
        shared_time(inst),
    )
}

/// Finds a schedule of least weighted completion time of jobs of one time on identical machines where jobs may be cut, without cutting
/// any: the heaviest run first, as many at a time as there are machines.
#[derive(Clone, Copy)]
pub struct CutWeights;

impl Solver for CutWeights {
    ghost solved = { λ _. cut_weights_class };

    fn target(&self) -> Class {
        CUT_WEIGHTS_CLASS
    }

    fn fits(&self, _inst: &Instance) -> bool {
        true
    }

    fn solve(&self, alloc: Global, inst: &Instance) -> Result<Solution, NoMemory>
        requires inner { Inner inst.now }
        requires class { inst.now.class ≡ cut_weights_class }
        ensures best { IfOk result (λ s. IsBest inst.now s) }
        ensures bounds { IfOk result (λ s. IsAnswer inst.now s.schedule) }
        ensures cost { IfOk result (λ s. IsWeightsCost inst.now s.cost) }
        ensures pieces { IfOk result (λ s. IsBlockedSchedule inst.now s.schedule) }
        ensures uncut { IfOk result (λ s. CutsNone s.schedule) }
    {
        let pieces = pieces_by_weight(alloc, inst)?;
        let schedule = Schedule { unit: 1, pieces };
        let cost = msp_pieces::cost(inst, &schedule);
        Ok(Solution { schedule, cost })
    }
}
