// Jackson's rule where operations may be preempted, `J2|pmtn,n<=2|Cmax` (Jackson 1956; Gonzalez and Sahni 1978).
//
// Rule: that of `jackson.rt`, and no operation is cut. An operation in one piece is work that adds up.
//
// Best (`proofs/InSeries.antt`): as there, since no bound asks whether a schedule cuts its operations. A machine is busy for its load,
// however that is cut. And of a job that goes on to the other machine Johnson's rule asks only at which moment its last piece on the first
// one ends (`proofs/Stages.antt`): the first operations that are over by a moment fit before it, and the second ones of the jobs whose first
// ones are not over before it fit from there to the end. So preemption gains nothing on two machines with routes this short.
ghost use Rattle.std.specs.Prelude.{◌≡◌, IfOk};
ghost use Rattle.msp_instance.specs.Conditions.{Inner};
ghost use Rattle.msp_pieces.specs.Cost.{IsBest};
ghost use Rattle.msp_route.specs.Bounds.{IsAnswer};
ghost use Rattle.msp_shops.specs.Classes.{jackson_cut_class};
ghost use Rattle.msp_shops.specs.Jackson.{IsJacksonSchedule};

use crate::two_machines::in_series;
use msp_class::{Class, Crit, Env, NoMemory, Order, Times};
use msp_instance::Instance;
use msp_pieces::Solution;
use msp_route::Solver;
use std::alloc::Global;

/// The class that the rule solves: `J2|pmtn,n<=2|Cmax`.
const JACKSON_CUT_CLASS: Class = Class {
    env: Env::J2Short,
    cut: true,
    order: Order::Free,
    heads: false,
    times: Times::General,
    crit: Crit::Cmax,
};

/// Finds a schedule of least length on two machines, where each job has at most two operations in an order of its own and may be
/// preempted: the one that Jackson's rule gives without preemption (Gonzalez and Sahni 1978).
#[derive(Clone, Copy)]
pub struct JacksonCut;

impl Solver for JacksonCut {
    ghost solved = { λ _. jackson_cut_class };

    fn target(&self) -> Class {
        JACKSON_CUT_CLASS
    }

    fn fits(&self, _inst: &Instance) -> bool {
        true
    }

    /// No operation is cut.
    fn solve(&self, alloc: Global, inst: &Instance) -> Result<Solution, NoMemory>
        requires inner { Inner inst.now }
        requires class { inst.now.class ≡ jackson_cut_class }
        ensures best { IfOk result (λ s. IsBest inst.now s) }
        ensures bounds { IfOk result (λ s. IsAnswer inst.now s.schedule) }
        ensures pieces { IfOk result (λ s. IsJacksonSchedule inst.now s.schedule) }
    {
        in_series(alloc, inst)
    }
}
