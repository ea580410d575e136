// Jackson's rule for two machines on which jobs have at most two operations, `J2|n<=2|Cmax` (Jackson 1956).
//
// Rule: on each machine stand first the jobs that begin there and go on to the other, in Johnson's order, then those of that machine alone;
// and behind them, each as early as it can, those that come from the other machine, in its order.
//
// Best (`proofs/InSeries.antt`): a machine ends when its work is done without a gap, which is its load in any schedule; or when the jobs
// that come from the other machine are done, of which those of Johnson's rule alone need as long (`johnson.rt`, over lists of jobs that
// begin on one machine). Johnson's solver is the same call, where all jobs begin on the first machine.
ghost use Rattle.std.specs.Prelude.{◌≡◌, IfOk};
ghost use Rattle.msp_instance.specs.Conditions.{Inner};
ghost use Rattle.msp_pieces.specs.Cost.{IsBest};
ghost use Rattle.msp_route.specs.Bounds.{IsAnswer};
ghost use Rattle.msp_shops.specs.Classes.{jackson_class};
ghost use Rattle.msp_shops.specs.Jackson.{IsJacksonSchedule};

use crate::two_machines::in_series;
use msp_class::{Class, Crit, Env, NoMemory, Order, Times};
use msp_instance::Instance;
use msp_pieces::Solution;
use msp_route::Solver;
use std::alloc::Global;

/// The class that the rule solves: `J2|n<=2|Cmax`.
const JACKSON_CLASS: Class = Class {
    env: Env::J2Short,
    cut: false,
    order: Order::Free,
    heads: false,
    times: Times::General,
    crit: Crit::Cmax,
};

/// Finds a schedule of least length on two machines, where each job has at most two operations in an order of its own: each machine
/// takes first the jobs that go on to the other one, in Johnson's order, then those that it has alone, and last those that come from
/// the other one (Jackson 1956).
#[derive(Clone, Copy)]
pub struct Jackson;

impl Solver for Jackson {
    ghost solved = { λ _. jackson_class };

    fn target(&self) -> Class {
        JACKSON_CLASS
    }

    fn fits(&self, _inst: &Instance) -> bool {
        true
    }

    /// A job with one operation takes no time on the machine that it has not, so in Johnson's order it comes after those with two.
    fn solve(&self, alloc: Global, inst: &Instance) -> Result<Solution, NoMemory>
        requires inner { Inner inst.now }
        requires class { inst.now.class ≡ jackson_class }
        ensures best { IfOk result (λ s. IsBest inst.now s) }
        ensures bounds { IfOk result (λ s. IsAnswer inst.now s.schedule) }
        ensures pieces { IfOk result (λ s. IsJacksonSchedule inst.now s.schedule) }
    {
        in_series(alloc, inst)
    }
}
