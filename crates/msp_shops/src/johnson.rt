// Johnson's rule for two machines in series, `F2||Cmax` (Johnson 1954).
//
// Rule: first the jobs that take no longer on the first machine than on the second, by rising time on the first; then the others, by
// falling time on the second; ties by number. Both machines run the jobs in this order, each as early as it can.
//
// Best (`proofs/Threshold.antt`, `JohnsonOrder.antt`, `InSeries.antt`): the last end here is the time of the jobs up to some job on the
// first machine and from that job on on the second. Let that job take no longer on the first machine, θ there. In any schedule look at the
// moment at which the first of the jobs that take at least θ on the first machine is done there: what is over on the first machine by then
// and what is not begun on the second fit one after the other before the end (`proofs/Cut.antt`), and that is no less. Where the job takes
// longer on the first machine, the same is seen from the end. Nobody asks in which order a machine of that schedule takes the jobs.
ghost use Rattle.std.specs.Prelude.{◌≡◌, IfOk};
ghost use Rattle.msp_instance.specs.Conditions.{Inner};
ghost use Rattle.msp_pieces.specs.Cost.{IsBest};
ghost use Rattle.msp_route.specs.Bounds.{IsAnswer};
ghost use Rattle.msp_shops.specs.Classes.{johnson_class};
ghost use Rattle.msp_shops.specs.Jackson.{IsJacksonSchedule};

use crate::two_machines::in_series;
use msp_class::{Class, Crit, Env, NoMemory, Order, Times};
use msp_instance::Instance;
use msp_pieces::Solution;
use msp_route::Solver;
use std::alloc::Global;

/// The class that the rule solves: `F2||Cmax`.
const JOHNSON_CLASS: Class = Class {
    env: Env::F2,
    cut: false,
    order: Order::Free,
    heads: false,
    times: Times::General,
    crit: Crit::Cmax,
};

/// Finds a schedule of least length on two machines in series: first the jobs that take no longer on the first machine, by increasing
/// time there, then the others, by decreasing time on the second one; each operation begins as early as it can (Johnson 1954).
#[derive(Clone, Copy)]
pub struct Johnson;

impl Solver for Johnson {
    ghost solved = { λ _. johnson_class };

    fn target(&self) -> Class {
        JOHNSON_CLASS
    }

    fn fits(&self, _inst: &Instance) -> bool {
        true
    }

    /// All jobs begin on the first machine.
    fn solve(&self, alloc: Global, inst: &Instance) -> Result<Solution, NoMemory>
        requires inner { Inner inst.now }
        requires class { inst.now.class ≡ johnson_class }
        ensures best { IfOk result (λ s. IsBest inst.now s) }
        ensures bounds { IfOk result (λ s. IsAnswer inst.now s.schedule) }
        ensures pieces { IfOk result (λ s. IsJacksonSchedule inst.now s.schedule) }
    {
        in_series(alloc, inst)
    }
}
