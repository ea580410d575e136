// Horn's rule: the solver.
ghost use Rattle.std.specs.Prelude.{◌≡◌, map, IfOk};
ghost use Rattle.msp_instance.specs.Conditions.{Inner};
ghost use Rattle.msp_pieces.specs.Cost.{IsBest};
ghost use Rattle.msp_pieces.specs.Fraction.{IsLowest};
ghost use Rattle.msp_pieces.specs.Settled.{IsSettled};
ghost use Rattle.msp_route.specs.Bounds.{IsAnswer};
ghost use Rattle.msp_trees.specs.Horn.{horn_class, IsHornOrder};

use crate::joining::joined_jobs;
use msp_class::{Class, Crit, Env, NoMemory, Order, Times};
use msp_instance::Instance;
use msp_pieces::Solution;
use msp_route::{Solver, solution_in_order};
use std::alloc::Global;

/// The class that the rule solves: `1|outtree|sumwC`.
const HORN_CLASS: Class = Class {
    env: Env::One,
    cut: false,
    order: Order::Outtree,
    heads: false,
    times: Times::General,
    crit: Crit::SumWC,
};

/// Finds a schedule of least weighted completion time: a job, or jobs that were joined, of greatest ratio of weight to time is joined
/// behind its predecessor, or behind the start, again and again, ties to the lesser number of the first job (Horn 1972).
#[derive(Clone, Copy)]
pub struct Horn;

impl Solver for Horn {
    ghost solved = { λ _. horn_class };

    fn target(&self) -> Class {
        HORN_CLASS
    }

    fn fits(&self, _inst: &Instance) -> bool {
        true
    }

    fn solve(&self, alloc: Global, inst: &Instance) -> Result<Solution, NoMemory>
        requires inner { Inner inst.now }
        requires class { inst.now.class ≡ horn_class }

        // What every solver ensures.
        ensures best { IfOk result (λ s. IsBest inst.now s) }
        ensures bounds { IfOk result (λ s. IsAnswer inst.now s.schedule) }

        // The form of the answer.
        ensures order { IfOk result (λ s. IsHornOrder inst.now (map (λ p. p.job) s.schedule.pieces)) }
        ensures settled { IfOk result (λ s. IsSettled s.schedule) }
        ensures lowest { IfOk result (λ s. IsLowest s.cost) }
    {
        let jobs = joined_jobs(alloc, inst)?;
        solution_in_order(alloc, inst, &jobs.as_slice()[1..])
    }
}
