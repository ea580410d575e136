// Sums of completion times by the same levels, on outtrees.
ghost use Rattle.std.specs.Prelude.{◌≡◌, IfOk};
ghost use Rattle.msp_instance.specs.Conditions.{Inner};
ghost use Rattle.msp_pieces.specs.Cost.{IsBest};
ghost use Rattle.msp_route.specs.Bounds.{IsAnswer};
ghost use Rattle.msp_levels.specs.Levels.{IsLevelSchedule};
ghost use Rattle.msp_levels.specs.Sums.{levels_sum_class, IsLeastSum, EndsMost};

use crate::level::pieces_by_level;
use msp_class::{Class, Crit, Env, NoMemory, Order, Times};
use msp_instance::Instance;
use msp_pieces::{Schedule, Solution};
use msp_route::{Solver, best_solution};
use std::alloc::Global;

/// The class that the rule solves: `P|outtree,p=1|sumC`.
const LEVELS_SUM_CLASS: Class = Class {
    env: Env::P,
    cut: false,
    order: Order::Outtree,
    heads: false,
    times: Times::Unit,
    crit: Crit::SumC,
};

/// Finds a schedule of least total completion time: at each moment, of the jobs that no job left must precede, those of highest level, on
/// machines in order, ties to the lesser number (Hu 1961).
#[derive(Clone, Copy)]
pub struct LevelsSum;

impl Solver for LevelsSum {
    ghost solved = { λ _. levels_sum_class };

    fn target(&self) -> Class {
        LEVELS_SUM_CLASS
    }

    fn fits(&self, _inst: &Instance) -> bool {
        true
    }

    fn solve(&self, alloc: Global, inst: &Instance) -> Result<Solution, NoMemory>
        requires inner { Inner inst.now }
        requires class { inst.now.class ≡ levels_sum_class }
        ensures best { IfOk result (λ s. IsBest inst.now s) }
        ensures bounds { IfOk result (λ s. IsAnswer inst.now s.schedule) }
        ensures cost { IfOk result (λ s. IsLeastSum inst.now s.cost) }
        ensures most { IfOk result (λ s. EndsMost inst.now s.schedule) }
        ensures pieces { IfOk result (λ s. IsLevelSchedule inst.now s.schedule) }
    {
        let pieces = pieces_by_level(alloc, inst)?;
        Ok(best_solution(inst, Schedule { unit: 1, pieces }))
    }
}
