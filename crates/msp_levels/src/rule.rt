// Hu's rule.
ghost use Rattle.std.specs.Prelude.{◌≡◌, IfOk};
ghost use Rattle.msp_instance.specs.Conditions.{Inner};
ghost use Rattle.msp_pieces.specs.Cost.{IsBest};
ghost use Rattle.msp_pieces.specs.Fraction.{IsLowest};
ghost use Rattle.msp_pieces.specs.Settled.{IsSettled};
ghost use Rattle.msp_route.specs.Bounds.{IsAnswer};
ghost use Rattle.msp_levels.specs.Levels.{levels_class, IsLevelCost, IsLevelSchedule};

use crate::level::pieces_by_level;
use msp_class::{Class, Crit, Env, NoMemory, Order, Times};
use msp_instance::Instance;
use msp_pieces::{Schedule, Solution};
use msp_route::{Solver, best_solution};
use std::alloc::Global;

/// The class that the rule solves: `P|intree,p=1|Cmax`.
const LEVELS_CLASS: Class = Class {
    env: Env::P,
    cut: false,
    order: Order::Intree,
    heads: false,
    times: Times::Unit,
    crit: Crit::Cmax,
};

/// A schedule of least makespan, with its cost: the greatest bound of a level.
fn schedule_by_levels(alloc: Global, inst: &Instance) -> Result<Solution, NoMemory>
    requires inner { Inner inst.now }
    requires class { inst.now.class ≡ levels_class }
    ensures best { IfOk result (λ s. IsBest inst.now s) }
    ensures bounds { IfOk result (λ s. IsAnswer inst.now s.schedule) }
    ensures cost { IfOk result (λ s. IsLevelCost inst.now s.cost) }
    ensures pieces { IfOk result (λ s. IsLevelSchedule inst.now s.schedule) }

    // The form of the answer.
    ensures settled { IfOk result (λ s. IsSettled s.schedule) }
    ensures lowest { IfOk result (λ s. IsLowest s.cost) }
{
    let pieces = pieces_by_level(alloc, inst)?;
    Ok(best_solution(inst, Schedule { unit: 1, pieces }))
}

/// Finds a schedule of least makespan: at each moment, of the jobs that no job left must precede, those of highest level, on machines in
/// order, ties to the lesser number (Hu 1961).
#[derive(Clone, Copy)]
pub struct Levels;

impl Solver for Levels {
    ghost solved = { λ _. levels_class };

    fn target(&self) -> Class {
        LEVELS_CLASS
    }

    fn fits(&self, _inst: &Instance) -> bool {
        true
    }

    fn solve(&self, alloc: Global, inst: &Instance) -> Result<Solution, NoMemory>
        requires inner { Inner inst.now }
        requires class { inst.now.class ≡ levels_class }
        ensures best { IfOk result (λ s. IsBest inst.now s) }
        ensures bounds { IfOk result (λ s. IsAnswer inst.now s.schedule) }
        ensures cost { IfOk result (λ s. IsLevelCost inst.now s.cost) }
        ensures pieces { IfOk result (λ s. IsLevelSchedule inst.now s.schedule) }
    {
        schedule_by_levels(alloc, inst)
    }
}
