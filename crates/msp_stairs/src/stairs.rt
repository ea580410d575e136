// The solver.
ghost use Rattle.std.specs.Prelude.{◌≡◌, IfOk};
ghost use Rattle.msp_instance.specs.Conditions.{Inner};
ghost use Rattle.msp_pieces.specs.Cost.{IsBest};
ghost use Rattle.msp_route.specs.Bounds.{IsAnswer};
ghost use Rattle.msp_stairs.specs.Stairs.{stairs_class, IsStairsCost, HasTwoPiecesAtMost, EndsSoonest};

use crate::climb::climbed;
use crate::search::least_limits;
use msp_class::{Class, Crit, Env, NoMemory, Order, Times};
use msp_instance::Instance;
use msp_pieces::{Frac, Schedule, Solution};
use msp_route::{Solver, jobs_by_date};
use std::alloc::Global;

/// The class that the rule solves: `P|pmtn|Lmax`.
const STAIRS_CLASS: Class = Class {
    env: Env::P,
    cut: true,
    order: Order::Free,
    heads: false,
    times: Times::General,
    crit: Crit::Lmax,
};

/// Finds a schedule of least greatest lateness on identical machines, where jobs may be cut, and of all these one that ends first, in whole
/// parts of 1/m on m machines: by due date, on the stairs of the machines by falling ends, for the least lateness that can be met and then
/// for the least end (Horn 1974; Sahni 1979). The unit is the number of machines.
#[derive(Clone, Copy)]
pub struct Stairs;

impl Solver for Stairs {
    ghost solved = { λ _. stairs_class };

    fn target(&self) -> Class {
        STAIRS_CLASS
    }

    fn fits(&self, _inst: &Instance) -> bool {
        true
    }

    fn solve(&self, alloc: Global, inst: &Instance) -> Result<Solution, NoMemory>
        requires inner { Inner inst.now }
        requires class { inst.now.class ≡ stairs_class }
        ensures best { IfOk result (λ s. IsBest inst.now s) }
        ensures bounds { IfOk result (λ s. IsAnswer inst.now s.schedule) }
        ensures cost { IfOk result (λ s. IsStairsCost inst.now s.cost) }
        ensures pieces { IfOk result (λ s. HasTwoPiecesAtMost s.schedule) }
        ensures ends { IfOk result (λ s. EndsSoonest inst.now s.schedule) }
    {
        let order = jobs_by_date(alloc, inst)?;
        let limits = least_limits(alloc, inst, order.as_slice())?;
        match climbed(alloc, inst, order.as_slice(), &limits)? {
            Some(pieces) => {
                let unit = i128::from(inst.machines);
                let schedule = Schedule { unit, pieces };
                let cost = Frac {
                    num: limits.late,
                    den: unit,
                };
                Ok(Solution { schedule, cost })
            }
            None => unreachable!(),
        }
    }
}
