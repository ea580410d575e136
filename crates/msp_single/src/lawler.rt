// Lawler's rule for `1|prec|fmax` (Lawler 1973).
//
// Rule: from the last place to the first, of the jobs left that no job left must follow, the one that costs least where all that are left
// end takes the place, ties to the lesser number.
//
// In the loop: the jobs behind the place stand in their order, the others are left, and arcs lead from jobs that are left, or to later
// places.
//
// Best (`proofs/LawlerBest.antt`, by the bound of `msp_pieces/proofs/bounds/Certified.antt`): of the jobs left at a place one ends last
// in any schedule, no earlier than all of them take together, and none of them must follow it. It costs there at least what the chosen job
// costs. So each job in that order costs no more than some job of any other schedule.
ghost use Rattle.std.specs.Prelude.{◌≡◌, length, map, IfOk, IsPermutation};
ghost use Rattle.std.specs.List.{range_with_len};
ghost use Rattle.msp_instance.specs.Conditions.{Inner};
ghost use Rattle.msp_pieces.specs.Cost.{IsBest};
ghost use Rattle.msp_pieces.specs.Fraction.{IsLowest};
ghost use Rattle.msp_pieces.specs.Settled.{IsSettled};
ghost use Rattle.msp_route.specs.Bounds.{IsAnswer};
ghost use Rattle.msp_single.specs.Lawler.{lawler_class, IsLawlerOrder};

use msp_class::{Class, Crit, Env, NoMemory, Order, Times};
use msp_instance::Instance;
use msp_pieces::{Solution, all_jobs};
use msp_route::{Solver, last_place, solution_in_order, total_time};
use std::alloc::Global;

/// The class that the rule solves: `1|prec|fmax`.
const LAWLER_CLASS: Class = Class {
    env: Env::One,
    cut: false,
    order: Order::Prec,
    heads: false,
    times: Times::General,
    crit: Crit::Fmax,
};

/// Puts all jobs in order, from the last place to the first: the jobs left are those before it.
fn put_in_order(inst: &Instance, order: &mut [u32])
    requires inner { Inner inst.now }
    requires class { inst.now.class ≡ lawler_class }
    requires all { IsPermutation (range_with_len 0 (length inst.now.jobs)) order.old }
    ensures { IsLawlerOrder inst.now order.new }
{
    let mut left = order.len();
    while left > 0 {
        let first = &order[..left];
        let place = last_place(inst, first, total_time(inst, first));
        left -= 1;
        order.swap(place, left);
    }
}

/// The numbers of the jobs in the order of the rule.
fn lawler_order(alloc: Global, inst: &Instance) -> Result<Vec<u32>, NoMemory>
    requires inner { Inner inst.now }
    requires class { inst.now.class ≡ lawler_class }
    ensures { IfOk result (λ o. IsLawlerOrder inst.now o.items) }
{
    let mut order = all_jobs(alloc, inst.jobs.len())?;
    put_in_order(inst, order.as_mut_slice());
    Ok(order)
}

/// Finds a schedule of least greatest cost: from the end, of the jobs that no job left must follow the one that costs least goes last,
/// ties to the lesser number (Lawler 1973).
#[derive(Clone, Copy)]
pub struct Lawler;

impl Solver for Lawler {
    ghost solved = { λ _. lawler_class };

    fn target(&self) -> Class {
        LAWLER_CLASS
    }

    fn fits(&self, _inst: &Instance) -> bool {
        true
    }

    fn solve(&self, alloc: Global, inst: &Instance) -> Result<Solution, NoMemory>
        requires inner { Inner inst.now }
        requires class { inst.now.class ≡ lawler_class }

        // What every solver ensures.
        ensures best { IfOk result (λ s. IsBest inst.now s) }
        ensures bounds { IfOk result (λ s. IsAnswer inst.now s.schedule) }

        // The form of the answer.
        ensures order { IfOk result (λ s. IsLawlerOrder inst.now (map (λ p. p.job) s.schedule.pieces)) }
        ensures settled { IfOk result (λ s. IsSettled s.schedule) }
        ensures lowest { IfOk result (λ s. IsLowest s.cost) }
    {
        let order = lawler_order(alloc, inst)?;
        solution_in_order(alloc, inst, &order)
    }
}
