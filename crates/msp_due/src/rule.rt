// The solvers of the two classes.
ghost use Rattle.std.specs.Prelude.{◌≡◌, ◌≤◌, ◌⊎◌, length, map, pos, ◌≤ℤ◌, All, IfOk};
ghost use Rattle.msp_class.specs.declared.sizes.TheConstants.{GREATEST_EQUAL_TIME};
ghost use Rattle.msp_instance.specs.Conditions.{Inner};
ghost use Rattle.msp_pieces.specs.Cost.{IsBest};
ghost use Rattle.msp_route.specs.Bounds.{IsAnswer};
ghost use Rattle.msp_due.specs.Due.{tree_class, pair_class};
ghost use Rattle.msp_due.specs.Steps.{IsInSlots, long_piece};

use crate::listing::{listed, shared_of};
use crate::search::least_bound;
use msp_class::{Class, Crit, Env, List, NoMemory, Order, Times};
use msp_instance::{Instance, common_time};
use msp_pieces::{Frac, Piece, Schedule, Solution};
use msp_route::Solver;
use std::alloc::Global;

/// The class that the rule solves on trees: `R|intree,p=p|fmax`.
const TREE_CLASS: Class = Class {
    env: Env::R,
    cut: false,
    order: Order::Intree,
    heads: false,
    times: Times::Equal,
    crit: Crit::Fmax,
};

/// The class that it solves on two machines: `R2|prec,p=p|fmax`.
const PAIR_CLASS: Class = Class {
    env: Env::R2,
    order: Order::Prec,
    ..TREE_CLASS
};

/// The piece of one slot, where each slot lasts so long.
fn long_piece(piece: &Piece, time: u64) -> Piece
    requires slot { IsInSlots piece.now }
    requires time { time ≤ GREATEST_EQUAL_TIME }
    ensures { result ≡ long_piece time piece.now }
{
    Piece {
        from: piece.from * i128::from(time),
        to: piece.to * i128::from(time),
        ..*piece
    }
}

/// The pieces of one slot each, where each slot lasts so long.
fn long_pieces(alloc: Global, pieces: &[Piece], time: u64) -> Result<List<Piece>, NoMemory>
    requires slots { All IsInSlots pieces.now }
    requires time { time ≤ GREATEST_EQUAL_TIME }
    ensures { IfOk result (λ long. long ≡ map (long_piece time) pieces.now) }
{
    let mut long = List::new(alloc);
    for piece in pieces {
        long.put(long_piece(piece, time))?;
    }
    Ok(long)
}

/// A schedule of least greatest cost, with its cost: the least bound that can be met.
fn schedule_by_due_slots(alloc: Global, inst: &Instance) -> Result<Solution, NoMemory>
    requires inner { Inner inst.now }
    requires class { (inst.now.class ≡ tree_class) ⊎ (inst.now.class ≡ pair_class) }
    ensures best { IfOk result (λ s. IsBest inst.now s) }
    ensures bounds { IfOk result (λ s. IsAnswer inst.now s.schedule) }
    ensures whole { IfOk result (λ s. s.cost.den ≡ pos 1) }
{
    let shared = shared_of(alloc, inst)?;
    let bound = least_bound(alloc, inst, &shared)?;
    let in_slots = listed(alloc, inst, &shared, &bound)?;
    let pieces = long_pieces(alloc, in_slots.pieces.as_slice(), common_time(inst))?;
    let schedule = Schedule { unit: 1, pieces };
    let cost = Frac { num: bound, den: 1 };
    Ok(Solution { schedule, cost })
}

/// Finds a schedule of least greatest cost for jobs of one time in an intree, on machines that run each of them in that time: by due slots
/// for a bound, lowered by the jobs that follow (Brucker, Garey and Johnson 1977). The least bound is found by halving.
#[derive(Clone, Copy)]
pub struct TreeDue;

impl Solver for TreeDue {
    ghost solved = { λ _. tree_class };

    fn target(&self) -> Class {
        TREE_CLASS
    }

    fn fits(&self, _inst: &Instance) -> bool {
        true
    }

    fn solve(&self, alloc: Global, inst: &Instance) -> Result<Solution, NoMemory>
        requires inner { Inner inst.now }
        requires class { inst.now.class ≡ tree_class }
        ensures best { IfOk result (λ s. IsBest inst.now s) }
        ensures bounds { IfOk result (λ s. IsAnswer inst.now s.schedule) }
        ensures whole { IfOk result (λ s. s.cost.den ≡ pos 1) }
    {
        schedule_by_due_slots(alloc, inst)
    }
}

/// Finds a schedule of least greatest cost for jobs of one time under any precedence on two machines that run each of them in that time: by
/// due slots for a bound, lowered by the jobs that follow (Garey and Johnson 1976). The least bound is found by halving.
#[derive(Clone, Copy)]
pub struct PairDue;

impl Solver for PairDue {
    ghost solved = { λ _. pair_class };

    fn target(&self) -> Class {
        PAIR_CLASS
    }

    fn fits(&self, _inst: &Instance) -> bool {
        true
    }

    fn solve(&self, alloc: Global, inst: &Instance) -> Result<Solution, NoMemory>
        requires inner { Inner inst.now }
        requires class { inst.now.class ≡ pair_class }
        ensures best { IfOk result (λ s. IsBest inst.now s) }
        ensures bounds { IfOk result (λ s. IsAnswer inst.now s.schedule) }
        ensures whole { IfOk result (λ s. s.cost.den ≡ pos 1) }
    {
        schedule_by_due_slots(alloc, inst)
    }
}
