// The solvers by blocks.
ghost use Rattle.std.specs.Prelude.{◌≡◌, ◌⊎◌, ◌≤◌, true, [], ℤ, pos, All, IfOk};
ghost use Rattle.msp_class.specs.declared.class.Env.TheVariants.{One};
ghost use Rattle.msp_class.specs.declared.class.Times.TheVariants.{Unit};
ghost use Rattle.msp_class.specs.declared.class.Crit.TheVariants.{Fmax};
ghost use Rattle.msp_instance.specs.Conditions.{Inner};
ghost use Rattle.msp_pieces.specs.Blocks.{IsBlock, IsBlockValue};
ghost use Rattle.msp_pieces.specs.Cost.{IsBest};
ghost use Rattle.msp_route.specs.Bounds.{IsAnswer};
ghost use Rattle.msp_blocks.specs.Blocks.{blocks_class, unit_blocks_class, IsBestCost};
ghost use Rattle.msp_route.specs.Heads.{AreHeads, greatest_head};
ghost use Rattle.msp_blocks.specs.Filling.{ArePlaced, IsBound, CostAtMost};

use crate::filling::{Bound, Filled, place_all};
use msp_class::{Class, Crit, Env, List, NoMemory, Order, Times};
use msp_instance::Instance;
use msp_pieces::{Piece, Schedule, Solution};
use msp_route::{Solver, best_solution, heads_of, jobs_by_key};
use std::alloc::Global;

/// The class that is solved with preemption: `1|pmtn,prec,r|fmax`.
const BLOCKS_CLASS: Class = Class {
    env: Env::One,
    cut: true,
    order: Order::Prec,
    heads: true,
    times: Times::General,
    crit: Crit::Fmax,
};

/// The class that is solved with unit times: `1|prec,r,p=1|fmax`.
const UNIT_BLOCKS_CLASS: Class = Class {
    env: Env::One,
    cut: false,
    order: Order::Prec,
    heads: true,
    times: Times::Unit,
    crit: Crit::Fmax,
};

/// The evidence that no schedule costs less than the best one: a head for each job, before which it cannot begin, and the jobs of a block.
#[derive(Drop)]
pub struct BindingBlock {
    pub head: List<u64>,
    pub jobs: List<u32>,
}

/// The heads of the jobs, the pieces, and the block whose last job costs most.
#[derive(Drop)]
struct Placed {
    heads: Vec<u64>,
    pieces: List<Piece>,
    bound: Bound,
}

/// Places all jobs by rising head.
fn by_blocks(alloc: Global, inst: &Instance) -> Result<Placed, NoMemory>
    requires inner { Inner inst.now }
    requires machine { inst.now.class.env ≡ One }
    ensures heads { IfOk result (λ p. AreHeads inst.now p.heads.items) }
    ensures filling { IfOk result (λ p. ArePlaced inst.now p.heads.items [] p.pieces) }
    ensures bound { IfOk result (λ p. IsBound inst.now p.heads.items p.bound.jobs p.bound.cost) }
    ensures costs { IfOk result (λ p. CostAtMost inst.now p.bound.cost [] p.pieces) }
{
    let heads = heads_of(alloc, inst)?;
    let jobs = jobs_by_key(alloc, heads.as_slice())?;
    let Filled { pieces, bound } = place_all(alloc, inst, heads.as_slice(), jobs)?;
    Ok(Placed {
        heads,
        pieces,
        bound,
    })
}

/// A best schedule, and a block whose value is its cost.
#[derive(Drop)]
pub struct BlockSolution {
    pub solution: Solution,
    pub block: BindingBlock,
}

/// A best schedule of the instance by blocks (Baker, Lawler, Lenstra and Rinnooy Kan 1983), and the block whose last job costs most.
/// Release dates are raised along the arcs, and the earliest schedule is cut into blocks, in which the machine is never idle. In a block
/// the job that costs least at its end, of those that no other one of it must follow, takes what the others leave when they are run
/// without it. Where all times are 1, no job is cut.
fn schedule_by_blocks(alloc: Global, inst: &Instance) -> Result<BlockSolution, NoMemory>
    requires inner { Inner inst.now }
    requires machine { inst.now.class.env ≡ One }
    requires crit { inst.now.class.crit ≡ Fmax }
    requires whole { (inst.now.class.cut ≡ true) ⊎ (inst.now.class.times ≡ Unit) }
    ensures best { IfOk result (λ s. IsBest inst.now s.solution) }
    ensures bounds { IfOk result (λ s. IsAnswer inst.now s.solution.schedule) }
    ensures unit { IfOk result (λ s. s.solution.schedule.unit ≡ pos 1) }
    ensures block { IfOk result (λ s. IsBlock inst.now s.block.head s.block.jobs) }
    ensures value { IfOk result (λ s. (value : ℤ) × IsBlockValue inst.now s.block.head s.block.jobs value × IsBestCost inst.now value) }
    ensures small { IfOk result (λ s. All (λ h. h ≤ greatest_head) s.block.head) }
{
    let Placed {
        heads,
        pieces,
        bound,
    } = by_blocks(alloc, inst)?;
    let schedule = Schedule { unit: 1, pieces };
    let block = BindingBlock {
        head: List::from_vec(heads),
        jobs: bound.jobs,
    };
    let solution = best_solution(inst, schedule);
    Ok(BlockSolution { solution, block })
}

/// A best schedule of jobs that may be cut, and the block of `binding`, by one run.
pub fn solve_with_block(alloc: Global, inst: &Instance) -> Result<BlockSolution, NoMemory>
    requires inner { Inner inst.now }
    requires class { inst.now.class ≡ blocks_class }
    ensures best { IfOk result (λ s. IsBest inst.now s.solution) }
    ensures bounds { IfOk result (λ s. IsAnswer inst.now s.solution.schedule) }
    ensures block { IfOk result (λ s. IsBlock inst.now s.block.head s.block.jobs) }
    ensures value { IfOk result (λ s. (value : ℤ) × IsBlockValue inst.now s.block.head s.block.jobs value × IsBestCost inst.now value) }
    ensures small { IfOk result (λ s. All (λ h. h ≤ greatest_head) s.block.head) }
{
    schedule_by_blocks(alloc, inst)
}

/// A block whose value is the best cost. Each job, when it is placed, ends last in a block; of these blocks the one whose last job costs
/// most is taken.
pub fn binding(alloc: Global, inst: &Instance) -> Result<BindingBlock, NoMemory>
    requires inner { Inner inst.now }
    requires class { inst.now.class ≡ blocks_class }
    ensures block { IfOk result (λ b. IsBlock inst.now b.head b.jobs) }
    ensures value { IfOk result (λ b. (value : ℤ) × IsBlockValue inst.now b.head b.jobs value × IsBestCost inst.now value) }
    ensures small { IfOk result (λ b. All (λ h. h ≤ greatest_head) b.head) }
{
    let BlockSolution { block, .. } = solve_with_block(alloc, inst)?;
    Ok(block)
}

/// Finds a schedule of least greatest cost on one machine with precedence, release dates and preemption, by blocks (Baker, Lawler,
/// Lenstra and Rinnooy Kan 1983).
#[derive(Clone, Copy)]
pub struct Blocks;

impl Solver for Blocks {
    ghost solved = { λ _. blocks_class };

    fn target(&self) -> Class {
        BLOCKS_CLASS
    }

    fn fits(&self, _inst: &Instance) -> bool {
        true
    }

    fn solve(&self, alloc: Global, inst: &Instance) -> Result<Solution, NoMemory> {
        let BlockSolution { solution, .. } = solve_with_block(alloc, inst)?;
        Ok(solution)
    }
}

/// Finds a schedule of least greatest cost on one machine with precedence, release dates and unit times, by blocks, over the unit 1: no job is cut.
#[derive(Clone, Copy)]
pub struct UnitBlocks;

impl Solver for UnitBlocks {
    ghost solved = { λ _. unit_blocks_class };

    fn target(&self) -> Class {
        UNIT_BLOCKS_CLASS
    }

    fn fits(&self, _inst: &Instance) -> bool {
        true
    }

    fn solve(&self, alloc: Global, inst: &Instance) -> Result<Solution, NoMemory>
        requires inner { Inner inst.now }
        requires class { inst.now.class ≡ unit_blocks_class }
        ensures best { IfOk result (λ s. IsBest inst.now s) }
        ensures bounds { IfOk result (λ s. IsAnswer inst.now s.schedule) }
        ensures unit { IfOk result (λ s. s.schedule.unit ≡ pos 1) }
    {
        let BlockSolution { solution, .. } = schedule_by_blocks(alloc, inst)?;
        Ok(solution)
    }
}
