// Coffman and Graham's rule.
ghost use Rattle.std.specs.Prelude.{◌≡◌, ◌-◌, ◌<◌, ◌≤◌, ℕ, slice_index, AllPairs, IfOk, IsPermutation};
ghost use Rattle.std.specs.List.{range_with_len};
ghost use Rattle.msp_class.specs.declared.sizes.TheConstants.{MOST_JOBS};
ghost use Rattle.msp_instance.specs.Conditions.{Inner};
ghost use Rattle.msp_pieces.specs.Cost.{IsBest};
ghost use Rattle.msp_pieces.specs.Fraction.{IsLowest};
ghost use Rattle.msp_pieces.specs.Settled.{IsSettled};
ghost use Rattle.msp_route.specs.Bounds.{IsAnswer};
ghost use Rattle.msp_lexical.specs.Lexical.{lexical_class, IsSegmentCost};
ghost use Rattle.msp_lexical.specs.Steps.{HasLabels, IsByLabel, AreRanks};

use crate::label::labels_of;
use msp_class::{Class, Crit, Env, List, NoMemory, Order, Times};
use msp_instance::{Instance, MOST_JOBS};
use msp_pieces::{Piece, Schedule, Solution};
use msp_route::{Solver, best_solution, jobs_by_key};
use msp_slots::pieces_in_order;
use std::alloc::Global;

/// The class that the rule solves: `P2|prec,p=1|Cmax`.
const LEXICAL_CLASS: Class = Class {
    env: Env::P2,
    cut: false,
    order: Order::Prec,
    heads: false,
    times: Times::Unit,
    crit: Crit::Cmax,
};

/// How many jobs have greater labels, for each job.
fn ranks_of(alloc: Global, count: u32, labels: &[u32; MOST_JOBS]) -> Result<Vec<u64>, NoMemory>
    requires few { count ≤ MOST_JOBS }
    requires small { (j : ℕ) → j < count → slice_index labels.now j < count }
    ensures { IfOk result (λ ranks. AreRanks count labels.now ranks.items count) }
{
    let mut ranks = Vec::new(alloc);
    for job in 0..count {
        ranks.push(u64::from(count - 1 - labels[job as usize]))?;
    }
    Ok(ranks)
}

/// All jobs by falling label.
fn jobs_by_label(alloc: Global, count: u32, labels: &[u32; MOST_JOBS]) -> Result<Vec<u32>, NoMemory>
    requires few { count ≤ MOST_JOBS }
    requires small { (j : ℕ) → j < count → slice_index labels.now j < count }
    ensures all { IfOk result (λ order. IsPermutation (range_with_len 0 count) order.items) }
    ensures falling { IfOk result (λ order. AllPairs (λ a b. slice_index labels.now b ≤ slice_index labels.now a) order.items) }
{
    let ranks = ranks_of(alloc, count, labels)?;
    jobs_by_key(alloc, ranks.as_slice())
}

/// The pieces of all jobs, slot by slot: at each moment the free jobs of greatest label run, the greater one on the first machine.
pub fn pieces_by_label(
    alloc: Global,
    inst: &Instance,
    labels: &[u32; MOST_JOBS],
) -> Result<List<Piece>, NoMemory>
    requires inner { Inner inst.now }
    requires labels { HasLabels inst.now (slice_index labels.now) }
    ensures { IfOk result (IsByLabel inst.now (slice_index labels.now)) }
{
    let order = jobs_by_label(alloc, inst.jobs.len() as u32, labels)?;
    pieces_in_order(alloc, inst, order)
}

/// The schedule of the pieces, with its cost: the bound of some segments.
pub fn solution_of(inst: &Instance, labels: &[u32; MOST_JOBS], pieces: List<Piece>) -> Solution
    requires inner { Inner inst.now }
    requires class { inst.now.class ≡ lexical_class }
    requires labels { HasLabels inst.now (slice_index labels.now) }
    requires pieces { IsByLabel inst.now (slice_index labels.now) pieces }
    ensures best { IsBest inst.now result }
    ensures bounds { IsAnswer inst.now result.schedule }
    ensures cost { IsSegmentCost inst.now result.cost }
    ensures settled { IsSettled result.schedule }
    ensures lowest { IsLowest result.cost }
{
    let schedule = Schedule { unit: 1, pieces };
    best_solution(inst, schedule)
}

/// A schedule of least makespan, with its cost: the bound of some segments.
fn schedule_by_labels(alloc: Global, inst: &Instance) -> Result<Solution, NoMemory>
    requires inner { Inner inst.now }
    requires class { inst.now.class ≡ lexical_class }
    ensures best { IfOk result (λ s. IsBest inst.now s) }
    ensures bounds { IfOk result (λ s. IsAnswer inst.now s.schedule) }
    ensures cost { IfOk result (λ s. IsSegmentCost inst.now s.cost) }

    // The form of the answer.
    ensures settled { IfOk result (λ s. IsSettled s.schedule) }
    ensures lowest { IfOk result (λ s. IsLowest s.cost) }
{
    let labels = labels_of(alloc, inst)?;
    let pieces = pieces_by_label(alloc, inst, &labels)?;
    Ok(solution_of(inst, &labels, pieces))
}

/// Finds a schedule of least makespan: at each moment the free jobs of greatest label run, the greater label on the first machine (Coffman
/// and Graham 1972).
#[derive(Clone, Copy)]
pub struct Lexical;

impl Solver for Lexical {
    ghost solved = { λ _. lexical_class };

    fn target(&self) -> Class {
        LEXICAL_CLASS
    }

    fn fits(&self, _inst: &Instance) -> bool {
        true
    }

    fn solve(&self, alloc: Global, inst: &Instance) -> Result<Solution, NoMemory>
        requires inner { Inner inst.now }
        requires class { inst.now.class ≡ lexical_class }
        ensures best { IfOk result (λ s. IsBest inst.now s) }
        ensures bounds { IfOk result (λ s. IsAnswer inst.now s.schedule) }
        ensures cost { IfOk result (λ s. IsSegmentCost inst.now s.cost) }
    {
        schedule_by_labels(alloc, inst)
    }
}
