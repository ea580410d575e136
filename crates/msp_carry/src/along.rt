// Along chains of rows: down to the last instance, and back from a solution of it.
ghost use Rattle.std.specs.Prelude.{◌≡◌, IfOk};
ghost use Rattle.msp_instance.specs.Conditions.{Inner};
ghost use Rattle.msp_pieces.specs.Cost.{IsSolution, IsBest};
ghost use Rattle.msp_pieces.specs.Within.{Within};
ghost use Rattle.msp_table.specs.Rows.{carries};
ghost use Rattle.msp_table.specs.Chains.{Leads};
ghost use Rattle.msp_route.specs.Bounds.{IsSized, EndsBy};
ghost use Rattle.msp_route.specs.declared.bounds.TheConstants.{GREATEST_ANSWER_MOMENT};
ghost use Rattle.msp_carry.specs.Carried.{carried, IsChain, IsChainTo};
ghost use Rattle.msp_carry.specs.Moments.{moment_over};

use crate::rows::{back, down};
use msp_class::{List, NoMemory};
use msp_instance::Instance;
use msp_pieces::Solution;
use msp_route::{Solver, recast};
use msp_table::Row;
use std::alloc::Global;

fn carry_on(alloc: Global, inst: Instance, rows: &[Row]) -> Result<Instance, NoMemory>
    requires inner { Inner inst }
    requires chain { IsChain inst rows.now }
    ensures same { IfOk result (λ j. j ≡ carried rows.now inst) }
    ensures inner { IfOk result (λ j. Inner j) }
    ensures class { IfOk result (λ j. Leads carries inst.class rows.now j.class) }
{
    match rows {
        [] => Ok(inst),
        [row, rest @ ..] => {
            let lower = down(alloc, &inst, *row)?;
            carry_on(alloc, lower, rest)
        }
    }
}

/// The instance at the end of the chain.
pub fn carry(alloc: Global, inst: &Instance, rows: &List<Row>) -> Result<Instance, NoMemory>
    requires inner { Inner inst.now }
    requires chain { IsChain inst.now rows.now }
    ensures same { IfOk result (λ j. j ≡ carried rows.now inst.now) }
    ensures inner { IfOk result (λ j. Inner j) }
    ensures class { IfOk result (λ j. Leads carries inst.now.class rows.now j.class) }
{
    match rows.as_slice() {
        [] => recast(alloc, inst, inst.class),
        [row, rest @ ..] => {
            let lower = down(alloc, inst, *row)?;
            carry_on(alloc, lower, rest)
        }
    }
}

fn bring_over(
    alloc: Global,
    inst: &Instance,
    rows: &[Row],
    last: Solution,
) -> Result<Solution, NoMemory>
    requires inner { Inner inst.now }
    requires chain { IsChain inst.now rows.now }
    requires solution { IsSolution (carried rows.now inst.now) last }
    requires sized { IsSized (carried rows.now inst.now) last.schedule }
    requires ends { EndsBy GREATEST_ANSWER_MOMENT last.schedule }
    ensures solution { IfOk result (λ s. IsSolution inst.now s) }
    ensures best { IsBest (carried rows.now inst.now) last → IfOk result (λ s. IsBest inst.now s) }
    ensures sized { IfOk result (λ s. IsSized inst.now s.schedule) }
    ensures ends { IfOk result (λ s. EndsBy (moment_over rows.now) s.schedule) }
{
    match rows {
        [] => Ok(last),
        [row, rest @ ..] => {
            let lower = down(alloc, inst, *row)?;
            let solution = bring_over(alloc, &lower, rest, last)?;
            back(alloc, inst, *row, solution)
        }
    }
}

/// A solution of the instance from one of the instance at the end of the chain, a best one from a best one.
pub fn bring(
    alloc: Global,
    inst: &Instance,
    rows: &List<Row>,
    lower: Solution,
) -> Result<Solution, NoMemory>
    requires inner { Inner inst.now }
    requires chain { IsChain inst.now rows.now }
    requires solution { IsSolution (carried rows.now inst.now) lower }
    requires sized { IsSized (carried rows.now inst.now) lower.schedule }
    requires ends { EndsBy GREATEST_ANSWER_MOMENT lower.schedule }
    ensures solution { IfOk result (λ s. IsSolution inst.now s) }
    ensures best { IsBest (carried rows.now inst.now) lower → IfOk result (λ s. IsBest inst.now s) }
    ensures within { IfOk result (λ s. Within inst.now s.schedule) }
{
    bring_over(alloc, inst, rows.as_slice(), lower)
}

fn solve_over<S: Solver>(
    alloc: Global,
    inst: &Instance,
    rows: &[Row],
    solver: &S,
) -> Result<Solution, NoMemory>
    requires inner { Inner inst.now }
    requires chain { IsChainTo inst.now rows.now (S.solved solver.now) }
    requires fits { S.can_solve solver.now (carried rows.now inst.now) }
    ensures best { IfOk result (λ s. IsBest inst.now s) }
    ensures sized { IfOk result (λ s. IsSized inst.now s.schedule) }
    ensures ends { IfOk result (λ s. EndsBy (moment_over rows.now) s.schedule) }
{
    match rows {
        [] => solver.solve(alloc, inst),
        [row, rest @ ..] => {
            let lower = down(alloc, inst, *row)?;
            let solution = solve_over(alloc, &lower, rest, solver)?;
            back(alloc, inst, *row, solution)
        }
    }
}

/// A best solution of the instance, from one that the solver finds at the end of the chain.
pub fn solve_along<S: Solver>(
    alloc: Global,
    inst: &Instance,
    rows: &List<Row>,
    solver: &S,
) -> Result<Solution, NoMemory>
    requires inner { Inner inst.now }
    requires chain { IsChainTo inst.now rows.now (S.solved solver.now) }
    requires fits { S.can_solve solver.now (carried rows.now inst.now) }
    ensures best { IfOk result (λ s. IsBest inst.now s) }
    ensures within { IfOk result (λ s. Within inst.now s.schedule) }
{
    solve_over(alloc, inst, rows.as_slice(), solver)
}
