// Any instance solved along the nearest chain.
ghost use Rattle.std.specs.Prelude.{◌≡◌, IfOk, IfErr};
ghost use Rattle.msp_instance.specs.Conditions.{InClass, Inner};
ghost use Rattle.msp_pieces.specs.Cost.{IsBest};
ghost use Rattle.msp_pieces.specs.Fraction.{IsLowest};
ghost use Rattle.msp_pieces.specs.Settled.{IsSettled};
ghost use Rattle.msp_pieces.specs.Within.{Within};
ghost use Rattle.msp_carry.specs.Carried.{carried};
ghost use Rattle.msp_dispatch.specs.Dispatch.{IsReported, IsAnswered, IsFault};
ghost use Rattle.msp_dispatch.specs.Pick.{IsRoute, IsStopped};
ghost use Rattle.msp_dispatch.specs.Solved.{Fits};

use crate::Cannot;
use crate::by_name::solve_at;
use crate::fit::fits_at;
use crate::pick::{Pick, choose};
use msp_class::Class;
use msp_instance::Instance;
use msp_pieces::{Solution, cost, settle};
use msp_route::Answer;
use std::alloc::Global;

/// The solution in the form in which it is reported.
pub(crate) fn settled(inst: &Instance, solution: Solution) -> Solution
    requires inner { Inner inst.now }
    requires best { IsBest inst.now solution }
    requires within { Within inst.now solution.schedule }
    ensures best { IsBest inst.now result }
    ensures within { Within inst.now result.schedule }
    ensures settled { IsSettled result.schedule }
    ensures lowest { IsLowest result.cost }
{
    let mut schedule = solution.schedule;
    settle(&mut schedule);
    let least = cost(inst, &schedule);
    Solution {
        schedule,
        cost: least,
    }
}

/// The answer to an instance for which a solver is picked, where the instance fits it.
fn answer(alloc: Global, inst: &Instance, pick: Pick) -> Result<Answer, Cannot>
    requires inner { Inner inst.now }
    requires route { IsRoute inst.now.class pick }
    ensures chain { IfOk result (λ a. a.chain ≡ pick.chain) }
    ensures target { IfOk result (λ a. a.target ≡ pick.entry.class) }
    ensures solver { IfOk result (λ a. a.solver ≡ pick.entry.solver) }
    ensures fits { IfOk result (λ a. Fits pick.entry.solver (carried pick.chain.rows inst.now)) }
    ensures solution { IfOk result (λ a. IsReported inst.now a.solution) }
    ensures fault { IfErr result (IsStopped inst.now pick) }
{
    if !fits_at(alloc, inst, &pick.chain.rows, pick.entry.solver)? {
        return Err(Cannot::Unfit {
            class: pick.entry.class,
        });
    }
    let solution = solve_at(alloc, inst, &pick.chain.rows, pick.entry.solver)?;
    Ok(Answer {
        chain: pick.chain,
        target: pick.entry.class,
        solver: pick.entry.solver,
        solution: settled(inst, solution),
    })
}

/// A best solution of the instance: at the class that is asked for, or else at the first of the list to which carrying rows lead.
pub fn solve_any(alloc: Global, inst: &Instance, at: Option<Class>) -> Result<Answer, Cannot>
    requires { InClass inst.now }
    ensures answer { IfOk result (IsAnswered inst.now at) }
    ensures fault { IfErr result (IsFault inst.now at) }
{
    match choose(alloc, inst.class, at) {
        Err(fault) => Err(fault),
        Ok(pick) => answer(alloc, inst, pick),
    }
}
