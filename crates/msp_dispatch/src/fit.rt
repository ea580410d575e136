// Whether an instance fits the solver at the end of a chain.
ghost use Rattle.std.specs.Prelude.{◌↔◌, IfOk, IsTrue};
ghost use Rattle.msp_instance.specs.Conditions.{Inner};
ghost use Rattle.msp_carry.specs.Carried.{carried, IsChainTo};
ghost use Rattle.msp_dispatch.specs.Pick.{IsLedTo};
ghost use Rattle.msp_dispatch.specs.Solved.{Fits};

use msp_carry::carry;
use msp_class::{List, NoMemory};
use msp_instance::Instance;
use msp_route::{Solver, SolverName};
use msp_table::Row;
use msp_uniform::UniformCut;
use msp_weighted::LateTable;
use std::alloc::Global;

/// Whether the instance at the end of the chain fits the solver. Along no row it is the instance itself.
fn fits_along<S: Solver>(
    alloc: Global,
    inst: &Instance,
    rows: &List<Row>,
    solver: &S,
) -> Result<bool, NoMemory>
    requires inner { Inner inst.now }
    requires chain { IsChainTo inst.now rows.now (S.solved solver.now) }
    requires asked { S.may_ask solver.now (carried rows.now inst.now) }
    ensures { IfOk result (λ fits. IsTrue fits ↔ S.can_solve solver.now (carried rows.now inst.now)) }
{
    match rows.as_slice() {
        [] => Ok(solver.fits(inst)),
        _ => {
            let last = carry(alloc, inst, rows)?;
            Ok(solver.fits(&last))
        }
    }
}

/// Whether the instance at the end of the chain fits the solver of the name. It is carried there only where a solver has a limit.
#[tactic(auto, unfolding(crate::specs::Pick::class_of))]
pub(crate) fn fits_at(
    alloc: Global,
    inst: &Instance,
    rows: &List<Row>,
    name: SolverName,
) -> Result<bool, NoMemory>
    requires inner { Inner inst.now }
    requires chain { IsLedTo inst.now rows.now name }
    ensures { IfOk result (λ fits. IsTrue fits ↔ Fits name (carried rows.now inst.now)) }
{
    match name {
        SolverName::UniformCut => fits_along(alloc, inst, rows, &UniformCut),
        SolverName::LateTable => fits_along(alloc, inst, rows, &LateTable),
        _ => Ok(true),
    }
}
