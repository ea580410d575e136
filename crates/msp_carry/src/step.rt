// One row: down to the lower instance, and back from it.
ghost use Rattle.std.specs.Prelude.{◌≡◌, IfOk};
ghost use Rattle.msp_instance.specs.Conditions.{Inner};
ghost use Rattle.msp_route.specs.Law.{Applies, IsLower};
ghost use Rattle.msp_carry.specs.Steps.{ComesFrom, IsBroughtBack};

use msp_class::NoMemory;
use msp_instance::Instance;
use msp_pieces::Solution;
use msp_route::Reduction;
use std::alloc::Global;

/// The lower instance.
pub(crate) fn step_down<R: Reduction>(
    reduction: &R,
    alloc: Global,
    inst: &Instance,
) -> Result<Instance, NoMemory>
    requires inner { Inner inst.now }
    requires applies { Applies (R.number reduction.now) inst.now }
    ensures same { IfOk result (λ j. j ≡ R.lower_of reduction.now inst.now) }
    ensures led { IfOk result (λ j. IsLower (R.number reduction.now) inst.now j) }
{
    reduction.down(alloc, inst)
}

/// A solution of the instance from one of the lower instance, a best one from a best one.
pub(crate) fn step_back<R: Reduction>(
    reduction: &R,
    alloc: Global,
    inst: &Instance,
    solution: Solution,
) -> Result<Solution, NoMemory>
    requires { ComesFrom (R.number reduction.now) inst.now (R.lower_of reduction.now inst.now) solution }
    ensures { IfOk result (λ s. IsBroughtBack (R.number reduction.now) inst.now (R.lower_of reduction.now inst.now) solution s) }
{
    reduction.back(alloc, inst, solution)
}
