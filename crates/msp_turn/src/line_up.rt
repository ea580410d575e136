// Jobs on one machine one after another without gaps, over any unit.
ghost use Rattle.std.specs.Prelude.{◌≡◌, length, pos, ◌≤ℤ◌, IfOk, IsPermutation};
ghost use Rattle.std.specs.List.{range_with_len};
ghost use Rattle.msp_class.specs.declared.class.Env.TheVariants.{One};
ghost use Rattle.msp_instance.specs.Conditions.{Inner};
ghost use Rattle.msp_class.specs.declared.sizes.TheConstants.{GREATEST_UNIT};
ghost use Rattle.msp_pieces.specs.Feasible.{Feasible};
ghost use Rattle.msp_pieces.specs.LineUp.{lined_up};
ghost use Rattle.msp_turn.specs.LinedUp.{IsLinedUp};

use msp_class::NoMemory;
use msp_instance::Instance;
use msp_pieces::{Schedule, Solution};
use msp_route::pieces_back_to_back;
use std::alloc::Global;

/// The solution in which the jobs run one after another from moment 0 on.
pub(crate) fn line_up(
    alloc: Global,
    inst: &Instance,
    unit: u128,
    order: &[u32],
) -> Result<Solution, NoMemory>
    requires inner { Inner inst.now }
    requires machine { inst.now.class.env ≡ One }
    requires unit { pos unit ≤ℤ GREATEST_UNIT }
    requires all { IsPermutation (range_with_len 0 (length inst.now.jobs)) order.now }
    requires feasible { Feasible inst.now (lined_up inst.now unit order.now) }
    ensures { IfOk result (λ s. IsLinedUp inst.now unit order.now s) }
{
    let pieces = pieces_back_to_back(alloc, inst, unit, order)?;
    let schedule = Schedule {
        unit: unit as i128,
        pieces,
    };
    let cost = msp_pieces::cost(inst, &schedule);
    Ok(Solution { schedule, cost })
}
