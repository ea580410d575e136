// The solution of a schedule that is best.
ghost use Rattle.std.specs.Prelude.{◌≡◌};
ghost use Rattle.msp_instance.specs.Conditions.{Inner};
ghost use Rattle.msp_pieces.specs.Cost.{IsBest, cost_of};
ghost use Rattle.msp_pieces.specs.Fraction.{IsOver, IsLowest};
ghost use Rattle.msp_route.specs.Bounds.{IsAnswer, IsBestAnswer};

use msp_instance::Instance;
use msp_pieces::{Schedule, Solution};

/// The best schedule, with its cost in lowest terms: for the solvers that make a schedule first.
pub fn best_solution(inst: &Instance, schedule: Schedule) -> Solution
    requires inner { Inner inst.now }
    requires best { IsBestAnswer inst.now schedule }
    ensures schedule { result.schedule ≡ schedule }
    ensures best { IsBest inst.now result }
    ensures bounds { IsAnswer inst.now result.schedule }
    ensures cost { IsOver result.cost (cost_of inst.now schedule) schedule.unit }
    ensures lowest { IsLowest result.cost }
{
    let cost = msp_pieces::cost(inst, &schedule);
    Solution { schedule, cost }
}
