// The rows between cut and uncut jobs on one machine without release dates. The class alone changes.
ghost use Rattle.std.specs.Prelude.{refl};
ghost use Rattle.msp_route.specs.Changes.{led, same_costs};
ghost use Rattle.msp_route.specs.laws.Stays.{IsPositive-same};
ghost use Rattle.msp_turn.specs.LinedUp.{by_ends};
ghost use Rattle.msp_turn.specs.laws.OneMachine.{lower_49, forth_49, back_49, lower_50, forth_50, back_50};

use crate::ends::order_of_ends;
use crate::line_up::line_up;
use msp_class::NoMemory;
use msp_instance::Instance;
use msp_pieces::Solution;
use msp_route::{Reduction, led};
use msp_table::Row;
use std::alloc::Global;

/// Where jobs may be cut, none needs to be: one after another in the order of their ends they end no later (Conway, Maxwell and Miller
/// 1967).
#[derive(Clone, Copy)]
pub struct Row49;

impl Reduction for Row49 {
    ghost number = { λ self. 49 };

    ghost lower_of = { λ self. led 49 };

    ghost rate = { λ self i. same_costs };

    ghost forth = { λ self. by_ends };

    ghost upper = { λ self i s. s };

    fn row(&self) -> Row {
        Row::new(49).unwrap()
    }

    fn down(&self, alloc: Global, inst: &Instance) -> Result<Instance, NoMemory> {
        led(alloc, inst, self.row())
    }

    fn back(&self, _: Global, _inst: &Instance, lower: Solution) -> Result<Solution, NoMemory> {
        Ok(lower)
    }

    ghost lower_is = { λ self. lower_49 };

    ghost rate_of_row = { λ self i. refl };

    ghost rate_is = { λ self i inner applies. IsPositive-same };

    ghost forth_is = { λ self. forth_49 };

    ghost back_is = { λ self. back_49 };
}

/// Jobs that are not cut serve where jobs may be cut. Back, the jobs are put one after another in the order of their ends (Conway,
/// Maxwell and Miller 1967).
#[derive(Clone, Copy)]
pub struct Row50;

impl Reduction for Row50 {
    ghost number = { λ self. 50 };

    ghost lower_of = { λ self. led 50 };

    ghost rate = { λ self i. same_costs };

    ghost forth = { λ self i s. s };

    ghost upper = { λ self. by_ends };

    fn row(&self) -> Row {
        Row::new(50).unwrap()
    }

    fn down(&self, alloc: Global, inst: &Instance) -> Result<Instance, NoMemory> {
        led(alloc, inst, self.row())
    }

    fn back(&self, alloc: Global, inst: &Instance, lower: Solution) -> Result<Solution, NoMemory> {
        let order = order_of_ends(alloc, inst.jobs.len() as u32, &lower.schedule)?;
        line_up(alloc, inst, lower.schedule.unit.unsigned_abs(), &order)
    }

    ghost lower_is = { λ self. lower_50 };

    ghost rate_of_row = { λ self i. refl };

    ghost rate_is = { λ self i inner applies. IsPositive-same };

    ghost forth_is = { λ self. forth_50 };

    ghost back_is = { λ self. back_50 };
}
