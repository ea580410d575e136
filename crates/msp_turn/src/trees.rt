// The rows between intrees and outtrees by reversal.
ghost use Rattle.std.specs.Prelude.{pos, refl};
ghost use Rattle.msp_route.specs.Changes.{same_costs};
ghost use Rattle.msp_turn.specs.Reversal.{led_turned, reversed_for};
ghost use Rattle.msp_turn.specs.laws.ReversalLaw.{IsPositive-raised, IsForth-reversed, IsBack-reversed};
ghost use Rattle.msp_turn.specs.laws.ReversalRows.{reversal_45, reversal_46};

use crate::arcs::led_turned;
use crate::reversal::reversed;
use msp_class::NoMemory;
use msp_instance::Instance;
use msp_pieces::Solution;
use msp_route::Reduction;
use msp_table::Row;
use std::alloc::Global;

/// A schedule of an intree is one of an outtree when it is read from its end (Lageweg, Lawler, Lenstra and Rinnooy Kan 1982).
#[derive(Clone, Copy)]
pub struct Row45;

impl Reduction for Row45 {
    ghost number = { λ self. 45 };

    ghost lower_of = { λ self. led_turned 45 };

    ghost rate = { λ self i. same_costs };

    ghost forth = { λ self i s. reversed_for (led_turned 45 i) s };

    ghost upper = { λ self. reversed_for };

    fn row(&self) -> Row {
        Row::new(45).unwrap()
    }

    fn down(&self, alloc: Global, inst: &Instance) -> Result<Instance, NoMemory> {
        led_turned(alloc, inst, self.row())
    }

    fn back(&self, _alloc: Global, inst: &Instance, lower: Solution) -> Result<Solution, NoMemory> {
        Ok(reversed(inst, lower))
    }

    ghost lower_is = { λ self i inner applies. (reversal_45 i inner applies).lower };

    ghost rate_of_row = { λ self i. refl };

    ghost rate_is = { λ self i inner applies. IsPositive-raised (pos 0) };

    ghost forth_is = { λ self i s inner applies. IsForth-reversed (reversal_45 i inner applies).reverse inner s };

    ghost back_is = { λ self i s inner applies. IsBack-reversed (reversal_45 i inner applies).reverse (reversal_45 i inner applies).lower.inner s };
}

/// A schedule of an outtree is one of an intree when it is read from its end (Lageweg, Lawler, Lenstra and Rinnooy Kan 1982).
#[derive(Clone, Copy)]
pub struct Row46;

impl Reduction for Row46 {
    ghost number = { λ self. 46 };

    ghost lower_of = { λ self. led_turned 46 };

    ghost rate = { λ self i. same_costs };

    ghost forth = { λ self i s. reversed_for (led_turned 46 i) s };

    ghost upper = { λ self. reversed_for };

    fn row(&self) -> Row {
        Row::new(46).unwrap()
    }

    fn down(&self, alloc: Global, inst: &Instance) -> Result<Instance, NoMemory> {
        led_turned(alloc, inst, self.row())
    }

    fn back(&self, _alloc: Global, inst: &Instance, lower: Solution) -> Result<Solution, NoMemory> {
        Ok(reversed(inst, lower))
    }

    ghost lower_is = { λ self i inner applies. (reversal_46 i inner applies).lower };

    ghost rate_of_row = { λ self i. refl };

    ghost rate_is = { λ self i inner applies. IsPositive-raised (pos 0) };

    ghost forth_is = { λ self i s inner applies. IsForth-reversed (reversal_46 i inner applies).reverse inner s };

    ghost back_is = { λ self i s inner applies. IsBack-reversed (reversal_46 i inner applies).reverse (reversal_46 i inner applies).lower.inner s };
}
