// Costs raised by prices to begin from.
ghost use Rattle.std.specs.Prelude.{length};
ghost use Rattle.msp_assign.specs.Prices.{AreFalls, HasCosts};
ghost use Rattle.msp_assign.specs.Square.{raised};

use crate::Costs;

/// The costs, at each column more by as much as its price begins below 0.
#[derive(Drop)]
pub struct Raised<'a, C: Costs> {
    pub costs: &'a C,
    pub begun: &'a [u128],
    ghost charged: { HasCosts (C.row_count costs.now) (C.column_count costs.now) (C.cost costs.now) },
    ghost low: { AreFalls (C.column_count costs.now) begun.now },
}

impl<'a, C: Costs> Costs for Raised<'a, C> {
    ghost row_count = { λ s. C.row_count s.costs.now };

    ghost column_count = { λ s. C.column_count s.costs.now };

    ghost cost = { λ s. raised (C.cost s.costs.now) s.begun.now };

    fn rows(&self) -> u32 {
        self.costs.rows()
    }

    fn columns(&self) -> u32 {
        self.costs.columns()
    }

    fn at(&self, row: u32, column: u32) -> i128 {
        self.costs.at(row, column) + self.begun[column as usize] as i128
    }
}
