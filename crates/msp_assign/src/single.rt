// Each column as a line of its own.
ghost use Rattle.msp_assign.specs.laws.Single.{single-whole, single-rise};

use crate::{Costs, Lines};

/// Costs of which each column is a line of its own.
#[derive(Drop)]
pub struct Single<'a, C: Costs> {
    pub costs: &'a C,
}

impl<'a, C: Costs> Costs for Single<'a, C> {
    ghost row_count = { λ s. C.row_count s.costs.now };

    ghost column_count = { λ s. C.column_count s.costs.now };

    ghost cost = { λ s. C.cost s.costs.now };

    fn rows(&self) -> u32 {
        self.costs.rows()
    }

    fn columns(&self) -> u32 {
        self.costs.columns()
    }

    fn at(&self, row: u32, column: u32) -> i128 {
        self.costs.at(row, column)
    }
}

impl<'a, C: Costs> Lines for Single<'a, C> {
    ghost line_count = { λ s. C.column_count s.costs.now };

    ghost line_length = { λ _. 1 };

    fn lines(&self) -> u32 {
        self.costs.columns()
    }

    fn length(&self) -> u32 {
        1
    }

    fn on_line(&self, row: u32, line: u32, _place: u32) -> i128 {
        self.costs.at(row, line)
    }

    ghost whole = { λ s. single-whole (C.column_count s.costs.now) };

    ghost rise = { λ s r. single-rise (C.cost s.costs.now r) (C.column_count s.costs.now) };
}
