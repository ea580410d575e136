// A table of costs that is stored whole.
ghost use Rattle.std.specs.Prelude.{◌≡◌, ◌*◌, ◌+◌, pos, length, slice_index_or};

use crate::Costs;
use msp_class::List;

/// Costs that stand in a list, row after row.
#[derive(Drop)]
pub struct Stored {
    pub rows: u32,
    pub columns: u32,
    pub cells: List<i128>,
    ghost whole: { length cells ≡ rows * columns },
}

impl Costs for Stored {
    ghost row_count = { λ s. s.rows };

    ghost column_count = { λ s. s.columns };

    ghost cost = { λ s r c. slice_index_or s.cells (r * s.columns + c) (pos 0) };

    fn rows(&self) -> u32 {
        self.rows
    }

    fn columns(&self) -> u32 {
        self.columns
    }

    fn at(&self, row: u32, column: u32) -> i128 {
        let place = u64::from(row) * u64::from(self.columns) + u64::from(column);
        self.cells.as_slice()[place as usize]
    }
}
