// The columns in view, as a table of their own.
ghost use Rattle.std.specs.Prelude.{◌<◌, length};
ghost use Rattle.msp_class.specs.declared.list.TheConstants.{PLACES};
ghost use Rattle.msp_assign.specs.View.{AreInside, seen};

use crate::column::Column;
use crate::{Costs, Lines};

/// The costs of the columns in view, in the order in which they came into view.
#[derive(Drop)]
pub struct View<'a, L: Lines> {
    pub costs: &'a L,
    pub columns: &'a [Column],
    ghost inside: { AreInside (L.line_count costs.now) (L.line_length costs.now) columns.now },
    ghost few: { length columns.now < PLACES },
}

impl<'a, L: Lines> Costs for View<'a, L> {
    ghost row_count = { λ v. L.row_count v.costs.now };

    ghost column_count = { λ v. length v.columns.now };

    ghost cost = { λ v. seen (L.cost v.costs.now) (L.line_length v.costs.now) v.columns.now };

    fn rows(&self) -> u32 {
        self.costs.rows()
    }

    fn columns(&self) -> u32 {
        self.columns.len() as u32
    }

    fn at(&self, row: u32, column: u32) -> i128 {
        let Column { line, place } = self.columns[column as usize];
        self.costs.on_line(row, line, place)
    }
}
