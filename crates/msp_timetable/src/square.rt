// A square of cells that hold two stocks each.
ghost use Rattle.std.specs.Prelude.{◌≡◌, ◌↔◌, ◌+◌, ◌*◌, ◌<◌, ◌≤◌, IsTrue};
ghost use Rattle.msp_class.specs.declared.sizes.TheConstants.{MOST_JOBS};
ghost use Rattle.msp_timetable.specs.Square.{stock, IsSquare};

/// A square with as many lines as the longer side of the matrix. The padding fills each line up to the greatest sum of a line.
#[derive(Drop)]
pub struct Square {
    pub size: usize,
    pub given: Vec<u128>,
    pub padding: Vec<u128>,
}

/// Where a cell stands in a list of rows.
pub fn place(rows: usize, columns: usize, row: usize, column: usize) -> usize
    requires few_rows { rows ≤ MOST_JOBS }
    requires few_columns { columns ≤ MOST_JOBS }
    requires row { row < rows }
    requires column { column < columns }
    ensures place { result ≡ row * columns + column }
    ensures inside { result < rows * columns }
{
    row * columns + column
}

/// Whether the cell holds any stock.
pub fn has_stock(square: &Square, row: usize, column: usize) -> bool
    requires square { IsSquare square.now }
    requires row { row < square.now.size }
    requires column { column < square.now.size }
    ensures { IsTrue result ↔ (0 < stock square.now row column) }
{
    let at = place(square.size, square.size, row, column);
    square.given[at] > 0 || square.padding[at] > 0
}
