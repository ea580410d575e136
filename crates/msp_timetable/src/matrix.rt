// Matrices of times, and slices.
use msp_class::List;

/// A matrix of times. The cell of row `i` and column `j` stands at `i * columns + j`.
#[derive(Drop)]
pub struct Matrix {
    pub rows: u32,
    pub columns: u32,
    pub cells: List<i128>,
}

/// A time in which each row has one column or none.
#[derive(Drop)]
pub struct Slice {
    pub length: i128,
    /// The column of each row, or the number of columns for none.
    pub column: List<u32>,
}
