// The square is filled: the matrix, and padding that brings each line to the greatest sum of a line.
ghost use Rattle.std.specs.Prelude.{◌≡◌, ◌+◌, ◌*◌, ◌<◌, ◌≤◌, ℕ, IfOk, length};
ghost use Rattle.msp_class.specs.declared.sizes.TheConstants.{MOST_JOBS, MOST_MACHINES};
ghost use Rattle.msp_class.specs.Sums.{total_below};
ghost use Rattle.msp_assign.specs.Passing.{at};
ghost use Rattle.msp_timetable.specs.Split.{greatest_sum, IsMatrix};
ghost use Rattle.msp_timetable.specs.Square.{cell_at, stocks, row_total, column_total, IsSpread, IsSpreadRow, HasSmallLines, IsGreatest, IsLacking, IsPadding, IsFilled};
ghost use Rattle.msp_timetable.specs.Steps.{FillsCorner, HasRoomFor};

use crate::matrix::Matrix;
use crate::square::{Square, place};
use std::alloc::{AllocError, Global};

/// A square of zeros.
fn zeros(alloc: Global, size: usize) -> Result<Vec<u128>, AllocError>
    requires { size ≤ MOST_JOBS }
    ensures length { IfOk result (λ list. length list.items ≡ size * size) }
    ensures zeros { IfOk result (λ list. (k : ℕ) → at list.items k ≡ 0) }
    ensures none { IfOk result (λ list. stocks list.items ≡ 0) }
{
    vec![in alloc; 0; size * size]
}

/// Copies a row of the matrix.
fn spread_row(given: &mut [u128], matrix: &Matrix, size: usize, row: usize)
    requires matrix { IsMatrix matrix.now }
    requires few_rows { matrix.now.rows ≤ MOST_MACHINES }
    requires few_columns { matrix.now.columns ≤ MOST_JOBS }
    requires small { size ≤ MOST_JOBS }
    requires rows { matrix.now.rows ≤ size }
    requires columns { matrix.now.columns ≤ size }
    requires row { row < matrix.now.rows }
    requires given { length given.old ≡ size * size }
    ensures { IsSpreadRow size matrix.now row given.old given.new }
{
    let rows = matrix.rows as usize;
    let columns = matrix.columns as usize;
    for column in 0..columns {
        let from = place(rows, columns, row, column);
        given[place(size, size, row, column)] = matrix.cells.as_slice()[from].unsigned_abs();
    }
}

/// The matrix in the upper left of the square.
fn spread(alloc: Global, matrix: &Matrix, size: usize) -> Result<Vec<u128>, AllocError>
    requires matrix { IsMatrix matrix.now }
    requires few_rows { matrix.now.rows ≤ MOST_MACHINES }
    requires few_columns { matrix.now.columns ≤ MOST_JOBS }
    requires small { size ≤ MOST_JOBS }
    requires rows { matrix.now.rows ≤ size }
    requires columns { matrix.now.columns ≤ size }
    ensures { IfOk result (λ given. IsSpread size matrix.now given.items) }
{
    let mut list = zeros(alloc, size)?;
    let given = list.as_mut_slice();
    for row in 0..matrix.rows as usize {
        spread_row(given, matrix, size, row);
    }
    Ok(list)
}

/// What a row of the square adds up to.
fn row_sum(given: &[u128], size: usize, row: usize) -> u128
    requires given { length given.now ≡ size * size }
    requires small { size ≤ MOST_JOBS }
    requires row { row < size }
    requires few { row_total size given.now row ≤ greatest_sum }
    ensures { result ≡ row_total size given.now row }
{
    let mut sum = 0;
    for column in 0..size {
        sum += given[place(size, size, row, column)];
    }
    sum
}

/// What a column of the square adds up to.
fn column_sum(given: &[u128], size: usize, column: usize) -> u128
    requires given { length given.now ≡ size * size }
    requires small { size ≤ MOST_JOBS }
    requires column { column < size }
    requires few { column_total size given.now column ≤ greatest_sum }
    ensures { result ≡ column_total size given.now column }
{
    let mut sum = 0;
    for row in 0..size {
        sum += given[place(size, size, row, column)];
    }
    sum
}

/// The greatest sum of a row or a column.
fn greatest(given: &[u128], size: usize) -> u128
    requires given { length given.now ≡ size * size }
    requires small { size ≤ MOST_JOBS }
    requires few { HasSmallLines size given.now }
    ensures { IsGreatest size given.now result }
{
    let mut most = 0;
    for line in 0..size {
        let both = row_sum(given, size, line).max(column_sum(given, size, line));
        most = both.max(most);
    }
    most
}

/// How much the rows and the columns lack to the greatest sum.
#[derive(Drop)]
pub struct Lacks {
    pub rows: Vec<u128>,
    pub columns: Vec<u128>,
}

/// How much each line lacks.
fn compare(alloc: Global, given: &[u128], size: usize, greatest: u128) -> Result<Lacks, AllocError>
    requires given { length given.now ≡ size * size }
    requires small { size ≤ MOST_JOBS }
    requires few { HasSmallLines size given.now }
    requires greatest { IsGreatest size given.now greatest }
    ensures { IfOk result (λ lacks. IsLacking size given.now greatest lacks.rows.items lacks.columns.items) }
{
    let mut rows = Vec::new(alloc);
    let mut columns = Vec::new(alloc);
    for line in 0..size {
        rows.push(greatest - row_sum(given, size, line))?;
        columns.push(greatest - column_sum(given, size, line))?;
    }
    Ok(Lacks { rows, columns })
}

/// Fills a cell with what its row and its column both lack, and says whether the row lacks nothing more.
fn fill_corner(
    padding: &mut Vec<u128>,
    lacks: &mut Lacks,
    size: usize,
    row: usize,
    column: usize,
) -> bool
    requires small { size ≤ MOST_JOBS }
    requires padding { length padding.old.items ≡ size * size }
    requires rows { length lacks.old.rows.items ≡ size }
    requires columns { length lacks.old.columns.items ≡ size }
    requires row { row < size }
    requires column { column < size }
    requires few { cell_at size padding.old.items row column + at lacks.old.rows.items row ≤ greatest_sum }
    ensures { FillsCorner size row column padding.old.items lacks.old padding.new.items lacks.new result }
{
    let both = lacks.rows[row].min(lacks.columns[column]);
    padding[place(size, size, row, column)] += both;
    lacks.rows[row] -= both;
    lacks.columns[column] -= both;
    lacks.rows[row] == 0
}

/// Fills what the lines lack, from one corner to the other.
fn pad(alloc: Global, size: usize, lacks: &mut Lacks) -> Result<Vec<u128>, AllocError>
    requires small { size ≤ MOST_JOBS }
    requires rows { length lacks.old.rows.items ≡ size }
    requires columns { length lacks.old.columns.items ≡ size }
    requires same { total_below size (at lacks.old.rows.items) ≡ total_below size (at lacks.old.columns.items) }
    requires few { (r : ℕ) → r < size → at lacks.old.rows.items r ≤ greatest_sum }
    ensures { IfOk result (λ padding. IsPadding size lacks.old.rows.items lacks.old.columns.items padding.items) }
{
    let mut padding = zeros(alloc, size)?;
    let mut row = 0;
    let mut column = 0;
    'corners: while row < size && column < size {
        if fill_corner(&mut padding, lacks, size, row, column) {
            row += 1;
        } else {
            column += 1;
        }
    }
    Ok(padding)
}

/// The matrix in a square, with padding that brings each line to the greatest sum of a line.
#[derive(Drop)]
pub struct Filled {
    pub square: Square,
    pub greatest: u128,
}

/// Fills the square for a matrix.
pub fn fill(alloc: Global, matrix: &Matrix) -> Result<Filled, AllocError>
    requires matrix { IsMatrix matrix.now }
    requires some { 1 ≤ matrix.now.rows }
    requires few_rows { matrix.now.rows ≤ MOST_MACHINES }
    requires few_columns { matrix.now.columns ≤ MOST_JOBS }
    ensures filled { IfOk result (λ f. IsFilled matrix.now f.square f.greatest) }
    ensures size { IfOk result (λ f. HasRoomFor matrix.now f.square) }
{
    let size = matrix.rows.max(matrix.columns) as usize;
    let given = spread(alloc, matrix, size)?;
    let greatest = greatest(given.as_slice(), size);
    let mut lacks = compare(alloc, given.as_slice(), size, greatest)?;
    let padding = pad(alloc, size, &mut lacks)?;
    let square = Square {
        size,
        given,
        padding,
    };
    Ok(Filled { square, greatest })
}
