// A matrix is split into slices.
ghost use Rattle.std.specs.Prelude.{◌<◌, ◌≤◌, IfOk};
ghost use Rattle.msp_class.specs.declared.sizes.TheConstants.{MOST_JOBS, MOST_MACHINES};
ghost use Rattle.msp_timetable.specs.Limits.{AreLimits};
ghost use Rattle.msp_timetable.specs.Split.{IsMatrix, IsSplit};
ghost use Rattle.msp_timetable.specs.Square.{IsPermuted, IsOwners};
ghost use Rattle.msp_timetable.specs.Steps.{SplitsSoFar};

use crate::cutting::{cut, entries, longest};
use crate::filling::fill;
use crate::matching::match_rows;
use crate::matrix::{Matrix, Slice};
use crate::search::Seats;
use crate::square::Square;
use msp_class::{List, MOST_JOBS, MOST_MACHINES, NoMemory};
use std::alloc::{AllocError, Global};

/// The most rows.
pub const MOST_ROWS: u32 = MOST_MACHINES;
/// The most columns.
pub const MOST_COLUMNS: u32 = MOST_JOBS as u32;

/// The limits by their numbers.
pub fn law_of_limits()
    ensures { AreLimits }
{}

/// Each row at the column of its number.
fn first_seats(alloc: Global, size: usize) -> Result<Seats, AllocError>
    requires { size ≤ MOST_JOBS }
    ensures permuted { IfOk result (λ seats. IsPermuted size seats.columns.items) }
    ensures owners { IfOk result (λ seats. IsOwners size seats.columns.items seats.owner.items) }
{
    let mut columns = Vec::new(alloc);
    let mut owner = Vec::new(alloc);
    for line in 0..size {
        columns.push(line as u32)?;
        owner.push(line)?;
    }
    Ok(Seats { columns, owner })
}

/// Cuts off one more slice, and says what is left.
fn next_slice(
    alloc: Global,
    matrix: &Matrix,
    square: &mut Square,
    seats: &mut Seats,
    slices: &mut Vec<Slice>,
    left: u128,
) -> Result<u128, AllocError>
    requires some { 1 ≤ matrix.now.rows }
    requires splitting { SplitsSoFar matrix.now square.old seats.old slices.old.items left }
    requires left { 0 < left }
    ensures splitting { IfOk result (λ after. SplitsSoFar matrix.now square.new seats.new slices.new.items after) }
    ensures less { IfOk result (λ after. after < left) }
{
    match_rows(alloc, square, seats)?;
    let columns = seats.columns.as_slice();
    let length = longest(square, columns);
    let column = entries(alloc, square, columns, matrix.rows, matrix.columns)?;
    cut(square, columns, length);
    slices.push(Slice {
        length: length as i128,
        column,
    })?;
    Ok(left - length)
}

/// The slices of a matrix.
fn cut_all(alloc: Global, matrix: &Matrix) -> Result<Vec<Slice>, AllocError>
    requires matrix { IsMatrix matrix.now }
    requires some_rows { 1 ≤ matrix.now.rows }
    requires few_rows { matrix.now.rows ≤ MOST_MACHINES }
    requires some_columns { 1 ≤ matrix.now.columns }
    requires few_columns { matrix.now.columns ≤ MOST_JOBS }
    ensures { IfOk result (λ slices. IsSplit matrix.now slices.items) }
{
    let filled = fill(alloc, matrix)?;
    let mut left = filled.greatest;
    let mut square = filled.square;
    let mut seats = first_seats(alloc, square.size)?;
    let mut slices = Vec::new(alloc);
    'slices: while left > 0 {
        left = next_slice(alloc, matrix, &mut square, &mut seats, &mut slices, left)?;
    }
    Ok(slices)
}

/// Splits a matrix into slices: in a square that is filled up with padding, each slice gives every row a column in which it holds
/// something, and lasts until a cell is used up (Gonzalez and Sahni 1976).
pub fn split(alloc: Global, matrix: &Matrix) -> Result<List<Slice>, NoMemory>
    requires matrix { IsMatrix matrix.now }
    requires some_rows { 1 ≤ matrix.now.rows }
    requires few_rows { matrix.now.rows ≤ MOST_ROWS }
    requires some_columns { 1 ≤ matrix.now.columns }
    requires few_columns { matrix.now.columns ≤ MOST_COLUMNS }
    ensures { IfOk result (IsSplit matrix.now) }
{
    Ok(List::from_vec(cut_all(alloc, matrix)?))
}
