// One slice is cut off the square.
ghost use Rattle.std.specs.Prelude.{◌≡◌, ◌<◌, ◌≤◌, IfOk};
ghost use Rattle.msp_timetable.specs.Square.{IsSquare, IsPermuted, IsLeastUsed, IsEntries, IsTaken, IsCut};
ghost use Rattle.msp_timetable.specs.Steps.{used_in};

use crate::square::{Square, place};
use msp_class::List;
use std::alloc::{AllocError, Global};

/// What a slice uses of a cell: the part of the matrix, and the padding once that is used up.
fn in_use(square: &Square, row: usize, column: usize) -> u128
    requires square { IsSquare square.now }
    requires row { row < square.now.size }
    requires column { column < square.now.size }
    ensures { result ≡ used_in square.now row column }
{
    let at = place(square.size, square.size, row, column);
    if square.given[at] > 0 {
        return square.given[at];
    }
    square.padding[at]
}

/// The longest slice that these columns allow.
pub fn longest(square: &Square, columns: &[u32]) -> u128
    requires square { IsSquare square.now }
    requires permuted { IsPermuted square.now.size columns.now }
    requires some { 1 ≤ square.now.size }
    ensures { IsLeastUsed square.now columns.now result }
{
    let mut least = in_use(square, 0, columns[0] as usize);
    for row in 1..square.size {
        least = least.min(in_use(square, row, columns[row] as usize));
    }
    least
}

/// The columns of the rows of the matrix, where they use their part of it.
pub fn entries(
    alloc: Global,
    square: &Square,
    columns: &[u32],
    rows: u32,
    none: u32,
) -> Result<List<u32>, AllocError>
    requires square { IsSquare square.now }
    requires permuted { IsPermuted square.now.size columns.now }
    requires rows { rows ≤ square.now.size }
    ensures { IfOk result (λ entries. IsEntries square.now rows none columns.now entries) }
{
    let mut entries = Vec::new(alloc);
    for row in 0..rows as usize {
        let column = columns[row];
        let at = place(square.size, square.size, row, column as usize);
        if square.given[at] > 0 {
            entries.push(column)?;
        } else {
            entries.push(none)?;
        }
    }
    Ok(List::from_vec(entries))
}

/// Takes the length off what the cell has in use.
fn take(square: &mut Square, row: usize, column: usize, length: u128)
    requires square { IsSquare square.old }
    requires row { row < square.old.size }
    requires column { column < square.old.size }
    requires enough { length ≤ used_in square.old row column }
    ensures { IsTaken square.old square.new row column length }
{
    let at = place(square.size, square.size, row, column);
    if square.given[at] > 0 {
        square.given[at] -= length;
    } else {
        square.padding[at] -= length;
    }
}

/// Takes a slice of this length off the square.
pub fn cut(square: &mut Square, columns: &[u32], length: u128)
    requires square { IsSquare square.old }
    requires permuted { IsPermuted square.old.size columns.now }
    requires least { IsLeastUsed square.old columns.now length }
    requires positive { 0 < length }
    ensures { IsCut square.old square.new columns.now length }
{
    for row in 0..square.size {
        take(square, row, columns[row] as usize, length);
    }
}
