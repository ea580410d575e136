// Each row gets a column in which it holds stock.
ghost use Rattle.std.specs.Prelude.{◌≡◌, ◌<◌, ℕ, OnOk, length};
ghost use Rattle.msp_assign.specs.Passing.{at};
ghost use Rattle.msp_timetable.specs.Square.{stock, IsSquare, IsBalanced, IsPermuted, IsOwners};
ghost use Rattle.msp_timetable.specs.Steps.{Betters, HoldStock};

use crate::search::{Seats, find};
use crate::square::{Square, has_stock};
use msp_assign::pass_on;
use std::alloc::{AllocError, Global};

/// Notes the row of each column.
fn note_owners(seats: &mut Seats)
    requires { IsPermuted (length seats.old.owner.items) seats.old.columns.items }
    ensures same { seats.new.columns.items ≡ seats.old.columns.items }
    ensures owners { IsOwners (length seats.old.owner.items) seats.old.columns.items seats.new.owner.items }
{
    for row in 0..seats.columns.len() {
        let column = seats.columns[row] as usize;
        seats.owner[column] = row;
    }
}

/// Gives the row, which holds nothing at its column, a column in which it holds stock: along the way the rows pass on their columns.
fn give(alloc: Global, square: &Square, seats: &mut Seats, row: usize) -> Result<(), AllocError>
    requires square { IsSquare square.now }
    requires permuted { IsPermuted square.now.size seats.old.columns.items }
    requires owners { IsOwners square.now.size seats.old.columns.items seats.old.owner.items }
    requires row { row < square.now.size }
    requires bare { stock square.now row (at seats.old.columns.items row) ≡ 0 }
    requires balanced { (left : ℕ) × (0 < left) × IsBalanced square.now.size (stock square.now) left }
    ensures better { OnOk result (Betters square.now row seats.old seats.new) }
    ensures owners { OnOk result (IsOwners square.now.size seats.new.columns.items seats.new.owner.items) }
{
    let search = find(alloc, square, seats, row)?;
    let last = seats.owner[search.free];
    let columns = seats.columns.as_mut_slice();
    columns.swap(row, last);
    pass_on(columns, search.from.as_slice(), search.tree.as_slice());
    note_owners(seats);
    Ok(())
}

/// Gives each row a column in which it holds stock.
pub fn match_rows(alloc: Global, square: &Square, seats: &mut Seats) -> Result<(), AllocError>
    requires square { IsSquare square.now }
    requires permuted { IsPermuted square.now.size seats.old.columns.items }
    requires owners { IsOwners square.now.size seats.old.columns.items seats.old.owner.items }
    requires balanced { (left : ℕ) × (0 < left) × IsBalanced square.now.size (stock square.now) left }
    ensures permuted { OnOk result (IsPermuted square.now.size seats.new.columns.items) }
    ensures owners { OnOk result (IsOwners square.now.size seats.new.columns.items seats.new.owner.items) }
    ensures stocks { OnOk result (HoldStock square.now seats.new) }
{
    for row in 0..square.size {
        if !has_stock(square, row, seats.columns[row] as usize) {
            give(alloc, square, seats, row)?;
        }
    }
    Ok(())
}
