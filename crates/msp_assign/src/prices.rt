// The columns of the rows by their numbers, and the prices.
ghost use Rattle.std.specs.Prelude.{◌≡◌, ◌*◌, ◌<◌, ◌≤◌, ℕ, All, IfOk, length};
ghost use Rattle.msp_class.specs.declared.list.TheConstants.{PLACES};
ghost use Rattle.msp_assign.specs.Passing.{at};
ghost use Rattle.msp_assign.specs.Search.{greatest_charge, HasCharges, sizes, IsRowPrices};
ghost use Rattle.msp_assign.specs.View.{number_of, AreInside, AreNumbers, AreColumnPrices};

use crate::Costs;
use crate::column::Column;
use crate::search::payment;
use msp_class::List;
use std::alloc::{AllocError, Global};

/// The number of the column, where each line has so many.
fn number_of(column: Column, lines: u32, long: u32) -> u32
    requires line { column.line < lines }
    requires place { column.place < long }
    requires all { lines * long < PLACES }
    ensures value { result ≡ number_of long column }
    ensures inside { result < lines * long }
{
    column.line * long + column.place
}

/// The numbers of the columns that the rows have.
pub fn numbers(
    alloc: Global,
    columns: &[Column],
    column_of: &[u32],
    lines: u32,
    long: u32,
) -> Result<List<u32>, AllocError>
    requires columns { AreInside lines long columns.now }
    requires all { lines * long < PLACES }
    requires inside { All (λ c. c < length columns.now) column_of.now }
    ensures { IfOk result (AreNumbers long columns.now column_of.now) }
{
    let mut numbers = Vec::new(alloc);
    for row in 0..column_of.len() {
        let column = columns[column_of[row] as usize];
        numbers.push(number_of(column, lines, long))?;
    }
    Ok(List::from_vec(numbers))
}

/// The prices of the rows: what each pays at its column.
pub fn row_prices<C: Costs>(
    alloc: Global,
    costs: &C,
    falls: &[u128],
    column_of: &[u32],
) -> Result<List<i128>, AllocError>
    requires costs { HasCharges (C.row_count costs.now) (C.column_count costs.now) (C.cost costs.now) }
    requires falls { length falls.now ≡ C.column_count costs.now }
    requires low { (c : ℕ) → c < C.column_count costs.now → at falls.now c ≤ greatest_charge }
    requires rows { length column_of.now ≡ C.row_count costs.now }
    requires few { length column_of.now < PLACES }
    requires inside { All (λ c. c < C.column_count costs.now) column_of.now }
    ensures { IfOk result (λ prices. IsRowPrices (sizes (C.cost costs.now)) falls.now column_of.now prices) }
{
    let mut prices = Vec::new(alloc);
    for row in 0..column_of.len() {
        let price = payment(costs, falls, row as u32, column_of[row]);
        prices.push(price as i128)?;
    }
    Ok(List::from_vec(prices))
}

/// The prices of all columns: those in view are so far below 0, and the others 0.
pub fn column_prices(
    alloc: Global,
    columns: &[Column],
    falls: &[u128],
    lines: u32,
    long: u32,
) -> Result<List<i128>, AllocError>
    requires columns { AreInside lines long columns.now }
    requires all { lines * long < PLACES }
    requires falls { length falls.now ≡ length columns.now }
    requires low { (c : ℕ) → c < length falls.now → at falls.now c ≤ greatest_charge }
    ensures { IfOk result (AreColumnPrices (lines * long) long columns.now falls.now) }
{
    let mut prices = vec![in alloc; 0; (lines * long) as usize]?;
    for k in 0..columns.len() {
        let number = number_of(columns[k], lines, long);
        prices[number as usize] = -(falls[k] as i128);
    }
    Ok(List::from_vec(prices))
}
