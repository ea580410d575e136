// As many columns as rows, from prices of the columns to begin with.
//
// Rule: the costs at each column are raised by as much as its price begins below 0, and for those costs rows are placed one after another
// from prices 0: at a free column where the row pays least, of several the last one, else over the shortest way to a free column. At the
// end a column's price is that of the raised costs less what it began with, and the least fall is taken from all.
//
// Least (`proofs/Normal.antt`): what a row pays at a column is the same with the raised costs and their prices as with the costs and both
// together, and one number less everywhere changes no comparison. As many rows as columns have all of them, so no sign is asked of the
// prices that are begun with; and a row pays no more at its own column than where the price is 0, so prices stay within bounds.
ghost use Rattle.std.specs.Prelude.{◌≡◌, ◌+◌, ◌-◌, ◌<◌, ◌≤◌, ◌⊎◌, ℕ, false, Contains, IfOk, IfSome, length};
ghost use Rattle.msp_class.specs.declared.list.TheConstants.{PLACES};
ghost use Rattle.msp_assign.specs.Passing.{at};
ghost use Rattle.msp_assign.specs.declared.assignment.TheConstants.{MOST_ROWS};
ghost use Rattle.msp_assign.specs.Prices.{AreFalls, HasCosts, greatest_fall};
ghost use Rattle.msp_assign.specs.Search.{greatest_charge, HasCharges, sizes, IsPlaced, IsOneMore};
ghost use Rattle.msp_assign.specs.Square.{is_taken, AreMarked, AreNormal, IsCheaper, IsFreeCheapest, IsLeastTogether};
ghost use Rattle.msp_assign.specs.View.{IsPlacement};

use crate::Costs;
use crate::placement::{Placement, first_columns};
use crate::placing::place_row;
use crate::raised::Raised;
use crate::search::payment;
use std::alloc::{AllocError, Global};

/// The least that a row pays at some columns, and the last of those free where it pays so.
#[derive(Clone, Copy)]
pub struct Cheapest {
    pub paid: u128,
    pub column: Option<u32>,
}

/// The same with one column more.
fn cheaper(best: Cheapest, paid: u128, column: u32, taken: bool) -> Cheapest
    ensures { IsCheaper best paid column taken result }
{
    if best.paid < paid {
        return best;
    }
    if !taken {
        return Cheapest {
            paid,
            column: Some(column),
        };
    }
    if best.paid == paid {
        return best;
    }
    Cheapest { paid, column: None }
}

/// The column where the row pays least, if that is free: of several the last free one.
fn cheapest_free<C: Costs>(costs: &C, falls: &[u128], row: u32, taken: &[bool]) -> Option<u32>
    requires costs { HasCharges (C.row_count costs.now) (C.column_count costs.now) (C.cost costs.now) }
    requires falls { length falls.now ≡ C.column_count costs.now }
    requires low { (c : ℕ) → c < C.column_count costs.now → at falls.now c ≤ greatest_charge }
    requires row { row < C.row_count costs.now }
    requires taken { length taken.now ≡ C.column_count costs.now }
    ensures { IfSome result (IsFreeCheapest (sizes (C.cost costs.now)) (C.column_count costs.now) falls.now taken.now row) }
{
    let mut best = Cheapest {
        paid: u128::MAX,
        column: None,
    };
    for column in 0..costs.columns() {
        let paid = payment(costs, falls, row, column);
        best = cheaper(best, paid, column, taken[column as usize]);
    }
    best.column
}

/// Gives one more row a column of its own: a free one where it pays least, or else over the shortest way to a free column. It says which
/// column was free.
fn place<C: Costs>(
    alloc: Global,
    costs: &C,
    falls: &mut [u128],
    column_of: &mut Vec<u32>,
    taken: &[bool],
) -> Result<u32, AllocError>
    requires costs { HasCharges (C.row_count costs.now) (C.column_count costs.now) (C.cost costs.now) }
    requires placed { IsPlaced (sizes (C.cost costs.now)) (C.column_count costs.now) falls.old column_of.old.items }
    requires marked { AreMarked (C.column_count costs.now) column_of.old.items taken.now }
    requires more { length column_of.old.items < C.row_count costs.now }
    requires enough { C.row_count costs.now ≤ C.column_count costs.now }
    requires few { length column_of.old.items < PLACES }
    ensures placed { IfOk result (λ _. IsPlaced (sizes (C.cost costs.now)) (C.column_count costs.now) falls.new column_of.new.items) }
    ensures longer { IfOk result (λ _. length column_of.new.items ≡ length column_of.old.items + 1) }
    ensures taken { IfOk result (IsOneMore (C.column_count costs.now) column_of.old.items falls.new column_of.new.items) }
{
    let row = column_of.len() as u32;
    if let Some(column) = cheapest_free(costs, falls, row, taken) {
        column_of.push(column)?;
        return Ok(column);
    }
    place_row(alloc, costs, falls, column_of)
}

/// How far the columns have fallen, and which of them each row has.
#[derive(Drop)]
pub struct Square {
    pub falls: Vec<u128>,
    pub column_of: Vec<u32>,
}

/// Gives each row a column, row after row.
fn fill<C: Costs>(alloc: Global, costs: &C) -> Result<Square, AllocError>
    requires few { C.row_count costs.now ≤ MOST_ROWS }
    requires square { C.column_count costs.now ≡ C.row_count costs.now }
    requires costs { HasCharges (C.row_count costs.now) (C.column_count costs.now) (C.cost costs.now) }
    ensures placed { IfOk result (λ s. IsPlaced (sizes (C.cost costs.now)) (C.column_count costs.now) s.falls.items s.column_of.items) }
    ensures all { IfOk result (λ s. length s.column_of.items ≡ C.row_count costs.now) }
{
    let columns = costs.columns() as usize;
    let mut falls = vec![in alloc; 0; columns]?;
    let mut taken = vec![in alloc; false; columns]?;
    let mut column_of = Vec::new(alloc);
    'rows: while column_of.len() < columns {
        let column = place(
            alloc,
            costs,
            falls.as_mut_slice(),
            &mut column_of,
            taken.as_slice(),
        )?;
        taken[column as usize] = true;
    }
    Ok(Square { falls, column_of })
}

/// The least that a column has fallen together with its beginning.
fn least_together(falls: &[u128], begun: &[u128]) -> u128
    requires some { 0 < length falls.now }
    requires same { length begun.now ≡ length falls.now }
    requires falls { (c : ℕ) → c < length falls.now → at falls.now c ≤ greatest_charge }
    requires begun { (c : ℕ) → c < length falls.now → at begun.now c ≤ greatest_fall }
    ensures { IsLeastTogether falls.now begun.now (length falls.now) result }
{
    let mut least = falls[0] + begun[0];
    for k in 1..falls.len() {
        least = least.min(falls[k] + begun[k]);
    }
    least
}

/// Adds their beginnings to how far the columns have fallen, and takes the least from all.
fn normalise(falls: &mut [u128], begun: &[u128], least: u128)
    requires same { length begun.now ≡ length falls.old }
    requires falls { (c : ℕ) → c < length falls.old → at falls.old c ≤ greatest_charge }
    requires begun { (c : ℕ) → c < length falls.old → at begun.now c ≤ greatest_fall }
    requires least { (c : ℕ) → c < length falls.old → least ≤ at falls.old c + at begun.now c }
    ensures { AreNormal falls.old begun.now least falls.new }
{
    for k in 0..falls.len() {
        falls[k] = falls[k] + begun[k] - least;
    }
}

/// Gives each row a column, from columns whose prices begin so far below 0, with prices of which the greatest is 0.
pub fn placed_from<C: Costs>(
    alloc: Global,
    costs: &C,
    begun: &[u128],
) -> Result<Placement, AllocError>
    requires some { 1 ≤ C.row_count costs.now }
    requires few { C.row_count costs.now ≤ MOST_ROWS }
    requires square { C.column_count costs.now ≡ C.row_count costs.now }
    requires costs { HasCosts (C.row_count costs.now) (C.column_count costs.now) (C.cost costs.now) }
    requires begun { AreFalls (C.column_count costs.now) begun.now }
    ensures { IfOk result (λ p. IsPlacement (C.row_count costs.now) (C.column_count costs.now) 1 (C.cost costs.now) p.columns.items p.falls.items p.column_of.items) }
{
    let columns = first_columns(alloc, costs.columns())?;
    let raised = Raised { costs, begun };
    let Square {
        mut falls,
        column_of,
    } = fill(alloc, &raised)?;
    let least = least_together(falls.as_slice(), begun);
    normalise(falls.as_mut_slice(), begun, least);
    Ok(Placement {
        columns,
        falls,
        column_of,
    })
}
