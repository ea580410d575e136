// The assignment of rows to columns of least cost.
ghost use Rattle.std.specs.Prelude.{◌≡◌, ◌≤◌, IfOk};
ghost use Rattle.msp_assign.specs.Prices.{AreFalls, HasCosts, IsAssigned, IsPriced, IsLeast, HasFreeColumn, cost_of, price_of};
ghost use Rattle.msp_assign.specs.Search.{HasCharges};
ghost use Rattle.msp_assign.specs.View.{IsPlacement};
ghost use Rattle.msp_assign.specs.Given.{IsGiven};
ghost use Rattle.msp_assign.specs.Limits.{AreLimits};

use crate::placement::{Placement, placed};
use crate::prices::{column_prices, numbers, row_prices};
use crate::single::Single;
use crate::square::placed_from;
use crate::view::View;
use crate::{Costs, Lines};
use msp_class::{List, MOST_JOBS, NoMemory};
use std::alloc::{AllocError, Global};

/// The column of each row, and the prices of the rows and the columns.
#[derive(Drop)]
pub struct Assignment {
    pub column: List<u32>,
    pub row_price: List<i128>,
    pub column_price: List<i128>,
}

/// The most rows.
pub const MOST_ROWS: u32 = MOST_JOBS as u32;
/// The most columns: at least `MOST_MACHINES` places for each of `MOST_JOBS` jobs.
pub const MOST_COLUMNS: u32 = 1 << 20;

/// The limits of `assign`, by their numbers.
pub fn law_of_limits()
    ensures { AreLimits }
{}

/// The columns of the rows that have columns in view, and the prices.
fn assignment_of<L: Lines>(
    alloc: Global,
    costs: &L,
    placement: &Placement,
) -> Result<Assignment, AllocError>
    requires some { 1 ≤ L.row_count costs.now }
    requires few { L.row_count costs.now ≤ MOST_ROWS }
    requires enough { L.row_count costs.now ≤ L.column_count costs.now }
    requires columns { L.column_count costs.now ≤ MOST_COLUMNS }
    requires costs { HasCharges (L.row_count costs.now) (L.column_count costs.now) (L.cost costs.now) }
    requires placement { IsPlacement (L.row_count costs.now) (L.line_count costs.now) (L.line_length costs.now) (L.cost costs.now) placement.now.columns.items placement.now.falls.items placement.now.column_of.items }
    ensures { IfOk result (IsGiven (L.row_count costs.now) (L.column_count costs.now) (L.cost costs.now)) }
{
    let columns = placement.columns.as_slice();
    let column_of = placement.column_of.as_slice();
    let falls = placement.falls.as_slice();
    let (lines, length) = (costs.lines(), costs.length());
    let column = numbers(alloc, columns, column_of, lines, length)?;
    let column_price = column_prices(alloc, columns, falls, lines, length)?;
    let view = View { costs, columns };
    let row_price = row_prices(alloc, &view, falls, column_of)?;
    Ok(Assignment {
        column,
        row_price,
        column_price,
    })
}

/// Gives each row a column of its own, at least cost, with prices that show it, where costs rise along lines of columns. Row after row
/// takes the shortest path to a free column, and the prices move with the paths (Kuhn 1955, Tomizawa 1971). Of each line only the columns
/// that rows have are looked at, and the first one that no row has: a later one costs no less and has price 0.
pub fn assign_on_lines<L: Lines>(alloc: Global, costs: &L) -> Result<Assignment, NoMemory>
    requires some { 1 ≤ L.row_count costs.now }
    requires few { L.row_count costs.now ≤ MOST_ROWS }
    requires enough { L.row_count costs.now ≤ L.column_count costs.now }
    requires columns { L.column_count costs.now ≤ MOST_COLUMNS }
    requires costs { HasCosts (L.row_count costs.now) (L.column_count costs.now) (L.cost costs.now) }
    ensures assigned { IfOk result (λ a. IsAssigned (L.row_count costs.now) (L.column_count costs.now) a.column) }
    ensures priced { IfOk result (λ a. IsPriced (L.row_count costs.now) (L.column_count costs.now) (L.cost costs.now) a) }
    ensures zero { IfOk result (HasFreeColumn (L.column_count costs.now)) }
    ensures least { IfOk result (λ a. IsLeast (L.row_count costs.now) (L.column_count costs.now) (L.cost costs.now) a.column) }
    ensures total { IfOk result (λ a. cost_of (L.row_count costs.now) (L.cost costs.now) a.column ≡ price_of (L.row_count costs.now) (L.column_count costs.now) a) }
{
    let placement = placed(alloc, costs)?;
    Ok(assignment_of(alloc, costs, &placement)?)
}

/// The same for any costs: each column is a line of its own.
pub fn assign<C: Costs>(alloc: Global, costs: &C) -> Result<Assignment, NoMemory>
    requires some { 1 ≤ C.row_count costs.now }
    requires few { C.row_count costs.now ≤ MOST_ROWS }
    requires enough { C.row_count costs.now ≤ C.column_count costs.now }
    requires columns { C.column_count costs.now ≤ MOST_COLUMNS }
    requires costs { HasCosts (C.row_count costs.now) (C.column_count costs.now) (C.cost costs.now) }
    ensures assigned { IfOk result (λ a. IsAssigned (C.row_count costs.now) (C.column_count costs.now) a.column) }
    ensures priced { IfOk result (λ a. IsPriced (C.row_count costs.now) (C.column_count costs.now) (C.cost costs.now) a) }
    ensures zero { IfOk result (HasFreeColumn (C.column_count costs.now)) }
    ensures least { IfOk result (λ a. IsLeast (C.row_count costs.now) (C.column_count costs.now) (C.cost costs.now) a.column) }
    ensures total { IfOk result (λ a. cost_of (C.row_count costs.now) (C.cost costs.now) a.column ≡ price_of (C.row_count costs.now) (C.column_count costs.now) a) }
{
    assign_on_lines(alloc, &Single { costs })
}

/// The same for as many columns as rows, from prices of the columns: `falls` says how far each of them begins below 0. A row takes a free
/// column where it pays least, the last one of several, and goes the shortest way to one only where that is not free. Whatever the prices are, the answer is least;
/// the nearer they are to prices that prove it, the fewer ways are looked for (Jonker and Volgenant 1987). Where columns stand in order of
/// time, [`falls_backward`](crate::falls_backward) finds good ones.
pub fn assign_from<C: Costs>(
    alloc: Global,
    costs: &C,
    falls: &[u128],
) -> Result<Assignment, NoMemory>
    requires some { 1 ≤ C.row_count costs.now }
    requires few { C.row_count costs.now ≤ MOST_ROWS }
    requires square { C.column_count costs.now ≡ C.row_count costs.now }
    requires costs { HasCosts (C.row_count costs.now) (C.column_count costs.now) (C.cost costs.now) }
    requires falls { AreFalls (C.column_count costs.now) falls.now }
    ensures assigned { IfOk result (λ a. IsAssigned (C.row_count costs.now) (C.column_count costs.now) a.column) }
    ensures priced { IfOk result (λ a. IsPriced (C.row_count costs.now) (C.column_count costs.now) (C.cost costs.now) a) }
    ensures zero { IfOk result (HasFreeColumn (C.column_count costs.now)) }
    ensures least { IfOk result (λ a. IsLeast (C.row_count costs.now) (C.column_count costs.now) (C.cost costs.now) a.column) }
    ensures total { IfOk result (λ a. cost_of (C.row_count costs.now) (C.cost costs.now) a.column ≡ price_of (C.row_count costs.now) (C.column_count costs.now) a) }
{
    let placement = placed_from(alloc, costs, falls)?;
    Ok(assignment_of(alloc, &Single { costs }, &placement)?)
}
