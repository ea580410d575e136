// All rows get columns, while columns come into view.
ghost use Rattle.std.specs.Prelude.{◌<◌, ◌≤◌, IfOk, OnOk, length};
ghost use Rattle.msp_assign.specs.declared.assignment.TheConstants.{MOST_ROWS, MOST_COLUMNS};
ghost use Rattle.msp_assign.specs.Search.{HasCharges};
ghost use Rattle.msp_assign.specs.View.{column_at, AreFirst, IsWidened, IsPlacement};

use crate::Lines;
use crate::column::Column;
use crate::placing::place_row;
use crate::view::View;
use std::alloc::{AllocError, Global};

/// The first column of each line.
pub fn first_columns(alloc: Global, lines: u32) -> Result<Vec<Column>, AllocError>
    ensures { IfOk result (λ all. AreFirst lines all.items) }
{
    let mut columns = Vec::new(alloc);
    for line in 0..lines {
        columns.push(Column { line, place: 0 })?;
    }
    Ok(columns)
}

/// Brings the column that is next on the line of the taken one into view, if the line has one.
fn bring_next(
    columns: &mut Vec<Column>,
    falls: &mut Vec<u128>,
    taken: u32,
    long: u32,
) -> Result<(), AllocError>
    requires taken { taken < length columns.old.items }
    requires place { (column_at columns.old.items taken).place < long }
    ensures { OnOk result (IsWidened long columns.old.items falls.old.items taken columns.new.items falls.new.items) }
{
    let Column { line, place } = columns[taken as usize];
    let place = place + 1;
    if place < long {
        columns.push(Column { line, place })?;
        falls.push(0)?;
    }
    Ok(())
}

/// The columns in view, how far their prices are below 0, and which of them each row has.
#[derive(Drop)]
pub struct Placement {
    pub columns: Vec<Column>,
    pub falls: Vec<u128>,
    pub column_of: Vec<u32>,
}

/// Gives each row a column, row after row.
pub fn placed<L: Lines>(alloc: Global, costs: &L) -> Result<Placement, AllocError>
    requires some { 1 ≤ L.row_count costs.now }
    requires few { L.row_count costs.now ≤ MOST_ROWS }
    requires columns { L.column_count costs.now ≤ MOST_COLUMNS }
    requires enough { L.row_count costs.now ≤ L.column_count costs.now }
    requires costs { HasCharges (L.row_count costs.now) (L.column_count costs.now) (L.cost costs.now) }
    ensures { IfOk result (λ p. IsPlacement (L.row_count costs.now) (L.line_count costs.now) (L.line_length costs.now) (L.cost costs.now) p.columns.items p.falls.items p.column_of.items) }
{
    let mut columns = first_columns(alloc, costs.lines())?;
    let mut falls = vec![in alloc; 0; columns.len()]?;
    let mut column_of = Vec::new(alloc);
    let rows = costs.rows() as usize;
    'rows: while column_of.len() < rows {
        let view = View {
            costs,
            columns: columns.as_slice(),
        };
        let taken = place_row(alloc, &view, falls.as_mut_slice(), &mut column_of)?;
        bring_next(&mut columns, &mut falls, taken, costs.length())?;
    }
    Ok(Placement {
        columns,
        falls,
        column_of,
    })
}
