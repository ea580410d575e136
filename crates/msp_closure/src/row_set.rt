// The rows that a search may use, and its steps.
ghost use Rattle.std.specs.Prelude.{◌≡◌, ◌≤◌};
ghost use Rattle.msp_closure.specs.Tables.{allows};
ghost use Rattle.msp_closure.specs.Walk.{step_of};

use msp_class::Class;
use msp_table::{ROWS, Row, carries, goes, keeps_size};

/// The rows that a search may use.
#[derive(Clone, Copy)]
pub(crate) enum RowSet {
    Every,
    /// Those that carry schedules.
    Carrying,
    /// Those that keep the numbers of an instance small.
    KeepsSize,
}

/// A row, and the class to which it leads.
#[derive(Clone, Copy)]
pub(crate) struct RowStep {
    pub row: Row,
    pub next: Class,
}

/// Whether a search may use the row.
fn allows(rows: RowSet, row: Row) -> bool
    ensures { result ≡ allows rows row }
{
    match rows {
        RowSet::Every => true,
        RowSet::Carrying => carries(row),
        RowSet::KeepsSize => keeps_size(row),
    }
}

/// The class to which the row leads, where the row may be used and applies.
pub(crate) fn step(rows: RowSet, row: Row, c: Class) -> Option<Class>
    ensures { result ≡ step_of (allows rows) row c }
{
    if allows(rows, row) {
        goes(row, c)
    } else {
        None
    }
}

/// The row of a number.
pub(crate) fn row_at(n: u8) -> Row
    requires from_one { 1 ≤ n }
    requires to_last { n ≤ ROWS }
    ensures { result ≡ n }
{
    Row::new(n).unwrap()
}
