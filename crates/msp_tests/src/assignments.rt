// Least assignments of tables by hand, with their prices, from none and from given ones.
ghost use Rattle.std.specs.Prelude.{◌≡◌, ◌+◌, ◌*◌, ◌≤◌, pos, ◌≤ℤ◌, slice_index_or, All, IfSome, IsTrue};
ghost use Rattle.msp_assign.specs.Prices.{greatest_cost, greatest_fall, HasCosts};

use msp_assign::{Assignment, Dated, Stored, assign, assign_from, falls_backward};
use msp_samples::list_of;
use std::alloc::Global;

/// The most that a row costs at a column.
const GREATEST_COST: i128 = 1 << 100;

fn are_costs(cells: &[i128]) -> bool
    ensures { IsTrue result → All (λ c. (pos 0 ≤ℤ c) × (c ≤ℤ pos greatest_cost)) cells.now }
{
    cells.iter().all(|c| 0 <= *c && *c <= GREATEST_COST)
}

/// The table of the cells, row after row, where it has at most 400 columns, and enough of them.
fn table_of(alloc: Global, rows: u32, columns: u32, cells: &[i128]) -> Option<Stored>
    ensures shape { IfSome result (λ s. (1 ≤ s.rows) × (s.rows ≤ s.columns) × (s.columns ≤ 400)) }
    ensures columns { IfSome result (λ s. (s.rows ≡ rows) × (s.columns ≡ columns)) }
    ensures costs { IfSome result (λ s. HasCosts s.rows s.columns (λ r c. slice_index_or s.cells (r * s.columns + c) (pos 0))) }
{
    if rows < 1 || columns < rows || 400 < columns {
        return None;
    }
    if (rows * columns) as usize != cells.len() || !are_costs(cells) {
        return None;
    }
    Some(Stored {
        rows,
        columns,
        cells: list_of(alloc, cells).ok()?,
    })
}

fn assigned(alloc: Global, rows: u32, columns: u32, cells: &[i128]) -> Option<Assignment> {
    let table = table_of(alloc, rows, columns, cells)?;
    assign(alloc, &table).ok()
}

/// A table, its least assignment and the prices, worked out by hand: row after row takes the shortest way to a free column.
struct Case {
    cells: &'static [i128],
    column: &'static [u32],
    row_price: &'static [i128],
    column_price: &'static [i128],
}

const CASES: &[Case] = &[
    // The first row takes column 0 at 2. The second costs 1 there, and the first gives way to column 1 for 2 more. The third
    // costs 1 at column 0: the second gives way to column 1 for 5 more, and the first to column 2 for 1 more.
    Case {
        cells: &[2, 4, 5, 9, 1, 6, 8, 9, 1, 9, 12, 12],
        column: &[2, 1, 0],
        row_price: &[5, 7, 7],
        column_price: &[-6, -1, 0, 0],
    },
    // No column is left over.
    Case {
        cells: &[1, 2, 1, 9],
        column: &[1, 0],
        row_price: &[2, 2],
        column_price: &[-1, 0],
    },
    // The greatest cost.
    Case {
        cells: &[GREATEST_COST],
        column: &[0],
        row_price: &[GREATEST_COST],
        column_price: &[0],
    },
];

/// Whether the assignment and the prices are those of the case.
fn is_as_by_hand(all: &Assignment, case: &Case) -> bool {
    all.column.as_slice() == case.column
        && all.row_price.as_slice() == case.row_price
        && all.column_price.as_slice() == case.column_price
}

#[test]
fn tables_by_hand(rt: HostRuntime) {
    for case in CASES {
        let rows = case.column.len() as u32;
        let columns = case.column_price.len() as u32;
        let all = assigned(rt.alloc(), rows, columns, case.cells).expect(&rt, "an assignment");
        assert!(rt; is_as_by_hand(&all, case));
    }
}

fn are_falls(falls: &[u128]) -> bool
    ensures { IsTrue result → All (λ f. f ≤ greatest_fall) falls.now }
{
    falls.iter().all(|fall| *fall <= GREATEST_COST as u128)
}

/// The least assignment of a table of as many columns as rows, from prices that begin so far below 0.
fn assigned_from(alloc: Global, cells: &[i128], falls: &[u128]) -> Option<Assignment> {
    let count = falls.len();
    if 400 < count || !are_falls(falls) {
        return None;
    }
    let table = table_of(alloc, count as u32, count as u32, cells)?;
    assign_from(alloc, &table, falls).ok()
}

/// How far prices begin below 0, and the least assignment and the prices from there, worked out by hand.
struct Begun {
    falls: &'static [u128],
    row_price: &'static [i128],
    column_price: &'static [i128],
}

/// The first row costs 1 and 2 at the columns, the second 1 and 9.
const SQUARE: &[i128] = &[1, 2, 1, 9];

const BEGUN: &[Begun] = &[
    // The first row takes column 0, and gives way to column 1.
    Begun {
        falls: &[0, 0],
        row_price: &[2, 2],
        column_price: &[-1, 0],
    },
    // The first row pays 4 and 2, so it takes column 1; the second pays 4 and 9.
    Begun {
        falls: &[3, 0],
        row_price: &[2, 4],
        column_price: &[-3, 0],
    },
    // The same, 5 lower.
    Begun {
        falls: &[8, 5],
        row_price: &[2, 4],
        column_price: &[-3, 0],
    },
    // The first row pays 1 and 9, the second 1 and 16: the first gives way for 8 more.
    Begun {
        falls: &[0, 7],
        row_price: &[2, 2],
        column_price: &[-1, 0],
    },
];

#[test]
fn prices_to_begin_from(rt: HostRuntime) {
    for case in BEGUN {
        let all = assigned_from(rt.alloc(), SQUARE, case.falls).expect(&rt, "an assignment");
        assert!(rt; all.column.as_slice() == [1, 0].as_slice());
        assert!(rt; all.row_price.as_slice() == case.row_price);
        assert!(rt; all.column_price.as_slice() == case.column_price);
    }
}

/// A job that may end from so many units of time on.
const fn dated(weight: u64, due: i128, earliest: i128) -> Dated {
    Dated {
        weight,
        due,
        earliest,
    }
}

// At 6 the first job is not late. At 5 the others are, the last one may not end yet, and the third weighs least: 2 for two units of time.
// At 3 the second is taken: 5 for one.
#[test]
fn backward_pass(rt: HostRuntime) {
    let jobs = [
        dated(9, 6, 0),
        dated(5, 1, 0),
        dated(2, 0, 0),
        dated(1, 3, 6),
    ];
    let falls = falls_backward(rt.alloc(), &[2, 3, 5, 6], &jobs).expect(&rt, "memory");
    assert!(rt; falls.as_slice() == [9, 4, 0, 0].as_slice());
}
