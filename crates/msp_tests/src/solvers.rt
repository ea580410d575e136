// What the search asks about its bounds, and the split of a table, on small instances.
ghost use Rattle.std.specs.Prelude.{◌≡◌, IfOk};
ghost use Rattle.msp_timetable.specs.Split.{IsMatrix};

use msp_class::{Class, Crit, Env, List, NoMemory, Order, Times};
use msp_samples::{JobData, UNIT_JOB, instance, list_of};
use msp_threshold::squeezed;
use msp_timetable::{Matrix, Slice, split};
use std::alloc::Global;
use std::process::Abort;
use std::test::Fail;

/// Unit jobs with release dates on identical machines, by greatest lateness: `P|r,p=1|Lmax`.
const LATENESS: Class = Class {
    env: Env::P,
    cut: false,
    order: Order::Free,
    heads: true,
    times: Times::Unit,
    crit: Crit::Lmax,
};

/// The table of two rows and two columns with these cells.
fn table(alloc: Global, a: u8, b: u8, c: u8, d: u8) -> Result<Matrix, NoMemory>
    ensures matrix { IfOk result IsMatrix }
    ensures rows { IfOk result (λ t. t.rows ≡ 2) }
    ensures columns { IfOk result (λ t. t.columns ≡ 2) }
{
    let cells = list_of(
        alloc,
        &[i128::from(a), i128::from(b), i128::from(c), i128::from(d)],
    )?;
    Ok(Matrix {
        rows: 2,
        columns: 2,
        cells,
    })
}

#[test]
fn bounds_on_the_greatest_lateness(rt: HostRuntime) -> Result<(), Fail> {
    let apart = JobData {
        release: 1_000_000_000,
        due: -1_000_000_000,
        ..UNIT_JOB
    };
    let one = instance(rt.alloc(), LATENESS, 1, &[apart], &[]).ok_or("no instance")?;
    assert!(rt; squeezed(rt.alloc(), &one, 2_000_000_001)?.is_some());
    assert!(rt; squeezed(rt.alloc(), &one, 2_000_000_000)?.is_none());
    Ok(())
}

/// The split of the table of two rows and two columns with these cells.
fn slices(alloc: Global, a: u8, b: u8, c: u8, d: u8) -> Option<List<Slice>> {
    let table = table(alloc, a, b, c, d).ok()?;
    split(alloc, &table).ok()
}

/// Whether the rows have these columns for a time of 1.
fn has_columns(slice: &Slice, columns: [u32; 2]) -> bool {
    slice.length == 1 && slice.column.as_slice() == columns.as_slice()
}

/// Whether each row has each column for a time of 1.
fn have_each(slices: &[Slice]) -> bool {
    let [first, second] = slices else {
        return false;
    };
    let (straight, crossed) = ([0, 1], [1, 0]);
    has_columns(first, straight) && has_columns(second, crossed)
        || has_columns(first, crossed) && has_columns(second, straight)
}

#[test]
fn splits_of_tables(rt: HostRuntime) {
    let idle = slices(rt.alloc(), 0, 0, 0, 0).expect(&rt, "memory");
    assert!(rt; idle.len() == 0);
    let busy = slices(rt.alloc(), 1, 1, 1, 1).expect(&rt, "memory");
    assert!(rt; have_each(busy.as_slice()));
}
