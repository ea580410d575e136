// The nearest chain, by distances.
ghost use Rattle.std.specs.Prelude.{◌≡◌, ◌≢◌, ◌+◌, ◌-◌, ◌<◌, ℕ, IfOk, IfSome, IfNone, Contains};
ghost use Rattle.msp_class.specs.declared.class.Class.{Class};
ghost use Rattle.msp_table.specs.Chains.{IsNearest};
ghost use Rattle.msp_closure.specs.Entries.{IsFirst, IsLedTo};
ghost use Rattle.msp_closure.specs.Tables.{allows, value_of, AreDistances};
ghost use Rattle.msp_closure.specs.Walk.{step_of, LeadsToValue};

use crate::class_table::ClassTable;
use crate::distances::FAR;
use crate::row_set::{RowSet, RowStep, row_at, step};
use msp_class::{Class, List, NoMemory};
use msp_table::{ROWS, Row};
use std::alloc::Global;

/// The rows of the chain to the nearest wanted class, by the distances to the wanted classes.
pub(crate) fn walk(
    alloc: Global,
    rows: RowSet,
    table: &ClassTable<u16>,
    from: Class,
) -> Result<List<Row>, NoMemory>
    ensures { IfOk result (λ ks. (starts wanted : List Class) → AreDistances (allows rows) starts wanted table.now → IsLedTo (allows rows) starts from
        → value_of table.now from ≢ FAR → IsNearest (allows rows) wanted from ks) }
{
    let mut chain = List::new(alloc);
    let mut here = from;
    'walk: while let Some(step) = nearer(rows, table, here) {
        chain.put(step.row)?;
        here = step.next;
    }
    Ok(chain)
}

/// The least row that leads to a class nearer by one, and this class.
fn nearer(rows: RowSet, table: &ClassTable<u16>, c: Class) -> Option<RowStep>
    ensures steps { IfSome result (λ s. step_of (allows rows) s.row c ≡ Some s.next) }
    ensures near { IfSome result (λ s. value_of table.now s.next ≢ FAR) }
    ensures value { IfSome result (λ s. value_of table.now s.next + 1 ≡ value_of table.now c) }
    ensures least { IfSome result (λ s. (k : ℕ) → k < s.row → ¬ LeadsToValue (allows rows) table.now c (value_of table.now c - 1) k) }
    ensures none { IfNone result (0 < value_of table.now c → (k : ℕ) → ¬ LeadsToValue (allows rows) table.now c (value_of table.now c - 1) k) }
{
    let value = table.at(c);
    if value == 0 {
        None
    } else {
        least_row(rows, table, c, value - 1)
    }
}

/// The least row that leads to a class with the value, and this class.
fn least_row(rows: RowSet, table: &ClassTable<u16>, c: Class, value: u16) -> Option<RowStep>
    ensures steps { IfSome result (λ s. step_of (allows rows) s.row c ≡ Some s.next) }
    ensures value { IfSome result (λ s. value_of table.now s.next ≡ value) }
    ensures least { IfSome result (λ s. (k : ℕ) → k < s.row → ¬ LeadsToValue (allows rows) table.now c value k) }
    ensures none { IfNone result ((k : ℕ) → ¬ LeadsToValue (allows rows) table.now c value k) }
{
    for k in 1..=ROWS {
        let row = row_at(k);
        match step_to(rows, table, row, c, value) {
            Some(next) => return Some(RowStep { row, next }),
            None => (),
        }
    }
    None
}

/// The class to which the row leads, if it has the value.
fn step_to(rows: RowSet, table: &ClassTable<u16>, row: Row, c: Class, value: u16) -> Option<Class>
    ensures steps { IfSome result (λ x. step_of (allows rows) row c ≡ Some x) }
    ensures value { IfSome result (λ x. value_of table.now x ≡ value) }
    ensures none { IfNone result (¬ LeadsToValue (allows rows) table.now c value row) }
{
    match step(rows, row, c) {
        Some(next) if table.at(next) == value => Some(next),
        _ => None,
    }
}

/// The first class of a list from which a chain leads to a wanted class.
pub(crate) fn first_near(starts: &[Class], table: &ClassTable<u16>) -> Option<Class>
    ensures found { IfSome result (λ x. IsFirst (λ c. value_of table.now c ≢ FAR) starts.now x) }
    ensures none { IfNone result ((c : Class) → Contains starts.now c → value_of table.now c ≡ FAR) }
{
    for c in starts {
        if table.at(*c) < FAR {
            return Some(*c);
        }
    }
    None
}
