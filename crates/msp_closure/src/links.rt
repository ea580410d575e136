// The steps of a search.
ghost use Rattle.std.specs.Prelude.{◌≡◌, IfOk, OnOk};
ghost use Rattle.msp_closure.specs.Tables.{allows};
ghost use Rattle.msp_closure.specs.Links.{AddsLink};
ghost use Rattle.msp_closure.specs.Walk.{step_of};

use crate::row_set::{RowSet, step};
use msp_class::{Class, NoMemory, rank};
use msp_table::Row;

/// A step from one class to another, by their ranks.
#[derive(Clone, Copy)]
pub(crate) struct Link {
    pub from: u16,
    pub to: u16,
}

/// Puts the step from a class by a row, if there is one. The class to which it leads.
pub(crate) fn put_link(
    rows: RowSet,
    row: Row,
    c: Class,
    links: &mut Vec<Link>,
) -> Result<Option<Class>, NoMemory>
    ensures next { IfOk result (λ next. next ≡ step_of (allows rows) row c) }
    ensures adds { OnOk result (AddsLink (allows rows) links.old.items links.new.items c row) }
{
    let next = step(rows, row, c);
    if let Some(to) = next {
        links.push(Link {
            from: rank(c),
            to: rank(to),
        })?;
    }
    Ok(next)
}
