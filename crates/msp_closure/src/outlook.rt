// A walk forwards: where the rows of a set lead from some classes.
ghost use Rattle.std.specs.Prelude.{◌≡◌, ◌+◌, ◌∷◌, [], ℕ, Bool, true, Some, IfOk, OnOk};
ghost use Rattle.msp_class.specs.declared.class.Class.{Class};
ghost use Rattle.msp_table.specs.declared.row.TheConstants.{ROWS};
ghost use Rattle.msp_closure.specs.Tables.{allows, is_flagged};
ghost use Rattle.msp_closure.specs.Walk.{step_of};
ghost use Rattle.msp_closure.specs.Links.{AddsLinks, AddsLink};
ghost use Rattle.msp_closure.specs.Outlook.{Steps, Grows, IsFollowed, IsWalk, IsOutlook};

use crate::class_table::ClassTable;
use crate::links::{Link, put_link};
use crate::row_set::{RowSet, row_at};
use msp_class::{Class, NoMemory};
use msp_table::{ROWS, Row};
use std::alloc::Global;

/// The classes to which rows of a set lead from the starts, and the steps from these classes.
#[derive(Drop)]
pub(crate) struct Outlook {
    pub rows: RowSet,
    pub starts: Vec<Class>,
    pub flags: ClassTable<bool>,
    pub links: Vec<Link>,
}

/// What a walk has met: the classes in this order, each flagged, and the steps from those that it has followed.
#[derive(Drop)]
struct Met {
    classes: Vec<Class>,
    flags: ClassTable<bool>,
    links: Vec<Link>,
}

impl Outlook {
    /// Walks along the rows of the set from the starts, as far as they lead.
    pub(crate) fn walk(alloc: Global, rows: RowSet, starts: Vec<Class>) -> Result<Outlook, NoMemory>
        ensures rows { IfOk result (λ o. o.rows ≡ rows) }
        ensures starts { IfOk result (λ o. o.starts ≡ starts) }
        ensures outlook { IfOk result (λ o. IsOutlook (allows rows) starts.items o.flags o.links.items) }
    {
        let mut met = Met::all(alloc, &starts)?;
        let mut done = 0;
        'walk: while done < met.classes.len() {
            let class = met.classes[done];
            met.follow(rows, class)?;
            done += 1;
        }
        Ok(Outlook {
            rows,
            starts,
            flags: met.flags,
            links: met.links,
        })
    }
}

/// The list of one class.
pub(crate) fn only(alloc: Global, c: Class) -> Result<Vec<Class>, NoMemory>
    ensures { IfOk result (λ classes. classes.items ≡ c ∷ []) }
{
    let mut classes = Vec::new(alloc);
    classes.push(c)?;
    Ok(classes)
}

impl Met {
    /// The classes of a list alone.
    fn all(alloc: Global, classes: &[Class]) -> Result<Met, NoMemory>
        ensures { IfOk result (λ met. (usable : ℕ → Bool) → IsWalk usable classes.now met.classes.items met.flags met.links.items 0) }
    {
        let mut met = Met {
            classes: Vec::new(alloc),
            flags: ClassTable::new(alloc, false)?,
            links: Vec::new(alloc),
        };
        for c in classes {
            met.meet(*c)?;
        }
        Ok(met)
    }

    /// Flags a class, and puts it behind those that were met where it is new.
    fn meet(&mut self, class: Class) -> Result<(), NoMemory>
        ensures grows { OnOk result (Grows (λ c. c ≡ class) self.old.classes.items self.old.flags self.new.classes.items self.new.flags) }
        ensures flagged { OnOk result (is_flagged self.new.flags class ≡ true) }
        ensures links { OnOk result (self.new.links ≡ self.old.links) }
    {
        if self.flags.at(class) {
            return Ok(());
        }
        self.flags.set(class, true);
        self.classes.push(class)?;
        Ok(())
    }

    /// Meets the class to which the row leads, and keeps the step.
    fn follow_row(&mut self, rows: RowSet, row: Row, class: Class) -> Result<(), NoMemory>
        ensures grows { OnOk result (Grows (Steps (allows rows) class) self.old.classes.items self.old.flags self.new.classes.items self.new.flags) }
        ensures followed { OnOk result ((x : Class) → step_of (allows rows) row class ≡ Some x → is_flagged self.new.flags x ≡ true) }
        ensures links { OnOk result (AddsLink (allows rows) self.old.links.items self.new.links.items class row) }
    {
        match put_link(rows, row, class, &mut self.links)? {
            None => Ok(()),
            Some(next) => self.meet(next),
        }
    }

    /// Meets the classes to which rows of the set lead from the class, and keeps the steps.
    fn follow(&mut self, rows: RowSet, class: Class) -> Result<(), NoMemory>
        ensures grows { OnOk result (Grows (Steps (allows rows) class) self.old.classes.items self.old.flags self.new.classes.items self.new.flags) }
        ensures followed { OnOk result (IsFollowed (allows rows) class (ROWS + 1) self.new.flags) }
        ensures links { OnOk result (AddsLinks (allows rows) self.old.links.items self.new.links.items class (ROWS + 1)) }
    {
        for k in 1..=ROWS {
            self.follow_row(rows, row_at(k), class)?;
        }
        Ok(())
    }
}
