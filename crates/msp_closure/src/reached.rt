// The classes from which chains lead to one of a list, and those to which chains lead from one of a list.
ghost use Rattle.std.specs.Prelude.{◌≡◌, IfOk, Contains, nat_lt};
ghost use Rattle.std.specs.Bool.{Decides};
ghost use Rattle.msp_class.specs.declared.class.Class.{Class};
ghost use Rattle.msp_closure.specs.Entries.{LeadsToOne, IsLedTo};
ghost use Rattle.msp_closure.specs.Tables.{allows, is_flagged, value_of};

use crate::class_table::{ClassTable, class_at};
use crate::distances::{FAR, distances};
use crate::outlook::Outlook;
use crate::row_set::RowSet;
use msp_class::{CLASSES, Class, NoMemory};
use std::alloc::Global;

/// Flags the classes from which chains lead to a wanted one.
pub(crate) fn leading(
    alloc: Global,
    rows: RowSet,
    wanted: &[Class],
) -> Result<ClassTable<bool>, NoMemory>
    ensures { IfOk result (λ table. (c : Class) → Decides (is_flagged table c) (LeadsToOne (allows rows) wanted.now c)) }
{
    let classes = every_class(alloc)?;
    let outlook = Outlook::walk(alloc, rows, classes)?;
    let distances = distances(alloc, &outlook, wanted)?;
    let flags = near(alloc, &distances)?;
    Ok(flags)
}

/// Flags the classes to which chains lead from one of the starts.
pub(crate) fn led(
    alloc: Global,
    rows: RowSet,
    starts: Vec<Class>,
) -> Result<ClassTable<bool>, NoMemory>
    ensures { IfOk result (λ table. (c : Class) → Decides (is_flagged table c) (IsLedTo (allows rows) starts.items c)) }
{
    let outlook = Outlook::walk(alloc, rows, starts)?;
    Ok(outlook.flags)
}

/// All classes, in order of rank.
fn every_class(alloc: Global) -> Result<Vec<Class>, NoMemory>
    ensures { IfOk result (λ classes. (c : Class) → Contains classes.items c) }
{
    let mut classes = Vec::new(alloc);
    for n in 0..CLASSES {
        classes.push(class_at(n))?;
    }
    Ok(classes)
}

/// Flags the classes that have a distance.
fn near(alloc: Global, distances: &ClassTable<u16>) -> Result<ClassTable<bool>, NoMemory>
    ensures { IfOk result (λ table. (c : Class) → is_flagged table c ≡ nat_lt (value_of distances.now c) FAR) }
{
    let mut table = ClassTable::new(alloc, false)?;
    for n in 0..CLASSES {
        let c = class_at(n);
        table.set(c, is_near(distances, c));
    }
    Ok(table)
}

/// Whether a class has a distance.
fn is_near(distances: &ClassTable<u16>, c: Class) -> bool
    ensures { result ≡ nat_lt (value_of distances.now c) FAR }
{
    distances.at(c) < FAR
}
