// The distances of classes to wanted ones.
ghost use Rattle.std.specs.Prelude.{◌≡◌, ◌≢◌, ◌+◌, ◌<◌, ◌≤◌, ℕ, Bool, List, true, false, IfOk, Contains, slice_index, slice_set, length};
ghost use Rattle.msp_class.specs.declared.class.Class.{Class};
ghost use Rattle.msp_closure.specs.Tables.{allows, value_of, AreDistances};
ghost use Rattle.msp_closure.specs.Links.{AreLinks, AreInside};
ghost use Rattle.msp_closure.specs.Outlook.{IsOutlook};
ghost use Rattle.msp_closure.specs.Walk.{Advances};

use crate::class_table::ClassTable;
use crate::links::Link;
use crate::outlook::Outlook;
use msp_class::{CLASSES, Class, NoMemory};
use std::alloc::Global;

/// The value of a class from which no chain leads to a wanted class.
pub(crate) const FAR: u16 = u16::MAX;

/// The distance to the wanted classes, in rows, of each class to which chains lead from the starts, by a breadth walk backwards along
/// the steps of the walk forwards.
pub(crate) fn distances(
    alloc: Global,
    outlook: &Outlook,
    wanted: &[Class],
) -> Result<ClassTable<u16>, NoMemory>
    requires { IsOutlook (allows outlook.now.rows) outlook.now.starts.items outlook.now.flags outlook.now.links.items }
    ensures { IfOk result (λ table. AreDistances (allows outlook.now.rows) outlook.now.starts.items wanted.now table) }
{
    let mut table = wanted_at_zero(alloc, wanted)?;
    let mut level = 0;
    'passes: while pass(&outlook.links, &mut table, level) {
        level += 1;
    }
    Ok(table)
}

/// The wanted classes at 0, and all others far.
fn wanted_at_zero(alloc: Global, wanted: &[Class]) -> Result<ClassTable<u16>, NoMemory>
    ensures len { IfOk result (λ table. length table ≡ CLASSES) }
    ensures zero { IfOk result (λ table. (c : Class) → Contains wanted.now c → value_of table c ≡ 0) }
    ensures far { IfOk result (λ table. (c : Class) → value_of table c ≢ FAR → Contains wanted.now c) }
{
    let mut table = ClassTable::new(alloc, FAR)?;
    for c in wanted {
        table.set(*c, 0);
    }
    Ok(table)
}

/// Gives the next level to each far class from which a row leads to a class of this level; whether there was one.
fn pass(links: &[Link], table: &mut ClassTable<u16>, level: u16) -> bool
    requires inside { AreInside links.now }
    requires level { level ≤ CLASSES }
    ensures { (usable : ℕ → Bool) (starts : List Class) → AreLinks usable starts links.now → Advances usable starts table.old table.new level result }
{
    let mut changed = false;
    for link in links {
        if visit(*link, table, level) {
            changed = true;
        }
    }
    changed
}

/// The same for one link; whether its class was far and is not any more.
fn visit(link: Link, table: &mut ClassTable<u16>, level: u16) -> bool
    requires from_inside { link.from < CLASSES }
    requires to_inside { link.to < CLASSES }
    requires level { level ≤ CLASSES }
    ensures len { length table.old ≡ CLASSES }
    ensures far { result ≡ true → slice_index table.old link.from ≡ FAR }
    ensures led { result ≡ true → slice_index table.old link.to ≡ level }
    ensures written { result ≡ true → table.new ≡ slice_set table.old link.from (level + 1) }
    ensures same { result ≡ false → table.new ≡ table.old }
    ensures missed { result ≡ false → slice_index table.old link.from ≡ FAR → slice_index table.old link.to ≢ level }
{
    if table.at_rank(link.from) < FAR || table.at_rank(link.to) != level {
        return false;
    }
    table.set_rank(link.from, level + 1);
    true
}
