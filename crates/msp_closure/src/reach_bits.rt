// The relation between classes that chains of rows make.
ghost use Rattle.std.specs.Prelude.{◌≡◌, ◌↔◌, ◌≤◌, ◌<◌, ℕ, true, false, IfOk, IfSome, IfNone, IsTrue, Some};
ghost use Rattle.msp_class.specs.declared.class.Class.{Class};
ghost use Rattle.msp_class.specs.Rank.{rank_of};
ghost use Rattle.msp_table.specs.Chains.{every_row, Reaches};
ghost use Rattle.msp_closure.specs.Tables.{allows, is_flagged};
ghost use Rattle.msp_closure.specs.Relation.{relates, IsReach, IsSound, Rises, Grows, GrowsAt, IncludesFlagged, IsClosedBut};

use crate::class_table::{ClassTable, class_at};
use crate::relation::Relation;
use crate::row_set::{RowSet, row_at, step};
use msp_class::{CLASSES, Class, NoMemory};
use msp_table::{ROWS, Row};
use std::alloc::Global;
use std::marker::Model;

/// Which classes each class leads to by chains of rows, as a bit for each two classes.
#[derive(Drop)]
pub struct ReachBits {
    relation: Relation,
}

impl Model for ReachBits {
    ghost use Rattle.std.specs.Prelude.{ℕ, List};
    ghost use Rattle.msp_table.specs.Chains.{every_row};
    ghost use Rattle.msp_closure.specs.Relation.{IsReach};

    ghost Value = { List ℕ };

    ghost view = { λ bits. bits.relation };

    ghost invariant = { λ bits. IsReach every_row bits.relation };
}

/// Works out which classes each class leads to.
pub fn reach(alloc: Global) -> Result<ReachBits, NoMemory> {
    let relation = related(alloc, RowSet::Every)?;
    Ok(ReachBits { relation })
}

/// Whether some chain, by any rows, leads from the one class to the other. It takes no memory.
pub fn reaches(bits: &ReachBits, from: Class, to: Class) -> bool
    ensures { IsTrue result ↔ Reaches every_row from to }
{
    bits.relation.relates(from, to)
}

/// The class of the least rank from a rank on to which some chain leads from the given one.
pub(crate) fn next_reached(bits: &ReachBits, c: Class, from: u16) -> Option<Class>
    ensures reached { IfSome result (λ b. Reaches every_row c b) }
    ensures from { IfSome result (λ b. from ≤ rank_of b) }
    ensures least { IfSome result (λ b. (x : Class) → from ≤ rank_of x → rank_of x < rank_of b → ¬ Reaches every_row c x) }
    ensures none { IfNone result ((x : Class) → from ≤ rank_of x → ¬ Reaches every_row c x) }
{
    bits.relation.next_related(c, from)
}

/// Each class related to those to which chains lead.
fn related(alloc: Global, rows: RowSet) -> Result<Relation, NoMemory>
    ensures { IfOk result (λ relation. IsReach (allows rows) relation) }
{
    let mut relation = Relation::identity(alloc)?;
    follow(alloc, rows, &mut relation)?;
    Ok(relation)
}

/// Relates each class also to those to which chains lead. A pass joins the row of each class to those of the classes to which rows
/// lead, where these changed in the last pass or in this one.
fn follow(alloc: Global, rows: RowSet, relation: &mut Relation) -> Result<(), NoMemory>
    requires sound { IsSound (allows rows) relation.old }
    requires itself { (c : Class) → relates relation.old c c ≡ true }
    ensures { IfOk result (λ _. IsReach (allows rows) relation.new) }
{
    let mut last = ClassTable::new(alloc, true)?;
    let mut fresh = ClassTable::new(alloc, false)?;
    'passes: while pass(rows, relation, &last, &mut fresh) {
        last = fresh;
        fresh = ClassTable::new(alloc, false)?;
    }
    Ok(())
}

/// One pass, from the highest rank down, since most rows lead to a higher one; it flags the classes whose rows changed. Whether one did.
fn pass(
    rows: RowSet,
    relation: &mut Relation,
    last: &ClassTable<bool>,
    fresh: &mut ClassTable<bool>,
) -> bool
    requires unflagged { (c : Class) → is_flagged fresh.old c ≡ false }
    requires closed { (c : Class) → IsClosedBut (allows rows) last.now relation.old c }
    ensures grows { Grows (allows rows) relation.old relation.new }
    ensures rises { Rises relation.old relation.new result }
    ensures closed { (c : Class) → IsClosedBut (allows rows) fresh.new relation.new c }
    ensures quiet { result ≡ false → (c : Class) → is_flagged fresh.new c ≡ false }
{
    let mut changed = false;
    for n in 0..CLASSES {
        let c = class_at(CLASSES - 1 - n);
        if join_class(rows, relation, last, fresh, c) {
            fresh.set(c, true);
            changed = true;
        }
    }
    changed
}

/// Joins the row of a class to those of the classes to which rows lead; whether it changed.
fn join_class(
    rows: RowSet,
    relation: &mut Relation,
    last: &ClassTable<bool>,
    fresh: &ClassTable<bool>,
    c: Class,
) -> bool
    ensures grows { GrowsAt (allows rows) relation.old relation.new c }
    ensures rises { Rises relation.old relation.new result }
    ensures includes { (k : ℕ) → IncludesFlagged (allows rows) last.now relation.new c k }
{
    let mut changed = false;
    for k in 1..=ROWS {
        if join_row(rows, relation, last, fresh, row_at(k), c) {
            changed = true;
        }
    }
    changed
}

/// The same for one row of the table.
fn join_row(
    rows: RowSet,
    relation: &mut Relation,
    last: &ClassTable<bool>,
    fresh: &ClassTable<bool>,
    row: Row,
    c: Class,
) -> bool
    ensures grows { GrowsAt (allows rows) relation.old relation.new c }
    ensures rises { Rises relation.old relation.new result }
    ensures includes { IncludesFlagged (allows rows) last.now relation.new c row }
{
    match step(rows, row, c) {
        Some(next) if last.at(next) || fresh.at(next) => relation.join(c, next),
        _ => false,
    }
}
