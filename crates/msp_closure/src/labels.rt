// The labels of all classes.
ghost use Rattle.std.specs.Prelude.{◌≡◌, IfOk, slice_get, slice_index_or, length};
ghost use Rattle.msp_class.specs.Rank.{rank_of};
ghost use Rattle.std.specs.Bool.{Decides};
ghost use Rattle.msp_closure.specs.Entries.{AreLabels, LeadsToOne, IsLedTo, listed, makes, mark_of};
ghost use Rattle.msp_closure.specs.Tables.{allows, is_flagged};
ghost use Rattle.msp_class.specs.declared.class.Class.{Class};

use crate::class_table::{ClassTable, class_at};
use crate::entry::{Entry, Mark, Verdict};
use crate::listing::listed;
use crate::reached::{leading, led};
use crate::row_set::RowSet;
use msp_class::{CLASSES, Class, List, NoMemory};
use std::alloc::Global;
use std::marker::Model;

/// The mark of every class. Contracts see it as the list of these marks in order of rank.
#[derive(Drop)]
pub struct Labels {
    marks: ClassTable<Mark>,
}

impl Model for Labels {
    ghost use Rattle.std.specs.Prelude.{List};
    ghost use Rattle.msp_closure.specs.declared.entry.Mark.{Mark};

    ghost Value = { List Mark };

    ghost view = { λ l. l.marks };
}

/// The marks of all classes by what the entries say.
pub fn close(alloc: Global, entries: &List<Entry>) -> Result<Labels, NoMemory>
    ensures { IfOk result (λ labels. AreLabels entries.now labels) }
{
    let to_easy = to_listed(alloc, entries, RowSet::Every, Verdict::Easy)?;
    let to_pseudo = to_listed(alloc, entries, RowSet::KeepsSize, Verdict::Pseudo)?;
    let from_hard = from_listed(alloc, entries, RowSet::Every, Verdict::Hard)?;
    let from_strong = from_listed(alloc, entries, RowSet::KeepsSize, Verdict::Strong)?;
    let marks = marked(alloc, &to_easy, &to_pseudo, &from_hard, &from_strong)?;
    Ok(Labels { marks })
}

/// Flags the classes from which chains lead to one listed with a verdict that makes the claim.
fn to_listed(
    alloc: Global,
    entries: &List<Entry>,
    rows: RowSet,
    claim: Verdict,
) -> Result<ClassTable<bool>, NoMemory>
    ensures { IfOk result (λ table. (c : Class) → Decides (is_flagged table c) (LeadsToOne (allows rows) (listed (makes claim) entries.now) c)) }
{
    let wanted = listed(alloc, entries, claim)?;
    leading(alloc, rows, &wanted)
}

/// Flags the classes to which chains lead from one listed with a verdict that makes the claim.
fn from_listed(
    alloc: Global,
    entries: &List<Entry>,
    rows: RowSet,
    claim: Verdict,
) -> Result<ClassTable<bool>, NoMemory>
    ensures { IfOk result (λ table. (c : Class) → Decides (is_flagged table c) (IsLedTo (allows rows) (listed (makes claim) entries.now) c)) }
{
    let starts = listed(alloc, entries, claim)?;
    led(alloc, rows, starts)
}

/// The mark of a class.
pub fn label(labels: &Labels, c: Class) -> Mark
    ensures { slice_get labels.now (rank_of c) ≡ Some result }
{
    labels.marks.at(c)
}

fn marked(
    alloc: Global,
    to_easy: &ClassTable<bool>,
    to_pseudo: &ClassTable<bool>,
    from_hard: &ClassTable<bool>,
    from_strong: &ClassTable<bool>,
) -> Result<ClassTable<Mark>, NoMemory>
    ensures len { IfOk result (λ table. length table ≡ CLASSES) }
    ensures each { IfOk result (λ table. (c : Class) (d : Mark) → slice_index_or table (rank_of c) d
        ≡ mark_of (is_flagged to_easy.now c) (is_flagged to_pseudo.now c) (is_flagged from_hard.now c) (is_flagged from_strong.now c)) }
{
    let mut table = ClassTable::new(alloc, Mark::Unsettled)?;
    for n in 0..CLASSES {
        let c = class_at(n);
        let easy = to_easy.at(c);
        let pseudo = to_pseudo.at(c);
        let hard = from_hard.at(c);
        let strong = from_strong.at(c);
        table.set(c, Mark::of(easy, pseudo, hard, strong));
    }
    Ok(table)
}

impl Mark {
    /// The first mark that applies to a class that is easy, pseudopolynomial or easy, hard, and strongly hard, or not.
    pub fn of(easy: bool, pseudo: bool, hard: bool, strong: bool) -> Mark
        ensures { result ≡ mark_of easy pseudo hard strong }
    {
        match (easy, pseudo, hard, strong) {
            (true, _, true, _) => Mark::Both,
            (true, _, _, _) => Mark::Easy,
            (_, true, _, true) => Mark::Torn,
            (_, true, true, _) => Mark::Weak,
            (_, _, _, true) => Mark::Strong,
            (_, _, true, _) => Mark::Hard,
            (_, true, _, _) => Mark::Pseudo,
            _ => Mark::Unsettled,
        }
    }
}
