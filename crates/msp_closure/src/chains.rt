// The chains that show what known results say.
ghost use Rattle.std.specs.Prelude.{◌↔◌, ◌≤◌, ◌∷◌, [], length, IfOk, IfSome, IsNone};
ghost use Rattle.msp_class.specs.declared.ranks.TheConstants.{CLASSES};
ghost use Rattle.msp_table.specs.Rows.{keeps_size};
ghost use Rattle.msp_table.specs.Chains.{every_row};
ghost use Rattle.msp_closure.specs.Entries.{easy_listed, pseudo_listed, hard_listed, strong_listed, LeadsToOne, IsEasy, IsHard, IsStrong, IsClash, IsStrongClash, IsWay};
ghost use Rattle.msp_closure.specs.Outlook.{IsOutlook};
ghost use Rattle.msp_closure.specs.Tables.{allows};

use crate::distances::distances;
use crate::entry::{Entry, Verdict};
use crate::listing::listed;
use crate::outlook::{Outlook, only};
use crate::row_set::RowSet;
use crate::walk::{first_near, walk};
use msp_class::{Class, List, NoMemory};
use msp_table::Chain;
use std::alloc::Global;

/// The chain from a class to the nearest class listed as easy. None comes exactly where the class is not easy.
pub fn why_easy(alloc: Global, entries: &List<Entry>, c: Class) -> Result<Option<Chain>, NoMemory>
    ensures none { IfOk result (λ found. IsNone found ↔ (¬ IsEasy entries.now c)) }
    ensures way { IfOk result (λ found. IsWay every_row (easy_listed entries.now) (c ∷ []) found) }
{
    let easy = listed(alloc, entries, Verdict::Easy)?;
    way(alloc, RowSet::Every, only(alloc, c)?, &easy)
}

/// The chain of rows that keep size from a class to the nearest class listed as pseudopolynomial. None comes exactly where there is no
/// such chain, whether or not the class is easy.
pub fn why_pseudo(alloc: Global, entries: &List<Entry>, c: Class) -> Result<Option<Chain>, NoMemory>
    ensures none { IfOk result (λ found. IsNone found ↔ (¬ LeadsToOne keeps_size (pseudo_listed entries.now) c)) }
    ensures way { IfOk result (λ found. IsWay keeps_size (pseudo_listed entries.now) (c ∷ []) found) }
{
    let pseudo = listed(alloc, entries, Verdict::Pseudo)?;
    way(alloc, RowSet::KeepsSize, only(alloc, c)?, &pseudo)
}

/// The chain to a class from the first class listed as hard that leads to it. None comes exactly where the class is not hard.
pub fn why_hard(alloc: Global, entries: &List<Entry>, c: Class) -> Result<Option<Chain>, NoMemory>
    ensures none { IfOk result (λ found. IsNone found ↔ (¬ IsHard entries.now c)) }
    ensures way { IfOk result (λ found. IsWay every_row (c ∷ []) (hard_listed entries.now) found) }
{
    let hard = listed(alloc, entries, Verdict::Hard)?;
    way(alloc, RowSet::Every, hard, &[c])
}

/// The chain of rows that keep size to a class from the first class listed as strongly hard that leads to it. None comes exactly where
/// the class is not strongly hard.
pub fn why_strong(alloc: Global, entries: &List<Entry>, c: Class) -> Result<Option<Chain>, NoMemory>
    ensures none { IfOk result (λ found. IsNone found ↔ (¬ IsStrong entries.now c)) }
    ensures way { IfOk result (λ found. IsWay keeps_size (c ∷ []) (strong_listed entries.now) found) }
{
    let strong = listed(alloc, entries, Verdict::Strong)?;
    way(alloc, RowSet::KeepsSize, strong, &[c])
}

/// The chain from the first class listed as hard that leads to a class listed as easy, to the nearest such class.
/// None comes exactly where no class listed as hard leads to one listed as easy.
pub fn clash(alloc: Global, entries: &List<Entry>) -> Result<Option<Chain>, NoMemory>
    ensures none { IfOk result (λ found. IsNone found ↔ (¬ IsClash entries.now)) }
    ensures way { IfOk result (λ found. IsWay every_row (easy_listed entries.now) (hard_listed entries.now) found) }
{
    let hard = listed(alloc, entries, Verdict::Hard)?;
    let easy = listed(alloc, entries, Verdict::Easy)?;
    way(alloc, RowSet::Every, hard, &easy)
}

/// The same by rows that keep size, from a class listed as strongly hard to one listed as pseudopolynomial.
pub fn strong_clash(alloc: Global, entries: &List<Entry>) -> Result<Option<Chain>, NoMemory>
    ensures none { IfOk result (λ found. IsNone found ↔ (¬ IsStrongClash entries.now)) }
    ensures way { IfOk result (λ found. IsWay keeps_size (pseudo_listed entries.now) (strong_listed entries.now) found) }
{
    let strong = listed(alloc, entries, Verdict::Strong)?;
    let pseudo = listed(alloc, entries, Verdict::Pseudo)?;
    way(alloc, RowSet::KeepsSize, strong, &pseudo)
}

/// The chain from the first of the starts that leads to a wanted class, to the nearest such class.
fn way(
    alloc: Global,
    rows: RowSet,
    starts: Vec<Class>,
    wanted: &[Class],
) -> Result<Option<Chain>, NoMemory>
    ensures { IfOk result (λ found. IsWay (allows rows) wanted.now starts.items found) }
{
    let outlook = Outlook::walk(alloc, rows, starts)?;
    way_within(alloc, &outlook, wanted)
}

/// The same among the classes that a walk from the starts has met.
pub(crate) fn way_within(
    alloc: Global,
    outlook: &Outlook,
    wanted: &[Class],
) -> Result<Option<Chain>, NoMemory>
    requires { IsOutlook (allows outlook.now.rows) outlook.now.starts.items outlook.now.flags outlook.now.links.items }
    ensures way { IfOk result (λ found. IsWay (allows outlook.now.rows) wanted.now outlook.now.starts.items found) }
    ensures few { IfOk result (λ found. IfSome found (λ chain. length chain.rows ≤ CLASSES)) }
{
    let table = distances(alloc, outlook, wanted)?;
    match first_near(&outlook.starts, &table) {
        None => Ok(None),
        Some(from) => {
            let rows = walk(alloc, outlook.rows, &table, from)?;
            Ok(Some(Chain { from, rows }))
        }
    }
}
