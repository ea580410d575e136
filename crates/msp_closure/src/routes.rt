// The chains of carrying rows from one class.
ghost use Rattle.std.specs.Prelude.{◌≡◌, ◌↔◌, ◌≤◌, ◌∷◌, [], ℕ, Bool, Some, length, IfOk, IfSome, IsNone, IsTrue};
ghost use Rattle.msp_class.specs.declared.ranks.TheConstants.{CLASSES};
ghost use Rattle.msp_table.specs.Rows.{carries};
ghost use Rattle.msp_table.specs.Chains.{Reaches};
ghost use Rattle.msp_closure.specs.Entries.{IsWay};

use crate::chains::way_within;
use crate::outlook::{Outlook, only};
use crate::row_set::RowSet;
use msp_class::{Class, List, NoMemory, rank};
use msp_table::Chain;
use std::alloc::Global;
use std::marker::Model;

/// Where carrying rows lead from a class. One walk serves for all chains from it. Contracts see it as that class.
#[derive(Drop)]
pub struct Routes {
    from: Class,
    outlook: Outlook,
}

impl Model for Routes {
    ghost use Rattle.std.specs.Prelude.{◌≡◌, ◌∷◌, []};
    ghost use Rattle.msp_class.specs.declared.class.Class.{Class};
    ghost use Rattle.msp_table.specs.Rows.{carries};
    ghost use Rattle.msp_closure.specs.declared.row_set.RowSet.TheVariants.{Carrying};
    ghost use Rattle.msp_closure.specs.Outlook.{IsOutlook};

    ghost Value = { Class };

    ghost view = { λ r. r.from };

    ghost invariant = { λ r. (r.outlook.rows ≡ Carrying) × (r.outlook.starts.items ≡ r.from ∷ [])
        × IsOutlook carries (r.from ∷ []) r.outlook.flags r.outlook.links.items };
}

/// Works out where carrying rows lead from a class.
pub fn routes_from(alloc: Global, from: Class) -> Result<Routes, NoMemory>
    ensures { IfOk result (λ routes. routes ≡ from) }
{
    let starts = only(alloc, from)?;
    let outlook = Outlook::walk(alloc, RowSet::Carrying, starts)?;
    Ok(Routes { from, outlook })
}

/// Whether some chain of carrying rows leads to the class.
fn leads_to(routes: &Routes, to: Class) -> bool
    ensures { IsTrue result ↔ Reaches carries routes.now to }
{
    routes.outlook.flags.at(to)
}

/// The nearest chain of carrying rows to a class. None comes exactly where there is none.
pub fn route(alloc: Global, routes: &Routes, to: Class) -> Result<Option<Chain>, NoMemory>
    ensures none { IfOk result (λ found. IsNone found ↔ (¬ Reaches carries routes.now to)) }
    ensures way { IfOk result (λ found. IsWay carries (to ∷ []) (routes.now ∷ []) found) }
    ensures few { IfOk result (λ found. IfSome found (λ chain. length chain.rows ≤ CLASSES)) }
{
    if rank(routes.from) == rank(to) {
        return Ok(Some(no_rows(alloc, to)));
    }
    if !leads_to(routes, to) {
        return Ok(None);
    }
    way_within(alloc, &routes.outlook, &[to])
}

/// The chain of no row, which leads from a class to itself.
fn no_rows(alloc: Global, from: Class) -> Chain
    ensures way { (usable : ℕ → Bool) → IsWay usable (from ∷ []) (from ∷ []) (Some result) }
    ensures few { length result.rows ≡ 0 }
{
    Chain {
        from,
        rows: List::new(alloc),
    }
}

/// The nearest chain of carrying rows from one class to another. None comes exactly where there is none.
pub fn route_to(alloc: Global, from: Class, to: Class) -> Result<Option<Chain>, NoMemory>
    ensures none { IfOk result (λ found. IsNone found ↔ (¬ Reaches carries from to)) }
    ensures way { IfOk result (λ found. IsWay carries (to ∷ []) (from ∷ []) found) }
    ensures few { IfOk result (λ found. IfSome found (λ chain. length chain.rows ≤ CLASSES)) }
{
    if rank(from) == rank(to) {
        return Ok(Some(no_rows(alloc, from)));
    }
    let routes = routes_from(alloc, from)?;
    route(alloc, &routes, to)
}
