// Which class of the list an instance is led to, and by which rows.
ghost use Rattle.std.specs.Prelude.{◌≡◌, ◌↔◌, slice_get, Some, IfOk, IfErr, IfSome, IfNone, IsTrue, Contains};
ghost use Rattle.msp_class.specs.declared.class.Class.{Class as ClassValue};
ghost use Rattle.msp_table.specs.Rows.{carries};
ghost use Rattle.msp_table.specs.Chains.{Reaches};
ghost use Rattle.msp_dispatch.specs.Solved.{solved_list, solved_classes};
ghost use Rattle.msp_dispatch.specs.Dispatch.{HasNoTarget};
ghost use Rattle.msp_dispatch.specs.Pick.{StandsAt, IsRoute, IsPick};

use crate::Cannot;
use crate::solved_list::{SOLVED, SolvedClass, entry_at, solved};
use msp_class::{Class, NoMemory, rank};
use msp_closure::{Routes, route, routes_from};
use msp_table::Chain;
use std::alloc::Global;

/// An entry of the list, and the nearest chain to its class.
#[derive(Drop)]
pub(crate) struct Pick {
    pub entry: SolvedClass,
    pub chain: Chain,
}

/// The pick of a place, by the routes from a class. None comes exactly where no chain leads to its class, or nothing stands there.
fn pick_along(alloc: Global, routes: &Routes, place: u32) -> Result<Option<Pick>, NoMemory>
    ensures none { IfOk result (λ found. IfNone found (IfSome (slice_get solved_list place) (λ e. ¬ Reaches carries routes.now e.class))) }
    ensures pick { IfOk result (λ found. IfSome found (λ p. StandsAt place p.entry × IsRoute routes.now p)) }
{
    match entry_at(place) {
        None => Ok(None),
        Some(entry) => match route(alloc, routes, entry.class)? {
            None => Ok(None),
            Some(chain) => Ok(Some(Pick { entry, chain })),
        },
    }
}

/// The same from the class itself.
fn pick_at(alloc: Global, from: Class, place: u32) -> Result<Option<Pick>, NoMemory>
    ensures none { IfOk result (λ found. IfNone found (IfSome (slice_get solved_list place) (λ e. ¬ Reaches carries from e.class))) }
    ensures pick { IfOk result (λ found. IfSome found (λ p. StandsAt place p.entry × IsRoute from p)) }
{
    let routes = routes_from(alloc, from)?;
    pick_along(alloc, &routes, place)
}

pub(crate) fn is_same(a: Class, b: Class) -> bool
    ensures { IsTrue result ↔ (a ≡ b) }
{
    rank(a) == rank(b)
}

/// Whether the class stands at the place of the list.
fn stands_at(class: Class, place: u32) -> bool
    ensures { IsTrue result ↔ (slice_get solved_classes place ≡ Some class) }
{
    match solved(place) {
        Some(other) => is_same(other, class),
        None => false,
    }
}

/// The place of a class in the list.
fn place_of(class: Class) -> Option<u32>
    ensures some { IfSome result (λ n. slice_get solved_classes n ≡ Some class) }
    ensures none { IfNone result (¬ Contains solved_classes class) }
{
    for place in 0..SOLVED {
        if stands_at(class, place) {
            return Some(place);
        }
    }
    None
}

/// The pick of the first class of the list to which a chain leads. None comes exactly where no chain leads to any of them.
fn first_along(alloc: Global, routes: &Routes) -> Result<Option<Pick>, NoMemory>
    ensures pick { IfOk result (λ found. IfSome found (IsPick routes.now None)) }
    ensures none { IfOk result (λ found. IfNone found ((target : ClassValue) → Contains solved_classes target → ¬ Reaches carries routes.now target)) }
{
    for place in 0..SOLVED {
        if let Some(pick) = pick_along(alloc, routes, place)? {
            return Ok(Some(pick));
        }
    }
    Ok(None)
}

/// The same from the class itself.
fn first_reached(alloc: Global, from: Class) -> Result<Option<Pick>, NoMemory>
    ensures pick { IfOk result (λ found. IfSome found (IsPick from None)) }
    ensures none { IfOk result (λ found. IfNone found ((target : ClassValue) → Contains solved_classes target → ¬ Reaches carries from target)) }
{
    let routes = routes_from(alloc, from)?;
    first_along(alloc, &routes)
}

/// The same, and the fault where there is none.
fn first_pick(alloc: Global, from: Class) -> Result<Pick, Cannot>
    ensures pick { IfOk result (IsPick from None) }
    ensures fault { IfErr result (HasNoTarget from None) }
{
    match first_reached(alloc, from)? {
        None => Err(Cannot::NoSolver { class: from }),
        Some(first) => Ok(first),
    }
}

/// The pick of the class that is asked for.
fn given_pick(alloc: Global, from: Class, at: Class) -> Result<Pick, Cannot>
    ensures pick { IfOk result (IsPick from (Some at)) }
    ensures fault { IfErr result (HasNoTarget from (Some at)) }
{
    match place_of(at) {
        None => Err(Cannot::NotSolved { class: at }),
        Some(place) => match pick_at(alloc, from, place)? {
            None => Err(Cannot::NoRoute { from, to: at }),
            Some(pick) => Ok(pick),
        },
    }
}

/// The pick of the class that is asked for, or else of the first to which a chain leads.
pub(crate) fn choose(alloc: Global, from: Class, at: Option<Class>) -> Result<Pick, Cannot>
    ensures pick { IfOk result (IsPick from at) }
    ensures fault { IfErr result (HasNoTarget from at) }
{
    match at {
        None => first_pick(alloc, from),
        Some(class) => given_pick(alloc, from, class),
    }
}
