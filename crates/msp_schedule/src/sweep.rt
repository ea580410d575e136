// The first condition of a feasible schedule that a schedule breaks, found by sorting.
ghost use Rattle.std.specs.Prelude.{◌↔◌, IsNone, IfOk, IfSome};
ghost use Rattle.msp_class.specs.Env.{IsCutOnUnrelated};
ghost use Rattle.msp_instance.specs.Conditions.{Inner};
ghost use Rattle.msp_schedule.specs.Breaks.{IsDecision, IsFirstBreak};
ghost use Rattle.msp_pieces.specs.Feasible.{Feasible};
ghost use Rattle.msp_pieces.specs.Within.{Within};

use crate::arcs::swept_arc;
use crate::breaks::{Break, first_early, first_empty, first_misplaced};
use crate::occupancies::swept_overlap;
use crate::overlaps::Lane;
use crate::shares::{swept_route, swept_work};
use msp_class::NoMemory;
use msp_instance::Instance;
use msp_pieces::Schedule;
use std::alloc::Global;

fn decided(alloc: Global, inst: &Instance, s: &Schedule) -> Result<Option<Break>, NoMemory>
    requires inner { Inner inst.now }
    requires within { Within inst.now s.now }
    requires decided { ¬ IsCutOnUnrelated inst.now.class }
    ensures { IfOk result (IsDecision inst.now s.now) }
{
    let pieces = s.pieces.as_slice();
    if let Some(piece) = first_empty(pieces) {
        return Ok(Some(Break::Span { piece }));
    }
    if let Some(piece) = first_misplaced(inst, pieces) {
        return Ok(Some(Break::Place { piece }));
    }
    if let Some((first, second)) = swept_overlap(alloc, Lane::Machine, pieces)? {
        return Ok(Some(Break::Machine { first, second }));
    }
    if let Some((first, second)) = swept_overlap(alloc, Lane::Job, pieces)? {
        return Ok(Some(Break::Job { first, second }));
    }
    if let Some(piece) = first_early(inst, s.unit, pieces) {
        return Ok(Some(Break::Release { piece }));
    }
    if let Some(at) = swept_arc(pieces, inst.arcs.as_slice()) {
        return Ok(Some(Break::Arc { at }));
    }
    if let Some((job, op)) = swept_route(alloc, inst, pieces)? {
        return Ok(Some(Break::Route { job, op }));
    }
    match swept_work(alloc, inst, s.unit, pieces)? {
        Some((job, op)) => Ok(Some(Break::Work { job, op })),
        None => Ok(None),
    }
}

/// The first condition of a feasible schedule that the schedule breaks, as `first_break` says it. Pieces are sorted, so that the time is
/// little more than in proportion to their number, and memory is taken for a copy of them. Whether pieces of a cut class on unrelated
/// machines do their work is not decided.
pub fn swept(alloc: Global, inst: &Instance, s: &Schedule) -> Result<Option<Break>, NoMemory>
    requires inner { Inner inst.now }
    requires within { Within inst.now s.now }
    requires decided { ¬ IsCutOnUnrelated inst.now.class }
    ensures none { IfOk result (λ r. IsNone r ↔ Feasible inst.now s.now) }
    ensures first { IfOk result (λ r. IfSome r (IsFirstBreak inst.now s.now)) }
{
    decided(alloc, inst, s)
}
