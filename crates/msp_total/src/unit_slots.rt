// Unit jobs with release dates on identical machines, `P|r,p=1|sumwT` and `P|r,p=1|sumwU`: in the slots of the earliest schedule, at least
// cost.
//
// Rule: the slots are those in which the earliest schedule runs its jobs, of all jobs by release date (`earliest_slots` of `msp_slots`).
// The jobs are assigned to the slots at least cost (`msp_assign`): what a job costs that ends one after the slot begins, or more than all
// jobs together may where the slot begins before its release date. By tardiness the assignment begins with prices of the slots by a
// backward pass (`slot_assignment.rt`), so most jobs find their slot at once; which of several least assignments it is, the prices tell.
//
// Best (`proofs/SlotBest.antt`): whatever the whole moments at which the jobs of a schedule begin, each job has a slot of its own that
// begins no later and not before its release date (`msp_slots/proofs/SlotPlaces.antt`); fractions are no help, as begins may be rounded
// down (`law_of_floors` of `msp_pieces`). Costs do not fall with ends, so the assignment costs no more; and it never takes a slot before
// a release date, since the jobs fit without.
ghost use Rattle.std.specs.Prelude.{◌≡◌, ◌<◌, ◌≤◌, length, All, IfOk};
ghost use Rattle.msp_class.specs.declared.sizes.TheConstants.{MOST_JOBS};
ghost use Rattle.msp_instance.specs.Conditions.{Inner};
ghost use Rattle.msp_pieces.specs.Cost.{IsBest};
ghost use Rattle.msp_route.specs.Bounds.{IsAnswer};
ghost use Rattle.msp_total.specs.Slots.{tardiness_class, late_jobs_class};
ghost use Rattle.msp_slots.specs.Earliest.{slot_piece};
ghost use Rattle.msp_total.specs.SlotSteps.{slot_class, AreLaid, AreLeastLaid};

use crate::job_slots::{JobSlots, least_slots};
use msp_class::{Class, Crit, Env, List, NoMemory, Order, Times};
use msp_instance::Instance;
use msp_pieces::{Piece, Schedule, Solution};
use msp_route::{Solver, best_solution};
use msp_slots::Slot;
use std::alloc::Global;

/// The class of unit jobs with release dates on identical machines, by weighted tardiness or by the weight of late jobs.
fn class_of(late: bool) -> Class
    ensures { result ≡ slot_class late }
{
    let crit = if late { Crit::SumWT } else { Crit::SumWU };
    Class {
        env: Env::P,
        cut: false,
        order: Order::Free,
        heads: true,
        times: Times::Unit,
        crit,
    }
}

fn piece_of(job: u32, slot: &Slot) -> Piece
    ensures { result ≡ slot_piece job slot.now }
{
    Piece {
        job,
        op: 0,
        machine: slot.machine,
        from: i128::from(slot.start),
        to: i128::from(slot.start) + 1,
    }
}

/// The jobs in the slots of their columns.
fn laid_out(alloc: Global, slots: &[Slot], column: &[u32]) -> Result<List<Piece>, NoMemory>
    requires few { length column.now ≤ MOST_JOBS }
    requires inside { All (λ c. c < length slots.now) column.now }
    ensures { IfOk result (AreLaid slots.now column.now (length column.now)) }
{
    let mut pieces = List::new(alloc);
    for job in 0..column.len() {
        let next = piece_of(job as u32, &slots[column[job] as usize]);
        pieces.put(next)?;
    }
    Ok(pieces)
}

/// The pieces of a schedule of least cost.
fn least_pieces(alloc: Global, inst: &Instance, late: bool) -> Result<List<Piece>, NoMemory>
    requires inner { Inner inst.now }
    requires class { inst.now.class ≡ slot_class late }
    ensures { IfOk result (AreLeastLaid inst.now late) }
{
    let JobSlots { slots, column } = least_slots(alloc, inst, late, inst.machines, 1)?;
    laid_out(alloc, slots.as_slice(), column.as_slice())
}

/// A schedule of least weighted tardiness, or where `late` is false, of least weight of late jobs, with its cost.
fn schedule_in_slots(alloc: Global, inst: &Instance, late: bool) -> Result<Solution, NoMemory>
    requires inner { Inner inst.now }
    requires class { inst.now.class ≡ slot_class late }
    ensures best { IfOk result (λ s. IsBest inst.now s) }
    ensures bounds { IfOk result (λ s. IsAnswer inst.now s.schedule) }
{
    let pieces = least_pieces(alloc, inst, late)?;
    Ok(best_solution(inst, Schedule { unit: 1, pieces }))
}

/// Finds a schedule of unit jobs with release dates on identical machines whose weighted tardiness is least: a least assignment of the
/// jobs to the slots of the earliest schedule (Lawler 1964).
#[derive(Clone, Copy)]
pub struct SlotsLate;

impl Solver for SlotsLate {
    ghost solved = { λ _. tardiness_class };

    fn target(&self) -> Class {
        class_of(true)
    }

    fn fits(&self, _inst: &Instance) -> bool {
        true
    }

    fn solve(&self, alloc: Global, inst: &Instance) -> Result<Solution, NoMemory> {
        schedule_in_slots(alloc, inst, true)
    }
}

/// Finds a schedule of unit jobs with release dates on identical machines whose late jobs weigh least, in the same way.
#[derive(Clone, Copy)]
pub struct SlotsCount;

impl Solver for SlotsCount {
    ghost solved = { λ _. late_jobs_class };

    fn target(&self) -> Class {
        class_of(false)
    }

    fn fits(&self, _inst: &Instance) -> bool {
        true
    }

    fn solve(&self, alloc: Global, inst: &Instance) -> Result<Solution, NoMemory> {
        schedule_in_slots(alloc, inst, false)
    }
}
