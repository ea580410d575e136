// Flow shops of unit operations with release dates, `F|r,p=1|sumwT` and `F|r,p=1|sumwU`: in the slots of the earliest schedule on one
// machine, at least cost.
ghost use Rattle.std.specs.Prelude.{◌≡◌, ◌<◌, ◌≤◌, length, All, IfOk};
ghost use Rattle.msp_class.specs.declared.sizes.TheConstants.{MOST_JOBS, MOST_MACHINES};
ghost use Rattle.msp_instance.specs.Conditions.{Inner};
ghost use Rattle.msp_pieces.specs.Cost.{IsBest};
ghost use Rattle.msp_route.specs.Bounds.{IsAnswer};
ghost use Rattle.msp_total.specs.Classes.{lines_late_class, lines_count_class};
ghost use Rattle.msp_total.specs.LineSteps.{line_class, line_part, lined, AreLeastLined};

use crate::job_slots::{JobSlots, least_slots};
use msp_class::{Class, Crit, Env, List, NoMemory, Order, Times};
use msp_instance::Instance;
use msp_pieces::{Piece, Schedule, Solution};
use msp_route::{Solver, best_solution};
use msp_slots::Slot;
use std::alloc::Global;

/// The class of unit operations with release dates in flow shops, by weighted tardiness or by the weight of late jobs.
fn class_of(late: bool) -> Class
    ensures { result ≡ line_class late }
{
    let crit = if late { Crit::SumWT } else { Crit::SumWU };
    Class {
        env: Env::F,
        cut: false,
        order: Order::Free,
        heads: true,
        times: Times::Unit,
        crit,
    }
}

/// The operation of the job that begins in the slot: each operation runs on the machine of its number, as many units of time later.
fn piece_of(job: u32, op: u32, slot: &Slot) -> Piece
    ensures { result ≡ line_part job op slot.now.start }
{
    Piece {
        job,
        op,
        machine: op,
        from: i128::from(slot.start) + i128::from(op),
        to: i128::from(slot.start) + i128::from(op) + 1,
    }
}

/// The operations of all jobs, which begin in the slots of their columns.
fn laid_out(
    alloc: Global,
    slots: &[Slot],
    column: &[u32],
    machines: usize,
) -> Result<List<Piece>, NoMemory>
    requires few { length column.now ≤ MOST_JOBS }
    requires inside { All (λ c. c < length slots.now) column.now }
    requires some { 1 ≤ machines }
    requires machines { machines ≤ MOST_MACHINES }
    ensures { IfOk result (λ pieces. pieces ≡ lined machines slots.now column.now) }
{
    let mut pieces = List::new(alloc);
    for turn in 0..column.len() * machines {
        let job = turn / machines;
        let slot = &slots[column[job] as usize];
        let next = piece_of(job as u32, (turn % machines) as u32, slot);
        pieces.put(next)?;
    }
    Ok(pieces)
}

/// The pieces of a schedule of least cost.
fn least_pieces(alloc: Global, inst: &Instance, late: bool) -> Result<List<Piece>, NoMemory>
    requires inner { Inner inst.now }
    requires class { inst.now.class ≡ line_class late }
    ensures { IfOk result (AreLeastLined inst.now late) }
{
    let machines = inst.machines;
    let JobSlots { slots, column } = least_slots(alloc, inst, late, 1, machines)?;
    laid_out(
        alloc,
        slots.as_slice(),
        column.as_slice(),
        machines as usize,
    )
}

/// A schedule of least weighted tardiness, or where `late` is false, of least weight of late jobs, with its cost.
fn schedule_in_lines(alloc: Global, inst: &Instance, late: bool) -> Result<Solution, NoMemory>
    requires inner { Inner inst.now }
    requires class { inst.now.class ≡ line_class late }
    ensures best { IfOk result (λ s. IsBest inst.now s) }
    ensures bounds { IfOk result (λ s. IsAnswer inst.now s.schedule) }
{
    let pieces = least_pieces(alloc, inst, late)?;
    Ok(best_solution(inst, Schedule { unit: 1, pieces }))
}

/// Finds a schedule of unit operations with release dates in a flow shop whose weighted tardiness is least: a least assignment of the jobs
/// to the slots of the earliest schedule on one machine (Lawler 1964 for one machine).
#[derive(Clone, Copy)]
pub struct LinesLate;

impl Solver for LinesLate {
    ghost solved = { λ _. lines_late_class };

    fn target(&self) -> Class {
        class_of(true)
    }

    fn fits(&self, _inst: &Instance) -> bool {
        true
    }

    fn solve(&self, alloc: Global, inst: &Instance) -> Result<Solution, NoMemory> {
        schedule_in_lines(alloc, inst, true)
    }
}

/// Finds a schedule of unit operations with release dates in a flow shop whose late jobs weigh least, in the same way.
#[derive(Clone, Copy)]
pub struct LinesCount;

impl Solver for LinesCount {
    ghost solved = { λ _. lines_count_class };

    fn target(&self) -> Class {
        class_of(false)
    }

    fn fits(&self, _inst: &Instance) -> bool {
        true
    }

    fn solve(&self, alloc: Global, inst: &Instance) -> Result<Solution, NoMemory> {
        schedule_in_lines(alloc, inst, false)
    }
}
