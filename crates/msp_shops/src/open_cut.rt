// Open shops with preemption, `O|pmtn|Cmax`: the matrix of times is split into slices (Gonzalez and Sahni 1976).
//
// Rule: rows are machines, columns jobs, and the greatest sum of a line is the least end. `split` of `msp_timetable` gives slices of time,
// in each of which every machine has at most one job and no job two machines, and which last together just as long as the least end. Laid
// one after another they are the schedule; pieces that touch on a machine are joined.
//
// Best (`proofs/OpenCutFacts.antt`): a line's sum is the load of a machine or the length of a job, and no schedule ends before it
// (`law_of_machines` and `law_of_lines` of `msp_pieces`).
ghost use Rattle.std.specs.Prelude.{◌≡◌, ◌<◌, ◌≤◌, ◌++◌, pos, length, map, IfOk, OnOk};
ghost use Rattle.std.specs.List.{range_with_len};
ghost use Rattle.msp_class.specs.declared.sizes.TheConstants.{MOST_JOBS, MOST_MACHINES};
ghost use Rattle.msp_instance.specs.Conditions.{Inner};
ghost use Rattle.msp_instance.specs.Instance.{need_at};
ghost use Rattle.msp_pieces.specs.Cost.{IsBest};
ghost use Rattle.msp_route.specs.Bounds.{IsAnswer};
ghost use Rattle.msp_shops.specs.Joined.{AreJoined};
ghost use Rattle.msp_shops.specs.OpenCut.{open_cut_class, IsOpenCutCost};
ghost use Rattle.msp_shops.specs.Sliced.{AreTimes, IsTimeMatrix, IsCutPlan};

use crate::groups::time_of;
use crate::slices::lay_slices;
use msp_class::{Class, Crit, Env, List, NoMemory, Order, Times};
use msp_instance::Instance;
use msp_pieces::{Piece, Schedule, Solution};
use msp_route::Solver;
use msp_timetable::{Matrix, split};
use std::alloc::Global;

/// The class that splitting solves: `O|pmtn|Cmax`.
const OPEN_CUT_CLASS: Class = Class {
    env: Env::O,
    cut: true,
    order: Order::Free,
    heads: false,
    times: Times::General,
    crit: Crit::Cmax,
};

/// How long the job takes on the machine.
fn time_on(inst: &Instance, job: usize, machine: usize) -> u64
    requires inside { job < length inst.now.jobs }
    ensures { result ≡ (need_at inst.now job machine).time }
{
    time_of(inst.jobs.as_slice()[job].needs.as_slice(), machine)
}

/// Puts the times of all jobs on a machine at the end.
fn put_row(cells: &mut Vec<i128>, inst: &Instance, machine: usize) -> Result<(), NoMemory>
    requires { length inst.now.jobs ≤ MOST_JOBS }
    ensures { OnOk result (cells.new.items ≡ cells.old.items ++ map (λ j. pos (need_at inst.now j machine).time) (range_with_len 0 (length inst.now.jobs))) }
{
    for job in 0..inst.jobs.len() {
        cells.push(i128::from(time_on(inst, job, machine)))?;
    }
    Ok(())
}

/// The times of all jobs, machine after machine.
fn times_by_machine(alloc: Global, inst: &Instance) -> Result<Vec<i128>, NoMemory>
    requires few { length inst.now.jobs ≤ MOST_JOBS }
    requires machines { inst.now.machines ≤ MOST_MACHINES }
    ensures { IfOk result (λ cells. AreTimes inst.now inst.now.machines cells.items) }
{
    let mut cells = Vec::new(alloc);
    for machine in 0..inst.machines as usize {
        put_row(&mut cells, inst, machine)?;
    }
    Ok(cells)
}

/// The matrix of times: a row for each machine, a column for each job.
fn time_matrix(alloc: Global, inst: &Instance) -> Result<Matrix, NoMemory>
    requires inner { Inner inst.now }
    requires class { inst.now.class ≡ open_cut_class }
    ensures { IfOk result (IsTimeMatrix inst.now) }
{
    let cells = times_by_machine(alloc, inst)?;
    Ok(Matrix {
        rows: inst.machines,
        columns: inst.jobs.len() as u32,
        cells: List::from_vec(cells),
    })
}

/// The pieces of all slices, joined where they touch.
fn cut_pieces(alloc: Global, inst: &Instance) -> Result<List<Piece>, NoMemory>
    requires inner { Inner inst.now }
    requires class { inst.now.class ≡ open_cut_class }
    ensures { IfOk result (IsCutPlan inst.now) }
{
    let matrix = time_matrix(alloc, inst)?;
    let slices = split(alloc, &matrix)?;
    lay_slices(alloc, slices.as_slice(), matrix.rows, matrix.columns)
}

/// Finds a schedule of least length in an open shop with preemption: the slices into which the matrix of times is split run one after
/// another (Gonzalez and Sahni 1976), and pieces of one operation that touch are joined.
#[derive(Clone, Copy)]
pub struct OpenCut;

impl Solver for OpenCut {
    ghost solved = { λ _. open_cut_class };

    fn target(&self) -> Class {
        OPEN_CUT_CLASS
    }

    fn fits(&self, _inst: &Instance) -> bool {
        true
    }

    fn solve(&self, alloc: Global, inst: &Instance) -> Result<Solution, NoMemory>
        requires inner { Inner inst.now }
        requires class { inst.now.class ≡ open_cut_class }
        ensures best { IfOk result (λ s. IsBest inst.now s) }
        ensures bounds { IfOk result (λ s. IsAnswer inst.now s.schedule) }
        ensures cost { IfOk result (λ s. IsOpenCutCost inst.now s.cost) }
        ensures joined { IfOk result (λ s. AreJoined s.schedule.pieces) }
    {
        let pieces = cut_pieces(alloc, inst)?;
        let schedule = Schedule { unit: 1, pieces };
        let cost = msp_pieces::cost(inst, &schedule);
        Ok(Solution { schedule, cost })
    }
}
