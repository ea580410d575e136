// The solver: the jobs that the table chooses by due date, and then the others by number.
ghost use Rattle.std.specs.Prelude.{◌≡◌, ◌+◌, ◌<◌, ◌≤◌, length, map, slice_index_or, sum_by, All, AllPairs, IfOk, IsPermutation};
ghost use Rattle.std.specs.Ordering.{nat_cmp};
ghost use Rattle.msp_class.specs.declared.sizes.TheConstants.{MOST_JOBS, GREATEST};
ghost use Rattle.msp_instance.specs.Instance.{no_need};
ghost use Rattle.msp_instance.specs.Conditions.{Inner};
ghost use Rattle.msp_pieces.specs.Cost.{IsBest};
ghost use Rattle.msp_pieces.specs.Fraction.{IsLowest};
ghost use Rattle.msp_pieces.specs.Settled.{IsSettled};
ghost use Rattle.msp_route.specs.Bounds.{IsAnswer};
ghost use Rattle.msp_weighted.specs.Late.{late_class, time_of, total_time, IsLateOrder};
ghost use Rattle.msp_weighted.specs.Limits.{AreLimits};
ghost use Rattle.msp_weighted.specs.Steps.{IsOrderOf};
ghost use Rattle.msp_weighted.specs.Values.{IsTableOrder};

use crate::table::{best_moment, table_of};
use crate::walk::{Choice, chosen};
use msp_class::{Class, Crit, Env, NoMemory, Order, Times};
use msp_instance::{Instance, Job};
use msp_pieces::Solution;
use msp_route::{Solver, first_time, jobs_by_date, solution_in_order};
use std::alloc::Global;
use std::cmp::Ordering;

/// How long all jobs may take together: the table has a bit for each of `MOST_JOBS` jobs and each moment.
pub const GREATEST_TOTAL: u64 = 1_000_000;

/// The limit by its number.
pub fn law_of_limits()
    ensures { AreLimits }
{}

/// The class that the table solves: `1||sumwU`.
const LATE_CLASS: Class = Class {
    env: Env::One,
    cut: false,
    order: Order::Free,
    heads: false,
    times: Times::General,
    crit: Crit::SumWU,
};

/// How long the jobs take together.
fn total_of(jobs: &[Job]) -> u64
    requires few { length jobs.now ≤ MOST_JOBS }
    requires needs { All (λ j. (0 < length j.needs) × (time_of j ≤ GREATEST)) jobs.now }
    ensures { result ≡ sum_by time_of jobs.now }
{
    let mut total: u64 = 0;
    for k in 0..jobs.len() {
        total += first_time(&jobs[k]);
    }
    total
}

fn compare_numbers(a: &u32, b: &u32) -> Ordering
    ensures { result ≡ nat_cmp a.now b.now }
{
    a.cmp(b)
}

fn sort_by_number(jobs: &mut Vec<u32>)
    ensures permutation { IsPermutation jobs.old.items jobs.new.items }
    ensures sorted { AllPairs (λ a b. a ≤ b) jobs.new.items }
{
    jobs.sort_unstable_by(|a, b| compare_numbers(a, b));
}

/// The jobs that are on time, and then the others, sorted.
fn in_order(choice: Choice) -> Result<Vec<u32>, NoMemory>
    ensures { IfOk result (λ o. IsOrderOf choice.on_time.items choice.left.items o.items) }
{
    let Choice {
        mut on_time,
        mut left,
        ..
    } = choice;
    sort_by_number(&mut left);
    on_time.append(&mut left)?;
    Ok(on_time)
}

/// The numbers of the jobs in the order of the answer.
fn late_order(alloc: Global, inst: &Instance) -> Result<Vec<u32>, NoMemory>
    requires few { length inst.now.jobs ≤ MOST_JOBS }
    requires needs { All (λ j. (0 < length j.needs) × (0 < (slice_index_or j.needs 0 no_need).time)) inst.now.jobs }
    requires short { All (λ j. (0 < length j.needs) × (time_of j ≤ GREATEST)) inst.now.jobs }
    requires light { All (λ j. j.weight ≤ GREATEST) inst.now.jobs }
    requires total { total_time inst.now ≤ GREATEST_TOTAL }
    ensures { IfOk result (λ o. IsTableOrder inst.now o.items) }
{
    let total = total_of(inst.jobs.as_slice());
    let order = jobs_by_date(alloc, inst)?;
    let table = table_of(alloc, inst, &order, total)?;
    let moment = best_moment(&table.values);
    let width = total as usize + 1;
    let choice = chosen(alloc, inst, &order, &table.flags, width, moment)?;
    in_order(choice)
}

/// Finds a schedule with the least weight of late jobs, where all jobs together take at most a million: of the jobs by due date, ties by
/// number, one after another, it keeps for each total time the greatest weight that is on time (Lawler and Moore 1969). The jobs that gave
/// the greatest weight run by due date, and then the others by number. The table takes 8 bytes for each total time, and a bit for each job
/// and each total time.
#[derive(Clone, Copy)]
pub struct LateTable;

impl Solver for LateTable {
    ghost use Rattle.msp_weighted.specs.declared.late_table.TheConstants.{GREATEST_TOTAL};

    ghost solved = { λ _. late_class };

    ghost can_solve = { λ _ i. total_time i ≤ GREATEST_TOTAL };

    fn target(&self) -> Class {
        LATE_CLASS
    }

    fn fits(&self, inst: &Instance) -> bool {
        total_of(inst.jobs.as_slice()) <= GREATEST_TOTAL
    }

    fn solve(&self, alloc: Global, inst: &Instance) -> Result<Solution, NoMemory>
        requires inner { Inner inst.now }
        requires class { inst.now.class ≡ late_class }
        requires fits { total_time inst.now ≤ GREATEST_TOTAL }

        // What every solver ensures.
        ensures best { IfOk result (λ s. IsBest inst.now s) }
        ensures bounds { IfOk result (λ s. IsAnswer inst.now s.schedule) }

        // The form of the answer.
        ensures order { IfOk result (λ s. IsLateOrder inst.now (map (λ p. p.job) s.schedule.pieces)) }
        ensures settled { IfOk result (λ s. IsSettled s.schedule) }
        ensures lowest { IfOk result (λ s. IsLowest s.cost) }
    {
        let order = late_order(alloc, inst)?;
        solution_in_order(alloc, inst, &order)
    }
}
