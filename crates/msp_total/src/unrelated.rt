// Total completion time on unrelated machines, `R||sumC` (Horn 1973; Bruno, Coffman and Sethi 1974).
//
// Rule: a job with k jobs behind it on a machine counts k + 1 times in the sum of all ends. So jobs are assigned to positions, a machine
// and a count of jobs behind, at least cost (`msp_assign`; along a machine the costs of a job never fall, so its positions are a line of
// columns); each machine runs its jobs by their positions, the last position first, from moment 0 on.
//
// Best (`proofs/UnrelatedBest.antt`): in any schedule the jobs stand at positions of their own and cost at least what the assignment costs
// there; the assignment is least, as its prices show.
//
// The prices (`prices`, `solve_with_prices`) are evidence of the cost: they are together what a best schedule costs
// (`proofs/PositionPrices.antt`, `law_of_prices` of `msp_pieces`).
ghost use Rattle.std.specs.Prelude.{◌≡◌, ◌++◌, ◌*◌, ◌/◌, ◌<◌, ◌≤◌, length, map, All, IfOk, OnOk};
ghost use Rattle.std.specs.List.{range_with_len};
ghost use Rattle.msp_class.specs.declared.sizes.TheConstants.{MOST_JOBS, MOST_MACHINES};
ghost use Rattle.msp_instance.specs.Conditions.{Inner};
ghost use Rattle.msp_pieces.specs.Cost.{IsBest};
ghost use Rattle.msp_route.specs.Bounds.{IsAnswer};
ghost use Rattle.msp_assign.specs.Prices.{column_of};
ghost use Rattle.msp_total.specs.Classes.{unrelated_class};
ghost use Rattle.msp_total.specs.Priced.{ArePricesOfBest, TakePositions, KeepsPricesSmall};
ghost use Rattle.msp_total.specs.Columns.{IsTableOf, HasShortTimes, IsPositioned, IsByColumn, IsPlaceOf, ArePlacesOf};

use crate::lay::{Place, lay};
use crate::positions::{Positions, time_at};
use msp_assign::{Assignment, assign_on_lines};
use msp_class::{Class, Crit, Env, List, NoMemory, Order, Times};
use msp_instance::{Instance, Need};
use msp_pieces::{Schedule, Solution};
use msp_route::{Solver, best_solution};
use std::alloc::Global;

/// The class that the assignment solves: `R||sumC`.
const UNRELATED_CLASS: Class = Class {
    env: Env::R,
    cut: false,
    order: Order::Free,
    heads: false,
    times: Times::General,
    crit: Crit::SumC,
};

/// Puts the times of a job at the end.
fn put_times(times: &mut List<u64>, needs: &[Need]) -> Result<(), NoMemory>
    ensures { OnOk result (times.new ≡ times.old ++ map (λ n. n.time) needs.now) }
{
    for need in needs {
        times.put(need.time)?;
    }
    Ok(())
}

/// The times of all jobs on all machines.
fn positions_of(alloc: Global, inst: &Instance) -> Result<Positions, NoMemory>
    requires inner { Inner inst.now }
    requires class { inst.now.class ≡ unrelated_class }
    ensures { IfOk result (λ p. IsTableOf inst.now p) }
{
    let jobs = inst.jobs.as_slice();
    let mut times = List::new(alloc);
    for k in 0..jobs.len() {
        put_times(&mut times, jobs[k].needs.as_slice())?;
    }
    Ok(Positions {
        jobs: jobs.len() as u32,
        machines: inst.machines,
        times,
    })
}

/// A least assignment of the jobs to the positions: on each machine jobs take the last positions, since an earlier one costs each job
/// more.
fn assigned(alloc: Global, table: &Positions) -> Result<Assignment, NoMemory>
    requires jobs { (1 ≤ table.now.jobs) × (table.now.jobs ≤ MOST_JOBS) }
    requires machines { (1 ≤ table.now.machines) × (table.now.machines ≤ MOST_MACHINES) }
    requires times { HasShortTimes table.now }
    ensures { IfOk result (IsPositioned table.now) }
{
    assign_on_lines(alloc, table)
}

/// A job and its column.
#[derive(Clone, Copy)]
pub struct Chosen {
    pub job: u32,
    pub column: u32,
}

/// The jobs with their columns.
fn chosen_of(alloc: Global, column: &[u32]) -> Result<Vec<Chosen>, NoMemory>
    requires { length column.now ≤ MOST_JOBS }
    ensures jobs { IfOk result (λ all. map (λ c. c.job) all.items ≡ range_with_len 0 (length column.now)) }
    ensures columns { IfOk result (λ all. All (λ c. c.column ≡ column_of column.now c.job) all.items) }
{
    let mut all = Vec::new(alloc);
    for k in 0..column.len() {
        let chosen = Chosen {
            job: k as u32,
            column: column[k],
        };
        all.push(chosen)?;
    }
    Ok(all)
}

/// All jobs by rising column: of each machine the last job first.
fn by_column(alloc: Global, column: &[u32]) -> Result<Vec<Chosen>, NoMemory>
    requires { length column.now ≤ MOST_JOBS }
    ensures { IfOk result (λ chosen. IsByColumn (length column.now) column.now chosen.items) }
{
    let mut chosen = chosen_of(alloc, column)?;
    chosen.sort_by_key(|c| c.column)?;
    Ok(chosen)
}

/// The place of a job at its column.
fn place_of(table: &Positions, chosen: Chosen) -> Place
    requires job { chosen.job < table.now.jobs }
    requires column { chosen.column < table.now.jobs * table.now.machines }
    ensures { IsPlaceOf table.now chosen result }
{
    let machine = chosen.column / table.jobs;
    Place {
        job: chosen.job,
        machine,
        length: time_at(table, chosen.job, machine),
    }
}

/// The places of the jobs at their columns.
fn places_of(alloc: Global, table: &Positions, chosen: &[Chosen]) -> Result<Vec<Place>, NoMemory>
    requires { All (λ c. (c.job < table.now.jobs) × (c.column < table.now.jobs * table.now.machines)) chosen.now }
    ensures { IfOk result (λ places. ArePlacesOf table.now chosen.now places.items) }
{
    let mut places = Vec::new(alloc);
    for c in chosen {
        places.push(place_of(table, *c))?;
    }
    Ok(places)
}

/// The schedule of the jobs at their positions, with its cost. The unit is 1.
fn solution_at(
    alloc: Global,
    inst: &Instance,
    table: &Positions,
    assignment: &Assignment,
) -> Result<Solution, NoMemory>
    requires inner { Inner inst.now }
    requires class { inst.now.class ≡ unrelated_class }
    requires table { IsTableOf inst.now table.now }
    requires positions { IsPositioned table.now assignment.now }
    ensures best { IfOk result (λ s. IsBest inst.now s) }
    ensures bounds { IfOk result (λ s. IsAnswer inst.now s.schedule) }
{
    let chosen = by_column(alloc, assignment.column.as_slice())?;
    let places = places_of(alloc, table, chosen.as_slice())?;
    let pieces = lay(alloc, places.as_slice())?;
    let schedule = Schedule { unit: 1, pieces };
    Ok(best_solution(inst, schedule))
}

/// A best schedule, and prices of the jobs and positions that show it.
#[derive(Drop)]
pub struct PricedSolution {
    pub solution: Solution,
    pub prices: Assignment,
}

/// A best schedule on unrelated machines, with the prices of `prices`, by one least assignment of the jobs to positions, counted from each
/// machine's end; a job that k others follow adds k + 1 times its time there (Horn 1973, Bruno, Coffman and Sethi 1974).
pub fn solve_with_prices(alloc: Global, inst: &Instance) -> Result<PricedSolution, NoMemory>
    requires inner { Inner inst.now }
    requires class { inst.now.class ≡ unrelated_class }
    ensures best { IfOk result (λ s. IsBest inst.now s.solution) }
    ensures bounds { IfOk result (λ s. IsAnswer inst.now s.solution.schedule) }
    ensures prices { IfOk result (λ s. ArePricesOfBest inst.now s.prices) }
    ensures positions { IfOk result (λ s. TakePositions inst.now s.prices) }
    ensures small { IfOk result (λ s. KeepsPricesSmall inst.now s.prices) }
{
    let table = positions_of(alloc, inst)?;
    let prices = assigned(alloc, &table)?;
    let solution = solution_at(alloc, inst, &table, &prices)?;
    Ok(PricedSolution { solution, prices })
}

/// The position of each job in a least assignment to `Positions`, and prices of the jobs and of all positions that show that it is least,
/// and what a best schedule costs. The greatest of the positions' is 0.
pub fn prices(alloc: Global, inst: &Instance) -> Result<Assignment, NoMemory>
    requires inner { Inner inst.now }
    requires class { inst.now.class ≡ unrelated_class }
    ensures best { IfOk result (ArePricesOfBest inst.now) }
    ensures positions { IfOk result (TakePositions inst.now) }
    ensures small { IfOk result (KeepsPricesSmall inst.now) }
{
    let PricedSolution { prices, .. } = solve_with_prices(alloc, inst)?;
    Ok(prices)
}

/// Finds a schedule of least total completion time on unrelated machines by a least assignment of jobs to positions (Horn 1973, Bruno,
/// Coffman and Sethi 1974).
#[derive(Clone, Copy)]
pub struct Unrelated;

impl Solver for Unrelated {
    ghost solved = { λ _. unrelated_class };

    fn target(&self) -> Class {
        UNRELATED_CLASS
    }

    fn fits(&self, _inst: &Instance) -> bool {
        true
    }

    fn solve(&self, alloc: Global, inst: &Instance) -> Result<Solution, NoMemory> {
        let PricedSolution { solution, .. } = solve_with_prices(alloc, inst)?;
        Ok(solution)
    }
}
