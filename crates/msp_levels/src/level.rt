// The levels of jobs, and the jobs by falling level.
ghost use Rattle.std.specs.Prelude.{◌≡◌, ℕ, ◌<◌, ◌≤◌, ◌⊎◌, slice_index, map, All, AllPairs, IfOk, IsPermutation};
ghost use Rattle.std.specs.List.{range_with_len};
ghost use Rattle.msp_class.specs.declared.sizes.TheConstants.{MOST_JOBS};
ghost use Rattle.msp_instance.specs.Conditions.{Inner, IsSequence, GoesForward};
ghost use Rattle.msp_pieces.specs.Levels.{AreLevels};
ghost use Rattle.msp_levels.specs.Steps.{IsOver, AreByLevel};

use msp_class::{List, NoMemory};
use msp_instance::{Arc, Instance, MOST_JOBS, OrderFault, forward};
use msp_pieces::Piece;
use msp_route::{Keyed, job_numbers, sort_by_falling_key};
use msp_slots::pieces_in_order;
use std::alloc::Global;

fn no_levels() -> [u32; MOST_JOBS]
    ensures { (k : ℕ) → slice_index result k ≡ 0 }
{
    [0; MOST_JOBS]
}

/// One more than the greatest level of a job to which an arc leads from this one, and 0 where none does.
fn level_over(arcs: &[Arc], levels: &[u32; MOST_JOBS], job: u32) -> u32
    requires ends { All (λ a. a.after < MOST_JOBS) arcs.now }
    requires small { (k : ℕ) → slice_index levels.now k ≤ MOST_JOBS }
    ensures { IsOver arcs.now (slice_index levels.now) job result }
{
    let mut level = 0;
    for arc in arcs {
        if arc.before == job {
            level = level.max(levels[arc.after as usize] + 1);
        }
    }
    level
}

/// Puts the levels of the jobs, from the last of a forward order to the first.
fn put_levels(inst: &Instance, order: &[u32], levels: &mut [u32; MOST_JOBS])
    requires inner { Inner inst.now }
    requires sequence { IsSequence inst.now order.now }
    requires forward { All (GoesForward order.now) inst.now.arcs }
    requires none { (k : ℕ) → slice_index levels.old k ≡ 0 }
    ensures levels { AreLevels inst.now (slice_index levels.new) }
    ensures small { (k : ℕ) → slice_index levels.new k ≤ MOST_JOBS }
{
    let arcs = inst.arcs.as_slice();
    let mut place = order.len();
    while place > 0 {
        place -= 1;
        let job = order[place];
        levels[job as usize] = level_over(arcs, levels, job);
    }
}

/// The level of each job.
pub fn levels_of(alloc: Global, inst: &Instance) -> Result<[u32; MOST_JOBS], NoMemory>
    requires inner { Inner inst.now }
    ensures levels { IfOk result (λ levels. AreLevels inst.now (slice_index levels)) }
    ensures small { IfOk result (λ levels. (k : ℕ) → slice_index levels k ≤ MOST_JOBS) }
{
    let order = match forward(alloc, inst) {
        Ok(order) => order,
        Err(OrderFault::Cycle { .. }) => unreachable!(),
        Err(OrderFault::Memory) => return Err(NoMemory),
    };
    let mut levels = no_levels();
    put_levels(inst, order.as_slice(), &mut levels);
    Ok(levels)
}

/// The jobs with their levels.
fn ranked_jobs(
    alloc: Global,
    count: usize,
    levels: &[u32; MOST_JOBS],
) -> Result<Vec<Keyed>, NoMemory>
    requires { count ≤ MOST_JOBS }
    ensures jobs { IfOk result (λ all. map (λ r. r.job) all.items ≡ range_with_len 0 count) }
    ensures levels { IfOk result (λ all. All (λ r. r.key ≡ slice_index levels.now r.job) all.items) }
{
    let mut all = Vec::new(alloc);
    for job in 0..count as u32 {
        let key = u64::from(levels[job as usize]);
        all.push(Keyed { job, key })?;
    }
    Ok(all)
}

/// All jobs by falling level, ties by number.
pub fn jobs_by_level(
    alloc: Global,
    count: usize,
    levels: &[u32; MOST_JOBS],
) -> Result<Vec<u32>, NoMemory>
    requires { count ≤ MOST_JOBS }
    ensures all { IfOk result (λ jobs. IsPermutation (range_with_len 0 count) jobs.items) }
    ensures falling { IfOk result
        (λ jobs. AllPairs (λ a b. (slice_index levels.now b < slice_index levels.now a) ⊎ ((slice_index levels.now b ≡ slice_index levels.now a) × (a < b))) jobs.items) }
{
    let mut all = ranked_jobs(alloc, count, levels)?;
    sort_by_falling_key(&mut all);
    job_numbers(alloc, all.as_slice())
}

/// The pieces of the rule: the jobs run by falling level.
pub fn pieces_by_level(alloc: Global, inst: &Instance) -> Result<List<Piece>, NoMemory>
    requires inner { Inner inst.now }
    ensures { IfOk result (AreByLevel inst.now) }
{
    let levels = levels_of(alloc, inst)?;
    let order = jobs_by_level(alloc, inst.jobs.len(), &levels)?;
    pieces_in_order(alloc, inst, order)
}
