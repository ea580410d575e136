// Shortest remaining time: at each moment the released job runs that still needs the least time.
ghost use Rattle.std.specs.Prelude.{◌≡◌, ℕ, ◌+◌, ◌-◌, ◌*◌, ◌<◌, ◌≤◌, [], ◌∷◌, true, false, length, map, vec_len, All, AllPairs, IfOk, IfNone, IfSome, IsPermutation};
ghost use Rattle.std.specs.BinaryHeap.{heap_items, heap_len};
ghost use Rattle.std.specs.List.{range_with_len};
ghost use Rattle.msp_class.specs.declared.sizes.TheConstants.{MOST_JOBS};
ghost use Rattle.msp_instance.specs.Instance.{job_at};
ghost use Rattle.msp_instance.specs.Conditions.{Inner};
ghost use Rattle.msp_pieces.specs.Cost.{IsBest};
ghost use Rattle.msp_pieces.specs.Fraction.{IsLowest};
ghost use Rattle.msp_pieces.specs.BackToBack.{time_at};
ghost use Rattle.msp_pieces.specs.Settled.{IsSettled};
ghost use Rattle.msp_route.specs.Bounds.{IsAnswer};
ghost use Rattle.msp_srpt.specs.Shortest.{shortest_class, IsShortestFirst};
ghost use Rattle.msp_srpt.specs.Running.{Precedes, IsQueue, tasks_in, HasBegun, Runs, GoesOn, IsCarriedOut};

use msp_class::{Class, Crit, Env, List, NoMemory, Order, Times};
use msp_instance::{GREATEST, Instance, MOST_JOBS};
use msp_pieces::{Piece, Schedule, Solution};
use msp_route::{Solver, best_solution, first_time, jobs_by_key};
use std::alloc::Global;
use std::cmp::Reverse;
use std::collections::BinaryHeap;

/// The class that the rule solves: `1|pmtn,r|sumC`.
const SHORTEST_CLASS: Class = Class {
    env: Env::One,
    cut: true,
    order: Order::Free,
    heads: true,
    times: Times::General,
    crit: Crit::SumC,
};

/// A moment after all jobs are complete.
const LATEST: u64 = (MOST_JOBS as u64 + 3) * GREATEST;

/// A job and the time that it still needs. The lesser one runs first.
#[derive(Clone, Copy, PartialEq, Eq, PartialOrd, Ord)]
struct Task {
    left: u64,
    job: u32,
}

/// A job and the moment at which it is released.
#[derive(Clone, Copy)]
struct Arrival {
    release: u64,
    task: Task,
}

/// The release dates of all jobs, in order of number.
fn releases_of(alloc: Global, inst: &Instance) -> Result<Vec<u64>, NoMemory>
    ensures { IfOk result (λ dates. dates.items ≡ map (λ j. j.release) inst.now.jobs) }
{
    Ok(
        inst.jobs
            .as_slice()
            .iter()
            .map(|job| job.release)
            .collect(alloc)?,
    )
}

/// All jobs by release date.
fn jobs_by_release(alloc: Global, inst: &Instance) -> Result<Vec<u32>, NoMemory>
    requires few { length inst.now.jobs ≤ MOST_JOBS }
    ensures all { IfOk result (λ order. IsPermutation (range_with_len 0 (length inst.now.jobs)) order.items) }
    ensures sorted { IfOk result (λ order. AllPairs (λ a b. (job_at inst.now a).release ≤ (job_at inst.now b).release) order.items) }
{
    let releases = releases_of(alloc, inst)?;
    jobs_by_key(alloc, releases.as_slice())
}

/// The arrival of a job.
fn arrival_of(inst: &Instance, job: u32) -> Arrival
    requires inside { job < length inst.now.jobs }
    requires needs { All (λ j. 0 < length j.needs) inst.now.jobs }
    ensures release { result.release ≡ (job_at inst.now job).release }
    ensures job { result.task.job ≡ job }
    ensures left { result.task.left ≡ time_at inst.now job }
{
    let found = &inst.jobs.as_slice()[job as usize];
    let left = first_time(found);
    Arrival {
        release: found.release,
        task: Task { left, job },
    }
}

/// Whether the piece is one of the job and ends at the moment.
fn goes_on(last: &Piece, job: u32, moment: i128) -> bool
    ensures yes { result ≡ true → (last.now.job ≡ job) × (last.now.to ≡ moment) }
    ensures no { result ≡ false → last.now.job ≡ job → ¬ (last.now.to ≡ moment) }
{
    last.job == job && last.to == moment
}

/// Where the piece begins in which the job runs from a moment on: the last piece is taken away where it goes on.
fn begin_of(pieces: &mut Vec<Piece>, job: u32, from: u64) -> Result<i128, NoMemory>
    ensures begun { IfOk result (λ begin. HasBegun job from begin pieces.old.items pieces.new.items) }
    ensures few { vec_len pieces.new ≤ vec_len pieces.old }
{
    let moment = i128::from(from);
    match pieces.pop() {
        None => Ok(moment),
        Some(last) => {
            if goes_on(&last, job, moment) {
                return Ok(last.from);
            }
            pieces.push(last)?;
            Ok(moment)
        }
    }
}

/// Lets the job run from one moment to another.
fn lay(pieces: &mut Vec<Piece>, job: u32, from: u64, to: u64) -> Result<(), NoMemory>
    requires { from < to }
    ensures run { IfOk result (λ _. Runs job from to pieces.old.items pieces.new.items) }
    ensures few { IfOk result (λ _. vec_len pieces.new ≤ vec_len pieces.old + 1) }
{
    let begin = begin_of(pieces, job, from)?;
    let piece = Piece {
        job,
        op: 0,
        machine: 0,
        from: begin,
        to: i128::from(to),
    };
    pieces.push(piece)?;
    Ok(())
}

/// Puts a task among those that wait.
fn put(ready: &mut BinaryHeap<Reverse<Task>>, task: Task) -> Result<(), NoMemory>
    requires queue { IsQueue (heap_items ready.old) }
    ensures queue { IfOk result (λ _. IsQueue (heap_items ready.new)) }
    ensures tasks { IfOk result (λ _. IsPermutation (task ∷ tasks_in (heap_items ready.old)) (tasks_in (heap_items ready.new))) }
    ensures len { IfOk result (λ _. heap_len ready.new ≡ heap_len ready.old + 1) }
{
    ready.push(Reverse(task))?;
    Ok(())
}

/// Takes the task that runs first from those that wait. None comes where none waits.
fn take_first(ready: &mut BinaryHeap<Reverse<Task>>) -> Option<Task>
    requires queue { IsQueue (heap_items ready.old) }
    ensures queue { IfSome result (λ _. IsQueue (heap_items ready.new)) }
    ensures tasks { IfSome result (λ t. IsPermutation (tasks_in (heap_items ready.old)) (t ∷ tasks_in (heap_items ready.new))) }
    ensures first { IfSome result (λ t. All (Precedes t) (tasks_in (heap_items ready.new))) }
    ensures len { IfSome result (λ _. heap_len ready.new + 1 ≡ heap_len ready.old) }
    ensures none { IfNone result ((tasks_in (heap_items ready.old) ≡ []) × (heap_items ready.new ≡ heap_items ready.old) × (heap_len ready.new ≡ heap_len ready.old)) }
{
    match ready.pop() {
        Some(Reverse(task)) => Some(task),
        None => None,
    }
}

/// Lets the task run from a moment on, until it is complete or until the other moment, and says when that is.
fn serve(
    pieces: &mut Vec<Piece>,
    ready: &mut BinaryHeap<Reverse<Task>>,
    task: Task,
    from: u64,
    until: u64,
) -> Result<u64, NoMemory>
    requires room { from < until }
    requires some { 0 < task.left }
    requires left { All (λ x. 0 < x.left) (tasks_in (heap_items ready.old)) }
    requires first { All (Precedes task) (tasks_in (heap_items ready.old)) }
    requires queue { IsQueue (heap_items ready.old) }
    ensures later { IfOk result (λ end. (from < end) × (end ≤ until)) }
    ensures left { IfOk result (λ _. All (λ x. 0 < x.left) (tasks_in (heap_items ready.new))) }
    ensures queue { IfOk result (λ _. IsQueue (heap_items ready.new)) }
    ensures next { IfOk result (λ end. GoesOn until from end pieces.old.items (task ∷ tasks_in (heap_items ready.old)) pieces.new.items (tasks_in (heap_items ready.new))) }
    ensures few { IfOk result (λ end. vec_len pieces.new + heap_len ready.new ≤ vec_len pieces.old + heap_len ready.old + 1 + (1 - (until - end))) }
{
    let room = until - from;
    if task.left <= room {
        let end = from + task.left;
        lay(pieces, task.job, from, end)?;
        return Ok(end);
    }
    lay(pieces, task.job, from, until)?;
    let rest = Task {
        left: task.left - room,
        job: task.job,
    };
    put(ready, rest)?;
    Ok(until)
}

/// Lets the tasks run from one moment to another, the one that needs least first.
fn run_until(
    pieces: &mut Vec<Piece>,
    ready: &mut BinaryHeap<Reverse<Task>>,
    from: u64,
    until: u64,
) -> Result<(), NoMemory>
    requires order { from ≤ until }
    requires left { All (λ x. 0 < x.left) (tasks_in (heap_items ready.old)) }
    requires queue { IsQueue (heap_items ready.old) }
    ensures left { IfOk result (λ _. All (λ x. 0 < x.left) (tasks_in (heap_items ready.new))) }
    ensures queue { IfOk result (λ _. IsQueue (heap_items ready.new)) }
    ensures next { IfOk result (λ _. GoesOn until from until pieces.old.items (tasks_in (heap_items ready.old)) pieces.new.items (tasks_in (heap_items ready.new))) }
    ensures few { IfOk result (λ _. vec_len pieces.new + heap_len ready.new ≤ vec_len pieces.old + heap_len ready.old + 1) }
{
    let mut moment = from;
    while moment < until {
        match take_first(ready) {
            None => return Ok(()),
            Some(task) => moment = serve(pieces, ready, task, moment, until)?,
        }
    }
    Ok(())
}

/// The pieces of all jobs, which are given by release date: whenever a job is released, and whenever one is complete, the one that needs
/// least goes on.
fn pieces_by_release(alloc: Global, inst: &Instance, order: &[u32]) -> Result<List<Piece>, NoMemory>
    requires inner { Inner inst.now }
    requires class { inst.now.class ≡ shortest_class }
    requires all { IsPermutation (range_with_len 0 (length inst.now.jobs)) order.now }
    requires sorted { AllPairs (λ a b. (job_at inst.now a).release ≤ (job_at inst.now b).release) order.now }
    ensures { IfOk result (λ pieces. (t : ℕ) × IsCarriedOut inst.now t pieces) }
{
    let mut pieces = Vec::new(alloc);
    let mut ready = BinaryHeap::new(alloc);
    let mut moment = 0;
    for k in 0..order.len() {
        let arrival = arrival_of(inst, order[k]);
        run_until(&mut pieces, &mut ready, moment, arrival.release)?;
        put(&mut ready, arrival.task)?;
        moment = arrival.release;
    }
    run_until(&mut pieces, &mut ready, moment, LATEST)?;
    Ok(List::from_vec(pieces))
}

/// The pieces of all jobs by the rule.
fn shortest_pieces(alloc: Global, inst: &Instance) -> Result<List<Piece>, NoMemory>
    requires inner { Inner inst.now }
    requires class { inst.now.class ≡ shortest_class }
    ensures { IfOk result (λ pieces. (t : ℕ) × IsCarriedOut inst.now t pieces) }
{
    let order = jobs_by_release(alloc, inst)?;
    pieces_by_release(alloc, inst, &order)
}

/// Finds a schedule with the least sum of completion times on one machine with release dates, where jobs may be cut: at each moment the
/// released job with the least remaining time runs, ties to the lesser number (Schrage 1968).
#[derive(Clone, Copy)]
pub struct Shortest;

impl Solver for Shortest {
    ghost solved = { λ _. shortest_class };

    fn target(&self) -> Class {
        SHORTEST_CLASS
    }

    fn fits(&self, _inst: &Instance) -> bool {
        true
    }

    fn solve(&self, alloc: Global, inst: &Instance) -> Result<Solution, NoMemory>
        requires inner { Inner inst.now }
        requires class { inst.now.class ≡ shortest_class }

        // What every solver ensures.
        ensures best { IfOk result (λ s. IsBest inst.now s) }
        ensures bounds { IfOk result (λ s. IsAnswer inst.now s.schedule) }

        // The form of the answer.
        ensures rule { IfOk result (λ s. IsShortestFirst inst.now s.schedule.pieces) }
        ensures settled { IfOk result (λ s. IsSettled s.schedule) }
        ensures lowest { IfOk result (λ s. IsLowest s.cost) }
    {
        let pieces = shortest_pieces(alloc, inst)?;
        let schedule = Schedule { unit: 1, pieces };
        Ok(best_solution(inst, schedule))
    }
}
