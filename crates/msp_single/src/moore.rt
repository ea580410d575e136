// Moore's rule for `1||sumU` (Moore 1968, after Hodgson).
//
// Rule: by due date, ties by number, each job is accepted; where the accepted jobs then take longer than its due date allows, the longest
// of them is dropped. The accepted jobs run first, by due date, and then the dropped ones by number.
//
// In the loop: no accepted job is late; and for each choice of the jobs so far in which none is late, of b jobs that take s together, at
// least b jobs are accepted, and the b shortest of these take no longer than s.
//
// Best (`proofs/MooreChoice.antt`, `MooreBest.antt`): the jobs that are on time in any schedule are such a choice, as the machine has done
// those due by a date when it comes. That the b shortest are compared, and not all, carries the step in which a job is dropped; that as
// many are accepted as can be, of least time together, is the case where b is their number.
ghost use Rattle.std.specs.Prelude.{◌≡◌, ◌+◌, ◌*◌, ◌<◌, ◌≤◌, ◌++◌, List, [], ◌∷◌, true, false, length, map, slice_index_or, sum_by, All, AllPairs, IfOk, IsPermutation};
ghost use Rattle.std.specs.List.{range_with_len};
ghost use Rattle.std.specs.Ordering.{int_cmp, nat_cmp, ordering_then};
ghost use Rattle.msp_class.specs.declared.sizes.TheConstants.{MOST_JOBS, GREATEST};
ghost use Rattle.msp_instance.specs.Instance.{no_need};
ghost use Rattle.msp_instance.specs.Conditions.{Inner};
ghost use Rattle.msp_pieces.specs.Cost.{IsBest};
ghost use Rattle.msp_pieces.specs.Fraction.{IsLowest};
ghost use Rattle.msp_pieces.specs.Settled.{IsSettled};
ghost use Rattle.msp_route.specs.Bounds.{IsAnswer};
ghost use Rattle.msp_single.specs.Moore.{moore_class, IsMooreOrder};
ghost use Rattle.msp_single.specs.Tasks.{IsTask, IsDueFirst, Outlasts, AreChosen, DropsLongest, IsOrderOf};

use msp_class::{Class, Crit, Env, NoMemory, Order, Times};
use msp_instance::Instance;
use msp_pieces::Solution;
use msp_route::{Solver, first_time, solution_in_order};
use std::alloc::Global;
use std::cmp::Ordering;

/// The class that the rule solves: `1||sumU`.
const MOORE_CLASS: Class = Class {
    env: Env::One,
    cut: false,
    order: Order::Free,
    heads: false,
    times: Times::General,
    crit: Crit::SumU,
};

/// What the rule reads of a job: its number, its time and its due date.
#[derive(Clone, Copy)]
struct Task {
    job: u32,
    time: u64,
    due: i64,
}

/// The tasks that are accepted, how long they take together, and those that are dropped.
#[derive(Drop)]
struct Choice {
    accepted: Vec<Task>,
    total: u64,
    dropped: Vec<Task>,
}

/// What the rule reads, of each job.
fn tasks_of(alloc: Global, inst: &Instance) -> Result<Vec<Task>, NoMemory>
    requires few { length inst.now.jobs ≤ MOST_JOBS }
    requires needs { All (λ j. (0 < length j.needs) × (0 < (slice_index_or j.needs 0 no_need).time)) inst.now.jobs }
    ensures numbers { IfOk result (λ ts. map (λ t. t.job) ts.items ≡ range_with_len 0 (length inst.now.jobs)) }
    ensures each { IfOk result (λ ts. All (IsTask inst.now) ts.items) }
{
    let jobs = inst.jobs.as_slice();
    let mut tasks = Vec::new(alloc);
    for k in 0..jobs.len() {
        let time = first_time(&jobs[k]);
        let due = jobs[k].due;
        let task = Task {
            job: k as u32,
            time,
            due,
        };
        tasks.push(task)?;
    }
    Ok(tasks)
}

/// Whether `a` goes before `b`: by due date, and then by number.
fn compare(a: &Task, b: &Task) -> Ordering
    ensures { result ≡ ordering_then (int_cmp a.now.due b.now.due) (nat_cmp a.now.job b.now.job) }
{
    a.due.cmp(&b.due).then(a.job.cmp(&b.job))
}

fn sort_by_date(tasks: &mut Vec<Task>)
    ensures permutation { IsPermutation tasks.old.items tasks.new.items }
    ensures sorted { AllPairs IsDueFirst tasks.new.items }
{
    tasks.sort_unstable_by(|a, b| compare(a, b));
}

fn compare_numbers(a: &Task, b: &Task) -> Ordering
    ensures { result ≡ nat_cmp a.now.job b.now.job }
{
    a.job.cmp(&b.job)
}

fn sort_by_number(tasks: &mut Vec<Task>)
    ensures permutation { IsPermutation tasks.old.items tasks.new.items }
    ensures sorted { AllPairs (λ a b. a.job ≤ b.job) tasks.new.items }
{
    tasks.sort_unstable_by(|a, b| compare_numbers(a, b));
}

/// Whether `a` is dropped rather than `b`: it takes longer, or as long and has the lesser number.
fn outlasts(a: &Task, b: &Task) -> bool
    ensures yes { result ≡ true → Outlasts a.now b.now }
    ensures no { result ≡ false → Outlasts b.now a.now }
{
    a.time > b.time || (a.time == b.time && a.job < b.job)
}

/// The place of the longest task, ties to the lesser number.
fn longest(tasks: &[Task]) -> usize
    requires { 0 < length tasks.now }
    ensures place { result < length tasks.now }
    ensures longest { (d : Task) → All (Outlasts (slice_index_or tasks.now result d)) tasks.now }
{
    let mut best = 0;
    for place in 0..tasks.len() {
        if outlasts(&tasks[place], &tasks[best]) {
            best = place;
        }
    }
    best
}

/// Drops the longest task that is accepted.
fn drop_longest(choice: &mut Choice) -> Result<(), NoMemory>
    requires some { 0 < length choice.old.accepted.items }
    requires total { choice.old.total ≡ sum_by (λ t. t.time) choice.old.accepted.items }
    ensures total { choice.new.total ≡ sum_by (λ t. t.time) choice.new.accepted.items }
    ensures early { choice.new.total ≤ choice.old.total }
    ensures dropped { IfOk result (λ _. DropsLongest choice.old.accepted.items choice.old.dropped.items choice.new.accepted.items choice.new.dropped.items) }
{
    let place = longest(choice.accepted.as_slice());
    let longest = choice.accepted.remove(place);
    choice.total -= longest.time;
    choice.dropped.push(longest)?;
    Ok(())
}

/// Accepts one more task, and drops the longest one where it would be late.
fn accept(choice: &mut Choice, task: Task) -> Result<(), NoMemory>
    requires total { choice.old.total ≡ sum_by (λ t. t.time) choice.old.accepted.items }
    requires early { choice.old.total ≤ GREATEST * MOST_JOBS }
    requires short { task.time ≤ GREATEST }
    ensures total { IfOk result (λ _. choice.new.total ≡ sum_by (λ t. t.time) choice.new.accepted.items) }
    ensures early { choice.new.total ≤ choice.old.total + task.time }
    ensures next { IfOk result (λ _. (seen : List Task) → AreChosen seen choice.old.accepted.items choice.old.dropped.items
        → AreChosen (seen ++ task ∷ []) choice.new.accepted.items choice.new.dropped.items) }
{
    choice.total += task.time;
    choice.accepted.push(task)?;
    if i128::from(choice.total) > i128::from(task.due) {
        return drop_longest(choice);
    }
    Ok(())
}

/// Chooses the tasks that are on time, of all by due date.
fn choose(alloc: Global, tasks: &[Task]) -> Result<Choice, NoMemory>
    requires few { length tasks.now ≤ MOST_JOBS }
    requires short { All (λ t. t.time ≤ GREATEST) tasks.now }
    ensures { IfOk result (λ c. AreChosen tasks.now c.accepted.items c.dropped.items) }
{
    let mut choice = Choice {
        accepted: Vec::new(alloc),
        total: 0,
        dropped: Vec::new(alloc),
    };
    for k in 0..tasks.len() {
        accept(&mut choice, tasks[k])?;
    }
    Ok(choice)
}

fn numbers_of(alloc: Global, tasks: &[Task]) -> Result<Vec<u32>, NoMemory>
    ensures { IfOk result (λ numbers. numbers.items ≡ map (λ t. t.job) tasks.now) }
{
    Ok(tasks.iter().map(|task| task.job).collect(alloc)?)
}

/// The numbers of the tasks that are accepted, in their order, and of those that are dropped, sorted.
fn in_order(alloc: Global, choice: Choice) -> Result<Vec<u32>, NoMemory>
    ensures { IfOk result (λ o. IsOrderOf choice.accepted.items choice.dropped.items o.items) }
{
    let Choice {
        mut accepted,
        mut dropped,
        ..
    } = choice;
    sort_by_number(&mut dropped);
    accepted.append(&mut dropped)?;
    numbers_of(alloc, &accepted)
}

/// The numbers of the jobs in the order of the rule.
fn moore_order(alloc: Global, inst: &Instance) -> Result<Vec<u32>, NoMemory>
    requires few { length inst.now.jobs ≤ MOST_JOBS }
    requires needs { All (λ j. (0 < length j.needs) × (0 < (slice_index_or j.needs 0 no_need).time)) inst.now.jobs }
    requires short { All (λ j. (slice_index_or j.needs 0 no_need).time ≤ GREATEST) inst.now.jobs }
    ensures { IfOk result (λ o. IsMooreOrder inst.now o.items) }
{
    let mut tasks = tasks_of(alloc, inst)?;
    sort_by_date(&mut tasks);
    let choice = choose(alloc, &tasks)?;
    in_order(alloc, choice)
}

/// Finds a schedule with the least number of late jobs: by due date, ties by number, each job is accepted, and at an overrun the longest
/// accepted one is dropped; the accepted ones run by due date, and then the dropped ones by number (Moore 1968, after Hodgson).
#[derive(Clone, Copy)]
pub struct Moore;

impl Solver for Moore {
    ghost solved = { λ _. moore_class };

    fn target(&self) -> Class {
        MOORE_CLASS
    }

    fn fits(&self, _inst: &Instance) -> bool {
        true
    }

    fn solve(&self, alloc: Global, inst: &Instance) -> Result<Solution, NoMemory>
        requires inner { Inner inst.now }
        requires class { inst.now.class ≡ moore_class }

        // What every solver ensures.
        ensures best { IfOk result (λ s. IsBest inst.now s) }
        ensures bounds { IfOk result (λ s. IsAnswer inst.now s.schedule) }

        // The form of the answer.
        ensures order { IfOk result (λ s. IsMooreOrder inst.now (map (λ p. p.job) s.schedule.pieces)) }
        ensures settled { IfOk result (λ s. IsSettled s.schedule) }
        ensures lowest { IfOk result (λ s. IsLowest s.cost) }
    {
        let order = moore_order(alloc, inst)?;
        solution_in_order(alloc, inst, &order)
    }
}
