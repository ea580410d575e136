// Jobs by due date, laid on the stairs of the machines.
ghost use Rattle.std.specs.Prelude.{◌≡◌, ◌+◌, ◌*◌, ◌<◌, ◌≤◌, ◌++◌, ltb, length, pos, nat_abs, ◌+ℤ◌, ◌*ℤ◌, ◌≤ℤ◌, IfOk, MatchOption, OnOk, slice_index_or};
ghost use Rattle.std.specs.Int.{int_max};
ghost use Rattle.msp_class.specs.declared.sizes.TheConstants.{MOST_MACHINES, GREATEST};
ghost use Rattle.msp_instance.specs.Conditions.{Inner, LiesWithin};
ghost use Rattle.msp_stairs.specs.Stairs.{stairs_class};
ghost use Rattle.msp_stairs.specs.Bounds.{greatest_bound, capped, at, IsReady};
ghost use Rattle.msp_stairs.specs.Steps.{task_for, level, no_stair, ends_of, Falls, raised, to_front, parts, IsBetween, IsWhole, IsCut, IsLaid, HasTooHigh, HasClimbed, IsClimbed, IsTooLate};

use msp_class::{List, NoMemory};
use msp_instance::{Instance, first_time};
use msp_pieces::Piece;
use std::alloc::Global;

/// A machine, and the moment up to which it is busy.
#[derive(Clone, Copy)]
pub struct Stair {
    pub machine: u32,
    pub end: u64,
}

/// A job, how long it takes, and the moment by which it has to end.
#[derive(Clone, Copy)]
pub struct Task {
    pub job: u32,
    pub time: u64,
    pub due: u64,
}

/// What a schedule keeps, over the number of machines: the most that a job is late, and the moment by which all jobs end, if there is one.
#[derive(Clone, Copy)]
pub struct Limits {
    pub late: i128,
    pub end: Option<i128>,
}

/// The number, and 0 for one below it.
fn natural_part(number: &i128) -> u64
    requires { number.now ≤ℤ pos u64.MAX }
    ensures { result ≡ nat_abs (int_max (pos 0) number.now) }
{
    (*number).max(0) as u64
}

/// The moment, or the end where that comes first; and 0 where it is below.
fn capped_at(moment: &i128, end: &Option<i128>) -> u64
    requires { moment.now ≤ℤ pos u64.MAX }
    ensures { result ≡ nat_abs (int_max (pos 0) (capped end.now moment.now)) }
{
    match end {
        Some(end) => natural_part(&(*moment).min(*end)),
        None => natural_part(moment),
    }
}

/// The moment by which a job has to end that is due so, for the limits.
fn deadline_of(machines: u32, due: i64, limits: &Limits) -> u64
    requires few { machines ≤ MOST_MACHINES }
    requires date { LiesWithin (2 * GREATEST) due }
    requires late { LiesWithin greatest_bound limits.now.late }
    ensures { result ≡ nat_abs (int_max (pos 0) (capped limits.now.end ((pos machines *ℤ due) +ℤ limits.now.late))) }
{
    let moment = i128::from(machines) * i128::from(due) + limits.late;
    capped_at(&moment, &limits.end)
}

/// The job as a task for the limits.
fn task_of(inst: &Instance, job: u32, limits: &Limits) -> Task
    requires inner { Inner inst.now }
    requires class { inst.now.class ≡ stairs_class }
    requires inside { job < length inst.now.jobs }
    requires late { LiesWithin greatest_bound limits.now.late }
    ensures { result ≡ task_for inst.now limits.now job }
{
    let entry = &inst.jobs.as_slice()[job as usize];
    let due = deadline_of(inst.machines, entry.due, limits);
    let time = u64::from(inst.machines) * first_time(entry.needs.as_slice());
    Task { job, time, due }
}

/// The job at a place of the order as a task.
fn task_at(inst: &Instance, order: &[u32], place: usize, limits: &Limits) -> Task
    requires ready { IsReady inst.now order.now }
    requires inside { place < length order.now }
    requires late { LiesWithin greatest_bound limits.now.late }
    ensures { result ≡ task_for inst.now limits.now (at order.now place) }
{
    task_of(inst, order[place], limits)
}

/// All machines, busy up to moment 0.
fn level(alloc: Global, machines: u32) -> Result<Vec<Stair>, NoMemory>
    ensures { IfOk result (λ stairs. stairs.items ≡ level machines) }
{
    let mut stairs = Vec::new(alloc);
    for machine in 0..machines {
        stairs.push(Stair { machine, end: 0 })?;
    }
    Ok(stairs)
}

/// Whether the task would end after its deadline on the machine.
fn is_beyond(stair: &Stair, task: &Task) -> bool
    ensures { result ≡ ltb task.now.due (stair.now.end + task.now.time) }
{
    u128::from(task.due) < u128::from(stair.end) + u128::from(task.time)
}

/// How many machines come before the first on which the task ends by its deadline.
fn too_high(stairs: &[Stair], task: &Task) -> usize
    requires { Falls task.now.due (ends_of stairs.now) }
    ensures { HasTooHigh task.now stairs.now result }
{
    stairs.partition_point(|stair| is_beyond(stair, task))
}

/// Puts a piece of the job on the machine up to the end, and none where the machine is busy up to then.
fn put_part(pieces: &mut List<Piece>, stair: &Stair, job: u32, end: u64) -> Result<(), NoMemory>
    ensures { OnOk result (pieces.new ≡ pieces.old ++ parts job stair.now.machine stair.now.end end) }
{
    if stair.end < end {
        pieces.put(Piece {
            job,
            op: 0,
            machine: stair.machine,
            from: i128::from(stair.end),
            to: i128::from(end),
        })?;
    }
    Ok(())
}

/// Runs a job on the machine at a place up to the end.
fn run(
    stairs: &mut Vec<Stair>,
    pieces: &mut List<Piece>,
    place: usize,
    job: u32,
    end: u64,
) -> Result<(), NoMemory>
    requires { place < length stairs.old.items }
    ensures stairs { OnOk result (stairs.new.items ≡ raised place end stairs.old.items) }
    ensures pieces { OnOk result (pieces.new ≡ pieces.old ++ parts job (slice_index_or stairs.old.items place no_stair).machine (slice_index_or stairs.old.items place no_stair).end end) }
{
    let stair = stairs[place];
    put_part(pieces, &stair, job, end)?;
    stairs[place] = Stair {
        machine: stair.machine,
        end,
    };
    Ok(())
}

/// Moves the machine at a place to the front.
fn bring_to_front(stairs: &mut Vec<Stair>, place: usize) -> Result<(), NoMemory>
    requires { place < length stairs.old.items }
    ensures { OnOk result (stairs.new.items ≡ to_front place stairs.old.items) }
{
    let stair = stairs.remove(place);
    stairs.insert(0, stair)?;
    Ok(())
}

/// When the low machine ends, where the high one runs the task up to its deadline and the low one for the rest.
fn end_of_rest(high: &Stair, low: &Stair, task: &Task) -> u64
    requires { IsBetween task.now high.now low.now }
    ensures { result + task.now.due ≡ low.now.end + high.now.end + task.now.time }
{
    low.end + (task.time - (task.due - high.end))
}

/// Runs the task on the machine before the place up to its deadline, and on that at the place for the rest.
fn lay_cut(
    stairs: &mut Vec<Stair>,
    pieces: &mut List<Piece>,
    place: usize,
    task: &Task,
) -> Result<(), NoMemory>
    requires falls { Falls task.now.due (ends_of stairs.old.items) }
    requires high { HasTooHigh task.now stairs.old.items place }
    requires some { 0 < place }
    requires inside { place < length stairs.old.items }
    ensures { OnOk result (IsCut task.now stairs.old.items pieces.old stairs.new.items pieces.new) }
{
    let high = stairs[place - 1];
    let low = stairs[place];
    let end = end_of_rest(&high, &low, task);
    run(stairs, pieces, place - 1, task.job, task.due)?;
    run(stairs, pieces, place, task.job, end)?;
    bring_to_front(stairs, place - 1)?;
    Ok(())
}

/// Runs the whole task on the first machine.
fn lay_whole(stairs: &mut Vec<Stair>, pieces: &mut List<Piece>, task: &Task) -> Result<(), NoMemory>
    requires low { HasTooHigh task.now stairs.old.items 0 }
    requires some { 0 < length stairs.old.items }
    ensures { OnOk result (IsWhole task.now stairs.old.items pieces.old stairs.new.items pieces.new) }
{
    let first = stairs[0];
    let end = first.end + task.time;
    run(stairs, pieces, 0, task.job, end)?;
    Ok(())
}

/// Lays the task on the stairs, and says whether it ends by its deadline.
fn lay(stairs: &mut Vec<Stair>, pieces: &mut List<Piece>, task: &Task) -> Result<bool, NoMemory>
    requires some { 0 < length stairs.old.items }
    requires falls { Falls task.now.due (ends_of stairs.old.items) }
    ensures { IfOk result (λ ends. IsLaid task.now stairs.old.items pieces.old ends stairs.new.items pieces.new) }
{
    let place = too_high(stairs.as_slice(), task);
    if place == stairs.len() {
        return Ok(false);
    }
    if place == 0 {
        lay_whole(stairs, pieces, task)?;
        return Ok(true);
    }
    lay_cut(stairs, pieces, place, task)?;
    Ok(true)
}

/// The pieces of all jobs, which are given by due date, where each ends by its deadline for the limits; or none where some job does not.
pub fn climbed(
    alloc: Global,
    inst: &Instance,
    order: &[u32],
    limits: &Limits,
) -> Result<Option<List<Piece>>, NoMemory>
    requires ready { IsReady inst.now order.now }
    requires late { LiesWithin greatest_bound limits.now.late }
    ensures { IfOk result (λ r. MatchOption r (IsTooLate inst.now order.now limits.now) (IsClimbed inst.now order.now limits.now)) }
{
    let mut stairs = level(alloc, inst.machines)?;
    let mut pieces = List::new(alloc);
    for place in 0..order.len() {
        let task = task_at(inst, order, place, limits);
        if !lay(&mut stairs, &mut pieces, &task)? {
            return Ok(None);
        }
    }
    Ok(Some(pieces))
}
