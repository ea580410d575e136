// The jobs that no place is too short for, one after another from the last place to the first.
ghost use Rattle.std.specs.Prelude.{◌≡◌, ◌+◌, ◌-◌, ◌<◌, ◌≤◌, ◌^◌, ◌∷◌, List, ℕ, All, IfOk, OnOk};
ghost use Rattle.msp_class.specs.declared.sizes.TheConstants.{GREATEST_SPEED};
ghost use Rattle.msp_uniform.specs.Segments.{at, rate_at, amount};
ghost use Rattle.msp_uniform.specs.Plans.{IsTask, IsReached, AreShort, IsTaped, DoHold, IsFilled, CanBeLaid, IsLaidHere, IsLaidOver, IsNextTape};

use crate::laying::lay;
use crate::segments::Segment;
use crate::task::{Filled, Plan, Task};
use crate::turning::{scaled, works_in};
use crate::turns::need_of;
use msp_class::NoMemory;
use std::alloc::Global;
use std::collections::VecDeque;
use std::mem;

/// What the last place has done, and what it has still to do. In early segments it has a job already.
#[derive(Drop)]
pub(crate) struct Tape {
    pub(crate) place: usize,
    /// The work that it can still do.
    pub(crate) rest: u128,
    pub(crate) early: VecDeque<Segment>,
    pub(crate) late: VecDeque<Segment>,
}

/// The last place does the job.
fn lay_here(
    alloc: Global,
    tape: &mut Tape,
    speeds: &[u64],
    job: u32,
    work: u128,
) -> Result<(), NoMemory>
    requires job { job < 2 ^ 16 }
    requires late { CanBeLaid speeds.now tape.old.place work tape.old.late.items }
    requires speeds { All (λ s. s ≤ GREATEST_SPEED) speeds.now }
    requires rest { work ≤ tape.old.rest }
    ensures { OnOk result (IsLaidHere (at speeds.now) job tape.old.place work tape.old.early.items tape.old.late.items tape.new.early.items tape.new.late.items
        × (tape.new.place ≡ tape.old.place) × (tape.new.rest + work ≡ tape.old.rest)) }
{
    lay(
        alloc,
        &mut tape.early,
        &mut tape.late,
        speeds,
        job,
        tape.place,
        work,
    )?;
    tape.rest -= work;
    Ok(())
}

/// The last place does the rest of what it can, and the place before it does more.
fn lay_over(
    alloc: Global,
    tape: &mut Tape,
    speeds: &[u64],
    job: u32,
    more: u128,
) -> Result<(), NoMemory>
    requires job { job < 2 ^ 16 }
    requires place { 1 ≤ tape.old.place }
    requires late { CanBeLaid speeds.now tape.old.place tape.old.rest tape.old.late.items }
    requires early { CanBeLaid speeds.now (tape.old.place - 1) more tape.old.early.items }
    requires speeds { All (λ s. s ≤ GREATEST_SPEED) speeds.now }
    ensures { OnOk result (IsLaidOver (at speeds.now) job tape.old.place tape.old.rest more tape.old.early.items tape.old.late.items tape.new.place tape.new.early.items tape.new.late.items) }
{
    let mut taken = VecDeque::with_capacity(alloc, tape.late.len())?;
    lay(
        alloc,
        &mut taken,
        &mut tape.late,
        speeds,
        job,
        tape.place,
        tape.rest,
    )?;
    let mut early = VecDeque::with_capacity(alloc, tape.early.len())?;
    tape.place -= 1;
    lay(
        alloc,
        &mut early,
        &mut tape.early,
        speeds,
        job,
        tape.place,
        more,
    )?;
    tape.early.append(&mut taken)?;
    tape.late = mem::replace(&mut tape.early, early);
    Ok(())
}

/// Lays the next job. Each place before the last holds so much in all.
fn lay_next(
    alloc: Global,
    tape: &mut Tape,
    task: &Task,
    holds: &[u128],
    unit: u128,
    job: u32,
) -> Result<(), NoMemory>
    requires task { IsTask task.now }
    requires taped { (left : List ℕ) × IsTaped task.now (job ∷ left) unit tape.old.place tape.old.early.items tape.old.late.items }
    requires rest { tape.old.rest ≡ amount (rate_at (at task.now.speeds.items) tape.old.place) tape.old.late.items }
    requires holds { DoHold task.now.speeds.items holds.now tape.old.place tape.old.early.items tape.old.late.items }
    ensures { OnOk result (IsNextTape task.now holds.now job unit tape.old.place tape.old.early.items tape.old.late.items
        tape.new.place tape.new.rest tape.new.early.items tape.new.late.items) }
{
    let speeds = task.speeds.as_slice();
    let work = need_of(task.times.as_slice(), unit, job);
    if work <= tape.rest {
        return lay_here(alloc, tape, speeds, job, work);
    }
    let more = work - tape.rest;
    lay_over(alloc, tape, speeds, job, more)?;
    tape.rest = holds[tape.place] - more;
    Ok(())
}

/// Lays all jobs that are left.
pub(crate) fn lay_all(
    alloc: Global,
    plan: Plan,
    task: &Task,
    jobs: &[u32],
) -> Result<Filled, NoMemory>
    requires task { IsTask task.now }
    requires reached { IsReached task.now jobs.now plan.unit plan.places plan.segments.items }
    requires short { AreShort task.now jobs.now plan.unit plan.places plan.segments.items }
    ensures { IfOk result (λ f. IsFilled task.now f.unit f.segments.items) }
{
    let multiple = u128::from(task.multiple);
    let unit = plan.unit * multiple;
    let late = scaled(alloc, plan.segments, multiple)?;
    let works = works_in(alloc, &late, task.speeds.as_slice(), plan.places)?;
    let holds = works.as_slice();
    let place = plan.places - 1;
    let rest = holds[place];
    let early = VecDeque::new(alloc);
    let mut tape = Tape {
        place,
        rest,
        early,
        late,
    };
    for job in jobs {
        lay_next(alloc, &mut tape, task, holds, unit, *job)?;
    }
    let Tape {
        mut early,
        mut late,
        ..
    } = tape;
    early.append(&mut late)?;
    Ok(Filled {
        unit,
        segments: early.into_vec(),
    })
}
