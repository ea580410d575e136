// Jobs that run one after another on one machine.
ghost use Rattle.std.specs.Prelude.{◌≡◌, ◌*◌, ◌<◌, ◌≤◌, length, slice_index_or, pos, ◌≤ℤ◌, All, IfOk};
ghost use Rattle.msp_class.specs.declared.sizes.TheConstants.{MOST_JOBS, GREATEST, GREATEST_UNIT};
ghost use Rattle.msp_instance.specs.Instance.{no_need};
ghost use Rattle.msp_instance.specs.Conditions.{Inner};
ghost use Rattle.msp_pieces.specs.Feasible.{Feasible};
ghost use Rattle.msp_pieces.specs.Cost.{cost_of};
ghost use Rattle.msp_pieces.specs.Fraction.{IsOver, IsLowest};
ghost use Rattle.msp_pieces.specs.Settled.{IsSettled};
ghost use Rattle.msp_pieces.specs.BackToBack.{piece, time_at, schedule_in_order, back_to_back};
ghost use Rattle.msp_route.specs.BackToBack.{AreShortJobs};
ghost use Rattle.msp_route.specs.Bounds.{IsAnswer};

use crate::times::first_time;
use msp_class::{List, NoMemory};
use msp_instance::{Instance, Job};
use msp_pieces::{Piece, Schedule, Solution};
use std::alloc::Global;

/// How long the job's first operation lasts over the unit.
fn length_over(unit: u128, job: &Job) -> u128
    requires unit { pos unit ≤ℤ GREATEST_UNIT }
    requires need { 0 < length job.now.needs }
    requires time { (slice_index_or job.now.needs 0 no_need).time ≤ GREATEST }
    ensures { result ≡ unit * (slice_index_or job.now.needs 0 no_need).time }
{
    unit * u128::from(first_time(job))
}

/// The pieces of the jobs one after another on machine 0, from moment 0 on, over any unit: for the crates that lay jobs so.
pub fn pieces_back_to_back(
    alloc: Global,
    inst: &Instance,
    unit: u128,
    order: &[u32],
) -> Result<List<Piece>, NoMemory>
    requires unit { pos unit ≤ℤ GREATEST_UNIT }
    requires few { length order.now ≤ MOST_JOBS }
    requires jobs { All (λ j. j < length inst.now.jobs) order.now }
    requires needs { All (λ j. (0 < length j.needs) × ((slice_index_or j.needs 0 no_need).time ≤ GREATEST)) inst.now.jobs }
    ensures { IfOk result (λ pieces. pieces ≡ back_to_back piece (λ j. unit * time_at inst.now j) 0 order.now) }
{
    let jobs = inst.jobs.as_slice();
    let mut pieces = List::new(alloc);
    let mut moment: u128 = 0;
    for k in 0..order.len() {
        let end = moment + length_over(unit, &jobs[order[k] as usize]);
        let next = Piece {
            job: order[k],
            op: 0,
            machine: 0,
            from: moment as i128,
            to: end as i128,
        };
        pieces.put(next)?;
        moment = end;
    }
    Ok(pieces)
}

/// The solution in which the jobs run one after another from moment 0 on: for the solvers whose rule is an order of the jobs.
pub fn solution_in_order(
    alloc: Global,
    inst: &Instance,
    order: &[u32],
) -> Result<Solution, NoMemory>
    requires inner { Inner inst.now }
    requires short { AreShortJobs inst.now order.now }
    requires feasible { Feasible inst.now (schedule_in_order inst.now order.now) }
    ensures schedule { IfOk result (λ s. s.schedule ≡ schedule_in_order inst.now order.now) }
    ensures cost { IfOk result (λ s. IsOver s.cost (cost_of inst.now s.schedule) s.schedule.unit) }
    ensures bounds { IfOk result (λ s. IsAnswer inst.now s.schedule) }
    ensures settled { IfOk result (λ s. IsSettled s.schedule) }
    ensures lowest { IfOk result (λ s. IsLowest s.cost) }
{
    let pieces = pieces_back_to_back(alloc, inst, 1, order)?;
    let schedule = Schedule { unit: 1, pieces };
    let cost = msp_pieces::cost(inst, &schedule);
    Ok(Solution { schedule, cost })
}
