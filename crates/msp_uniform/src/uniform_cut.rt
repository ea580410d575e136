// Uniform machines with preemption.
ghost use Rattle.std.specs.Prelude.{◌≡◌, IfOk};
ghost use Rattle.msp_instance.specs.Conditions.{Inner};
ghost use Rattle.msp_pieces.specs.Cost.{IsBest};
ghost use Rattle.msp_route.specs.Bounds.{IsAnswer};
ghost use Rattle.msp_uniform.specs.Uniform.{cut_class, HasSmallUnit, IsUniformCost};
ghost use Rattle.msp_uniform.specs.Answers.{AreTimes, IsCutPlan, IsLaidOut};

use crate::fill::fill;
use crate::orders::by_falling;
use crate::pieces::pieces_of;
use crate::quotient::greatest_quotient;
use crate::task::{Filled, Task};
use crate::unit::has_small_unit;
use msp_class::{Class, Crit, Env, NoMemory, Order, Times};
use msp_instance::{Instance, first_time, multiple_of_all};
use msp_pieces::{Schedule, Solution};
use msp_route::{Solver, best_solution};
use std::alloc::Global;

/// The class that is solved: `Q|pmtn|Cmax`.
const UNIFORM_CUT_CLASS: Class = Class {
    env: Env::Q,
    cut: true,
    order: Order::Free,
    heads: false,
    times: Times::General,
    crit: Crit::Cmax,
};

/// The times of all jobs.
fn times_of(alloc: Global, inst: &Instance) -> Result<Vec<u64>, NoMemory>
    ensures { IfOk result (λ times. AreTimes inst.now times.items) }
{
    Ok(
        inst.jobs
            .as_slice()
            .iter()
            .map(|job| first_time(job.needs.as_slice()))
            .collect(alloc)?,
    )
}

/// The jobs laid over segments.
fn filled(alloc: Global, inst: &Instance) -> Result<Filled, NoMemory>
    requires inner { Inner inst.now }
    requires class { inst.now.class ≡ cut_class }
    requires fits { HasSmallUnit inst.now }
    ensures { IfOk result (λ f. IsLaidOut inst.now f.unit f.segments.items) }
{
    let times = times_of(alloc, inst)?;
    let speeds = Vec::from_slice(alloc, inst.speeds.as_slice())?;
    let durations = times.as_slice();
    let rates = speeds.as_slice();
    let longest = by_falling(alloc, durations)?;
    let fastest = by_falling(alloc, rates)?;
    let jobs = longest.as_slice();
    let machines = fastest.as_slice();
    let least = greatest_quotient(durations, rates, jobs, machines);
    let multiple = multiple_of_all(rates);
    let task = Task {
        times,
        speeds,
        work: least.work,
        speed: least.speed,
        multiple,
    };
    fill(alloc, &task, jobs, machines)
}

/// A best schedule.
fn schedule_of(alloc: Global, inst: &Instance) -> Result<Schedule, NoMemory>
    requires inner { Inner inst.now }
    requires class { inst.now.class ≡ cut_class }
    requires fits { HasSmallUnit inst.now }
    ensures { IfOk result (IsCutPlan inst.now) }
{
    let filled = filled(alloc, inst)?;
    let none = inst.jobs.len() as u32;
    let pieces = pieces_of(alloc, filled.segments.as_slice(), none, inst.machines)?;
    Ok(Schedule {
        unit: filled.unit as i128,
        pieces,
    })
}

/// Finds a schedule of least length on uniform machines with preemption, where the unit stays small: the longest jobs take two machines
/// each for one part of the time after another (Gonzalez and Sahni 1978).
#[derive(Clone, Copy)]
pub struct UniformCut;

impl Solver for UniformCut {
    ghost solved = { λ _. cut_class };

    ghost can_solve = { λ _ i. HasSmallUnit i };

    fn target(&self) -> Class {
        UNIFORM_CUT_CLASS
    }

    fn fits(&self, inst: &Instance) -> bool {
        has_small_unit(inst.speeds.as_slice())
    }

    fn solve(&self, alloc: Global, inst: &Instance) -> Result<Solution, NoMemory>
        requires inner { Inner inst.now }
        requires class { inst.now.class ≡ cut_class }
        requires fits { HasSmallUnit inst.now }
        ensures best { IfOk result (λ s. IsBest inst.now s) }
        ensures bounds { IfOk result (λ s. IsAnswer inst.now s.schedule) }
        ensures cost { IfOk result (λ s. IsUniformCost inst.now s.cost) }
    {
        let schedule = schedule_of(alloc, inst)?;
        Ok(best_solution(inst, schedule))
    }
}
