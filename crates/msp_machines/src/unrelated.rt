// The rows to unrelated machines.
ghost use Rattle.std.specs.Prelude.{◌≡◌, ◌*◌, ◌/◌, ◌≤◌, IfOk, map, length, slice_index_or, All, pos, ◌*ℤ◌, ◌≤ℤ◌, refl};
ghost use Rattle.msp_class.specs.declared.sizes.TheConstants.{MOST_MACHINES, GREATEST, GREATEST_SPEED, GREATEST_MULTIPLE};
ghost use Rattle.msp_instance.specs.Conditions.{HasSmallMultiple, LiesWithin, Inner};
ghost use Rattle.msp_class.specs.declared.environments.EnvKind.TheVariants.{Uniform};
ghost use Rattle.msp_class.specs.Env.{kind_of};
ghost use Rattle.msp_pieces.specs.declared.limits.TheConstants.{GREATEST_CARRIED_UNIT};
ghost use Rattle.msp_pieces.specs.Feasible.{Feasible};
ghost use Rattle.msp_pieces.specs.Within.{Within};
ghost use Rattle.msp_pieces.specs.Cost.{IsSolution};
ghost use Rattle.msp_route.specs.Law.{Applies};
ghost use Rattle.msp_route.specs.laws.Stays.{carries_same};
ghost use Rattle.msp_route.specs.Rates.{least_common_multiple, speed_rate};
ghost use Rattle.msp_machines.specs.Unrelated.{IsStretchable, needs_by, only_time, on_each_machine, led_to_each, stretched_step, stretched_curve, stretched, led_by_speeds};
ghost use Rattle.msp_machines.specs.Unrelated.{stretched_schedule, shrunk_schedule};
ghost use Rattle.msp_machines.specs.laws.Stretched.{led_26, led_27};
ghost use Rattle.msp_machines.specs.laws.OnEach.{stay_23, stay_24};

use msp_class::{List, NoMemory};
use msp_instance::{Curve, Instance, Job, Need, Step, multiple_of_all};
use msp_pieces::{Schedule, Solution, cost};
use msp_route::{KeepsSchedules, Reduction, led};
use msp_table::Row;
use std::alloc::Global;

/// One need on each machine, with the same time.
fn needs_on_each(alloc: Global, machines: u32, time: u64) -> Result<List<Need>, NoMemory>
    ensures { IfOk result (λ needs. needs ≡ needs_by machines (λ m. time)) }
{
    let mut needs = List::new(alloc);
    for machine in 0..machines {
        needs.put(Need { machine, time })?;
    }
    Ok(needs)
}

fn only_time(job: &Job) -> u64
    ensures { result ≡ only_time job.now }
{
    job.needs.get(0).map_or(0, |need| need.time)
}

/// Lets the job take its time on each machine.
fn put_on_each(alloc: Global, job: &mut Job, machines: u32) -> Result<(), NoMemory>
    ensures { IfOk result (λ done. job.new ≡ on_each_machine machines job.old) }
{
    job.needs = needs_on_each(alloc, machines, only_time(job))?;
    Ok(())
}

fn put_all_on_each(alloc: Global, jobs: &mut [Job], machines: u32) -> Result<(), NoMemory>
    ensures { IfOk result (λ done. jobs.new ≡ map (on_each_machine machines) jobs.old) }
{
    for job in jobs.iter_mut() {
        put_on_each(alloc, job, machines)?;
    }
    Ok(())
}

/// The instance to which the row from identical machines leads.
fn led_to_each(alloc: Global, inst: &Instance, row: Row) -> Result<Instance, NoMemory>
    requires applies { Applies row inst.now }
    ensures { IfOk result (λ lower. lower ≡ led_to_each row inst.now) }
{
    let mut lower = led(alloc, inst, row)?;
    let mut jobs = lower.jobs.take_all();
    put_all_on_each(alloc, &mut jobs, inst.machines)?;
    lower.jobs = List::from_vec(jobs);
    Ok(lower)
}

/// Two identical machines are unrelated ones, on which each job takes its time (Lageweg, Lawler, Lenstra and Rinnooy Kan 1982).
#[derive(Clone, Copy)]
pub struct Row23;

impl KeepsSchedules for Row23 {
    const NUMBER: u8 = 23;

    ghost NUMBER = { 23 };

    ghost lower_of = { led_to_each 23 };

    fn lead(alloc: Global, inst: &Instance) -> Result<Instance, NoMemory> {
        led_to_each(alloc, inst, Row::new(Self::NUMBER).unwrap())
    }

    ghost law = { carries_same refl stay_23 };
}

/// Identical machines are unrelated ones, on which each job takes its time (Lageweg, Lawler, Lenstra and Rinnooy Kan 1982).
#[derive(Clone, Copy)]
pub struct Row24;

impl KeepsSchedules for Row24 {
    const NUMBER: u8 = 24;

    ghost NUMBER = { 24 };

    ghost lower_of = { led_to_each 24 };

    fn lead(alloc: Global, inst: &Instance) -> Result<Instance, NoMemory> {
        led_to_each(alloc, inst, Row::new(Self::NUMBER).unwrap())
    }

    ghost law = { carries_same refl stay_24 };
}

/// The least common multiple of all speeds.
fn least_common_multiple(speeds: &[u64]) -> u64
    requires speeds { All (λ s. (1 ≤ s) × (s ≤ GREATEST_SPEED)) speeds.now }
    requires small { HasSmallMultiple speeds.now }
    ensures value { result ≡ least_common_multiple speeds.now }
    ensures small { result ≤ GREATEST_MULTIPLE }
{
    multiple_of_all(speeds)
}

fn product(a: u64, b: u64) -> u64
    requires a { a ≤ 2 * GREATEST }
    requires b { b ≤ 2 * GREATEST }
    ensures { result ≡ a * b }
{
    a * b
}

fn signed_product(factor: u64, x: i64) -> i64
    requires factor { factor ≤ GREATEST_MULTIPLE }
    requires x { LiesWithin (2 * GREATEST) x }
    ensures { result ≡ pos factor *ℤ x }
{
    factor as i64 * x
}

/// One need on each machine, with the time multiplied by the factor and divided by the speed.
fn needs_by_speeds(
    alloc: Global,
    time: u64,
    factor: u64,
    speeds: &[u64],
) -> Result<List<Need>, NoMemory>
    requires time { time ≤ GREATEST }
    requires factor { factor ≤ GREATEST_MULTIPLE }
    requires speeds { All (λ s. 1 ≤ s) speeds.now }
    requires few { length speeds.now ≤ MOST_MACHINES }
    ensures { IfOk result (λ needs. needs ≡ needs_by (length speeds.now) (λ m. time * (factor / slice_index_or speeds.now m 0))) }
{
    let mut needs = List::new(alloc);
    for (machine, speed) in speeds.iter().enumerate() {
        let need = Need {
            machine: machine as u32,
            time: product(time, factor / *speed),
        };
        needs.put(need)?;
    }
    Ok(needs)
}

fn stretch_step(factor: u64, step: &mut Step)
    requires factor { factor ≤ GREATEST_MULTIPLE }
    requires step { (step.old.above ≤ GREATEST) × (step.old.add ≤ GREATEST) }
    ensures { step.new ≡ stretched_step factor step.old }
{
    step.above = product(factor, step.above);
    step.add = product(factor, step.add);
}

fn stretch_steps(factor: u64, steps: &mut [Step])
    requires factor { factor ≤ GREATEST_MULTIPLE }
    requires steps { All (λ s. (s.above ≤ GREATEST) × (s.add ≤ GREATEST)) steps.old }
    ensures { steps.new ≡ map (stretched_step factor) steps.old }
{
    for step in steps.iter_mut() {
        stretch_step(factor, step);
    }
}

fn stretch_curve(factor: u64, curve: &mut Curve)
    requires factor { factor ≤ GREATEST_MULTIPLE }
    requires base { LiesWithin (2 * GREATEST) curve.old.base }
    requires steps { All (λ s. (s.above ≤ GREATEST) × (s.add ≤ GREATEST)) curve.old.steps }
    ensures { curve.new ≡ stretched_curve factor curve.old }
{
    curve.base = signed_product(factor, curve.base);
    let mut steps = curve.steps.take_all();
    stretch_steps(factor, &mut steps);
    curve.steps = List::from_vec(steps);
}

/// Multiplies the times of a job on uniform machines, and gives it a need on each machine.
fn stretch(alloc: Global, job: &mut Job, factor: u64, speeds: &[u64]) -> Result<(), NoMemory>
    requires job { IsStretchable job.old }
    requires factor { factor ≤ GREATEST_MULTIPLE }
    requires speeds { All (λ s. 1 ≤ s) speeds.now }
    requires few { length speeds.now ≤ MOST_MACHINES }
    ensures { IfOk result (λ done. job.new ≡ stretched factor speeds.now job.old) }
{
    job.needs = needs_by_speeds(alloc, only_time(job), factor, speeds)?;
    job.release = product(factor, job.release);
    job.due = signed_product(factor, job.due);
    stretch_curve(factor, &mut job.curve);
    Ok(())
}

fn stretch_all(alloc: Global, jobs: &mut [Job], factor: u64, speeds: &[u64]) -> Result<(), NoMemory>
    requires jobs { All IsStretchable jobs.old }
    requires factor { factor ≤ GREATEST_MULTIPLE }
    requires speeds { All (λ s. 1 ≤ s) speeds.now }
    requires few { length speeds.now ≤ MOST_MACHINES }
    ensures { IfOk result (λ done. jobs.new ≡ map (stretched factor speeds.now) jobs.old) }
{
    for job in jobs.iter_mut() {
        stretch(alloc, job, factor, speeds)?;
    }
    Ok(())
}

/// The instance to which the row from uniform machines leads.
fn led_by_speeds(alloc: Global, inst: &Instance, row: Row) -> Result<Instance, NoMemory>
    requires inner { Inner inst.now }
    requires applies { Applies row inst.now }
    requires uniform { kind_of inst.now.class.env ≡ Uniform }
    ensures { IfOk result (λ lower. lower ≡ led_by_speeds row inst.now) }
{
    let speeds = inst.speeds.as_slice();
    let factor = least_common_multiple(speeds);
    let mut lower = led(alloc, inst, row)?;
    let mut jobs = lower.jobs.take_all();
    stretch_all(alloc, &mut jobs, factor, speeds)?;
    lower.jobs = List::from_vec(jobs);
    lower.speeds = List::new(alloc);
    Ok(lower)
}

/// The same pieces over a unit that is as many times as large.
fn shrunk(schedule: Schedule, factor: u64) -> Schedule
    requires unit { (pos 1 ≤ℤ schedule.unit) × (schedule.unit ≤ℤ GREATEST_CARRIED_UNIT) }
    requires factor { factor ≤ GREATEST_MULTIPLE }
    ensures { result ≡ shrunk_schedule factor schedule }
{
    Schedule {
        unit: schedule.unit * factor as i128,
        pieces: schedule.pieces,
    }
}

/// The solution on uniform machines from a schedule of the instance to which the row leads.
fn solution_by_speeds(inst: &Instance, schedule: Schedule) -> Solution
    requires inner { Inner inst.now }
    requires uniform { kind_of inst.now.class.env ≡ Uniform }
    requires unit { (pos 1 ≤ℤ schedule.unit) × (schedule.unit ≤ℤ GREATEST_CARRIED_UNIT) }
    requires within { Within inst.now (shrunk_schedule (least_common_multiple inst.now.speeds) schedule) }
    requires feasible { Feasible inst.now (shrunk_schedule (least_common_multiple inst.now.speeds) schedule) }
    ensures schedule { result.schedule ≡ shrunk_schedule (least_common_multiple inst.now.speeds) schedule }
    ensures solution { IsSolution inst.now result }
{
    let schedule = shrunk(schedule, least_common_multiple(inst.speeds.as_slice()));
    let cost = cost(inst, &schedule);
    Solution { schedule, cost }
}

/// Uniform machines are unrelated ones: once all times are multiplied by the least common multiple of the speeds, a job takes its time
/// divided by the speed on each machine (Lageweg, Lawler, Lenstra and Rinnooy Kan 1982).
#[derive(Clone, Copy)]
pub struct Row26;

impl Reduction for Row26 {
    ghost number = { λ self. 26 };

    ghost lower_of = { λ self. led_by_speeds 26 };

    ghost rate = { λ self. speed_rate };

    ghost forth = { λ self i. stretched_schedule (least_common_multiple i.speeds) };

    ghost upper = { λ self i. shrunk_schedule (least_common_multiple i.speeds) };

    fn row(&self) -> Row {
        Row::new(26).unwrap()
    }

    fn down(&self, alloc: Global, inst: &Instance) -> Result<Instance, NoMemory> {
        led_by_speeds(alloc, inst, self.row())
    }

    fn back(&self, _alloc: Global, inst: &Instance, lower: Solution) -> Result<Solution, NoMemory> {
        Ok(solution_by_speeds(inst, lower.schedule))
    }

    ghost lower_is = { λ self i inner applies. (led_26 i inner applies).lower };

    ghost rate_of_row = { λ self i. refl };

    ghost rate_is = { λ self i inner applies. (led_26 i inner applies).rate };

    ghost forth_is = { λ self i s inner applies. (led_26 i inner applies).forth s };

    ghost back_is = { λ self i s inner applies. (led_26 i inner applies).back s };
}

/// Two uniform machines are unrelated ones, in the same way (Lageweg, Lawler, Lenstra and Rinnooy Kan 1982).
#[derive(Clone, Copy)]
pub struct Row27;

impl Reduction for Row27 {
    ghost number = { λ self. 27 };

    ghost lower_of = { λ self. led_by_speeds 27 };

    ghost rate = { λ self. speed_rate };

    ghost forth = { λ self i. stretched_schedule (least_common_multiple i.speeds) };

    ghost upper = { λ self i. shrunk_schedule (least_common_multiple i.speeds) };

    fn row(&self) -> Row {
        Row::new(27).unwrap()
    }

    fn down(&self, alloc: Global, inst: &Instance) -> Result<Instance, NoMemory> {
        led_by_speeds(alloc, inst, self.row())
    }

    fn back(&self, _alloc: Global, inst: &Instance, lower: Solution) -> Result<Solution, NoMemory> {
        Ok(solution_by_speeds(inst, lower.schedule))
    }

    ghost lower_is = { λ self i inner applies. (led_27 i inner applies).lower };

    ghost rate_of_row = { λ self i. refl };

    ghost rate_is = { λ self i inner applies. (led_27 i inner applies).rate };

    ghost forth_is = { λ self i s inner applies. (led_27 i inner applies).forth s };

    ghost back_is = { λ self i s inner applies. (led_27 i inner applies).back s };
}
