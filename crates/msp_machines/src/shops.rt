// The rows that lead to shops with one more machine, and from flow shops to job shops.
ghost use Rattle.std.specs.Prelude.{◌≡◌, map, OnOk, IfOk, refl};
ghost use Rattle.msp_instance.specs.Conditions.{Inner};
ghost use Rattle.msp_route.specs.Law.{Applies};
ghost use Rattle.msp_route.specs.Changes.{same_costs};
ghost use Rattle.msp_route.specs.laws.Stays.{IsPositive-same, carries_same};
ghost use Rattle.msp_machines.specs.Shops.{with_idle_operation, with_idle_machine, without_empty, without_empty_operations, with_number, machine_number, numbered_by_route, numbered_by_machine};
ghost use Rattle.msp_machines.specs.laws.IdleMachines.{stay_28, stay_29, stay_30, stay_31};
ghost use Rattle.msp_machines.specs.laws.Renumbered.{IsForth-renumbered, IsBack-renumbered};
ghost use Rattle.msp_machines.specs.laws.Routes.{renumbered_39, renumbered_40};

use msp_class::{List, NoMemory};
use msp_instance::{Instance, Job, Need};
use msp_pieces::{Piece, Solution};
use msp_route::{KeepsSchedules, Reduction, led};
use msp_table::Row;
use std::alloc::Global;

/// Gives the job an operation of time 0 on the machine.
fn add_idle_operation(job: &mut Job, machine: u32) -> Result<(), NoMemory>
    ensures { OnOk result (job.new ≡ with_idle_operation machine job.old) }
{
    let need = Need { machine, time: 0 };
    job.needs.put(need)
}

fn add_idle_operations(jobs: &mut [Job], machine: u32) -> Result<(), NoMemory>
    ensures { OnOk result (jobs.new ≡ map (with_idle_operation machine) jobs.old) }
{
    for job in jobs.iter_mut() {
        add_idle_operation(job, machine)?;
    }
    Ok(())
}

/// The instance of the class to which the row leads, with one more machine, on which no job takes time.
fn with_idle_machine(alloc: Global, inst: &Instance, row: Row) -> Result<Instance, NoMemory>
    requires inner { Inner inst.now }
    requires applies { Applies row inst.now }
    ensures { IfOk result (λ j. j ≡ with_idle_machine row inst.now) }
{
    let mut lower = led(alloc, inst, row)?;
    let machine = lower.machines;
    let mut jobs = lower.jobs.take_all();
    add_idle_operations(&mut jobs, machine)?;
    lower.jobs = List::from_vec(jobs);
    lower.machines = machine + 1;
    Ok(lower)
}

/// One machine is a flow shop whose second machine has no work (Lageweg, Lawler, Lenstra and Rinnooy Kan 1982).
#[derive(Clone, Copy)]
pub struct Row28;

impl KeepsSchedules for Row28 {
    const NUMBER: u8 = 28;

    ghost NUMBER = { 28 };

    ghost lower_of = { with_idle_machine 28 };

    fn lead(alloc: Global, inst: &Instance) -> Result<Instance, NoMemory> {
        with_idle_machine(alloc, inst, Row::new(Self::NUMBER).unwrap())
    }

    ghost law = { carries_same refl stay_28 };
}

/// One machine is an open shop whose second machine has no work (Lageweg, Lawler, Lenstra and Rinnooy Kan 1982).
#[derive(Clone, Copy)]
pub struct Row29;

impl KeepsSchedules for Row29 {
    const NUMBER: u8 = 29;

    ghost NUMBER = { 29 };

    ghost lower_of = { with_idle_machine 29 };

    fn lead(alloc: Global, inst: &Instance) -> Result<Instance, NoMemory> {
        with_idle_machine(alloc, inst, Row::new(Self::NUMBER).unwrap())
    }

    ghost law = { carries_same refl stay_29 };
}

/// A flow shop of two machines is one of three whose last machine has no work (Lageweg, Lawler, Lenstra and Rinnooy Kan 1982).
#[derive(Clone, Copy)]
pub struct Row30;

impl KeepsSchedules for Row30 {
    const NUMBER: u8 = 30;

    ghost NUMBER = { 30 };

    ghost lower_of = { with_idle_machine 30 };

    fn lead(alloc: Global, inst: &Instance) -> Result<Instance, NoMemory> {
        with_idle_machine(alloc, inst, Row::new(Self::NUMBER).unwrap())
    }

    ghost law = { carries_same refl stay_30 };
}

/// An open shop of two machines is one of three whose last machine has no work (Lageweg, Lawler, Lenstra and Rinnooy Kan 1982).
#[derive(Clone, Copy)]
pub struct Row31;

impl KeepsSchedules for Row31 {
    const NUMBER: u8 = 31;

    ghost NUMBER = { 31 };

    ghost lower_of = { with_idle_machine 31 };

    fn lead(alloc: Global, inst: &Instance) -> Result<Instance, NoMemory> {
        with_idle_machine(alloc, inst, Row::new(Self::NUMBER).unwrap())
    }

    ghost law = { carries_same refl stay_31 };
}

/// Leaves out the job's operations of time 0.
fn leave_out_empty(job: &mut Job)
    ensures { job.new ≡ without_empty job.old }
{
    let mut needs = job.needs.take_all();
    needs.retain(|need| need.time != 0);
    job.needs = List::from_vec(needs);
}

fn leave_out_all_empty(jobs: &mut [Job])
    ensures { jobs.new ≡ map without_empty jobs.old }
{
    for job in jobs.iter_mut() {
        leave_out_empty(job);
    }
}

/// The instance of the class to which the row leads, whose jobs have the operations that take time.
fn without_empty_operations(alloc: Global, inst: &Instance, row: Row) -> Result<Instance, NoMemory>
    requires applies { Applies row inst.now }
    ensures { IfOk result (λ j. j ≡ without_empty_operations row inst.now) }
{
    let mut lower = led(alloc, inst, row)?;
    let mut jobs = lower.jobs.take_all();
    leave_out_all_empty(&mut jobs);
    lower.jobs = List::from_vec(jobs);
    Ok(lower)
}

fn number_by_machine(pieces: &mut [Piece])
    ensures { pieces.new ≡ map (with_number machine_number) pieces.old }
{
    for piece in pieces.iter_mut() {
        piece.op = piece.machine;
    }
}

/// Gives each operation the number of its machine, which it has on a flow shop.
fn numbered_by_machine(mut solution: Solution) -> Solution
    ensures { result ≡ record solution { schedule = numbered_by_machine solution.schedule } }
{
    let mut pieces = solution.schedule.pieces.take_all();
    number_by_machine(&mut pieces);
    solution.schedule.pieces = List::from_vec(pieces);
    solution
}

/// A flow shop of two machines is a job shop of at most two operations a job: those that take time (Lageweg, Lawler, Lenstra and Rinnooy Kan 1982).
#[derive(Clone, Copy)]
pub struct Row39;

impl Reduction for Row39 {
    ghost number = { λ self. 39 };

    ghost lower_of = { λ self. without_empty_operations 39 };

    ghost rate = { λ self i. same_costs };

    ghost forth = { λ self. numbered_by_route };

    ghost upper = { λ self i. numbered_by_machine };

    fn row(&self) -> Row {
        Row::new(39).unwrap()
    }

    fn down(&self, alloc: Global, inst: &Instance) -> Result<Instance, NoMemory> {
        without_empty_operations(alloc, inst, self.row())
    }

    fn back(&self, _: Global, _inst: &Instance, lower: Solution) -> Result<Solution, NoMemory> {
        Ok(numbered_by_machine(lower))
    }

    ghost lower_is = { λ self i inner applies. (renumbered_39 i inner applies).lower };

    ghost rate_of_row = { λ self i. refl };

    ghost rate_is = { λ self i inner applies. IsPositive-same };

    ghost forth_is = { λ self i s inner applies. IsForth-renumbered (renumbered_39 i inner applies) s };

    ghost back_is = { λ self i s inner applies. IsBack-renumbered (renumbered_39 i inner applies) s };
}

/// A flow shop is a job shop in which each job takes the machines on which it has work in order (Lageweg, Lawler, Lenstra and Rinnooy Kan 1982).
#[derive(Clone, Copy)]
pub struct Row40;

impl Reduction for Row40 {
    ghost number = { λ self. 40 };

    ghost lower_of = { λ self. without_empty_operations 40 };

    ghost rate = { λ self i. same_costs };

    ghost forth = { λ self. numbered_by_route };

    ghost upper = { λ self i. numbered_by_machine };

    fn row(&self) -> Row {
        Row::new(40).unwrap()
    }

    fn down(&self, alloc: Global, inst: &Instance) -> Result<Instance, NoMemory> {
        without_empty_operations(alloc, inst, self.row())
    }

    fn back(&self, _: Global, _inst: &Instance, lower: Solution) -> Result<Solution, NoMemory> {
        Ok(numbered_by_machine(lower))
    }

    ghost lower_is = { λ self i inner applies. (renumbered_40 i inner applies).lower };

    ghost rate_of_row = { λ self i. refl };

    ghost rate_is = { λ self i inner applies. IsPositive-same };

    ghost forth_is = { λ self i s inner applies. IsForth-renumbered (renumbered_40 i inner applies) s };

    ghost back_is = { λ self i s inner applies. IsBack-renumbered (renumbered_40 i inner applies) s };
}
