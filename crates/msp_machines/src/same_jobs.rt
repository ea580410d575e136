// The rows from identical machines that leave the jobs as they are: to machines of equal speeds, and from one machine to shops.
ghost use Rattle.std.specs.Prelude.{◌≡◌, IfOk, refl};
ghost use Rattle.msp_route.specs.Law.{Applies};
ghost use Rattle.msp_route.specs.laws.Stays.{carries_same};
ghost use Rattle.msp_machines.specs.Machines.{equal_speeds, led_at_equal_speeds, led_to_two_machines};
ghost use Rattle.msp_machines.specs.laws.SameJobs.{stay_20, stay_21, stay_32, stay_33, stay_34};

use msp_class::{List, NoMemory};
use msp_instance::Instance;
use msp_route::{KeepsData, KeepsSchedules, led};
use msp_table::Row;
use std::alloc::Global;

/// A speed of 1 for each machine.
fn equal_speeds(alloc: Global, machines: u32) -> Result<List<u64>, NoMemory>
    ensures { IfOk result (λ speeds. speeds ≡ equal_speeds machines) }
{
    let mut speeds = List::new(alloc);
    for _ in 0..machines {
        speeds.put(1)?;
    }
    Ok(speeds)
}

/// The instance to which the row from identical to uniform machines leads.
fn led_at_equal_speeds(alloc: Global, inst: &Instance, row: Row) -> Result<Instance, NoMemory>
    requires applies { Applies row inst.now }
    ensures { IfOk result (λ lower. lower ≡ led_at_equal_speeds row inst.now) }
{
    let speeds = equal_speeds(alloc, inst.machines)?;
    let lower = led(alloc, inst, row)?;
    Ok(Instance { speeds, ..lower })
}

/// The instance to which the row from one machine to a job shop of two leads.
fn led_to_two_machines(alloc: Global, inst: &Instance, row: Row) -> Result<Instance, NoMemory>
    requires applies { Applies row inst.now }
    ensures { IfOk result (λ lower. lower ≡ led_to_two_machines row inst.now) }
{
    let mut lower = led(alloc, inst, row)?;
    lower.machines = 2;
    Ok(lower)
}

/// Two identical machines are uniform ones of equal speeds (Lageweg, Lawler, Lenstra and Rinnooy Kan 1982).
#[derive(Clone, Copy)]
pub struct Row20;

impl KeepsSchedules for Row20 {
    const NUMBER: u8 = 20;

    ghost NUMBER = { 20 };

    ghost lower_of = { led_at_equal_speeds 20 };

    fn lead(alloc: Global, inst: &Instance) -> Result<Instance, NoMemory> {
        led_at_equal_speeds(alloc, inst, Row::new(Self::NUMBER).unwrap())
    }

    ghost law = { carries_same refl stay_20 };
}

/// Identical machines are uniform ones of equal speeds (Lageweg, Lawler, Lenstra and Rinnooy Kan 1982).
#[derive(Clone, Copy)]
pub struct Row21;

impl KeepsSchedules for Row21 {
    const NUMBER: u8 = 21;

    ghost NUMBER = { 21 };

    ghost lower_of = { led_at_equal_speeds 21 };

    fn lead(alloc: Global, inst: &Instance) -> Result<Instance, NoMemory> {
        led_at_equal_speeds(alloc, inst, Row::new(Self::NUMBER).unwrap())
    }

    ghost law = { carries_same refl stay_21 };
}

/// One machine is a flow shop whose jobs have one operation (Lageweg, Lawler, Lenstra and Rinnooy Kan 1982).
#[derive(Clone, Copy)]
pub struct Row32;

impl KeepsData for Row32 {
    const NUMBER: u8 = 32;

    ghost NUMBER = { 32 };

    ghost law = { carries_same refl stay_32 };
}

/// One machine is an open shop whose jobs have one operation (Lageweg, Lawler, Lenstra and Rinnooy Kan 1982).
#[derive(Clone, Copy)]
pub struct Row33;

impl KeepsData for Row33 {
    const NUMBER: u8 = 33;

    ghost NUMBER = { 33 };

    ghost law = { carries_same refl stay_33 };
}

/// One machine is the first of a job shop of two, whose jobs have one operation there (Lageweg, Lawler, Lenstra and Rinnooy Kan 1982).
#[derive(Clone, Copy)]
pub struct Row34;

impl KeepsSchedules for Row34 {
    const NUMBER: u8 = 34;

    ghost NUMBER = { 34 };

    ghost lower_of = { led_to_two_machines 34 };

    fn lead(alloc: Global, inst: &Instance) -> Result<Instance, NoMemory> {
        led_to_two_machines(alloc, inst, Row::new(Self::NUMBER).unwrap())
    }

    ghost law = { carries_same refl stay_34 };
}
