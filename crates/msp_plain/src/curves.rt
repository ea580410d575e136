// The row from the greatest lateness to the greatest cost by curves.
ghost use Rattle.std.specs.Prelude.{◌≡◌, All, map, refl};
ghost use Rattle.msp_instance.specs.Conditions.{LiesWithin};
ghost use Rattle.msp_plain.specs.Changes.{by_curve, led_by_curves};
ghost use Rattle.msp_route.specs.laws.Stays.{carries_same};
ghost use Rattle.msp_route.specs.Sizes.{greatest_row_date};
ghost use Rattle.msp_plain.specs.laws.Curves.{stay_9};

use msp_class::{List, NoMemory};
use msp_instance::{Curve, Instance, Job};
use msp_route::{KeepsSchedules, led};
use msp_table::Row;
use std::alloc::Global;

/// Makes the lateness of the job its curve.
fn charge_by_curve(alloc: Global, job: &mut Job)
    requires { LiesWithin greatest_row_date job.old.due }
    ensures { job.new ≡ by_curve job.old }
{
    job.curve = Curve {
        slope: 1,
        base: -job.due,
        steps: List::new(alloc),
    };
    job.due = 0;
}

fn charge_all_by_curves(alloc: Global, jobs: &mut [Job])
    requires { All (λ j. LiesWithin greatest_row_date j.due) jobs.old }
    ensures { jobs.new ≡ map by_curve jobs.old }
{
    for job in jobs.iter_mut() {
        charge_by_curve(alloc, job);
    }
}

/// The lateness of a job is a curve of slope 1 that starts at minus its due date (Lageweg, Lawler, Lenstra and Rinnooy Kan 1982).
#[derive(Clone, Copy)]
pub struct Row9;

impl KeepsSchedules for Row9 {
    const NUMBER: u8 = 9;

    ghost NUMBER = { 9 };

    ghost lower_of = { led_by_curves };

    fn lead(alloc: Global, inst: &Instance) -> Result<Instance, NoMemory> {
        let mut lower = led(alloc, inst, Row::new(Self::NUMBER).unwrap())?;
        let mut jobs = lower.jobs.take_all();
        charge_all_by_curves(alloc, &mut jobs);
        lower.jobs = List::from_vec(jobs);
        Ok(lower)
    }

    ghost law = { carries_same refl stay_9 };
}
