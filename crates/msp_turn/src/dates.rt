// The rows by reversal in which release dates and due dates take each other's places.
ghost use Rattle.std.specs.Prelude.{◌≡◌, ◌≤◌, pos, All, map, refl};
ghost use Rattle.msp_pieces.specs.Cost.{greatest};
ghost use Rattle.msp_route.specs.Changes.{same_costs};
ghost use Rattle.msp_route.specs.Sizes.{greatest_row_date};
ghost use Rattle.msp_route.specs.Rates.{greatest_due, raised_costs};
ghost use Rattle.msp_turn.specs.Reversal.{due_by_release, led_to_due_dates, release_by_due, led_to_release_dates, reversed_for};
ghost use Rattle.msp_turn.specs.laws.ReversalLaw.{IsPositive-raised, IsForth-reversed, IsBack-reversed};
ghost use Rattle.msp_turn.specs.laws.ReversalDates.{reversal_47, reversal_48};

use crate::arcs::led_turned;
use crate::reversal::reversed;
use msp_class::{List, NoMemory};
use msp_instance::{Instance, Job};
use msp_pieces::Solution;
use msp_route::Reduction;
use msp_table::Row;
use std::alloc::Global;

/// Makes the release date of the job its due date, before the end of all.
fn date(job: &mut Job)
    requires { job.old.release ≤ greatest_row_date }
    ensures { job.new ≡ due_by_release job.old }
{
    job.due = -(job.release as i64);
    job.release = 0;
}

fn date_all(jobs: &mut [Job])
    requires { All (λ j. j.release ≤ greatest_row_date) jobs.old }
    ensures { jobs.new ≡ map due_by_release jobs.old }
{
    for job in jobs.iter_mut() {
        date(job);
    }
}

/// The greatest due date.
fn greatest_due(jobs: &[Job]) -> i64
    ensures { result ≡ greatest (map (λ j. j.due) jobs.now) }
{
    jobs.iter().map(|job| job.due).max().unwrap_or(0)
}

/// Makes the time from the due date of the job to the last one its release date.
fn release(job: &mut Job, last: i64)
    ensures { job.new ≡ release_by_due last job.old }
{
    job.release = last.abs_diff(job.due);
    job.due = 0;
}

fn release_all(jobs: &mut [Job], last: i64)
    ensures { jobs.new ≡ map (release_by_due last) jobs.old }
{
    for job in jobs.iter_mut() {
        release(job, last);
    }
}

/// Release dates become due dates when a schedule is read from its end (Lageweg, Lawler, Lenstra and Rinnooy Kan 1982).
#[derive(Clone, Copy)]
pub struct Row47;

impl Reduction for Row47 {
    ghost number = { λ self. 47 };

    ghost lower_of = { λ self. led_to_due_dates };

    ghost rate = { λ self i. same_costs };

    ghost forth = { λ self i s. reversed_for (led_to_due_dates i) s };

    ghost upper = { λ self. reversed_for };

    fn row(&self) -> Row {
        Row::new(47).unwrap()
    }

    fn down(&self, alloc: Global, inst: &Instance) -> Result<Instance, NoMemory> {
        let mut lower = led_turned(alloc, inst, self.row())?;
        let mut jobs = lower.jobs.take_all();
        date_all(&mut jobs);
        lower.jobs = List::from_vec(jobs);
        Ok(lower)
    }

    fn back(&self, _alloc: Global, inst: &Instance, lower: Solution) -> Result<Solution, NoMemory> {
        Ok(reversed(inst, lower))
    }

    ghost lower_is = { λ self i inner applies. (reversal_47 i inner applies).lower };

    ghost rate_of_row = { λ self i. refl };

    ghost rate_is = { λ self i inner applies. IsPositive-raised (pos 0) };

    ghost forth_is = { λ self i s inner applies. IsForth-reversed (reversal_47 i inner applies).reverse inner s };

    ghost back_is = { λ self i s inner applies. IsBack-reversed (reversal_47 i inner applies).reverse (reversal_47 i inner applies).lower.inner s };
}

/// Due dates become release dates when a schedule is read from its end (Lageweg, Lawler, Lenstra and Rinnooy Kan 1982).
#[derive(Clone, Copy)]
pub struct Row48;

impl Reduction for Row48 {
    ghost number = { λ self. 48 };

    ghost lower_of = { λ self. led_to_release_dates };

    ghost rate = { λ self i. raised_costs (greatest_due i) };

    ghost forth = { λ self i s. reversed_for (led_to_release_dates i) s };

    ghost upper = { λ self. reversed_for };

    fn row(&self) -> Row {
        Row::new(48).unwrap()
    }

    fn down(&self, alloc: Global, inst: &Instance) -> Result<Instance, NoMemory> {
        let last = greatest_due(inst.jobs.as_slice());
        let mut lower = led_turned(alloc, inst, self.row())?;
        let mut jobs = lower.jobs.take_all();
        release_all(&mut jobs, last);
        lower.jobs = List::from_vec(jobs);
        Ok(lower)
    }

    fn back(&self, _alloc: Global, inst: &Instance, lower: Solution) -> Result<Solution, NoMemory> {
        Ok(reversed(inst, lower))
    }

    ghost lower_is = { λ self i inner applies. (reversal_48 i inner applies).lower };

    ghost rate_of_row = { λ self i. refl };

    ghost rate_is = { λ self i inner applies. IsPositive-raised (greatest_due i) };

    ghost forth_is = { λ self i s inner applies. IsForth-reversed (reversal_48 i inner applies).reverse inner s };

    ghost back_is = { λ self i s inner applies. IsBack-reversed (reversal_48 i inner applies).reverse (reversal_48 i inner applies).lower.inner s };
}
