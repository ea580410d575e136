// The rows between intrees and outtrees by exchange of times and weights.
ghost use Rattle.std.specs.Prelude.{◌≡◌, ◌<◌, map, All, IfOk, IsPermutation, IsSome, refl};
ghost use Rattle.std.specs.List.{range_with_len};
ghost use Rattle.msp_table.specs.Rows.{goes_of};
ghost use Rattle.msp_route.specs.Changes.{same_costs};
ghost use Rattle.msp_route.specs.laws.Stays.{IsPositive-same};
ghost use Rattle.msp_turn.specs.Ends.{EndsFall};
ghost use Rattle.msp_turn.specs.LinedUp.{from_last};
ghost use Rattle.msp_turn.specs.Exchanged.{IsExchangeable, exchanged_job, exchanged};
ghost use Rattle.msp_turn.specs.laws.ExchangeRows.{IsForth-exchanged, IsBack-exchanged, exchange_51, exchange_52};

use crate::arcs::led_turned;
use crate::ends::order_of_ends;
use crate::line_up::line_up;
use msp_class::{List, NoMemory};
use msp_instance::{Instance, Job};
use msp_pieces::{Schedule, Solution};
use msp_route::Reduction;
use msp_table::Row;
use std::alloc::Global;

/// Exchanges the job's time and its weight.
fn exchange(job: &mut Job)
    requires { IsExchangeable job.old }
    ensures { job.new ≡ exchanged_job job.old }
{
    let weight = job.weight;
    let mut needs = job.needs.take_all();
    let need = &mut needs[0];
    job.weight = need.time;
    need.time = weight;
    job.needs = List::from_vec(needs);
}

fn exchange_all(jobs: &mut [Job])
    requires { All IsExchangeable jobs.old }
    ensures { jobs.new ≡ map exchanged_job jobs.old }
{
    for job in jobs.iter_mut() {
        exchange(job);
    }
}

/// The same instance in the class to which the row leads, with every arc turned, and time and weight of each job exchanged.
fn exchanged(alloc: Global, inst: &Instance, row: Row) -> Result<Instance, NoMemory>
    requires applies { IsSome (goes_of row inst.now.class) }
    requires jobs { All IsExchangeable inst.now.jobs }
    ensures { IfOk result (λ copy. copy ≡ exchanged row inst.now) }
{
    let mut lower = led_turned(alloc, inst, row)?;
    let mut jobs = lower.jobs.take_all();
    exchange_all(&mut jobs);
    lower.jobs = List::from_vec(jobs);
    Ok(lower)
}

/// The numbers of the jobs from the last end to the first.
fn order_from_last(alloc: Global, count: u32, schedule: &Schedule) -> Result<Vec<u32>, NoMemory>
    requires { All (λ p. p.job < count) schedule.now.pieces }
    ensures all { IfOk result (λ order. IsPermutation (range_with_len 0 count) order.items) }
    ensures sorted { IfOk result (λ order. EndsFall schedule.now order.items) }
{
    let mut order = order_of_ends(alloc, count, schedule)?;
    order.reverse();
    Ok(order)
}

/// Jobs of an intree, put in the opposite order, are jobs of an outtree that cost as much with times and weights exchanged, as a chart of
/// both in two dimensions shows (Eastman, Even and Isaacs 1964).
#[derive(Clone, Copy)]
pub struct Row51;

impl Reduction for Row51 {
    ghost number = { λ self. 51 };

    ghost lower_of = { λ self. exchanged 51 };

    ghost rate = { λ self i. same_costs };

    ghost forth = { λ self i s. from_last (exchanged 51 i) s };

    ghost upper = { λ self. from_last };

    fn row(&self) -> Row {
        Row::new(51).unwrap()
    }

    fn down(&self, alloc: Global, inst: &Instance) -> Result<Instance, NoMemory> {
        exchanged(alloc, inst, self.row())
    }

    fn back(&self, alloc: Global, inst: &Instance, lower: Solution) -> Result<Solution, NoMemory> {
        let order = order_from_last(alloc, inst.jobs.len() as u32, &lower.schedule)?;
        line_up(alloc, inst, lower.schedule.unit.unsigned_abs(), &order)
    }

    ghost lower_is = { λ self i inner applies. (exchange_51 i inner applies).lower };

    ghost rate_of_row = { λ self i. refl };

    ghost rate_is = { λ self i inner applies. IsPositive-same };

    ghost forth_is = { λ self i s inner applies. IsForth-exchanged 51 i (exchanged 51 i) (exchange_51 i inner applies) inner s };

    ghost back_is = { λ self i s inner applies. IsBack-exchanged 51 i (exchanged 51 i) (exchange_51 i inner applies) inner s };
}

/// Jobs of an outtree, put in the opposite order, are jobs of an intree that cost as much with times and weights exchanged, as a chart of
/// both in two dimensions shows (Eastman, Even and Isaacs 1964).
#[derive(Clone, Copy)]
pub struct Row52;

impl Reduction for Row52 {
    ghost number = { λ self. 52 };

    ghost lower_of = { λ self. exchanged 52 };

    ghost rate = { λ self i. same_costs };

    ghost forth = { λ self i s. from_last (exchanged 52 i) s };

    ghost upper = { λ self. from_last };

    fn row(&self) -> Row {
        Row::new(52).unwrap()
    }

    fn down(&self, alloc: Global, inst: &Instance) -> Result<Instance, NoMemory> {
        exchanged(alloc, inst, self.row())
    }

    fn back(&self, alloc: Global, inst: &Instance, lower: Solution) -> Result<Solution, NoMemory> {
        let order = order_from_last(alloc, inst.jobs.len() as u32, &lower.schedule)?;
        line_up(alloc, inst, lower.schedule.unit.unsigned_abs(), &order)
    }

    ghost lower_is = { λ self i inner applies. (exchange_52 i inner applies).lower };

    ghost rate_of_row = { λ self i. refl };

    ghost rate_is = { λ self i inner applies. IsPositive-same };

    ghost forth_is = { λ self i s inner applies. IsForth-exchanged 52 i (exchanged 52 i) (exchange_52 i inner applies) inner s };

    ghost back_is = { λ self i s inner applies. IsBack-exchanged 52 i (exchanged 52 i) (exchange_52 i inner applies) inner s };
}
