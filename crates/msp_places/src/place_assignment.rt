// A least assignment of jobs to places.
ghost use Rattle.std.specs.Prelude.{◌≡◌, ◌≤◌, IfOk, length};
ghost use Rattle.msp_class.specs.declared.sizes.TheConstants.{MOST_JOBS};
ghost use Rattle.msp_assign.specs.Prices.{HasCosts, IsAssigned, IsLeast};
ghost use Rattle.msp_places.specs.Assigned.{place_cost};

use crate::place::Place;
use crate::place_costs::PlaceCosts;
use msp_assign::{Assignment, Dated, assign, assign_from, falls_backward};
use msp_class::{Crit, NoMemory};
use msp_instance::Job;
use std::alloc::Global;

/// When the places end.
fn ends_of(alloc: Global, places: &[Place]) -> Result<Vec<i128>, NoMemory>
    ensures { IfOk result (λ ends. length ends.items ≡ length places.now) }
{
    let mut ends = Vec::new(alloc);
    for k in 0..places.len() {
        ends.push(i128::from(places[k].end))?;
    }
    Ok(ends)
}

/// The weights of the jobs, and their due dates over the unit.
fn dated_of(alloc: Global, jobs: &[Job], unit: u64) -> Result<Vec<Dated>, NoMemory> {
    let mut dated = Vec::new(alloc);
    for k in 0..jobs.len() {
        let job = &jobs[k];
        dated.push(Dated {
            weight: job.weight,
            due: i128::from(job.due).saturating_mul(i128::from(unit)),
            earliest: 0,
        })?;
    }
    Ok(dated)
}

/// A least assignment: by tardiness from prices of a backward pass, which most jobs agree with at once.
pub(crate) fn assigned(alloc: Global, table: &PlaceCosts) -> Result<Assignment, NoMemory>
    requires some { 1 ≤ length table.now.inst.now.jobs }
    requires few { length table.now.inst.now.jobs ≤ MOST_JOBS }
    requires square { length table.now.places.now ≡ length table.now.inst.now.jobs }
    requires costs { HasCosts (length table.now.inst.now.jobs) (length table.now.places.now) (place_cost table.now.inst.now table.now.unit table.now.places.now) }
    ensures assigned { IfOk result (λ a. IsAssigned (length table.now.inst.now.jobs) (length table.now.places.now) a.column) }
    ensures least { IfOk result (λ a. IsLeast (length table.now.inst.now.jobs) (length table.now.places.now) (place_cost table.now.inst.now table.now.unit table.now.places.now) a.column) }
{
    if table.inst.class.crit != Crit::SumWT {
        return assign(alloc, table);
    }
    let ends = ends_of(alloc, table.places)?;
    let jobs = dated_of(alloc, table.inst.jobs.as_slice(), table.unit)?;
    let falls = falls_backward(alloc, ends.as_slice(), jobs.as_slice())?;
    assign_from(alloc, table, falls.as_slice())
}
