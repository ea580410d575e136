// A least assignment of jobs to slots.
ghost use Rattle.std.specs.Prelude.{◌≡◌, ◌≤◌, IfOk, length};
ghost use Rattle.msp_class.specs.declared.sizes.TheConstants.{MOST_JOBS};
ghost use Rattle.msp_assign.specs.Prices.{HasCosts, IsAssigned, IsLeast};
ghost use Rattle.msp_total.specs.Slots.{slot_cost};

use crate::slot_table::Slots;
use msp_assign::{Assignment, Dated, assign, assign_from, falls_backward};
use msp_class::NoMemory;
use std::alloc::Global;

/// When the slots end.
fn ends_of(alloc: Global, starts: &[u64]) -> Result<Vec<i128>, NoMemory>
    ensures { IfOk result (λ ends. length ends.items ≡ length starts.now) }
{
    let mut ends = Vec::new(alloc);
    for k in 0..starts.len() {
        ends.push(i128::from(starts[k]) + 1)?;
    }
    Ok(ends)
}

/// The weights and dates of the jobs.
fn dated_of(alloc: Global, table: &Slots) -> Result<Vec<Dated>, NoMemory> {
    let release = table.release.as_slice();
    let due = table.due.as_slice();
    let weight = table.weight.as_slice();
    let mut jobs = Vec::new(alloc);
    for job in 0..release.len() {
        jobs.push(Dated {
            weight: weight[job],
            due: i128::from(due[job]),
            earliest: i128::from(release[job]) + 1,
        })?;
    }
    Ok(jobs)
}

/// A least assignment: by tardiness from prices of a backward pass, which most jobs agree with at once.
pub fn assigned(alloc: Global, table: &Slots) -> Result<Assignment, NoMemory>
    requires some { 1 ≤ length table.now.release }
    requires few { length table.now.release ≤ MOST_JOBS }
    requires square { length table.now.start ≡ length table.now.release }
    requires costs { HasCosts (length table.now.release) (length table.now.start) (slot_cost table.now) }
    ensures assigned { IfOk result (λ a. IsAssigned (length table.now.release) (length table.now.start) a.column) }
    ensures least { IfOk result (λ a. IsLeast (length table.now.release) (length table.now.start) (slot_cost table.now) a.column) }
{
    if !table.late {
        return assign(alloc, table);
    }
    let ends = ends_of(alloc, table.start.as_slice())?;
    let jobs = dated_of(alloc, table)?;
    let falls = falls_backward(alloc, ends.as_slice(), jobs.as_slice())?;
    assign_from(alloc, table, falls.as_slice())
}
