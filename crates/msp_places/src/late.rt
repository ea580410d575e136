// Jobs of one time on uniform machines, `Q|p=p|sumwT` and `Q|p=p|sumwU`: in the earliest places, at least cost.
//
// Rule: each job takes one of the n earliest places for its own (`earliest_places`), all together at least cost (`assign` of `msp_assign`):
// a job that ends with a place costs what the criterion says of that end. In a place a job ends alike, whichever it is, so no later place
// is of use, and any least assignment is right: by tardiness the one that prices of the places by a backward pass lead to
// (`place_assignment.rt`), with which most jobs find their place at once. With each place the earliest ones have all that come before it
// on its machine, so the jobs follow one another there.
//
// Best (`proofs/AssignedBest.antt`): in any schedule the jobs have earliest places of their own and end no earlier (`law_of_earliest_places`).
// That is an assignment too, and costs do not fall as ends grow, so the schedule costs no less than the assignment, and this no less than the
// least one (Lawler 1964 for one machine).
ghost use Rattle.std.specs.Prelude.{◌≡◌, ◌<◌, ◌≤◌, ◌⊎◌, length, All, IfOk};
ghost use Rattle.msp_class.specs.declared.sizes.TheConstants.{MOST_JOBS, GREATEST_MULTIPLE};
ghost use Rattle.msp_instance.specs.Conditions.{Inner};
ghost use Rattle.msp_instance.specs.Multiples.{IsLeastOfAll};
ghost use Rattle.msp_pieces.specs.Cost.{IsBest};
ghost use Rattle.msp_route.specs.Bounds.{IsAnswer};
ghost use Rattle.msp_places.specs.Classes.{places_late_class, places_count_class};
ghost use Rattle.msp_places.specs.Assigned.{in_columns, AreLeastAssigned};

use crate::earliest::earliest_places;
use crate::place::{Place, piece_in};
use crate::place_assignment::assigned;
use crate::place_costs::PlaceCosts;
use msp_assign::Assignment;
use msp_class::{Class, Crit, Env, List, NoMemory, Order, Times};
use msp_instance::{Instance, multiple_of_all};
use msp_pieces::{Piece, Schedule, Solution};
use msp_route::{Solver, best_solution};
use std::alloc::Global;

/// The class of jobs of one time on uniform machines by weighted tardiness: `Q|p=p|sumwT`.
const PLACES_LATE_CLASS: Class = Class {
    env: Env::Q,
    cut: false,
    order: Order::Free,
    heads: false,
    times: Times::Equal,
    crit: Crit::SumWT,
};

/// The same by the weight of late jobs: `Q|p=p|sumwU`.
const PLACES_COUNT_CLASS: Class = Class {
    env: Env::Q,
    cut: false,
    order: Order::Free,
    heads: false,
    times: Times::Equal,
    crit: Crit::SumWU,
};

/// The pieces of the jobs, each in the place of its column.
fn pieces_in(alloc: Global, places: &[Place], column: &[u32]) -> Result<List<Piece>, NoMemory>
    requires few { length column.now ≤ MOST_JOBS }
    requires inside { All (λ c. c < length places.now) column.now }
    ensures { IfOk result (λ pieces. pieces ≡ in_columns (length column.now) places.now column.now) }
{
    let mut pieces = List::new(alloc);
    for job in 0..column.len() {
        let next = piece_in(job as u32, &places[column[job] as usize]);
        pieces.put(next)?;
    }
    Ok(pieces)
}

/// The pieces of the jobs in the earliest places, at least cost.
fn least_pieces(alloc: Global, inst: &Instance, unit: u64) -> Result<List<Piece>, NoMemory>
    requires inner { Inner inst.now }
    requires class { (inst.now.class ≡ places_late_class) ⊎ (inst.now.class ≡ places_count_class) }
    requires unit { IsLeastOfAll inst.now.speeds unit }
    requires small { unit ≤ GREATEST_MULTIPLE }
    ensures { IfOk result (AreLeastAssigned inst.now unit) }
{
    let places = earliest_places(alloc, inst, unit)?;
    let table = PlaceCosts {
        inst,
        unit,
        places: places.as_slice(),
    };
    let Assignment { column, .. } = assigned(alloc, &table)?;
    pieces_in(alloc, places.as_slice(), column.as_slice())
}

/// A schedule of least cost over the least common multiple of the speeds, with its cost.
fn schedule_in_places(alloc: Global, inst: &Instance) -> Result<Solution, NoMemory>
    requires inner { Inner inst.now }
    requires class { (inst.now.class ≡ places_late_class) ⊎ (inst.now.class ≡ places_count_class) }
    ensures best { IfOk result (λ s. IsBest inst.now s) }
    ensures bounds { IfOk result (λ s. IsAnswer inst.now s.schedule) }
{
    let unit = multiple_of_all(inst.speeds.as_slice());
    let pieces = least_pieces(alloc, inst, unit)?;
    let schedule = Schedule {
        unit: i128::from(unit),
        pieces,
    };
    Ok(best_solution(inst, schedule))
}

/// Finds a schedule of jobs of one time on uniform machines whose weighted tardiness is least: a least assignment of the jobs to the
/// earliest places (Lawler 1964 for one machine).
#[derive(Clone, Copy)]
pub struct PlacesLate;

impl Solver for PlacesLate {
    ghost solved = { λ _. places_late_class };

    fn target(&self) -> Class {
        PLACES_LATE_CLASS
    }

    fn fits(&self, _inst: &Instance) -> bool {
        true
    }

    fn solve(&self, alloc: Global, inst: &Instance) -> Result<Solution, NoMemory> {
        schedule_in_places(alloc, inst)
    }
}

/// Finds a schedule of jobs of one time on uniform machines whose late jobs weigh least, in the same way.
#[derive(Clone, Copy)]
pub struct PlacesCount;

impl Solver for PlacesCount {
    ghost solved = { λ _. places_count_class };

    fn target(&self) -> Class {
        PLACES_COUNT_CLASS
    }

    fn fits(&self, _inst: &Instance) -> bool {
        true
    }

    fn solve(&self, alloc: Global, inst: &Instance) -> Result<Solution, NoMemory> {
        schedule_in_places(alloc, inst)
    }
}
