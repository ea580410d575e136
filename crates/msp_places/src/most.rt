// The greatest cost of a job, where all jobs take one time on uniform machines: `Q|p=p|fmax` (Graham, Lawler, Lenstra and Rinnooy Kan
// 1979).
//
// Rule: from the last of the earliest places to the first, of the jobs left the one that costs least where the place ends takes it, ties
// to the lesser number. The unit is the least common multiple of the speeds.
//
// In the loop: the jobs behind the place are the cheapest ones there of themselves and of all before them, and the others are left.
//
// Best (`proofs/MostBest.antt`): at the k-th place k jobs are left. In any schedule they have places of their own among the earliest ones,
// so one of them has the k-th or a later one, and does not end before it. There it costs no less than the job chosen.
ghost use Rattle.std.specs.Prelude.{◌≡◌, ◌<◌, ◌≤◌, ◌⊎◌, length, slice_index_or, All, IfOk, IsPermutation};
ghost use Rattle.std.specs.List.{range_with_len};
ghost use Rattle.msp_class.specs.declared.sizes.TheConstants.{GREATEST_MULTIPLE};
ghost use Rattle.msp_instance.specs.Conditions.{Inner};
ghost use Rattle.msp_instance.specs.Multiples.{IsLeastOfAll};
ghost use Rattle.msp_pieces.specs.Cost.{IsBest};
ghost use Rattle.msp_route.specs.Bounds.{IsAnswer};
ghost use Rattle.msp_places.specs.Classes.{places_most_class};
ghost use Rattle.msp_places.specs.Placed.{placed};
ghost use Rattle.msp_places.specs.Most.{cost_in, IsCheapest, IsOrderByCost, ArePlacedByCost, IsByCost};
ghost use Rattle.msp_places.specs.Search.{Precedes, IsCandidate};
ghost use Rattle.msp_places.specs.Bounds.{greatest_end};

use crate::earliest::earliest_places;
use crate::place::{Place, piece_in};
use msp_class::{Class, Crit, Env, List, NoMemory, Order, Times};
use msp_instance::{Instance, multiple_of_all};
use msp_pieces::{Piece, Schedule, Solution, all_jobs, job_cost_at};
use msp_route::{Solver, best_solution};
use std::alloc::Global;

/// The class that the rule solves: `Q|p=p|fmax`.
const PLACES_MOST_CLASS: Class = Class {
    env: Env::Q,
    cut: false,
    order: Order::Free,
    heads: false,
    times: Times::Equal,
    crit: Crit::Fmax,
};

/// What a job costs that ends at the moment, over the unit.
fn price(inst: &Instance, unit: u64, job: u32, end: u64) -> i128
    requires inner { Inner inst.now }
    requires class { inst.now.class ≡ places_most_class }
    requires unit { (1 ≤ unit) × (unit ≤ GREATEST_MULTIPLE) }
    requires inside { job < length inst.now.jobs }
    requires end { end ≤ greatest_end }
    ensures { result ≡ cost_in inst.now unit end job }
{
    job_cost_at(
        inst.class.crit,
        i128::from(unit),
        &inst.jobs.as_slice()[job as usize],
        i128::from(end),
    )
}

/// A job that may take a place: where it stands in the list of jobs left, and what it costs there.
#[derive(Clone, Copy)]
struct Candidate {
    place: usize,
    job: u32,
    cost: i128,
}

/// The one of two candidates that costs less, ties to the lesser number.
fn better(best: Candidate, next: Candidate) -> Candidate
    ensures either { (result ≡ best) ⊎ (result ≡ next) }
    ensures best { Precedes result best }
    ensures next { Precedes result next }
{
    if (best.cost, best.job) <= (next.cost, next.job) {
        best
    } else {
        next
    }
}

/// The candidate that stands at the place of the list.
fn candidate_at(inst: &Instance, unit: u64, left: &[u32], place: usize, end: u64) -> Candidate
    requires inner { Inner inst.now }
    requires class { inst.now.class ≡ places_most_class }
    requires unit { (1 ≤ unit) × (unit ≤ GREATEST_MULTIPLE) }
    requires inside { All (λ j. j < length inst.now.jobs) left.now }
    requires place { place < length left.now }
    requires end { end ≤ greatest_end }
    ensures { IsCandidate inst.now unit end left.now place result }
{
    let job = left[place];
    let cost = price(inst, unit, job, end);
    Candidate { place, job, cost }
}

/// Where the job stands in the list that costs least of the jobs left, ties to the lesser number.
fn cheapest(inst: &Instance, unit: u64, left: &[u32], end: u64) -> usize
    requires inner { Inner inst.now }
    requires class { inst.now.class ≡ places_most_class }
    requires unit { (1 ≤ unit) × (unit ≤ GREATEST_MULTIPLE) }
    requires inside { All (λ j. j < length inst.now.jobs) left.now }
    requires some { 0 < length left.now }
    requires end { end ≤ greatest_end }
    ensures place { result < length left.now }
    ensures cheapest { IsCheapest inst.now unit end left.now (slice_index_or left.now result 0) }
{
    let mut best = candidate_at(inst, unit, left, 0, end);
    for place in 1..left.len() {
        let next = candidate_at(inst, unit, left, place, end);
        best = better(best, next);
    }
    best.place
}

/// Puts all jobs in order of their places, from the last place to the first: the jobs left are those before it.
fn put_in_order(inst: &Instance, unit: u64, places: &[Place], order: &mut [u32])
    requires inner { Inner inst.now }
    requires class { inst.now.class ≡ places_most_class }
    requires unit { (1 ≤ unit) × (unit ≤ GREATEST_MULTIPLE) }
    requires places { length places.now ≡ length order.old }
    requires ends { All (λ p. p.end ≤ greatest_end) places.now }
    requires all { IsPermutation (range_with_len 0 (length inst.now.jobs)) order.old }
    ensures { IsOrderByCost inst.now unit places.now order.new }
{
    let mut left = order.len();
    while left > 0 {
        let end = places[left - 1].end;
        let place = cheapest(inst, unit, &order[..left], end);
        left -= 1;
        order.swap(place, left);
    }
}

/// The jobs in the order of their places.
fn order_by_cost(
    alloc: Global,
    inst: &Instance,
    unit: u64,
    places: &[Place],
) -> Result<Vec<u32>, NoMemory>
    requires inner { Inner inst.now }
    requires class { inst.now.class ≡ places_most_class }
    requires unit { (1 ≤ unit) × (unit ≤ GREATEST_MULTIPLE) }
    requires places { length places.now ≡ length inst.now.jobs }
    requires ends { All (λ p. p.end ≤ greatest_end) places.now }
    ensures { IfOk result (λ order. IsOrderByCost inst.now unit places.now order.items) }
{
    let mut order = all_jobs(alloc, inst.jobs.len())?;
    put_in_order(inst, unit, places, order.as_mut_slice());
    Ok(order)
}

/// The pieces of the jobs, each in the place of its turn.
fn in_turn(alloc: Global, places: &[Place], order: &[u32]) -> Result<List<Piece>, NoMemory>
    requires { length places.now ≡ length order.now }
    ensures { IfOk result (λ pieces. pieces ≡ placed (length order.now) places.now (λ k. slice_index_or order.now k 0) (λ k. k)) }
{
    let mut pieces = List::new(alloc);
    for turn in 0..order.len() {
        let next = piece_in(order[turn], &places[turn]);
        pieces.put(next)?;
    }
    Ok(pieces)
}

/// The pieces of the jobs in the earliest places, in the order of least cost.
fn pieces_by_cost(alloc: Global, inst: &Instance, unit: u64) -> Result<List<Piece>, NoMemory>
    requires inner { Inner inst.now }
    requires class { inst.now.class ≡ places_most_class }
    requires unit { IsLeastOfAll inst.now.speeds unit }
    requires small { unit ≤ GREATEST_MULTIPLE }
    ensures { IfOk result (ArePlacedByCost inst.now unit) }
{
    let places = earliest_places(alloc, inst, unit)?;
    let listed = places.as_slice();
    let order = order_by_cost(alloc, inst, unit, listed)?;
    in_turn(alloc, listed, order.as_slice())
}

/// Finds a schedule of jobs of one time on uniform machines whose greatest cost is least: from the last of the earliest places to the
/// first, of the jobs left the one that costs least there takes the place, ties to the lesser number (Graham, Lawler, Lenstra and Rinnooy
/// Kan 1979).
#[derive(Clone, Copy)]
pub struct PlacesMost;

impl Solver for PlacesMost {
    ghost solved = { λ _. places_most_class };

    fn target(&self) -> Class {
        PLACES_MOST_CLASS
    }

    fn fits(&self, _inst: &Instance) -> bool {
        true
    }

    fn solve(&self, alloc: Global, inst: &Instance) -> Result<Solution, NoMemory>
        requires inner { Inner inst.now }
        requires class { inst.now.class ≡ places_most_class }

        // What every solver ensures.
        ensures best { IfOk result (λ s. IsBest inst.now s) }
        ensures bounds { IfOk result (λ s. IsAnswer inst.now s.schedule) }

        // The form of the answer.
        ensures order { IfOk result (λ s. IsByCost inst.now s.schedule) }
    {
        let unit = multiple_of_all(inst.speeds.as_slice());
        let pieces = pieces_by_cost(alloc, inst, unit)?;
        let schedule = Schedule {
            unit: i128::from(unit),
            pieces,
        };
        Ok(best_solution(inst, schedule))
    }
}
