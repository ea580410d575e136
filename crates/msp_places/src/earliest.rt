// The earliest places on uniform machines, one for each of the jobs, which all take one time.
//
// Rule: as often as there are jobs, the place that ends first of the next ones of the machines is taken, ties to the lesser machine.
//
// In the loop (`specs/Taken.antt`): the places taken stand in order, the next place of each machine comes after all of them, and those
// before it on its machine are taken.
ghost use Rattle.std.specs.Prelude.{◌≡◌, ◌+◌, ◌*◌, ◌/◌, ◌<◌, ◌≤◌, length, map, slice_index_or, All, IfOk};
ghost use Rattle.msp_class.specs.declared.environments.EnvKind.TheVariants.{Uniform};
ghost use Rattle.msp_class.specs.declared.class.Times.TheVariants.{Equal};
ghost use Rattle.msp_class.specs.Env.{kind_of};
ghost use Rattle.msp_class.specs.declared.sizes.TheConstants.{MOST_JOBS, MOST_MACHINES, GREATEST_MULTIPLE, GREATEST_EQUAL_TIME};
ghost use Rattle.msp_instance.specs.Conditions.{Inner};
ghost use Rattle.msp_instance.specs.Multiples.{IsLeastOfAll};
ghost use Rattle.msp_places.specs.Places.{AreEarliest, AreEarliestPlaces};
ghost use Rattle.msp_places.specs.Taken.{IsFirstPlace, AreFirst, behind, TakesTurn};
ghost use Rattle.msp_places.specs.Bounds.{greatest_end, greatest_length};

use crate::place::Place;
use msp_class::NoMemory;
use msp_instance::Instance;
use msp_route::first_time;
use std::alloc::Global;

/// How long a job that takes the time runs on each machine, over the unit.
fn lengths_of(alloc: Global, speeds: &[u64], time: u64, unit: u64) -> Result<Vec<u64>, NoMemory>
    requires speeds { All (λ s. 1 ≤ s) speeds.now }
    requires time { time ≤ GREATEST_EQUAL_TIME }
    requires unit { unit ≤ GREATEST_MULTIPLE }
    ensures { IfOk result (λ lengths. lengths.items ≡ map (λ s. time * (unit / s)) speeds.now) }
{
    let mut lengths = Vec::new(alloc);
    for speed in speeds {
        lengths.push(time * (unit / *speed))?;
    }
    Ok(lengths)
}

/// The first places of all machines.
fn first_places(alloc: Global, lengths: &[u64]) -> Result<Vec<Place>, NoMemory>
    requires { length lengths.now ≤ MOST_MACHINES }
    ensures { IfOk result (λ first. AreFirst lengths.now first.items) }
{
    let mut first = Vec::new(alloc);
    for machine in 0..lengths.len() {
        first.push(Place {
            machine: machine as u32,
            rank: 1,
            begin: 0,
            end: lengths[machine],
        })?;
    }
    Ok(first)
}

/// The machine whose next place ends first, ties to the lesser machine.
fn earliest_of(next: &[Place]) -> usize
    requires { 0 < length next.now }
    ensures { IsFirstPlace next.now result }
{
    let mut earliest = 0;
    for machine in 1..next.len() {
        if next[machine].end < next[earliest].end {
            earliest = machine;
        }
    }
    earliest
}

/// The place behind one on its machine, where a job takes the time.
fn behind(place: Place, length: u64) -> Place
    requires rank { place.rank ≤ MOST_JOBS }
    requires end { place.end ≤ greatest_end }
    requires length { length ≤ greatest_length }
    ensures { result ≡ behind place length }
{
    Place {
        machine: place.machine,
        rank: place.rank + 1,
        begin: place.end,
        end: place.end + length,
    }
}

/// Takes the place that ends first of the next ones of the machines.
fn take_turn(next: &mut Vec<Place>, lengths: &[u64]) -> Place
    requires some { 0 < length lengths.now }
    requires same { length next.old.items ≡ length lengths.now }
    requires ranks { All (λ p. p.rank ≤ MOST_JOBS) next.old.items }
    requires ends { All (λ p. p.end ≤ greatest_end) next.old.items }
    requires lengths { All (λ l. l ≤ greatest_length) lengths.now }
    ensures { TakesTurn lengths.now next.old.items result next.new.items }
{
    let machine = earliest_of(next);
    let place = next[machine];
    next[machine] = behind(place, lengths[machine]);
    place
}

/// The earliest places where a job takes on each machine the time that is listed.
fn places_by(alloc: Global, lengths: &[u64], count: usize) -> Result<Vec<Place>, NoMemory>
    requires some { 0 < length lengths.now }
    requires few { length lengths.now ≤ MOST_MACHINES }
    requires lengths { All (λ l. (1 ≤ l) × (l ≤ greatest_length)) lengths.now }
    requires count { count ≤ MOST_JOBS }
    ensures { IfOk result (λ places. AreEarliest lengths.now count places.items) }
{
    let mut places = Vec::new(alloc);
    let mut next = first_places(alloc, lengths)?;
    for _turn in 0..count {
        let place = take_turn(&mut next, lengths);
        places.push(place)?;
    }
    Ok(places)
}

/// The earliest places over the unit, as many as there are jobs, in order of end, ties to the lesser machine.
pub fn earliest_places(alloc: Global, inst: &Instance, unit: u64) -> Result<Vec<Place>, NoMemory>
    requires inner { Inner inst.now }
    requires kind { kind_of inst.now.class.env ≡ Uniform }
    requires times { inst.now.class.times ≡ Equal }
    requires unit { IsLeastOfAll inst.now.speeds unit }
    requires small { unit ≤ GREATEST_MULTIPLE }
    ensures { IfOk result (λ places. AreEarliestPlaces inst.now unit places.items) }
{
    let jobs = inst.jobs.as_slice();
    let time = first_time(&jobs[0]);
    let lengths = lengths_of(alloc, inst.speeds.as_slice(), time, unit)?;
    places_by(alloc, lengths.as_slice(), jobs.len())
}
