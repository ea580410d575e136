// The first of the proofs tried that has just a cost as its value.
ghost use Rattle.std.specs.Prelude.{◌≡◌, ℕ, ◌+◌, ◌<◌, ◌≤◌, ◌++◌, nat_le, slice_index, List, length, take, count_by, All, AllPairs, IfOk, IfSome, IsPermutation, ◌==◌};
ghost use Rattle.msp_class.specs.declared.sizes.TheConstants.{MOST_JOBS};
ghost use Rattle.msp_instance.specs.declared.Instance.{Instance};
ghost use Rattle.msp_instance.specs.Conditions.{InClass};
ghost use Rattle.msp_pieces.specs.declared.Frac.{Frac};
ghost use Rattle.msp_pieces.specs.Fraction.{IsComparable};
ghost use Rattle.msp_cert.specs.declared.Proof.{Proof};
ghost use Rattle.msp_cert.specs.declared.Proof.TheVariants.{Group, Machine, Line, Levels};
ghost use Rattle.msp_cert.specs.Certificates.{HasUnitJobs, speeds_of};
ghost use Rattle.msp_cert.specs.Places.{HasRelatedMachines, IsFirstBelow};
ghost use Rattle.msp_cert.specs.Search.{AreAllLevels, AreLongestFirst, HasValue, IsFirst, IsFound, groups, machines, lines, tails};
ghost use Rattle.msp_cert.specs.Worth.{IsWorth};

use crate::Proof;
use crate::block::time_of;
use crate::group::{falling_speeds, has_related_machines, own_speed};
use crate::levels::{bound_of, has_unit_jobs};
use crate::order::longest_first;
use crate::shops::{is_shop_asked, line_worth, machine_worth};
use crate::true_levels::levels_of_all;
use crate::worth::{equals, over};
use msp_class::{List, NoMemory};
use msp_instance::{Instance, MOST_JOBS};
use msp_pieces::Frac;
use std::alloc::Global;

/// The place of the first group of the longest jobs that has the value, from 0 for the longest job alone.
fn first_group(inst: &Instance, cost: &Frac, longest: &[u32], speeds: &[u64]) -> Option<usize>
    requires class { InClass inst.now }
    requires asked { HasRelatedMachines inst.now }
    requires cost { IsComparable cost.now }
    requires longest { AreLongestFirst inst.now longest.now }
    requires all { IsPermutation (speeds_of inst.now) speeds.now }
    requires falls { AllPairs (λ x y. y ≤ x) speeds.now }
    ensures { IsFirstBelow (λ k. HasValue inst.now cost.now (Group (take (k + 1) longest.now))) (length inst.now.jobs) result }
{
    let mut time: u64 = 0;
    let mut speed: u64 = 0;
    for k in 0..longest.len() {
        time += time_of(inst, longest[k]);
        speed += own_speed(speeds, k as u32);
        if equals(cost, Some(over(time, speed))) {
            return Some(k);
        }
    }
    None
}

/// The first group of the longest jobs that has the value.
fn group_with(
    alloc: Global,
    inst: &Instance,
    cost: &Frac,
    longest: &[u32],
) -> Result<Option<Proof>, NoMemory>
    requires class { InClass inst.now }
    requires cost { IsComparable cost.now }
    requires longest { AreLongestFirst inst.now longest.now }
    ensures { IfOk result (λ found. IsFirst (HasValue inst.now cost.now) (groups inst.now longest.now) found) }
{
    if !has_related_machines(inst) {
        return Ok(None);
    }
    let speeds = falling_speeds(alloc, inst)?;
    match first_group(inst, cost, longest, speeds.as_slice()) {
        Some(last) => {
            let jobs = Vec::from_slice(alloc, &longest[..last + 1])?;
            Ok(Some(Proof::Group {
                jobs: List::from_vec(jobs),
            }))
        }
        None => Ok(None),
    }
}

/// The first machine of a shop that has the value.
fn first_machine(inst: &Instance, cost: &Frac) -> Option<u32>
    requires class { InClass inst.now }
    requires cost { IsComparable cost.now }
    ensures { IsFirstBelow (λ m. HasValue inst.now cost.now (Machine m)) inst.now.machines result }
{
    if !is_shop_asked(inst) {
        return None;
    }
    for machine in 0..inst.machines {
        if equals(cost, machine_worth(inst, machine)) {
            return Some(machine);
        }
    }
    None
}

fn machine_with(inst: &Instance, cost: &Frac) -> Option<Proof>
    requires class { InClass inst.now }
    requires cost { IsComparable cost.now }
    ensures { IsFirst (HasValue inst.now cost.now) (machines inst.now) result }
{
    match first_machine(inst, cost) {
        Some(machine) => Some(Proof::Machine { machine }),
        None => None,
    }
}

/// The first job of a shop that has the value.
fn first_line(inst: &Instance, cost: &Frac) -> Option<u32>
    requires class { InClass inst.now }
    requires cost { IsComparable cost.now }
    ensures { IsFirstBelow (λ j. HasValue inst.now cost.now (Line j)) (length inst.now.jobs) result }
{
    if !is_shop_asked(inst) {
        return None;
    }
    for job in 0..inst.jobs.len() as u32 {
        if equals(cost, line_worth(inst, job)) {
            return Some(job);
        }
    }
    None
}

fn line_with(inst: &Instance, cost: &Frac) -> Option<Proof>
    requires class { InClass inst.now }
    requires cost { IsComparable cost.now }
    ensures { IsFirst (HasValue inst.now cost.now) (lines inst.now) result }
{
    match first_line(inst, cost) {
        Some(job) => Some(Proof::Line { job }),
        None => None,
    }
}

fn none_at() -> [u32; MOST_JOBS]
    ensures { (t : ℕ) → t < MOST_JOBS → slice_index result t ≡ 0 }
{
    [0; MOST_JOBS]
}

/// How many jobs are of each level.
fn jobs_at(level: &[u32]) -> [u32; MOST_JOBS]
    requires few { length level.now ≤ MOST_JOBS }
    requires small { All (λ l. l < MOST_JOBS) level.now }
    ensures { (t : ℕ) → t < MOST_JOBS → slice_index result t ≡ count_by (λ l. l == t) level.now }
{
    let mut counts = none_at();
    for k in 0..level.len() {
        counts[level[k] as usize] += 1;
    }
    counts
}

/// What the levels are worth with a tail that so many jobs reach.
fn tail_worth(inst: &Instance, tail: u32, high: u32) -> Option<Frac>
    requires class { InClass inst.now }
    requires units { HasUnitJobs inst.now }
    requires few { high ≤ MOST_JOBS }
    ensures worth { (level : List ℕ) → AreAllLevels inst.now level → high ≡ count_by (nat_le tail) level → IsWorth inst.now (Levels level tail) result }
    ensures small { IfSome result IsComparable }
{
    if high == 0 {
        return None;
    }
    Some(over(bound_of(inst, tail, high), 1))
}

/// The first tail with which the levels have the value.
fn first_tail(inst: &Instance, cost: &Frac, level: &[u32]) -> Option<u32>
    requires class { InClass inst.now }
    requires cost { IsComparable cost.now }
    requires units { HasUnitJobs inst.now }
    requires levels { AreAllLevels inst.now level.now }
    ensures { IsFirstBelow (λ t. HasValue inst.now cost.now (Levels level.now t)) (length inst.now.jobs) result }
{
    let counts = jobs_at(level);
    let mut high = inst.jobs.len() as u32;
    for tail in 0..inst.jobs.len() as u32 {
        if equals(cost, tail_worth(inst, tail, high)) {
            return Some(tail);
        }
        high -= counts[tail as usize];
    }
    None
}

/// The levels of all jobs with the first tail with which they have the value.
fn levels_with(alloc: Global, inst: &Instance, cost: &Frac) -> Result<Option<Proof>, NoMemory>
    requires class { InClass inst.now }
    requires cost { IsComparable cost.now }
    ensures { IfOk result (λ found. (level : List ℕ) × AreAllLevels inst.now level × IsFirst (HasValue inst.now cost.now) (tails inst.now level) found) }
{
    if !has_unit_jobs(inst) {
        return Ok(None);
    }
    let level = levels_of_all(alloc, inst)?;
    match first_tail(inst, cost, level.as_slice()) {
        Some(tail) => Ok(Some(Proof::Levels {
            level: List::from_vec(level),
            tail,
        })),
        None => Ok(None),
    }
}

/// The first of two, where the one that was tried first comes first.
fn earlier(first: Option<Proof>, second: Option<Proof>) -> Option<Proof>
    ensures { (i : Instance) (cost : Frac) (all more : List Proof) → IsFirst (HasValue i cost) all first → IsFirst (HasValue i cost) more second → IsFirst (HasValue i cost) (all ++ more) result }
{
    match first {
        Some(proof) => Some(proof),
        None => second,
    }
}

/// The first group of the longest jobs that has the value, ties to the lesser number.
fn longest_with(alloc: Global, inst: &Instance, cost: &Frac) -> Result<Option<Proof>, NoMemory>
    requires class { InClass inst.now }
    requires cost { IsComparable cost.now }
    ensures { IfOk result (λ found. (longest : List ℕ) × AreLongestFirst inst.now longest × IsFirst (HasValue inst.now cost.now) (groups inst.now longest) found) }
{
    let longest = longest_first(alloc, inst)?;
    group_with(alloc, inst, cost, longest.as_slice())
}

/// The first machine, job or tail that has the value.
fn other_with(alloc: Global, inst: &Instance, cost: &Frac) -> Result<Option<Proof>, NoMemory>
    requires class { InClass inst.now }
    requires cost { IsComparable cost.now }
    ensures { IfOk result (λ found. (level : List ℕ) × AreAllLevels inst.now level × IsFirst (HasValue inst.now cost.now) (machines inst.now ++ (lines inst.now ++ tails inst.now level)) found) }
{
    let levels = levels_with(alloc, inst, cost)?;
    let machine = machine_with(inst, cost);
    let line = line_with(inst, cost);
    Ok(earlier(machine, earlier(line, levels)))
}

/// The first proof that has just the cost as its value: of the k longest jobs for k from 1 on, ties to the lesser number, then of each
/// machine, of each job, and of the levels with each tail from 0 on. None comes exactly where none of these has it. No solver is called.
pub fn find(alloc: Global, inst: &Instance, cost: Frac) -> Result<Option<Proof>, NoMemory>
    requires class { InClass inst.now }
    requires cost { IsComparable cost }
    ensures { IfOk result (λ found. IsFound inst.now cost found) }
{
    match longest_with(alloc, inst, &cost)? {
        Some(proof) => Ok(Some(proof)),
        None => other_with(alloc, inst, &cost),
    }
}
