// Jobs joined behind their predecessors, a block of greatest ratio of weight to time after another.
ghost use Rattle.std.specs.Prelude.{◌≡◌, ◌*◌, ◌+◌, ◌<◌, ◌≤◌, ◌⊎◌, ◌++◌, ◌∷◌, [], length, slice_index_or, Contains, IfOk, OnOk};
ghost use Rattle.std.specs.List.{concat};
ghost use Rattle.msp_class.specs.declared.sizes.TheConstants.{MOST_JOBS, GREATEST};
ghost use Rattle.msp_instance.specs.Conditions.{Inner};
ghost use Rattle.msp_pieces.specs.BackToBack.{time_at};
ghost use Rattle.msp_trees.specs.Horn.{horn_class, before, weight_at, time_of, weight_of, GoesNext, Joins, JoinTo, single_blocks};
ghost use Rattle.msp_trees.specs.Joining.{AreJoined, GoesNoLater};

use msp_class::{List, NoMemory};
use msp_instance::Instance;
use std::alloc::Global;

/// What is before the job: its predecessor, or else the start, which has the number after the last job's.
fn job_before(inst: &Instance, job: u32) -> u32
    requires few { length inst.now.jobs ≤ MOST_JOBS }
    ensures { result ≡ before inst.now job }
{
    for arc in inst.arcs.as_slice() {
        if arc.after == job {
            return arc.before;
        }
    }
    inst.jobs.len() as u32
}

/// How long the job takes: the start takes no time.
fn time_taken(inst: &Instance, job: u32) -> u64
    requires inner { Inner inst.now }
    requires class { inst.now.class ≡ horn_class }
    ensures value { result ≡ time_at inst.now job }
    ensures size { result ≤ GREATEST }
{
    match inst.jobs.get(job as usize) {
        Some(job) => job.needs.as_slice()[0].time,
        None => 0,
    }
}

/// What the job weighs: the start weighs nothing.
fn weight(inst: &Instance, job: u32) -> u64
    requires inner { Inner inst.now }
    requires class { inst.now.class ≡ horn_class }
    ensures value { result ≡ weight_at inst.now job }
    ensures size { result ≤ GREATEST }
{
    match inst.jobs.get(job as usize) {
        Some(job) => job.weight,
        None => 0,
    }
}

/// What the rule compares of a block: its place, its first job, how long its jobs take, and what they weigh.
#[derive(Clone, Copy)]
struct Load {
    place: usize,
    first: u32,
    time: u64,
    weight: u64,
}

/// What the rule compares of the block at a place.
fn load_of(inst: &Instance, jobs: &[u32], place: usize) -> Load
    requires inner { Inner inst.now }
    requires class { inst.now.class ≡ horn_class }
    requires some { 0 < length jobs.now }
    requires few { length jobs.now ≤ MOST_JOBS + 1 }
    ensures place { result.place ≡ place }
    ensures first { result.first ≡ slice_index_or jobs.now 0 0 }
    ensures time { result.time ≡ time_of inst.now jobs.now }
    ensures weight { result.weight ≡ weight_of inst.now jobs.now }
{
    let mut load = Load {
        place,
        first: jobs[0],
        time: 0,
        weight: 0,
    };
    for k in 0..jobs.len() {
        load.time += time_taken(inst, jobs[k]);
        load.weight += weight(inst, jobs[k]);
    }
    load
}

/// The one of two blocks that is joined first: the one of greater weight for its time, ties to the lesser number of the first job.
fn better(a: Load, b: Load) -> Load
    ensures either { (result ≡ a) ⊎ (result ≡ b) }
    ensures a { GoesNoLater result a }
    ensures b { GoesNoLater result b }
{
    let for_a = u128::from(a.weight) * u128::from(b.time);
    let for_b = u128::from(b.weight) * u128::from(a.time);
    if (for_b, a.first) < (for_a, b.first) {
        a
    } else {
        b
    }
}

/// The place of the block that is joined next: of those after the first, the one of greatest weight for its time, ties to
/// the lesser number of the first job.
fn next_place(inst: &Instance, blocks: &[List<u32>]) -> usize
    requires inner { Inner inst.now }
    requires class { inst.now.class ≡ horn_class }
    requires some { 1 < length blocks.now }
    requires joined { AreJoined inst.now blocks.now }
    ensures later { 1 ≤ result }
    ensures inside { result < length blocks.now }
    ensures next { GoesNext inst.now blocks.now result }
{
    let mut best = load_of(inst, blocks[1].as_slice(), 1);
    for place in 2..blocks.len() {
        best = better(best, load_of(inst, blocks[place].as_slice(), place));
    }
    best.place
}

/// The place of the block that holds the job.
fn place_of(blocks: &[List<u32>], job: u32) -> usize
    requires { Contains (concat blocks.now) job }
    ensures inside { result < length blocks.now }
    ensures holds { Contains (slice_index_or blocks.now result []) job }
{
    for place in 0..blocks.len() {
        if blocks[place].as_slice().contains(&job) {
            return place;
        }
    }
    unreachable!()
}

/// Puts jobs at the end of a block.
fn append(block: &mut List<u32>, jobs: &[u32]) -> Result<(), NoMemory>
    ensures { OnOk result (block.new ≡ block.old ++ jobs.now) }
{
    for k in 0..jobs.len() {
        block.put(jobs[k])?;
    }
    Ok(())
}

/// Joins a block of greatest ratio behind the one that holds what is before its first job.
fn join_next(inst: &Instance, blocks: &mut Vec<List<u32>>) -> Result<(), NoMemory>
    requires inner { Inner inst.now }
    requires class { inst.now.class ≡ horn_class }
    requires some { 1 < length blocks.old.items }
    requires joined { AreJoined inst.now blocks.old.items }
    ensures joins { OnOk result (Joins inst.now blocks.old.items blocks.new.items) }
    ensures joined { OnOk result (AreJoined inst.now blocks.new.items) }
    ensures shorter { length blocks.new.items + 1 ≡ length blocks.old.items }
{
    let place = next_place(inst, blocks.as_slice());
    let next = blocks.remove(place);
    let before = job_before(inst, next.as_slice()[0]);
    let behind = place_of(blocks.as_slice(), before);
    append(&mut blocks[behind], next.as_slice())
}

/// Joins all blocks into one.
fn join_all(inst: &Instance, blocks: &mut Vec<List<u32>>) -> Result<(), NoMemory>
    requires inner { Inner inst.now }
    requires class { inst.now.class ≡ horn_class }
    requires some { 0 < length blocks.old.items }
    requires joined { AreJoined inst.now blocks.old.items }
    ensures join { OnOk result (JoinTo inst.now blocks.old.items blocks.new.items) }
    ensures joined { OnOk result (AreJoined inst.now blocks.new.items) }
    ensures one { OnOk result (length blocks.new.items ≡ 1) }
{
    while blocks.len() > 1 {
        join_next(inst, blocks)?;
    }
    Ok(())
}

/// A block of one job.
fn single(alloc: Global, job: u32) -> Result<List<u32>, NoMemory>
    ensures { IfOk result (λ block. block ≡ job ∷ []) }
{
    let mut block = List::new(alloc);
    block.put(job)?;
    Ok(block)
}

/// A block for the start, and one for each job.
fn singles(alloc: Global, count: usize) -> Result<Vec<List<u32>>, NoMemory>
    requires { count ≤ MOST_JOBS }
    ensures { IfOk result (λ blocks. blocks.items ≡ single_blocks count) }
{
    let mut blocks = Vec::new(alloc);
    blocks.push(single(alloc, count as u32)?)?;
    for job in 0..count as u32 {
        blocks.push(single(alloc, job)?)?;
    }
    Ok(blocks)
}

/// The start, and behind it all jobs in the order of the rule.
pub fn joined_jobs(alloc: Global, inst: &Instance) -> Result<List<u32>, NoMemory>
    requires inner { Inner inst.now }
    requires class { inst.now.class ≡ horn_class }
    ensures join { IfOk result (λ jobs. JoinTo inst.now (single_blocks (length inst.now.jobs)) (jobs ∷ [])) }
    ensures joined { IfOk result (λ jobs. AreJoined inst.now (jobs ∷ [])) }
{
    let mut blocks = singles(alloc, inst.jobs.len())?;
    join_all(inst, &mut blocks)?;
    Ok(blocks.remove(0))
}
