// The schedule by blocks, job by job: the one that ends last in the first block takes what the others of the block leave.
ghost use Rattle.std.specs.Prelude.{◌≡◌, ◌⊎◌, ◌+◌, ◌<◌, ◌≤◌, ◌++◌, [], ℤ, ◌≤ℤ◌, true, false, length, All, IfOk, OnOk};
ghost use Rattle.msp_class.specs.declared.class.Env.TheVariants.{One};
ghost use Rattle.msp_class.specs.declared.sizes.TheConstants.{MOST_JOBS};
ghost use Rattle.msp_instance.specs.Conditions.{Inner};
ghost use Rattle.msp_pieces.specs.Blocks.{cost_at};
ghost use Rattle.msp_pieces.specs.BackToBack.{time_at};
ghost use Rattle.msp_route.specs.Heads.{head_in, AreHeads};
ghost use Rattle.msp_blocks.specs.Filling.{done_by, gap, gaps, next_head, IsFirstBlock, ArePlaced, IsBound, CostAtMost, KeepsCosts, greatest_end};

use msp_class::{List, NoMemory};
use msp_instance::Instance;
use msp_pieces::{Piece, job_cost_at};
use msp_route::{last_place, time_of, total_time};
use std::alloc::Global;

/// The first jobs, which run without idle time up to an end.
#[derive(Clone, Copy)]
struct Block {
    count: usize,
    end: u64,
}

/// Whether a block that ends at the moment goes on with the next job.
fn goes_on(heads: &[u64], left: &[u32], count: usize, end: u64) -> bool
    requires inside { All (λ j. j < length heads.now) left.now }
    ensures yes { result ≡ true → (count < length left.now) × (next_head heads.now left.now count ≤ end) }
    ensures no { result ≡ false → count < length left.now → end < next_head heads.now left.now count }
{
    count < left.len() && heads[left[count] as usize] <= end
}

/// The first block of the earliest schedule of the jobs.
fn first_block(inst: &Instance, heads: &[u64], left: &[u32]) -> Block
    requires inner { Inner inst.now }
    requires machine { inst.now.class.env ≡ One }
    requires heads { AreHeads inst.now heads.now }
    requires some { 0 < length left.now }
    requires few { length left.now ≤ MOST_JOBS }
    requires inside { All (λ j. j < length inst.now.jobs) left.now }
    ensures block { IsFirstBlock (head_in heads.now) (time_at inst.now) left.now result.count result.end }
    ensures small { result.end ≤ greatest_end }
    ensures later { result.count < length left.now → result.end < next_head heads.now left.now result.count }
{
    let mut count = 1;
    let mut end = heads[left[0] as usize] + time_of(inst, left[0]);
    while goes_on(heads, left, count, end) {
        end += time_of(inst, left[count]);
        count += 1;
    }
    Block { count, end }
}

/// A block whose last job costs so much at its end, as it does in any schedule at least.
#[derive(Drop)]
pub struct Bound {
    pub jobs: List<u32>,
    pub cost: i128,
}

/// The pieces of all jobs, and the block whose last job costs most.
#[derive(Drop)]
pub struct Filled {
    pub pieces: List<Piece>,
    pub bound: Bound,
}

/// The block with what its last job costs at its end.
fn bound_of(
    alloc: Global,
    inst: &Instance,
    jobs: &[u32],
    last: u32,
    end: u64,
) -> Result<Bound, NoMemory>
    requires inner { Inner inst.now }
    requires inside { last < length inst.now.jobs }
    ensures jobs { IfOk result (λ b. b.jobs ≡ jobs.now) }
    ensures cost { IfOk result (λ b. b.cost ≡ cost_at inst.now last end) }
{
    let job = &inst.jobs.as_slice()[last as usize];
    let cost = job_cost_at(inst.class.crit, 1, job, i128::from(end));
    let jobs = List::from_vec(jobs.iter().copied().collect(alloc)?);
    Ok(Bound { jobs, cost })
}

/// The one of two blocks whose last job costs more.
fn greater(a: Bound, b: Bound) -> Bound
    ensures either { (result ≡ a) ⊎ (result ≡ b) }
    ensures first { a.cost ≤ℤ result.cost }
    ensures second { b.cost ≤ℤ result.cost }
{
    if a.cost < b.cost { b } else { a }
}

/// Puts a piece of the job between two moments, where there is time.
fn put_gap(pieces: &mut List<Piece>, job: u32, from: u64, to: u64) -> Result<(), NoMemory>
    ensures { OnOk result (pieces.new ≡ pieces.old ++ gap job from to) }
{
    if from < to {
        let piece = Piece {
            job,
            op: 0,
            machine: 0,
            from: i128::from(from),
            to: i128::from(to),
        };
        pieces.put(piece)?;
    }
    Ok(())
}

/// Gives the job the time that the other jobs leave from a moment up to an end.
fn fill(
    pieces: &mut List<Piece>,
    inst: &Instance,
    heads: &[u64],
    job: u32,
    begin: u64,
    others: &[u32],
    end: u64,
) -> Result<(), NoMemory>
    requires inner { Inner inst.now }
    requires machine { inst.now.class.env ≡ One }
    requires each { length heads.now ≡ length inst.now.jobs }
    requires inside { All (λ j. j < length inst.now.jobs) others.now }
    requires room { done_by (head_in heads.now) (time_at inst.now) begin others.now ≤ end }
    ensures { OnOk result (pieces.new ≡ pieces.old ++ gaps (head_in heads.now) (time_at inst.now) job begin others.now end) }
{
    let mut moment = begin;
    for place in 0..others.len() {
        let head = heads[others[place] as usize];
        put_gap(pieces, job, moment, head)?;
        moment = moment.max(head) + time_of(inst, others[place]);
    }
    put_gap(pieces, job, moment, end)
}

/// Places one job more: of the first block the one that ends last. The others of the block go before it where they can.
fn place_next(
    alloc: Global,
    inst: &Instance,
    heads: &[u64],
    left: &mut Vec<u32>,
    pieces: &mut List<Piece>,
) -> Result<Bound, NoMemory>
    requires inner { Inner inst.now }
    requires machine { inst.now.class.env ≡ One }
    requires heads { AreHeads inst.now heads.now }
    requires some { 0 < length left.old.items }
    requires filling { ArePlaced inst.now heads.now left.old.items pieces.old }
    ensures shorter { OnOk result (length left.new.items + 1 ≡ length left.old.items) }
    ensures filling { OnOk result (ArePlaced inst.now heads.now left.new.items pieces.new) }
    ensures bound { IfOk result (λ b. IsBound inst.now heads.now b.jobs b.cost) }
    ensures costs { IfOk result (λ b. KeepsCosts inst.now b.cost left.old.items pieces.old left.new.items pieces.new) }
{
    let block = first_block(inst, heads, left.as_slice());
    let jobs = &left.as_slice()[..block.count];
    let place = last_place(inst, jobs, block.end);
    let job = jobs[place];
    let begin = heads[jobs[0] as usize] + total_time(inst, &jobs[..place]);
    let others = &jobs[place + 1..];
    fill(pieces, inst, heads, job, begin, others, block.end)?;
    let bound = bound_of(alloc, inst, jobs, job, block.end)?;
    left.remove(place);
    Ok(bound)
}

/// The pieces of all jobs, which are given by rising head, and the block whose last job costs most.
pub fn place_all(
    alloc: Global,
    inst: &Instance,
    heads: &[u64],
    jobs: Vec<u32>,
) -> Result<Filled, NoMemory>
    requires inner { Inner inst.now }
    requires machine { inst.now.class.env ≡ One }
    requires heads { AreHeads inst.now heads.now }
    requires some { 0 < length jobs.items }
    requires filling { ArePlaced inst.now heads.now jobs.items [] }
    ensures filling { IfOk result (λ f. ArePlaced inst.now heads.now [] f.pieces) }
    ensures bound { IfOk result (λ f. IsBound inst.now heads.now f.bound.jobs f.bound.cost) }
    ensures costs { IfOk result (λ f. CostAtMost inst.now f.bound.cost [] f.pieces) }
{
    let mut left = jobs;
    let mut pieces = List::new(alloc);
    let mut bound = place_next(alloc, inst, heads, &mut left, &mut pieces)?;
    'places: while left.len() > 0 {
        let next = place_next(alloc, inst, heads, &mut left, &mut pieces)?;
        bound = greater(bound, next);
    }
    Ok(Filled { pieces, bound })
}
