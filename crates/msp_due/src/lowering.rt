// Due slots lowered by those of the jobs that follow.
ghost use Rattle.std.specs.Prelude.{◌≡◌, ℕ, ◌+◌, ◌*◌, ◌<◌, ◌≤◌, ◌&&◌, Bool, eqb, length, slice_index, slice_index_or, All, if◌then◌else◌};
ghost use Rattle.msp_class.specs.Sums.{total_below};
ghost use Rattle.msp_class.specs.declared.sizes.TheConstants.{MOST_JOBS};
ghost use Rattle.msp_instance.specs.Conditions.{IsSequence, GoesForward};
ghost use Rattle.msp_instance.specs.Paths.{leads, ShowsPaths};
ghost use Rattle.msp_due.specs.Steps.{how_many, due_after, IsLowered, AreLowered};

use msp_instance::{Instance, MOST_JOBS, Paths};

/// How many slots there are, with one for jobs that have none.
const SLOTS: usize = MOST_JOBS + 1;

fn no_counts() -> [u32; SLOTS]
    ensures { (k : ℕ) → slice_index result k ≡ 0 }
{
    [0; SLOTS]
}

/// Counts one more job of the slot, where it follows.
fn count(counts: &mut [u32; SLOTS], slot: u64, follows: bool)
    requires inside { slot ≤ MOST_JOBS }
    requires small { slice_index counts.old slot < MOST_JOBS }
    ensures { (c : ℕ) → slice_index counts.new c ≡ (if follows && eqb slot c then slice_index counts.old c + 1 else slice_index counts.old c) }
{
    if follows {
        counts[slot as usize] += 1;
    }
}

/// How many of the jobs to which paths lead from the job are due by each slot.
fn counts_after(paths: &Paths, slots: &[u64], job: u32) -> [u32; SLOTS]
    requires few { length slots.now ≤ MOST_JOBS }
    requires small { All (λ s. s ≤ MOST_JOBS) slots.now }
    ensures { (c : ℕ) → slice_index result c ≡ how_many (length slots.now) (λ z. leads paths.now job z && eqb (slice_index_or slots.now z 0) c) }
{
    let mut counts = no_counts();
    for other in 0..slots.len() {
        count(&mut counts, slots[other], paths.leads(job, other as u32));
    }
    counts
}

/// The greatest slot, up to one, behind which so many jobs fit up to an end.
fn fitted(slot: u64, after: u32, machines: u32, end: u64) -> u64
    requires some { 1 ≤ machines }
    ensures most { result ≤ slot }
    ensures fits { 1 ≤ result → 1 ≤ after → after + machines * result ≤ machines * end }
    ensures greatest { (v : ℕ) → v ≤ slot → (1 ≤ after → after + machines * v ≤ machines * end) → v ≤ result }
{
    if after == 0 {
        return slot;
    }
    slot.min(end.saturating_sub(u64::from(after).div_ceil(u64::from(machines))))
}

/// The due slot lowered, by how many jobs that follow are due by each slot.
fn lowered_by(counts: &[u32; SLOTS], jobs: usize, machines: u32, due: u64) -> u64
    requires few { jobs ≤ MOST_JOBS }
    requires some { 1 ≤ machines }
    requires small { total_below (jobs + 1) (slice_index counts.now) ≤ MOST_JOBS }
    ensures { IsLowered (jobs + 1) machines (λ c. total_below (c + 1) (slice_index counts.now)) due result }
{
    let mut slot = due;
    let mut after = 0;
    for end in 0..jobs + 1 {
        after += counts[end];
        slot = fitted(slot, after, machines, end as u64);
    }
    slot
}

/// The due slot of the job, lowered by those of the jobs that follow.
fn lowered(paths: &Paths, slots: &[u64], machines: u32, job: u32) -> u64
    requires few { length slots.now ≤ MOST_JOBS }
    requires inside { job < length slots.now }
    requires some { 1 ≤ machines }
    requires small { All (λ s. s ≤ MOST_JOBS) slots.now }
    ensures { IsLowered (length slots.now + 1) machines (due_after (length slots.now) (leads paths.now) (λ z. slice_index_or slots.now z 0) job) (slice_index_or slots.now job 0) result }
{
    let counts = counts_after(paths, slots, job);
    lowered_by(&counts, slots.len(), machines, slots[job as usize])
}

/// Lowers the due slots, from the last job of a forward order to the first.
pub fn lower_all(inst: &Instance, paths: &Paths, order: &[u32], slots: &mut [u64])
    requires some { 1 ≤ inst.now.machines }
    requires few { length inst.now.jobs ≤ MOST_JOBS }
    requires paths { ShowsPaths inst.now paths.now }
    requires sequence { IsSequence inst.now order.now }
    requires forward { All (GoesForward order.now) inst.now.arcs }
    requires whole { length slots.old ≡ length inst.now.jobs }
    requires small { All (λ s. s ≤ length inst.now.jobs) slots.old }
    ensures whole { length slots.new ≡ length slots.old }
    ensures small { All (λ s. s ≤ length inst.now.jobs) slots.new }
    ensures lowered { AreLowered (length inst.now.jobs) inst.now.machines (leads paths.now) (λ j. slice_index_or slots.old j 0) (λ j. slice_index_or slots.new j 0) }
{
    let mut place = order.len();
    while place > 0 {
        place -= 1;
        let job = order[place];
        slots[job as usize] = lowered(paths, slots, inst.machines, job);
    }
}
