// A schedule of the jobs in order of their due dates: its greatest lateness bounds the search from above.
ghost use Rattle.std.specs.Prelude.{◌≡◌, ℕ, ◌+◌, ◌*◌, ◌<◌, ◌≤◌, ◌⊎◌, length, map, slice_index_or, pos, ◌+ℤ◌, ◌≤ℤ◌, All, IfOk, IsPermutation};
ghost use Rattle.msp_class.specs.declared.sizes.TheConstants.{MOST_JOBS, GREATEST};
ghost use Rattle.msp_instance.specs.Conditions.{Inner, LiesWithin};
ghost use Rattle.msp_slots.specs.Earliest.{start_in};
ghost use Rattle.msp_threshold.specs.Squeezed.{lateness_class, CanMeet};
ghost use Rattle.msp_threshold.specs.Search.{job_in, IsReleased, AreReleased, AreInSlots};

use msp_class::NoMemory;
use msp_instance::{Instance, Job};
use msp_route::jobs_by_key;
use msp_slots::{Slot, earliest_slots, releases_of};
use std::alloc::Global;

/// The slots of the earliest schedule, and the job in each of them.
#[derive(Drop)]
pub struct Seats {
    pub slots: Vec<Slot>,
    pub order: Vec<u32>,
}

/// The release dates of the jobs in this order.
fn releases_in(alloc: Global, releases: &[u64], order: &[u32]) -> Result<Vec<u64>, NoMemory>
    requires { All (λ j. j < length releases.now) order.now }
    ensures { IfOk result (λ all. all.items ≡ map (λ j. slice_index_or releases.now j 0) order.now) }
{
    Ok(
        order
            .iter()
            .map(|job| releases[*job as usize])
            .collect(alloc)?,
    )
}

/// The jobs by release date in the slots of the earliest schedule.
fn seats_by_release(alloc: Global, inst: &Instance) -> Result<Seats, NoMemory>
    requires inner { Inner inst.now }
    requires class { inst.now.class ≡ lateness_class }
    ensures { IfOk result (λ s. AreInSlots inst.now s.slots.items s.order.items) }
{
    let releases = releases_of(alloc, inst.jobs.as_slice())?;
    let order = jobs_by_key(alloc, releases.as_slice())?;
    let heads = releases_in(alloc, releases.as_slice(), order.as_slice())?;
    let slots = earliest_slots(alloc, heads.as_slice(), inst.machines)?;
    Ok(Seats { slots, order })
}

/// The place of the job that is due earlier, where the one at the later place is released by the moment.
fn earlier(jobs: &[Job], order: &[u32], first: usize, later: usize, moment: u64) -> usize
    requires inside { All (λ j. j < length jobs.now) order.now }
    requires first { first < length order.now }
    requires later { later < length order.now }
    requires released { IsReleased jobs.now order.now moment first }
    ensures place { (result ≡ first) ⊎ (result ≡ later) }
    ensures released { IsReleased jobs.now order.now moment result }
{
    let job = &jobs[order[later] as usize];
    if job.release <= moment && job.due < jobs[order[first] as usize].due {
        return later;
    }
    first
}

/// Of the jobs from the place on, of which its own is released by the moment, the place of one that is released by then and due first.
fn due_first(jobs: &[Job], order: &[u32], place: usize, moment: u64) -> usize
    requires inside { All (λ j. j < length jobs.now) order.now }
    requires place { place < length order.now }
    requires released { IsReleased jobs.now order.now moment place }
    ensures least { place ≤ result }
    ensures most { result < length order.now }
    ensures released { IsReleased jobs.now order.now moment result }
{
    let mut first = place;
    for later in place + 1..order.len() {
        first = earlier(jobs, order, first, later, moment);
    }
    first
}

/// Puts into each slot, from the first on, the job that is due first of those left that are released.
fn sort_by_due_date(jobs: &[Job], slots: &[Slot], order: &mut [u32])
    requires inside { All (λ j. j < length jobs.now) order.old }
    requires slots { length order.old ≡ length slots.now }
    requires rising { (a b : ℕ) → a ≤ b → b < length slots.now → start_in slots.now a ≤ start_in slots.now b }
    requires seated { AreReleased jobs.now slots.now order.old }
    ensures same { IsPermutation order.old order.new }
    ensures seated { AreReleased jobs.now slots.now order.new }
{
    for place in 0..order.len() {
        let first = due_first(jobs, order, place, slots[place].start);
        order.swap(place, first);
    }
}

/// The greater of the bound and by how much a job ends late that begins at the moment.
fn at_least(bound: i64, moment: u64, due: &i64) -> i64
    requires bound { LiesWithin (5 * GREATEST) bound }
    requires moment { moment ≤ 2 * GREATEST + MOST_JOBS }
    requires due { LiesWithin (2 * GREATEST) due.now }
    ensures more { bound ≤ℤ result }
    ensures late { pos (moment + 1) ≤ℤ (due.now +ℤ result) }
    ensures size { LiesWithin (5 * GREATEST) result }
{
    let late = moment as i64 + 1 - *due;
    if late < bound { bound } else { late }
}

/// The greater of the bound and the greatest lateness of the jobs in these slots.
fn lateness_in(jobs: &[Job], seats: &Seats, bound: i64) -> i64
    requires inside { All (λ j. j < length jobs.now) seats.now.order.items }
    requires slots { length seats.now.order.items ≡ length seats.now.slots.items }
    requires soon { (k : ℕ) → k < length seats.now.slots.items → start_in seats.now.slots.items k ≤ 2 * GREATEST + MOST_JOBS }
    requires dues { All (λ j. LiesWithin (2 * GREATEST) j.due) jobs.now }
    requires bound { LiesWithin (5 * GREATEST) bound }
    ensures late { (k : ℕ) → k < length seats.now.order.items → pos (start_in seats.now.slots.items k + 1) ≤ℤ ((job_in jobs.now seats.now.order.items k).due +ℤ result) }
    ensures size { LiesWithin (5 * GREATEST) result }
{
    let mut high = bound;
    for place in 0..seats.order.len() {
        let job = &jobs[seats.order[place] as usize];
        high = at_least(high, seats.slots[place].start, &job.due);
    }
    high
}

/// A bound on the greatest lateness that a schedule by due dates meets, and that is no less than the bound given: at each moment it begins
/// those of the released jobs that are due first (Jackson 1955).
pub fn met_bound(alloc: Global, inst: &Instance, bound: i64) -> Result<i64, NoMemory>
    requires inner { Inner inst.now }
    requires class { inst.now.class ≡ lateness_class }
    requires bound { LiesWithin (5 * GREATEST) bound }
    ensures met { IfOk result (CanMeet inst.now) }
    ensures size { IfOk result (LiesWithin (5 * GREATEST)) }
{
    let jobs = inst.jobs.as_slice();
    let mut seats = seats_by_release(alloc, inst)?;
    sort_by_due_date(jobs, seats.slots.as_slice(), seats.order.as_mut_slice());
    Ok(lateness_in(jobs, &seats, bound))
}
