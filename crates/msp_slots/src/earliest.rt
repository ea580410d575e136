// The slots of the earliest schedule of unit jobs: each job, by its release date, as early as a machine is left.
ghost use Rattle.std.specs.Prelude.{◌≡◌, ◌*◌, ◌≤◌, length, map, All, IfOk, IsPermutation};
ghost use Rattle.std.specs.List.Sorted.{IsNonDecreasing};
ghost use Rattle.msp_class.specs.declared.sizes.TheConstants.{MOST_JOBS, MOST_MACHINES, GREATEST};
ghost use Rattle.msp_slots.specs.Earliest.{AreSlots};
ghost use Rattle.msp_slots.specs.Filling.{IsNextSlot};

use msp_class::NoMemory;
use msp_instance::Job;
use std::alloc::Global;

/// A unit of time on a machine.
#[derive(Clone, Copy)]
pub struct Slot {
    pub start: u64,
    pub machine: u32,
}

/// The release dates of the jobs.
pub fn releases_of(alloc: Global, jobs: &[Job]) -> Result<Vec<u64>, NoMemory>
    ensures { IfOk result (λ all. all.items ≡ map (λ j. j.release) jobs.now) }
{
    Ok(jobs.iter().map(|job| job.release).collect(alloc)?)
}

/// The release dates of the jobs in order.
pub fn sorted_releases(alloc: Global, jobs: &[Job]) -> Result<Vec<u64>, NoMemory>
    ensures all { IfOk result (λ all. IsPermutation (map (λ j. j.release) jobs.now) all.items) }
    ensures rising { IfOk result (λ all. IsNonDecreasing all.items) }
{
    let mut all = releases_of(alloc, jobs)?;
    all.sort_unstable();
    Ok(all)
}

/// The next slot, where the last ones begin at the moment, and so many machines are taken then.
fn next_slot(moment: u64, taken: u32, machines: u32, release: u64) -> Slot
    requires { moment ≤ 3 * GREATEST }
    ensures { IsNextSlot moment taken machines release result }
{
    if moment < release {
        return Slot {
            start: release,
            machine: 0,
        };
    }
    if taken < machines {
        return Slot {
            start: moment,
            machine: taken,
        };
    }
    Slot {
        start: moment + 1,
        machine: 0,
    }
}

/// The moments at which the slots begin.
pub fn starts_of(alloc: Global, slots: &[Slot]) -> Result<Vec<u64>, NoMemory>
    ensures { IfOk result (λ all. all.items ≡ map (λ s. s.start) slots.now) }
{
    Ok(slots.iter().map(|slot| slot.start).collect(alloc)?)
}

/// The slots of the earliest schedule, one for each release date, in order of their begins.
pub fn earliest_slots(alloc: Global, releases: &[u64], machines: u32) -> Result<Vec<Slot>, NoMemory>
    requires some { 1 ≤ machines }
    requires few { machines ≤ MOST_MACHINES }
    requires jobs { length releases.now ≤ MOST_JOBS }
    requires early { All (λ r. r ≤ 2 * GREATEST) releases.now }
    requires rising { IsNonDecreasing releases.now }
    ensures { IfOk result (λ slots. AreSlots machines releases.now slots.items) }
{
    let mut slots = Vec::new(alloc);
    let mut moment: u64 = 0;
    let mut taken: u32 = 0;
    for k in 0..releases.len() {
        let slot = next_slot(moment, taken, machines, releases[k]);
        slots.push(slot)?;
        moment = slot.start;
        taken = slot.machine + 1;
    }
    Ok(slots)
}
