// Flags of jobs.
ghost use Rattle.std.specs.Prelude.{◌≡◌, ◌<◌, ◌==◌, ◌&&◌, ◌||◌, ℕ, false, length, slice_index_or, slice_set, All};
ghost use Rattle.std.specs.List.{list_any};
ghost use Rattle.std.specs.List.Sorted.{IsNonDecreasingBy};
ghost use Rattle.msp_class.specs.declared.sizes.TheConstants.{MOST_JOBS};

use msp_instance::{Arc, MOST_JOBS, entering_of};

/// A flag for each job, none set.
fn no_flags() -> [bool; MOST_JOBS]
    ensures { (j : ℕ) → j < MOST_JOBS → slice_index_or result j false ≡ false }
{
    [false; MOST_JOBS]
}

/// Flags a job where there is a reason.
fn flag(flags: &mut [bool], job: u32, reason: bool)
    requires { job < length flags.old }
    ensures { flags.new ≡ slice_set flags.old job (slice_index_or flags.old job false || reason) }
{
    let at = job as usize;
    flags[at] = flags[at] || reason;
}

/// A flag for each job of the list.
pub fn flags_of(jobs: &[u32]) -> [bool; MOST_JOBS]
    requires { All (λ j. j < MOST_JOBS) jobs.now }
    ensures { (j : ℕ) → j < MOST_JOBS → slice_index_or result j false ≡ list_any (λ k. k == j) jobs.now }
{
    let mut flags = no_flags();
    for job in jobs {
        flag(&mut flags, *job, true);
    }
    flags
}

/// A flag for each job from which an arc leads to a flagged job.
pub fn flags_before(arcs: &[Arc], flags: &[bool; MOST_JOBS]) -> [bool; MOST_JOBS]
    requires { All (λ a. (a.before < MOST_JOBS) × (a.after < MOST_JOBS)) arcs.now }
    ensures { (j : ℕ) → j < MOST_JOBS → slice_index_or result j false ≡ list_any (λ a. a.before == j && slice_index_or flags.now a.after false) arcs.now }
{
    let mut before = no_flags();
    for arc in arcs {
        flag(&mut before, arc.before, flags[arc.after as usize]);
    }
    before
}

/// Whether an arc leads to the job from a flagged one, of arcs by their jobs after.
pub fn follows_flagged(sorted: &[Arc], flags: &[bool; MOST_JOBS], job: u32) -> bool
    requires ends { All (λ a. (a.before < MOST_JOBS) × (a.after < MOST_JOBS)) sorted.now }
    requires sorted { IsNonDecreasingBy (λ a. a.after) sorted.now }
    ensures { result ≡ list_any (λ a. a.after == job && slice_index_or flags.now a.before false) sorted.now }
{
    let entering = entering_of(sorted, job);
    for arc in entering {
        if flags[arc.before as usize] {
            return true;
        }
    }
    false
}
