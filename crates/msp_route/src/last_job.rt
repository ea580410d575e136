// The job that ends last: of those that no job left must follow the one that costs least at the end.
ghost use Rattle.std.specs.Prelude.{◌≡◌, ◌<◌, ◌⊎◌, false, length, slice_index_or, All, IfSome};
ghost use Rattle.msp_class.specs.declared.sizes.TheConstants.{MOST_JOBS};
ghost use Rattle.msp_instance.specs.Conditions.{Inner};
ghost use Rattle.msp_pieces.specs.Blocks.{cost_at};
ghost use Rattle.msp_route.specs.LastJob.{EndsAt};
ghost use Rattle.msp_route.specs.Candidates.{Precedes, IsFound};

use msp_instance::{Instance, MOST_JOBS};
use msp_pieces::{flags_before, flags_of, job_cost_at};

/// A job that may go last: its place in the list of jobs left, and what it costs there.
#[derive(Clone, Copy)]
struct Candidate {
    place: usize,
    job: u32,
    cost: i128,
}

/// What a job costs that ends at the moment.
fn price(inst: &Instance, job: u32, moment: u64) -> i128
    requires inner { Inner inst.now }
    requires inside { job < length inst.now.jobs }
    ensures { result ≡ cost_at inst.now job moment }
{
    job_cost_at(
        inst.class.crit,
        1,
        &inst.jobs.as_slice()[job as usize],
        i128::from(moment),
    )
}

/// The one of two candidates that goes last: it costs less, or as much and has the lesser number.
fn better(best: Option<Candidate>, next: Candidate) -> Candidate
    ensures either { (result ≡ next) ⊎ (best ≡ Some result) }
    ensures next { Precedes result next.cost next.job }
    ensures best { IfSome best (λ b. Precedes result b.cost b.job) }
{
    match best {
        Some(best) if (best.cost, best.job) <= (next.cost, next.job) => best,
        _ => next,
    }
}

/// Of the jobs that are not blocked the one that costs least at the moment, ties to the lesser number.
fn least_of(
    inst: &Instance,
    jobs: &[u32],
    blocked: &[bool; MOST_JOBS],
    moment: u64,
) -> Option<Candidate>
    requires inner { Inner inst.now }
    requires inside { All (λ j. j < length inst.now.jobs) jobs.now }
    ensures { IsFound jobs.now (λ j. slice_index_or blocked.now j false) (λ j. cost_at inst.now j moment) (length jobs.now) result }
{
    let mut best = None;
    for place in 0..jobs.len() {
        let job = jobs[place];
        if !blocked[job as usize] {
            let cost = price(inst, job, moment);
            best = Some(better(best, Candidate { place, job, cost }));
        }
    }
    best
}

/// The place of the job that ends last of those left, where they are done at the moment: of those that no other one must follow the one
/// that costs least.
pub fn last_place(inst: &Instance, left: &[u32], moment: u64) -> usize
    requires inner { Inner inst.now }
    requires some { 0 < length left.now }
    requires inside { All (λ j. j < length inst.now.jobs) left.now }
    ensures place { result < length left.now }
    ensures last { EndsAt inst.now moment left.now (slice_index_or left.now result 0) }
{
    let is_left = flags_of(left);
    let blocked = flags_before(inst.arcs.as_slice(), &is_left);
    match least_of(inst, left, &blocked, moment) {
        Some(last) => last.place,
        None => unreachable!(),
    }
}
