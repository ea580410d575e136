// The arcs that enter each job, and how many leave it.
ghost use Rattle.std.specs.Prelude.{◌≡◌, ◌+◌, ◌<◌, ◌≤◌, ℕ, length, slice_index, All, IfOk};
ghost use Rattle.msp_class.specs.declared.sizes.TheConstants.{MOST_JOBS};
ghost use Rattle.msp_instance.specs.Conditions.{leaving};
ghost use Rattle.msp_lexical.specs.Counts.{arcs_between, AreLinks};

use msp_class::NoMemory;
use msp_instance::{Arc, MOST_JOBS};
use std::alloc::Global;

/// The arcs that enter each job, linked from the last to the first: for each job the number of the last one, and for each arc that of the
/// last one before it that enters the same job. Arcs are numbered from 1, and 0 is none.
#[derive(Drop)]
pub struct Links {
    last: [usize; MOST_JOBS],
    earlier: Vec<usize>,
}

/// Links the arcs.
pub fn links_of(alloc: Global, arcs: &[Arc]) -> Result<Links, NoMemory>
    requires { All (λ a. a.after < MOST_JOBS) arcs.now }
    ensures { IfOk result (λ links. AreLinks arcs.now (length arcs.now) links.last links.earlier.items) }
{
    let mut last = [0; MOST_JOBS];
    let mut earlier = Vec::with_capacity(alloc, arcs.len())?;
    for place in 0..arcs.len() {
        let job = arcs[place].after as usize;
        earlier.push(last[job])?;
        last[job] = place + 1;
    }
    Ok(Links { last, earlier })
}

/// How many arcs leave each job.
pub fn leaving_counts(arcs: &[Arc]) -> [usize; MOST_JOBS]
    requires { All (λ a. a.before < MOST_JOBS) arcs.now }
    ensures { (j : ℕ) → j < MOST_JOBS → slice_index result j ≡ leaving arcs.now j }
{
    let mut counts = [0; MOST_JOBS];
    for arc in arcs {
        counts[arc.before as usize] += 1;
    }
    counts
}

/// Takes the arcs that enter a job from the counts of the jobs that they leave.
pub fn release(counts: &mut [usize; MOST_JOBS], arcs: &[Arc], links: &Links, job: u32)
    requires ends { All (λ a. a.before < MOST_JOBS) arcs.now }
    requires links { AreLinks arcs.now (length arcs.now) links.now.last links.now.earlier.items }
    requires job { job < MOST_JOBS }
    requires counted { (j : ℕ) → j < MOST_JOBS → arcs_between arcs.now j job ≤ slice_index counts.old j }
    ensures { (j : ℕ) → j < MOST_JOBS → slice_index counts.new j + arcs_between arcs.now j job ≡ slice_index counts.old j }
{
    let mut number = links.last[job as usize];
    while number > 0 {
        let at = arcs[number - 1].before as usize;
        counts[at] -= 1;
        number = links.earlier[number - 1];
    }
}
