// The labels of the jobs.
ghost use Rattle.std.specs.Prelude.{◌≡◌, ◌++◌, ℕ, ◌<◌, ◌≤◌, not, length, filter, slice_index, All, Any, IfOk, OnOk, ◌∷◌, [], if◌then◌else◌};
ghost use Rattle.msp_class.specs.declared.sizes.TheConstants.{MOST_JOBS};
ghost use Rattle.msp_instance.specs.Conditions.{Inner};
ghost use Rattle.msp_instance.specs.Paths.{leads, ShowsPaths};
ghost use Rattle.msp_lexical.specs.Steps.{AreLabels, HasLabels};

use crate::links::{leaving_counts, links_of, release};
use msp_class::NoMemory;
use msp_instance::{Instance, MOST_JOBS, Paths};
use msp_pieces::all_jobs;
use std::alloc::Global;

/// The place of the first job left from which no arc leads to another, by how many lead to one from each job.
fn first_free(counts: &[usize; MOST_JOBS], left: &[u32]) -> usize
    requires inside { All (λ j. j < MOST_JOBS) left.now }
    requires some { Any (λ j. slice_index counts.now j ≡ 0) left.now }
    ensures place { result < length left.now }
    ensures free { slice_index counts.now (slice_index left.now result) ≡ 0 }
    ensures waits { (q : ℕ) → q < result → 0 < slice_index counts.now (slice_index left.now q) }
{
    for place in 0..left.len() {
        if counts[left[place] as usize] == 0 {
            return place;
        }
    }
    unreachable!()
}

/// The jobs left in two parts, each in their order: those that do not lead to a job, and those that do. Each round uses the two lists again.
#[derive(Drop)]
struct Parts {
    stay: Vec<u32>,
    rise: Vec<u32>,
}

/// Puts a job into the one part or the other.
fn put(parts: &mut Parts, job: u32, rises: bool) -> Result<(), NoMemory>
    ensures stay { OnOk result (parts.new.stay.items ≡ (if rises then parts.old.stay.items else parts.old.stay.items ++ job ∷ [])) }
    ensures rise { OnOk result (parts.new.rise.items ≡ (if rises then parts.old.rise.items ++ job ∷ [] else parts.old.rise.items)) }
{
    let pushed = if rises {
        parts.rise.push(job)
    } else {
        parts.stay.push(job)
    };
    pushed?;
    Ok(())
}

/// Parts the jobs left by whether they lead to the job.
fn part(parts: &mut Parts, left: &[u32], paths: &Paths, job: u32) -> Result<(), NoMemory>
    ensures stay { OnOk result (parts.new.stay.items ≡ filter (λ j. not (leads paths.now j job)) left.now) }
    ensures rise { OnOk result (parts.new.rise.items ≡ filter (λ j. leads paths.now j job) left.now) }
{
    parts.stay.clear();
    parts.rise.clear();
    for other in left {
        put(parts, *other, paths.leads(*other, job))?;
    }
    Ok(())
}

/// Puts the jobs left that lead to the job of the greatest label so far after the others, and keeps the order of both.
fn reorder(parts: &mut Parts, left: &mut Vec<u32>, paths: &Paths, job: u32) -> Result<(), NoMemory>
    ensures { OnOk result (left.new.items ≡ filter (λ j. not (leads paths.now j job)) left.old.items ++ filter (λ j. leads paths.now j job) left.old.items) }
{
    part(parts, left.as_slice(), paths, job)?;
    left.clear();
    left.extend_from_slice(parts.stay.as_slice())?;
    left.extend_from_slice(parts.rise.as_slice())?;
    Ok(())
}

fn no_labels() -> [u32; MOST_JOBS]
    ensures whole { length result ≡ MOST_JOBS }
    ensures none { (j : ℕ) → j < MOST_JOBS → slice_index result j ≡ MOST_JOBS }
{
    [MOST_JOBS as u32; MOST_JOBS]
}

/// The labels 0, 1, 2 and so on of the jobs. The next one goes to a job all of whose successors have labels; of such jobs, to the one that
/// leads to the least set of labels, by the greatest label in which two sets differ, ties to the lesser number (Coffman and Graham 1972).
fn labels_by_paths(
    alloc: Global,
    inst: &Instance,
    paths: &Paths,
) -> Result<[u32; MOST_JOBS], NoMemory>
    requires inner { Inner inst.now }
    requires paths { ShowsPaths inst.now paths.now }
    ensures { IfOk result (λ labels. AreLabels inst.now (leads paths.now) (slice_index labels)) }
{
    let arcs = inst.arcs.as_slice();
    let links = links_of(alloc, arcs)?;
    let mut counts = leaving_counts(arcs);
    let mut labels = no_labels();
    let mut left = all_jobs(alloc, inst.jobs.len())?;
    let mut parts = Parts {
        stay: Vec::new(alloc),
        rise: Vec::new(alloc),
    };
    let mut label: u32 = 0;
    while !left.is_empty() {
        let place = first_free(&counts, left.as_slice());
        let job = left.remove(place);
        reorder(&mut parts, &mut left, paths, job)?;
        release(&mut counts, arcs, &links, job);
        labels[job as usize] = label;
        label += 1;
    }
    Ok(labels)
}

/// The labels of the jobs.
pub fn labels_of(alloc: Global, inst: &Instance) -> Result<[u32; MOST_JOBS], NoMemory>
    requires inner { Inner inst.now }
    ensures { IfOk result (λ labels. HasLabels inst.now (slice_index labels)) }
{
    let paths = Paths::of(alloc, inst)?;
    labels_by_paths(alloc, inst, &paths)
}
