// Jobs that are sorted by a number.
ghost use Rattle.std.specs.Prelude.{◌≡◌, ◌<◌, ◌≤◌, ◌⊎◌, length, map, slice_index_or, All, AllPairs, IfOk, IsPermutation};
ghost use Rattle.std.specs.List.{range_with_len};
ghost use Rattle.std.specs.Ordering.{nat_cmp, ordering_then};
ghost use Rattle.msp_class.specs.declared.sizes.TheConstants.{MOST_JOBS};

use msp_class::NoMemory;
use std::alloc::Global;
use std::cmp::Ordering;

/// A job and the number by which it is sorted.
#[derive(Clone, Copy)]
pub struct Keyed {
    pub job: u32,
    pub key: u64,
}

fn rising(a: &Keyed, b: &Keyed) -> Ordering
    ensures { result ≡ ordering_then (nat_cmp a.now.key b.now.key) (nat_cmp a.now.job b.now.job) }
{
    a.key.cmp(&b.key).then(a.job.cmp(&b.job))
}

fn falling(a: &Keyed, b: &Keyed) -> Ordering
    ensures { result ≡ ordering_then (nat_cmp b.now.key a.now.key) (nat_cmp a.now.job b.now.job) }
{
    b.key.cmp(&a.key).then(a.job.cmp(&b.job))
}

/// Puts the job of the least key first, ties to the lesser job.
fn sort_by_key(jobs: &mut Vec<Keyed>)
    ensures permutation { IsPermutation jobs.old.items jobs.new.items }
    ensures sorted { AllPairs (λ a b. (a.key < b.key) ⊎ ((a.key ≡ b.key) × (a.job ≤ b.job))) jobs.new.items }
{
    jobs.sort_unstable_by(|a, b| rising(a, b));
}

/// Puts the job of the greatest key first, ties to the lesser job.
pub fn sort_by_falling_key(jobs: &mut Vec<Keyed>)
    ensures permutation { IsPermutation jobs.old.items jobs.new.items }
    ensures sorted { AllPairs (λ a b. (b.key < a.key) ⊎ ((b.key ≡ a.key) × (a.job ≤ b.job))) jobs.new.items }
{
    jobs.sort_unstable_by(|a, b| falling(a, b));
}

/// The jobs alone.
pub fn job_numbers(alloc: Global, jobs: &[Keyed]) -> Result<Vec<u32>, NoMemory>
    ensures { IfOk result (λ numbers. numbers.items ≡ map (λ k. k.job) jobs.now) }
{
    Ok(jobs.iter().map(|keyed| keyed.job).collect(alloc)?)
}

/// The jobs with their keys, in order of number.
fn keyed_jobs(alloc: Global, keys: &[u64]) -> Result<Vec<Keyed>, NoMemory>
    requires { length keys.now ≤ MOST_JOBS }
    ensures jobs { IfOk result (λ all. map (λ k. k.job) all.items ≡ range_with_len 0 (length keys.now)) }
    ensures keys { IfOk result (λ all. All (λ k. k.key ≡ slice_index_or keys.now k.job 0) all.items) }
{
    let mut all = Vec::new(alloc);
    for place in 0..keys.len() {
        let job = place as u32;
        let key = keys[place];
        all.push(Keyed { job, key })?;
    }
    Ok(all)
}

/// All jobs by rising key, ties by number. The keys stand in order of the jobs.
pub fn jobs_by_key(alloc: Global, keys: &[u64]) -> Result<Vec<u32>, NoMemory>
    requires { length keys.now ≤ MOST_JOBS }
    ensures all { IfOk result (λ jobs. IsPermutation (range_with_len 0 (length keys.now)) jobs.items) }
    ensures rising { IfOk result
        (λ jobs. AllPairs (λ a b. (slice_index_or keys.now a 0 < slice_index_or keys.now b 0) ⊎ ((slice_index_or keys.now a 0 ≡ slice_index_or keys.now b 0) × (a ≤ b))) jobs.items) }
{
    let mut all = keyed_jobs(alloc, keys)?;
    sort_by_key(&mut all);
    job_numbers(alloc, all.as_slice())
}

/// All jobs by falling key, ties by number. The keys stand in order of the jobs.
pub fn jobs_by_falling_key(alloc: Global, keys: &[u64]) -> Result<Vec<u32>, NoMemory>
    requires { length keys.now ≤ MOST_JOBS }
    ensures all { IfOk result (λ jobs. IsPermutation (range_with_len 0 (length keys.now)) jobs.items) }
    ensures falling { IfOk result
        (λ jobs. AllPairs (λ a b. (slice_index_or keys.now b 0 < slice_index_or keys.now a 0) ⊎ ((slice_index_or keys.now b 0 ≡ slice_index_or keys.now a 0) × (a ≤ b))) jobs.items) }
{
    let mut all = keyed_jobs(alloc, keys)?;
    sort_by_falling_key(&mut all);
    job_numbers(alloc, all.as_slice())
}
