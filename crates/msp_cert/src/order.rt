// The jobs by falling time.
ghost use Rattle.std.specs.Prelude.{◌≡◌, ◌≢◌, ◌<◌, ◌≤◌, ◌⊎◌, length, AllPairs, IfOk, IsPermutation};
ghost use Rattle.std.specs.Ordering.{nat_cmp, ordering_then};
ghost use Rattle.msp_class.specs.declared.sizes.TheConstants.{MOST_JOBS};
ghost use Rattle.msp_instance.specs.Instance.{need_at};
ghost use Rattle.msp_cert.specs.Search.{AreLongestFirst};

use crate::block::time_of;
use msp_class::NoMemory;
use msp_instance::Instance;
use msp_pieces::all_jobs;
use std::alloc::Global;
use std::cmp::Ordering;

/// Which of two jobs stands first: the longer one, and of two that take as long the lesser one.
fn longer_first(inst: &Instance, a: u32, b: u32) -> Ordering
    ensures { result ≡ ordering_then (nat_cmp (need_at inst.now b 0).time (need_at inst.now a 0).time) (nat_cmp a b) }
{
    time_of(inst, b).cmp(&time_of(inst, a)).then(a.cmp(&b))
}

/// Puts the longest job first, ties to the lesser one.
fn sort_by_time(inst: &Instance, jobs: &mut Vec<u32>)
    requires { AllPairs (λ j k. j ≢ k) jobs.old.items }
    ensures permutation { IsPermutation jobs.old.items jobs.new.items }
    ensures falls { AllPairs (λ j k. ((need_at inst.now k 0).time < (need_at inst.now j 0).time) ⊎ (((need_at inst.now k 0).time ≡ (need_at inst.now j 0).time) × (j < k))) jobs.new.items }
{
    jobs.sort_unstable_by(|a, b| longer_first(inst, *a, *b));
}

/// All jobs, the longest first, ties to the lesser one.
pub(crate) fn longest_first(alloc: Global, inst: &Instance) -> Result<Vec<u32>, NoMemory>
    requires { length inst.now.jobs ≤ MOST_JOBS }
    ensures { IfOk result (λ jobs. AreLongestFirst inst.now jobs.items) }
{
    let mut jobs = all_jobs(alloc, inst.jobs.len())?;
    sort_by_time(inst, &mut jobs);
    Ok(jobs)
}
