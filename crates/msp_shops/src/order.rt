// Johnson's order of jobs with times on two machines.
ghost use Rattle.std.specs.Prelude.{◌≡◌, AllPairs, OnOk, IsPermutation};
ghost use Rattle.std.specs.List.Sorted.{IsStable};
ghost use Rattle.msp_shops.specs.Order.{GoesBefore, compared};

use crate::pass::JobTimes;
use msp_class::NoMemory;
use std::cmp::Ordering;

/// Whether `a` goes before `b`: the jobs that take no longer on the first machine come first, by increasing time there; then the
/// others, by decreasing time on the second machine.
fn compare(a: &JobTimes, b: &JobTimes) -> Ordering
    ensures { result ≡ compared a.now.first a.now.second b.now.first b.now.second }
{
    if a.first <= a.second {
        if b.first <= b.second {
            a.first.cmp(&b.first)
        } else {
            Ordering::Less
        }
    } else if b.first <= b.second {
        Ordering::Greater
    } else {
        b.second.cmp(&a.second)
    }
}

/// Puts the jobs into Johnson's order; where the rule does not decide they stay as they are.
pub fn put_in_order(jobs: &mut Vec<JobTimes>) -> Result<(), NoMemory>
    ensures permutation { OnOk result (IsPermutation jobs.old.items jobs.new.items) }
    ensures sorted { OnOk result (AllPairs (GoesBefore (λ t. t.first) (λ t. t.second)) jobs.new.items) }
    ensures stable { OnOk result (IsStable (λ s t. compared s.first s.second t.first t.second) jobs.old.items jobs.new.items) }
{
    jobs.sort_by(|a, b| compare(a, b))?;
    Ok(())
}
