// Jobs by due date.
ghost use Rattle.std.specs.Prelude.{◌≡◌, ◌^◌, ◌≤◌, length, pos, ◌+ℤ◌, AllPairs, IfOk, IsPermutation};
ghost use Rattle.std.specs.List.{range_with_len};
ghost use Rattle.msp_class.specs.declared.sizes.TheConstants.{MOST_JOBS};
ghost use Rattle.msp_route.specs.Dates.{AreDateKeys, IsDueBefore};

use crate::keyed::jobs_by_key;
use msp_class::NoMemory;
use msp_instance::Instance;
use std::alloc::Global;

/// A number that rises with the due date.
fn key_of(due: i64) -> u64
    ensures { pos result ≡ due +ℤ pos (2 ^ 63) }
{
    (i128::from(due) + (1 << 63)) as u64
}

/// The keys of all jobs, in order of number.
fn keys_of(alloc: Global, inst: &Instance) -> Result<Vec<u64>, NoMemory>
    ensures count { IfOk result (λ keys. length keys.items ≡ length inst.now.jobs) }
    ensures each { IfOk result (λ keys. AreDateKeys inst.now keys.items) }
{
    let jobs = inst.jobs.as_slice();
    let mut keys = Vec::new(alloc);
    for k in 0..jobs.len() {
        let key = key_of(jobs[k].due);
        keys.push(key)?;
    }
    Ok(keys)
}

/// All jobs by due date, ties by number.
pub fn jobs_by_date(alloc: Global, inst: &Instance) -> Result<Vec<u32>, NoMemory>
    requires { length inst.now.jobs ≤ MOST_JOBS }
    ensures all { IfOk result (λ order. IsPermutation (range_with_len 0 (length inst.now.jobs)) order.items) }
    ensures sorted { IfOk result (λ order. AllPairs (IsDueBefore inst.now) order.items) }
{
    let keys = keys_of(alloc, inst)?;
    jobs_by_key(alloc, &keys)
}
