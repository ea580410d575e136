// The numbers of jobs.
ghost use Rattle.std.specs.Prelude.{◌≡◌, ◌≤◌, IfOk};
ghost use Rattle.std.specs.List.{range_with_len};
ghost use Rattle.msp_class.specs.declared.sizes.TheConstants.{MOST_JOBS};

use msp_class::NoMemory;
use std::alloc::Global;

/// All jobs, in order of number.
pub fn all_jobs(alloc: Global, count: usize) -> Result<Vec<u32>, NoMemory>
    requires { count ≤ MOST_JOBS }
    ensures { IfOk result (λ all. all.items ≡ range_with_len 0 count) }
{
    let mut all = Vec::new(alloc);
    for job in 0..count as u32 {
        all.push(job)?;
    }
    Ok(all)
}
