// Jobs by falling time, and machines by falling speed.
ghost use Rattle.std.specs.Prelude.{◌≤◌, length as len, IfOk};
ghost use Rattle.msp_class.specs.declared.sizes.TheConstants.{MOST_JOBS};
ghost use Rattle.msp_uniform.specs.Uniform.{IsByFalling};
ghost use Rattle.msp_uniform.specs.Segments.{at};

use msp_class::NoMemory;
use msp_route::jobs_by_falling_key;
use std::alloc::Global;

/// The places of the values, the greatest value first.
pub(crate) fn by_falling(alloc: Global, values: &[u64]) -> Result<Vec<u32>, NoMemory>
    requires { len values.now ≤ MOST_JOBS }
    ensures { IfOk result (λ order. IsByFalling (len values.now) (at values.now) order.items) }
{
    jobs_by_falling_key(alloc, values)
}
