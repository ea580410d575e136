// The times of jobs, which an instance on one machine gives in their first operations.
ghost use Rattle.std.specs.Prelude.{◌≡◌, ◌*◌, ◌<◌, ◌≤◌, length, slice_index_or, sum_by, All};
ghost use Rattle.msp_class.specs.declared.sizes.TheConstants.{MOST_JOBS, GREATEST};
ghost use Rattle.msp_instance.specs.Instance.{no_need};
ghost use Rattle.msp_pieces.specs.BackToBack.{time_at};

use msp_instance::{Instance, Job};

/// The time of a job's first operation.
pub fn first_time(job: &Job) -> u64
    requires { 0 < length job.now.needs }
    ensures { result ≡ (slice_index_or job.now.needs 0 no_need).time }
{
    job.needs.as_slice()[0].time
}

/// How long the jobs take one after another.
pub fn total_time(inst: &Instance, jobs: &[u32]) -> u64
    requires few { length jobs.now ≤ MOST_JOBS }
    requires jobs { All (λ j. j < length inst.now.jobs) jobs.now }
    requires needs { All (λ j. (0 < length j.needs) × ((slice_index_or j.needs 0 no_need).time ≤ GREATEST)) inst.now.jobs }
    ensures value { result ≡ sum_by (time_at inst.now) jobs.now }
    ensures size { result ≤ GREATEST * MOST_JOBS }
{
    let all = inst.jobs.as_slice();
    let mut total: u64 = 0;
    for k in 0..jobs.len() {
        total += first_time(&all[jobs[k] as usize]);
    }
    total
}
