// How long the operations on a machine take together, and those of a job.
ghost use Rattle.std.specs.Prelude.{◌≡◌, ◌*◌, ◌≤◌, length, sum_by, All};
ghost use Rattle.msp_class.specs.declared.sizes.TheConstants.{MOST_JOBS, MOST_OPERATIONS, GREATEST};
ghost use Rattle.msp_cert.specs.Small.{HasSmallNeeds, time_there};

use msp_instance::{Job, Need};

/// How long the operation takes on the machine.
fn time_there(need: &Need, machine: u32) -> u64
    ensures { result ≡ time_there machine need.now }
{
    if need.machine == machine {
        need.time
    } else {
        0
    }
}

/// How long the operations take on the machine together.
fn time_on(needs: &[Need], machine: u32) -> u64
    requires few { length needs.now ≤ MOST_OPERATIONS }
    requires short { All (λ n. n.time ≤ GREATEST) needs.now }
    ensures value { result ≡ sum_by (time_there machine) needs.now }
    ensures size { result ≤ GREATEST * MOST_OPERATIONS }
{
    let mut total: u64 = 0;
    for k in 0..needs.len() {
        total += time_there(&needs[k], machine);
    }
    total
}

/// How long all operations on the machine take together.
pub(crate) fn load_on(jobs: &[Job], machine: u32) -> u64
    requires few { length jobs.now ≤ MOST_JOBS }
    requires small { All HasSmallNeeds jobs.now }
    ensures value { result ≡ sum_by (λ j. sum_by (time_there machine) j.needs) jobs.now }
    ensures size { result ≤ GREATEST * MOST_OPERATIONS * MOST_JOBS }
{
    let mut total: u64 = 0;
    for k in 0..jobs.len() {
        total += time_on(jobs[k].needs.as_slice(), machine);
    }
    total
}

/// How long the operations take together.
pub(crate) fn time_of_all(needs: &[Need]) -> u64
    requires few { length needs.now ≤ MOST_OPERATIONS }
    requires short { All (λ n. n.time ≤ GREATEST) needs.now }
    ensures value { result ≡ sum_by (λ n. n.time) needs.now }
    ensures size { result ≤ GREATEST * MOST_OPERATIONS }
{
    let mut total: u64 = 0;
    for k in 0..needs.len() {
        total += needs[k].time;
    }
    total
}
