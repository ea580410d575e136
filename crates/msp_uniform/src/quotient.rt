// The least end: the greatest of works over speeds.
ghost use Rattle.std.specs.Prelude.{◌≡◌, ◌<◌, ◌≤◌, length as len, sum_by, All};
ghost use Rattle.msp_class.specs.declared.sizes.TheConstants.{MOST_JOBS, GREATEST};
ghost use Rattle.msp_uniform.specs.Segments.{at};
ghost use Rattle.msp_uniform.specs.Quotients.{IsGreater, IsGreatest};

/// A work over a speed.
#[derive(Clone, Copy)]
pub(crate) struct Quotient {
    pub(crate) work: u64,
    pub(crate) speed: u64,
}

/// The first, where the second is not greater.
fn greater(first: Quotient, second: Quotient) -> Quotient
    ensures { IsGreater first.work first.speed second.work second.speed result.work result.speed }
{
    let ahead = u128::from(second.work) * u128::from(first.speed);
    if ahead > u128::from(first.work) * u128::from(second.speed) {
        second
    } else {
        first
    }
}

/// The sum of the values at these places.
fn sum_at(values: &[u64], places: &[u32]) -> u64
    requires few { len places.now ≤ MOST_JOBS }
    requires inside { All (λ p. p < len values.now) places.now }
    requires small { All (λ v. v ≤ GREATEST) values.now }
    ensures { result ≡ sum_by (at values.now) places.now }
{
    let mut sum: u64 = 0;
    for place in places {
        sum += values[*place as usize];
    }
    sum
}

/// The greatest of the work of all jobs over the speed of all machines, and the works of the first k jobs over the speeds of the first k
/// machines, for each k below the number of machines and at most the number of jobs.
pub(crate) fn greatest_quotient(
    times: &[u64],
    speeds: &[u64],
    jobs: &[u32],
    machines: &[u32],
) -> Quotient
    requires few_jobs { len jobs.now ≤ MOST_JOBS }
    requires few_machines { len machines.now ≤ MOST_JOBS }
    requires some { 1 ≤ len machines.now }
    requires jobs { All (λ j. j < len times.now) jobs.now }
    requires machines { All (λ m. m < len speeds.now) machines.now }
    requires times { All (λ p. p ≤ GREATEST) times.now }
    requires speeds { All (λ s. (1 ≤ s) × (s ≤ GREATEST)) speeds.now }
    ensures { IsGreatest (at times.now) (at speeds.now) jobs.now machines.now result.work result.speed }
{
    let mut best = Quotient {
        work: sum_at(times, jobs),
        speed: sum_at(speeds, machines),
    };
    let mut work: u64 = 0;
    let mut speed: u64 = 0;
    for k in 0..jobs.len().min(machines.len() - 1) {
        work += times[jobs[k] as usize];
        speed += speeds[machines[k] as usize];
        best = greater(best, Quotient { work, speed });
    }
    best
}
