// Prices to begin from, where columns are moments: by a backward pass.
//
// Rule: from the last moment to the first, of the jobs that are left and may end there, one that is not late is taken, of these the one
// due last; where all are late, the one of least weight. Between two moments prices differ by the time between them, as often as the
// weight of the job that is taken at the later one says, if it is late there.
//
// Where all jobs are late everywhere and may end anywhere, weights are taken in order, the least one at the last moment (Smith 1956), and
// these prices prove it: from each moment to the next, what a row costs less the price rises by the time between them, as often as its
// weight is above that of the job which is taken there. So it falls up to the row's own moment, and rises from there. Else prices are
// advice.
ghost use Rattle.std.specs.Prelude.{◌<◌, ◌≤◌, IfOk, length};
ghost use Rattle.msp_assign.specs.Prices.{greatest_fall, AreFalls};

use msp_class::NoMemory;
use std::alloc::Global;

/// A job whose cost rises by its weight with each unit of time past its due date.
#[derive(Clone, Copy)]
pub struct Dated {
    pub weight: u64,
    pub due: i128,
    /// The earliest end that it may have.
    pub earliest: i128,
}

/// The most that a price is below 0.
const MOST_FALL: u128 = 1 << 100;

/// Whether the job is rather taken at the end than the other one.
fn goes_rather(job: &Dated, other: &Dated, end: &i128) -> bool {
    let fits = job.earliest <= *end;
    if fits != (other.earliest <= *end) {
        return fits;
    }
    let late = job.due < *end;
    if late != (other.due < *end) {
        return !late;
    }
    if late {
        return job.weight < other.weight;
    }
    other.due < job.due
}

/// The place of the job that is taken at the end.
fn last_of(left: &[Dated], end: &i128) -> usize
    requires { 0 < length left.now }
    ensures { result < length left.now }
{
    let mut last = 0;
    for k in 1..left.len() {
        if goes_rather(&left[k], &left[last], end) {
            last = k;
        }
    }
    last
}

/// What the job that is taken at the end costs less for each unit of time before it.
fn rate_at(left: &mut Vec<Dated>, end: &i128) -> u64 {
    if left.is_empty() {
        return 0;
    }
    let last = last_of(left.as_slice(), end);
    let job = left.swap_remove(last);
    if *end < job.earliest || *end <= job.due {
        return 0;
    }
    job.weight
}

/// How far the price is below 0 that is lower than another by the rate, as often as there is time between two ends.
fn lower(fall: u128, rate: u64, before: &i128, end: &i128) -> u128
    ensures { result ≤ greatest_fall }
{
    let gap = end.saturating_sub(*before).unsigned_abs();
    let more = u128::from(rate).saturating_mul(gap);
    fall.saturating_add(more).min(MOST_FALL)
}

/// How far below 0 the prices of columns begin well at which jobs end, for `assign_from`: the ends of the columns in order, and the jobs
/// of the rows in any. They are advice: whatever ends and jobs are given, there is a price for each column, at most 2^100 below 0.
pub fn falls_backward(alloc: Global, ends: &[i128], jobs: &[Dated]) -> Result<Vec<u128>, NoMemory>
    ensures { IfOk result (λ falls. AreFalls (length ends.now) falls.items) }
{
    let mut left = jobs.to_vec(alloc)?;
    let mut falls = vec![in alloc; 0; ends.len()]?;
    for back in 1..ends.len() {
        let k = ends.len() - back;
        let rate = rate_at(&mut left, &ends[k]);
        falls[k - 1] = lower(falls[k], rate, &ends[k - 1], &ends[k]);
    }
    Ok(falls)
}
