// The table: for each total time the greatest weight that is on time, and which jobs gave it.
ghost use Rattle.std.specs.Prelude.{◌≡◌, ◌≢◌, ℕ, ◌+◌, ◌-◌, ◌*◌, ◌/◌, ◌<◌, ◌≤◌, true, false, length, pos, ◌≤ℤ◌, ◌<ℤ◌, slice_index, slice_index_or, All, IfOk};
ghost use Rattle.msp_class.specs.declared.sizes.TheConstants.{MOST_JOBS, GREATEST};
ghost use Rattle.msp_instance.specs.Instance.{no_need};
ghost use Rattle.msp_weighted.specs.Values.{is_flagged, first_value, AreReached, IsPut, IsFilled};
ghost use Rattle.msp_weighted.specs.Steps.{is_gain, value_at, IsPutFrom, IsTableOf};

use crate::bits::{is_set, set_bit};
use msp_class::NoMemory;
use msp_instance::{Instance, Job};
use msp_route::first_time;
use std::alloc::Global;

/// For each total time the value of the jobs, and for each job and each total time a bit that says whether the job gave the value.
#[derive(Drop)]
pub(crate) struct Table {
    pub(crate) values: Vec<u64>,
    pub(crate) flags: Vec<u64>,
}

/// A job as it is put into the table: its time, its weight, and where its row of flags begins.
#[derive(Clone, Copy)]
struct Entry {
    time: usize,
    weight: u64,
    row: usize,
}

/// Raises the value at a moment where a job that ends there gives a greater one; whether it does.
fn improve(values: &mut [u64], time: usize, weight: u64, moment: usize) -> bool
    requires begins { time ≤ moment }
    requires inside { moment < length values.old }
    requires small { slice_index values.old (moment - time) ≤ GREATEST * MOST_JOBS }
    requires light { weight ≤ GREATEST }
    ensures better { result ≡ is_gain values.old time weight moment }
    ensures value { slice_index values.new moment ≡ value_at values.old time weight moment result }
    ensures others { (t : ℕ) → t ≢ moment → slice_index values.new t ≡ slice_index values.old t }
{
    let before = values[moment - time];
    if before > 0 && before + weight > values[moment] {
        values[moment] = before + weight;
        return true;
    }
    false
}

/// The same, and flags where it does: one for the job, and one for the block of moments.
fn put_at(values: &mut [u64], flags: &mut [u64], reached: &mut [u64], entry: Entry, moment: usize)
    requires begins { entry.time ≤ moment }
    requires inside { moment < length values.old }
    requires small { slice_index values.old (moment - entry.time) ≤ GREATEST * MOST_JOBS }
    requires light { entry.weight ≤ GREATEST }
    requires row { entry.row ≤ GREATEST * MOST_JOBS }
    requires room { (entry.row + moment) / 64 < length flags.old }
    requires clear { is_flagged flags.old (entry.row + moment) ≡ false }
    requires blocks { length values.old ≤ 4096 * length reached.old }
    requires reached { AreReached (length values.old) values.old reached.old }
    ensures value { slice_index values.new moment ≡ value_at values.old entry.time entry.weight moment (is_gain values.old entry.time entry.weight moment) }
    ensures others { (t : ℕ) → t ≢ moment → slice_index values.new t ≡ slice_index values.old t }
    ensures flag { is_flagged flags.new (entry.row + moment) ≡ is_gain values.old entry.time entry.weight moment }
    ensures kept { (m : ℕ) → m ≢ entry.row + moment → is_flagged flags.new m ≡ is_flagged flags.old m }
    ensures reached { AreReached (length values.old) values.new reached.new }
{
    if improve(values, entry.time, entry.weight, moment) {
        set_bit(flags, entry.row + moment);
        set_bit(reached, moment / 64);
    }
}

/// Puts a job at moments from the last one to the first, so that it counts once.
fn put_range(
    values: &mut [u64],
    flags: &mut [u64],
    reached: &mut [u64],
    entry: Entry,
    first: usize,
    end: usize,
)
    requires time { 0 < entry.time }
    requires begins { entry.time ≤ first }
    requires some { first ≤ end }
    requires inside { end ≤ length values.old }
    requires small { (t : ℕ) → t < end → slice_index values.old t ≤ GREATEST * MOST_JOBS }
    requires light { entry.weight ≤ GREATEST }
    requires row { entry.row ≤ GREATEST * MOST_JOBS }
    requires room { entry.row + end ≤ 64 * length flags.old }
    requires clear { (m : ℕ) → entry.row + first ≤ m → m < entry.row + end → is_flagged flags.old m ≡ false }
    requires blocks { length values.old ≤ 4096 * length reached.old }
    requires reached { AreReached (length values.old) values.old reached.old }
    ensures put { IsPutFrom entry first end values.old flags.old values.new flags.new }
    ensures reached { AreReached (length values.old) values.new reached.new }
{
    let mut moment = end;
    while moment > first {
        moment -= 1;
        put_at(values, flags, reached, entry, moment);
    }
}

/// Puts a job at the moments before `end` that it reaches from a block, where any value of the block is reached.
fn put_block(
    values: &mut [u64],
    flags: &mut [u64],
    reached: &mut [u64],
    entry: Entry,
    block: usize,
    end: usize,
)
    requires time { 0 < entry.time }
    requires block { end ≤ block * 64 + 64 + entry.time }
    requires inside { end ≤ length values.old }
    requires some { block * 64 + entry.time < end }
    requires small { (t : ℕ) → t < end → slice_index values.old t ≤ GREATEST * MOST_JOBS }
    requires light { entry.weight ≤ GREATEST }
    requires row { entry.row ≤ GREATEST * MOST_JOBS }
    requires room { entry.row + end ≤ 64 * length flags.old }
    requires clear { (m : ℕ) → entry.row ≤ m → m < entry.row + end → is_flagged flags.old m ≡ false }
    requires blocks { length values.old ≤ 4096 * length reached.old }
    requires reached { AreReached (length values.old) values.old reached.old }
    ensures put { IsPutFrom entry (block * 64 + entry.time) end values.old flags.old values.new flags.new }
    ensures reached { AreReached (length values.old) values.new reached.new }
{
    if is_set(reached, block) {
        put_range(values, flags, reached, entry, block * 64 + entry.time, end);
    }
}

/// How many moments from 0 on are no later than a due date, of so many.
fn moments_by(due: i64, width: usize) -> usize
    ensures inside { result ≤ width }
    ensures early { (t : ℕ) → t < result → pos t ≤ℤ due }
    ensures late { (t : ℕ) → result ≤ t → t < width → due <ℤ pos t }
{
    if due < 0 {
        return 0;
    }
    width.min(due as usize + 1)
}

/// Puts a job into the values, from its latest end to its earliest, block by block; and flags its row of bits.
fn put_job(values: &mut [u64], flags: &mut [u64], reached: &mut [u64], entry: Entry, due: i64)
    requires time { 0 < entry.time }
    requires small { (t : ℕ) → t < length values.old → slice_index values.old t ≤ GREATEST * MOST_JOBS }
    requires width { length values.old ≤ GREATEST }
    requires light { entry.weight ≤ GREATEST }
    requires row { entry.row ≤ GREATEST * MOST_JOBS }
    requires room { entry.row + length values.old ≤ 64 * length flags.old }
    requires clear { (m : ℕ) → entry.row ≤ m → is_flagged flags.old m ≡ false }
    requires blocks { length values.old ≤ 4096 * length reached.old }
    requires reached { AreReached (length values.old) values.old reached.old }
    ensures put { IsPut entry.time entry.weight due entry.row (length values.old) values.old flags.old values.new flags.new }
    ensures reached { AreReached (length values.old) values.new reached.new }
{
    let mut end = moments_by(due, values.len());
    while end > entry.time {
        let block = (end - 1 - entry.time) / 64;
        put_block(values, flags, reached, entry, block, end);
        end = block * 64 + entry.time;
    }
}

/// Puts the jobs into the values, one after another.
fn put_jobs(
    inst: &Instance,
    order: &[u32],
    values: &mut [u64],
    flags: &mut [u64],
    reached: &mut [u64],
)
    requires few { length order.now ≤ MOST_JOBS }
    requires jobs { All (λ j. j < length inst.now.jobs) order.now }
    requires needs { All (λ j. (0 < length j.needs) × (0 < (slice_index_or j.needs 0 no_need).time)) inst.now.jobs }
    requires light { All (λ j. j.weight ≤ GREATEST) inst.now.jobs }
    requires width { length values.old ≤ GREATEST }
    requires room { length order.now * length values.old ≤ 64 * length flags.old }
    requires start { (t : ℕ) → t < length values.old → slice_index values.old t ≡ first_value t }
    requires clear { (m : ℕ) → is_flagged flags.old m ≡ false }
    requires blocks { length values.old ≤ 4096 * length reached.old }
    requires reached { AreReached (length values.old) values.old reached.old }
    ensures { IsFilled inst.now order.now (length values.old) (length order.now) values.new flags.new }
{
    let jobs = inst.jobs.as_slice();
    let width = values.len();
    for k in 0..order.len() {
        let job = &jobs[order[k] as usize];
        let entry = Entry {
            time: first_time(job) as usize,
            weight: job.weight,
            row: k * width,
        };
        put_job(values, flags, reached, entry, job.due);
    }
}

/// So many zeros.
fn zeros(alloc: Global, count: usize) -> Result<Vec<u64>, NoMemory>
    ensures count { IfOk result (λ words. length words.items ≡ count) }
    ensures zero { IfOk result (λ words. (k : ℕ) → slice_index words.items k ≡ 0) }
{
    Ok(vec![in alloc; 0; count]?)
}

/// The values where there are no jobs: 1 for the time 0, and 0 for the others.
fn first_values(alloc: Global, width: usize) -> Result<Vec<u64>, NoMemory>
    requires { 0 < width }
    ensures width { IfOk result (λ values. length values.items ≡ width) }
    ensures first { IfOk result (λ values. (t : ℕ) → slice_index values.items t ≡ first_value t) }
{
    let mut values = zeros(alloc, width)?;
    values[0] = 1;
    Ok(values)
}

/// The blocks of 64 moments that are reached where there are no jobs: the first one.
fn first_blocks(alloc: Global, width: usize) -> Result<Vec<u64>, NoMemory>
    ensures room { IfOk result (λ reached. width ≤ 4096 * length reached.items) }
    ensures first { IfOk result (λ reached. is_flagged reached.items 0 ≡ true) }
{
    let mut reached = zeros(alloc, width / 4096 + 1)?;
    set_bit(&mut reached, 0);
    Ok(reached)
}

/// The table of the jobs in an order, for total times up to that of all jobs.
pub(crate) fn table_of(
    alloc: Global,
    inst: &Instance,
    order: &[u32],
    total: u64,
) -> Result<Table, NoMemory>
    requires few { length order.now ≤ MOST_JOBS }
    requires jobs { All (λ j. j < length inst.now.jobs) order.now }
    requires needs { All (λ j. (0 < length j.needs) × (0 < (slice_index_or j.needs 0 no_need).time)) inst.now.jobs }
    requires light { All (λ j. j.weight ≤ GREATEST) inst.now.jobs }
    requires short { total < GREATEST }
    ensures width { IfOk result (λ t. length t.values.items ≡ total + 1) }
    ensures room { IfOk result (λ t. length order.now * (total + 1) ≤ 64 * length t.flags.items) }
    ensures filled { IfOk result (IsTableOf inst.now order.now (total + 1)) }
{
    let width = total as usize + 1;
    let mut values = first_values(alloc, width)?;
    let mut flags = zeros(alloc, order.len() * width / 64 + 1)?;
    let mut reached = first_blocks(alloc, width)?;
    put_jobs(inst, order, &mut values, &mut flags, &mut reached);
    Ok(Table { values, flags })
}

/// The moment of the greatest value.
pub(crate) fn best_moment(values: &[u64]) -> usize
    requires { 0 < length values.now }
    ensures inside { result < length values.now }
    ensures best { (t : ℕ) → t < length values.now → slice_index values.now t ≤ slice_index values.now result }
{
    let mut best = 0;
    for moment in 0..values.len() {
        if values[moment] > values[best] {
            best = moment;
        }
    }
    best
}
