// Prices of jobs and positions on unrelated machines.
ghost use Rattle.std.specs.Prelude.{◌≡◌, ◌↔◌, ◌+◌, ◌*◌, ◌≤◌, pos, ◌≤ℤ◌, length, All, IsTrue, IfSome};
ghost use Rattle.msp_class.specs.declared.sizes.TheConstants.{MOST_JOBS, MOST_OPERATIONS, GREATEST};
ghost use Rattle.msp_instance.specs.Conditions.{InClass, LiesWithin};
ghost use Rattle.msp_pieces.specs.Feasible.{total};
ghost use Rattle.msp_pieces.specs.Fraction.{IsComparable};
ghost use Rattle.msp_cert.specs.declared.Proof.TheVariants.{Prices};
ghost use Rattle.msp_cert.specs.declared.limits.TheConstants.{GREATEST_PRICE, MOST_ENTRIES};
ghost use Rattle.msp_cert.specs.Certificates.{IsPriced};
ghost use Rattle.msp_cert.specs.Fair.{IsFairOn, IsFair, AreFair, HasPricedShape};
ghost use Rattle.msp_cert.specs.Worth.{IsWorth};

use crate::worth::whole;
use msp_class::{Crit, EnvKind, env_kind};
use msp_instance::{Instance, Need};
use msp_pieces::Frac;

/// Whether no price is above 0.
fn are_low(prices: &[i128]) -> bool
    ensures { IsTrue result ↔ All (λ p. p ≤ℤ pos 0) prices.now }
{
    prices.iter().all(|price| *price <= 0)
}

/// Whether the price of the job and of each position on a machine are together at most what the job costs there. The machine's positions
/// are so many of the column from the start on.
fn is_fair_on(price: i128, column: &[i128], start: usize, count: usize, time: u64) -> bool
    requires price { LiesWithin GREATEST_PRICE price }
    requires column { All (LiesWithin GREATEST_PRICE) column.now }
    requires few { count ≤ MOST_JOBS }
    requires inside { start + count ≤ length column.now }
    requires time { time ≤ GREATEST }
    ensures { IsTrue result ↔ IsFairOn price column.now start count time }
{
    for k in 0..count {
        let owed = (k as u64 + 1) * time;
        if price + column[start + k] > i128::from(owed) {
            return false;
        }
    }
    true
}

/// The same for each machine. So many positions stand for each.
fn is_fair(price: i128, column: &[i128], count: usize, needs: &[Need]) -> bool
    requires price { LiesWithin GREATEST_PRICE price }
    requires column { All (LiesWithin GREATEST_PRICE) column.now }
    requires few { count ≤ MOST_JOBS }
    requires machines { length needs.now ≤ MOST_OPERATIONS }
    requires long { length column.now ≡ count * length needs.now }
    requires times { All (λ n. n.time ≤ GREATEST) needs.now }
    ensures { IsTrue result ↔ IsFair price column.now count needs.now }
{
    for machine in 0..needs.len() {
        if !is_fair_on(price, column, machine * count, count, needs[machine].time) {
            return false;
        }
    }
    true
}

/// The same for each job.
fn are_fair(inst: &Instance, row: &[i128], column: &[i128]) -> bool
    requires class { InClass inst.now }
    requires shape { HasPricedShape inst.now row.now column.now }
    requires row { All (LiesWithin GREATEST_PRICE) row.now }
    requires column { All (LiesWithin GREATEST_PRICE) column.now }
    ensures { IsTrue result ↔ AreFair inst.now row.now column.now }
{
    let jobs = inst.jobs.as_slice();
    for job in 0..jobs.len() {
        if !is_fair(row[job], column, jobs.len(), jobs[job].needs.as_slice()) {
            return false;
        }
    }
    true
}

/// Whether the sum of completion times on unrelated machines is asked for, with a price for each job and each position.
fn has_priced_shape(inst: &Instance, row: &[i128], column: &[i128]) -> bool
    requires { InClass inst.now }
    ensures { IsTrue result ↔ HasPricedShape inst.now row.now column.now }
{
    inst.class.crit == Crit::SumC
        && env_kind(inst.class.env) == EnvKind::Unrelated
        && !inst.class.cut
        && row.len() == inst.jobs.len()
        && column.len() == inst.jobs.len() * inst.machines as usize
}

/// Whether the prices are evidence.
fn are_prices(inst: &Instance, row: &[i128], column: &[i128]) -> bool
    requires class { InClass inst.now }
    requires row { All (LiesWithin GREATEST_PRICE) row.now }
    requires column { All (LiesWithin GREATEST_PRICE) column.now }
    ensures { IsTrue result ↔ IsPriced inst.now row.now column.now }
{
    if !has_priced_shape(inst, row, column) {
        return false;
    }
    if !are_low(column) {
        return false;
    }
    are_fair(inst, row, column)
}

/// All prices together.
fn sum_of(prices: &[i128]) -> i128
    requires few { length prices.now ≤ MOST_ENTRIES }
    requires small { All (LiesWithin GREATEST_PRICE) prices.now }
    ensures value { result ≡ total prices.now }
    ensures size { LiesWithin (GREATEST_PRICE * MOST_ENTRIES) result }
{
    let mut sum: i128 = 0;
    for k in 0..prices.len() {
        sum += prices[k];
    }
    sum
}

/// What the prices are worth.
pub(crate) fn prices_worth(inst: &Instance, row: &[i128], column: &[i128]) -> Option<Frac>
    requires class { InClass inst.now }
    requires rows { length row.now ≤ MOST_ENTRIES }
    requires columns { length column.now ≤ MOST_ENTRIES }
    requires row { All (LiesWithin GREATEST_PRICE) row.now }
    requires column { All (LiesWithin GREATEST_PRICE) column.now }
    ensures worth { IsWorth inst.now (Prices row.now column.now) result }
    ensures small { IfSome result IsComparable }
{
    if !are_prices(inst, row, column) {
        return None;
    }
    Some(whole(sum_of(row) + sum_of(column)))
}
