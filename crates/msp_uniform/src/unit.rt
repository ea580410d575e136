// Whether the unit that is needed is small enough.
ghost use Rattle.std.specs.Prelude.{◌≡◌, ◌*◌, ◌≤◌, ◌↔◌, length as len, All, IsTrue};
ghost use Rattle.msp_class.specs.declared.sizes.TheConstants.{MOST_MACHINES, GREATEST_SPEED};
ghost use Rattle.msp_instance.specs.Conditions.{HasSmallMultiple};
ghost use Rattle.msp_uniform.specs.Uniform.{gap, sum, HaveSmallUnit};

use msp_class::GREATEST_UNIT;
use msp_instance::multiple_of_all;

/// The greatest product of a sum of speeds, gaps and a common multiple.
const GREATEST_PRODUCT: u128 = GREATEST_UNIT as u128;

/// How much faster the fastest machine is than the slowest, and 1 where all are equally fast.
fn gap_of(speeds: &[u64]) -> u64
    requires speeds { All (λ s. s ≤ GREATEST_SPEED) speeds.now }
    ensures value { result ≡ gap speeds.now }
    ensures small { result ≤ GREATEST_SPEED }
{
    let mut greatest: u64 = 0;
    for speed in speeds {
        greatest = greatest.max(*speed);
    }
    let mut least = greatest;
    for speed in speeds {
        least = least.min(*speed);
    }
    (greatest - least).max(1)
}

fn sum_of(speeds: &[u64]) -> u64
    requires few { len speeds.now ≤ MOST_MACHINES }
    requires speeds { All (λ s. s ≤ GREATEST_SPEED) speeds.now }
    ensures value { result ≡ sum speeds.now }
    ensures small { result ≤ GREATEST_SPEED * MOST_MACHINES }
{
    let mut sum: u64 = 0;
    for speed in speeds {
        sum += *speed;
    }
    sum
}

/// Whether the sum of the speeds, times the gap for each machine but one, times their least common multiple, is at most 10^13.
pub(crate) fn has_small_unit(speeds: &[u64]) -> bool
    requires some { 1 ≤ len speeds.now }
    requires few { len speeds.now ≤ MOST_MACHINES }
    requires speeds { All (λ s. (1 ≤ s) × (s ≤ GREATEST_SPEED)) speeds.now }
    requires small { HasSmallMultiple speeds.now }
    ensures { IsTrue result ↔ HaveSmallUnit speeds.now (len speeds.now) }
{
    let gap = u128::from(gap_of(speeds));
    let mut product = u128::from(sum_of(speeds));
    for _ in 1..speeds.len() {
        product *= gap;
        if product > GREATEST_PRODUCT {
            return false;
        }
    }
    product * u128::from(multiple_of_all(speeds)) <= GREATEST_PRODUCT
}
