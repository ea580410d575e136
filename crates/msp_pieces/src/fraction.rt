// Fractions in lowest terms.
ghost use Rattle.std.specs.Prelude.{◌≡◌, ◌/◌, ◌<◌, pos, neg_ℤ, ◌*ℤ◌, ◌≤ℤ◌, ◌<ℤ◌};
ghost use Rattle.std.specs.Ordering.{int_cmp};
ghost use Rattle.msp_pieces.specs.Fraction.{IsComparable, IsLowest, IsSameFraction};
ghost use Rattle.msp_pieces.specs.Within.{i128_limit};

use crate::Frac;
use crate::job_cost::product;
use msp_instance::gcd;
use std::cmp::Ordering;

/// The number of this size with the sign of `like`.
fn with_sign(size: u128, like: i128) -> i128
    requires { size < i128_limit }
    ensures positive { pos 0 ≤ℤ like → result ≡ pos size }
    ensures negative { like <ℤ pos 0 → result ≡ neg_ℤ (pos size) }
{
    let value = size as i128;
    if like < 0 { -value } else { value }
}

pub(crate) fn quotient(whole: u128, divisor: u128) -> i128
    requires small { whole < i128_limit }
    requires some { 0 < divisor }
    ensures { result ≡ pos (whole / divisor) }
{
    (whole / divisor) as i128
}

/// The same fraction in lowest terms.
pub fn lowest(f: Frac) -> Frac
    requires { neg_ℤ (pos i128_limit) <ℤ f.num }
    ensures same { IsSameFraction f result }
    ensures lowest { IsLowest result }
{
    let size = f.num.unsigned_abs();
    let whole = f.den.unsigned_abs();
    let divisor = gcd(size, whole);
    Frac {
        num: with_sign(size / divisor, f.num),
        den: quotient(whole, divisor),
    }
}

/// The order of two fractions. A product of a numerator of one and the denominator of the other fits a signed number of 128 bits.
pub fn compare(a: Frac, b: Frac) -> Ordering
    requires a { IsComparable a }
    requires b { IsComparable b }
    ensures { result ≡ int_cmp (a.num *ℤ b.den) (b.num *ℤ a.den) }
{
    product(a.num, b.den).cmp(&product(b.num, a.den))
}
