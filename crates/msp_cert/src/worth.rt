// What a proof is worth: its value where its evidence holds.
ghost use Rattle.std.specs.Prelude.{◌≡◌, ◌↔◌, ◌≤◌, ◌<◌, pos, ◌*ℤ◌, ◌≤ℤ◌, IsTrue, IfSome};
ghost use Rattle.msp_instance.specs.declared.Instance.{Instance};
ghost use Rattle.msp_instance.specs.Conditions.{LiesWithin};
ghost use Rattle.msp_pieces.specs.declared.limits.TheConstants.{GREATEST_COMPARED_DENOMINATOR};
ghost use Rattle.msp_pieces.specs.Fraction.{IsComparable, IsSameFraction};
ghost use Rattle.msp_cert.specs.declared.Proof.{Proof};
ghost use Rattle.msp_cert.specs.Certificates.{IsShown};
ghost use Rattle.msp_cert.specs.Search.{HasValue};
ghost use Rattle.msp_cert.specs.Worth.{IsWorth, greatest_value};

use msp_pieces::{Frac, compare};
use std::cmp::Ordering;

/// The number over the denominator.
pub(crate) fn over(num: u64, den: u64) -> Frac
    requires den { den ≤ GREATEST_COMPARED_DENOMINATOR }
    requires some { 0 < den }
    ensures num { result.num ≡ pos num }
    ensures den { result.den ≡ pos den }
    ensures small { IsComparable result }
{
    Frac {
        num: i128::from(num),
        den: i128::from(den),
    }
}

/// The number over 1.
pub(crate) fn whole(value: i128) -> Frac
    requires { LiesWithin greatest_value value }
    ensures num { result.num ≡ value }
    ensures den { result.den ≡ pos 1 }
    ensures small { IsComparable result }
{
    Frac { num: value, den: 1 }
}

fn is_at_most(a: &Frac, b: &Frac) -> bool
    requires a { IsComparable a.now }
    requires b { IsComparable b.now }
    ensures { IsTrue result ↔ ((a.now.num *ℤ b.now.den) ≤ℤ (b.now.num *ℤ a.now.den)) }
{
    compare(*a, *b) != Ordering::Greater
}

fn is_same(a: &Frac, b: &Frac) -> bool
    requires a { IsComparable a.now }
    requires b { IsComparable b.now }
    ensures { IsTrue result ↔ IsSameFraction a.now b.now }
{
    compare(*a, *b) == Ordering::Equal
}

/// Whether what a proof is worth shows the bound.
pub(crate) fn shows(bound: &Frac, worth: Option<Frac>) -> bool
    requires bound { IsComparable bound.now }
    requires worth { IfSome worth IsComparable }
    ensures { (i : Instance) (p : Proof) → IsWorth i p worth → (IsTrue result ↔ IsShown i bound.now p) }
{
    match worth {
        Some(value) => is_at_most(bound, &value),
        None => false,
    }
}

/// Whether a proof is worth just the cost.
pub(crate) fn equals(cost: &Frac, worth: Option<Frac>) -> bool
    requires cost { IsComparable cost.now }
    requires worth { IfSome worth IsComparable }
    ensures { (i : Instance) (p : Proof) → IsWorth i p worth → (IsTrue result ↔ HasValue i cost.now p) }
{
    match worth {
        Some(value) => is_same(cost, &value),
        None => false,
    }
}
