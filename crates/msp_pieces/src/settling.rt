// The form in which schedules are reported: unit and moments without a common divisor, and pieces in order.
ghost use Rattle.std.specs.Prelude.{◌≡◌, ◌<◌, List, [], ◌∷◌, ◌++◌, ℤ, pos, ◌*ℤ◌, ◌≤ℤ◌, ◌<ℤ◌, unsigned_abs, map, All, AllPairs, IsPermutation};
ghost use Rattle.std.specs.Ordering.{int_cmp, nat_cmp, ordering_then};
ghost use Rattle.msp_instance.specs.declared.Instance.{Instance};
ghost use Rattle.msp_pieces.specs.Cost.{cost_of};
ghost use Rattle.msp_pieces.specs.Divisor.{IsCommonDivisor, part_of, divided};
ghost use Rattle.msp_pieces.specs.Feasible.{Feasible};
ghost use Rattle.msp_pieces.specs.Settled.{IsReportedFirst, IsSettled, IsSettledFrom};
ghost use Rattle.msp_pieces.specs.Within.{Within};

use crate::fraction::quotient;
use crate::{Piece, Schedule};
use msp_class::List;
use msp_instance::gcd;
use std::cmp::Ordering;

/// The greatest common divisor of the number and the piece's moments. One division for each moment that the divisor divides.
fn divisor_with(divisor: u128, piece: &Piece) -> u128
    ensures { (unit : ℤ) (ps : List Piece) → IsCommonDivisor unit ps divisor → IsCommonDivisor unit (ps ++ piece.now ∷ []) result }
{
    let with_begin = gcd(piece.from.unsigned_abs(), divisor);
    gcd(piece.to.unsigned_abs(), with_begin)
}

fn size_of_unit(s: &Schedule) -> u128
    ensures { result ≡ unsigned_abs s.now.unit }
{
    s.unit.unsigned_abs()
}

/// The greatest common divisor of the unit and all moments.
fn common_divisor(s: &Schedule) -> u128
    ensures { IsCommonDivisor s.now.unit s.now.pieces result }
{
    let pieces = s.pieces.as_slice();
    let mut divisor = size_of_unit(s);
    for piece in pieces {
        divisor = divisor_with(divisor, piece);
    }
    divisor
}

fn part(whole: i128, divisor: u128) -> i128
    requires natural { pos 0 ≤ℤ whole }
    requires some { 0 < divisor }
    ensures { result ≡ part_of divisor whole }
{
    quotient(whole.unsigned_abs(), divisor)
}

fn divide(piece: Piece, divisor: u128) -> Piece
    requires from { pos 0 ≤ℤ piece.from }
    requires to { pos 0 ≤ℤ piece.to }
    requires some { 0 < divisor }
    ensures { result ≡ divided divisor piece }
{
    Piece {
        from: part(piece.from, divisor),
        to: part(piece.to, divisor),
        ..piece
    }
}

fn divide_all(pieces: &mut Vec<Piece>, divisor: u128)
    requires natural { All (λ p. (pos 0 ≤ℤ p.from) × (pos 0 ≤ℤ p.to)) pieces.old.items }
    requires some { 0 < divisor }
    ensures { pieces.new.items ≡ map (divided divisor) pieces.old.items }
{
    for piece in pieces.iter_mut() {
        *piece = divide(*piece, divisor);
    }
}

/// Whether `a` is reported before `b`.
fn compare(a: &Piece, b: &Piece) -> Ordering
    ensures { result ≡ ordering_then (int_cmp a.now.from b.now.from) (nat_cmp a.now.machine b.now.machine) }
{
    a.from.cmp(&b.from).then(a.machine.cmp(&b.machine))
}

/// Puts pieces in the order of a report: as they begin, ties by the lesser machine.
pub fn sort_pieces(pieces: &mut Vec<Piece>)
    ensures permutation { IsPermutation pieces.old.items pieces.new.items }
    ensures sorted { AllPairs IsReportedFirst pieces.new.items }
{
    pieces.sort_unstable_by(|a, b| compare(a, b));
}

/// Divides unit and moments by their greatest common divisor, and puts the pieces in the order of a report.
pub fn settle(s: &mut Schedule)
    requires unit { pos 1 ≤ℤ s.old.unit }
    requires span { All (λ p. (pos 0 ≤ℤ p.from) × (p.from <ℤ p.to)) s.old.pieces }
    ensures settled { IsSettled s.new }
    ensures kept { IsSettledFrom s.old s.new }
    ensures feasible { (i : Instance) → Feasible i s.old → Feasible i s.new }
    ensures cost { (i : Instance) → Feasible i s.old → cost_of i s.new *ℤ s.old.unit ≡ cost_of i s.old *ℤ s.new.unit }
    ensures within { (i : Instance) → Within i s.old → Within i s.new }
{
    let divisor = common_divisor(s);
    let mut pieces = s.pieces.take_all();
    divide_all(&mut pieces, divisor);
    sort_pieces(&mut pieces);
    s.unit = part(s.unit, divisor);
    s.pieces = List::from_vec(pieces);
}
