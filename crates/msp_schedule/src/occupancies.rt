// Pieces that overlap on a machine or in a job, found by sorting.
ghost use Rattle.std.specs.Prelude.{◌≡◌, ◌≤◌, ◌↔◌, length, AllPairs, IsPermutation, IsTrue, IsNone, IfOk, IfSome};
ghost use Rattle.std.specs.Ordering.{int_cmp, nat_cmp, ordering_then};
ghost use Rattle.msp_class.specs.declared.sizes.TheConstants.{MOST_PIECES};
ghost use Rattle.msp_pieces.specs.Piece.{IsApart};
ghost use Rattle.msp_schedule.specs.Breaks.{IsFirstOverlap};
ghost use Rattle.msp_schedule.specs.Lanes.{lane_of};
ghost use Rattle.msp_schedule.specs.Occupancies.{occupancy_of, AreOccupancies, IsNotAfter, Meets, IsClearBelow, IsFirstMeeting};

use crate::overlaps::{Lane, lane_of};
use msp_class::NoMemory;
use msp_pieces::Piece;
use std::alloc::Global;
use std::cmp::Ordering;

/// What a piece occupies: its machine or job, with its number and its moments.
#[derive(Clone, Copy)]
pub(crate) struct Occupancy {
    lane: u32,
    number: u32,
    from: i128,
    to: i128,
}

fn occupancy_of(lane: Lane, piece: &Piece, number: u32) -> Occupancy
    ensures { result ≡ occupancy_of lane piece.now number }
{
    Occupancy {
        lane: lane_of(lane, piece),
        number,
        from: piece.from,
        to: piece.to,
    }
}

/// The occupancies of all pieces, by number.
fn occupancies_of(alloc: Global, lane: Lane, pieces: &[Piece]) -> Result<Vec<Occupancy>, NoMemory>
    requires few { length pieces.now ≤ MOST_PIECES }
    ensures { IfOk result (λ occupancies. AreOccupancies lane pieces.now (length pieces.now) occupancies.items) }
{
    let mut occupancies = Vec::new(alloc);
    for at in 0..pieces.len() {
        let occupancy = occupancy_of(lane, &pieces[at], at as u32);
        occupancies.push(occupancy)?;
    }
    Ok(occupancies)
}

/// Whether `a` comes before `b`: by machine or job, then by beginning, then by number.
fn compare(a: &Occupancy, b: &Occupancy) -> Ordering
    ensures { result ≡ ordering_then (nat_cmp a.now.lane b.now.lane) (ordering_then (int_cmp a.now.from b.now.from) (nat_cmp a.now.number b.now.number)) }
{
    a.lane
        .cmp(&b.lane)
        .then(a.from.cmp(&b.from).then(a.number.cmp(&b.number)))
}

fn sort(occupancies: &mut Vec<Occupancy>)
    ensures permutation { IsPermutation occupancies.old.items occupancies.new.items }
    ensures sorted { AllPairs IsNotAfter occupancies.new.items }
{
    occupancies.sort_unstable_by(|a, b| compare(a, b));
}

/// Whether the next begins before the one ends, on the same machine or in the same job.
fn meets(one: &Occupancy, next: &Occupancy) -> bool
    ensures { IsTrue result ↔ Meets one.now next.now }
{
    one.lane == next.lane && next.from < one.to
}

/// The numbers of the first two neighbours that meet.
fn first_meeting(occupancies: &[Occupancy]) -> Option<(u32, u32)>
    ensures none { IsNone result → IsClearBelow occupancies.now (length occupancies.now) }
    ensures some { IfSome result (λ pair. IsFirstMeeting occupancies.now pair.0 pair.1) }
{
    for at in 1..occupancies.len() {
        if meets(&occupancies[at - 1], &occupancies[at]) {
            return Some((occupancies[at - 1].number, occupancies[at].number));
        }
    }
    None
}

/// The first two pieces that overlap.
pub(crate) fn swept_overlap(
    alloc: Global,
    lane: Lane,
    pieces: &[Piece],
) -> Result<Option<(u32, u32)>, NoMemory>
    requires few { length pieces.now ≤ MOST_PIECES }
    ensures none { IfOk result (λ r. IsNone r → AllPairs (λ p q. lane_of lane p ≡ lane_of lane q → IsApart p q) pieces.now) }
    ensures some { IfOk result (λ r. IfSome r (λ pair. IsFirstOverlap (lane_of lane) pieces.now pair.0 pair.1)) }
{
    let mut occupancies = occupancies_of(alloc, lane, pieces)?;
    sort(&mut occupancies);
    Ok(first_meeting(&occupancies))
}
