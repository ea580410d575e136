// Pieces that overlap on a machine or in a job, found among all pairs.
ghost use Rattle.std.specs.Prelude.{◌≡◌, ℕ, ◌+◌, ◌<◌, ◌≤◌, ◌↔◌, length, AllPairs, IsTrue, IsNone, IfNone, IfSome};
ghost use Rattle.msp_class.specs.declared.sizes.TheConstants.{MOST_PIECES};
ghost use Rattle.msp_pieces.specs.Piece.{IsApart};
ghost use Rattle.msp_schedule.specs.Breaks.{StandsAhead, Overlaps, IsFirstOverlap};
ghost use Rattle.msp_schedule.specs.Lanes.{lane_of, Precedes, IsFirstOverlapBelow};

use msp_pieces::Piece;

/// In what pieces must not overlap: on a machine, or in a job.
#[derive(Clone, Copy)]
pub(crate) enum Lane {
    Machine,
    Job,
}

/// The piece's machine, or its job.
pub(crate) fn lane_of(lane: Lane, piece: &Piece) -> u32
    ensures { result ≡ lane_of lane piece.now }
{
    match lane {
        Lane::Machine => piece.machine,
        Lane::Job => piece.job,
    }
}

/// Whether the first piece stands ahead of the second.
fn stands_ahead(pieces: &[Piece], first: usize, second: usize) -> bool
    requires first { first < length pieces.now }
    requires second { second < length pieces.now }
    ensures { IsTrue result ↔ StandsAhead pieces.now first second }
{
    let from = pieces[first].from;
    let other = pieces[second].from;
    from < other || from == other && first < second
}

/// Whether the second piece begins before the first one ends, which stands ahead of it.
fn overlaps(lane: Lane, pieces: &[Piece], first: usize, second: usize) -> bool
    requires first { first < length pieces.now }
    requires second { second < length pieces.now }
    ensures { IsTrue result ↔ Overlaps (lane_of lane) pieces.now first second }
{
    lane_of(lane, &pieces[first]) == lane_of(lane, &pieces[second])
        && stands_ahead(pieces, first, second)
        && pieces[second].from < pieces[first].to
}

/// A piece ahead of this one that it overlaps.
fn overlapped(lane: Lane, pieces: &[Piece], second: usize) -> Option<usize>
    requires { second < length pieces.now }
    ensures none { IfNone result ((k : ℕ) → ¬ Overlaps (lane_of lane) pieces.now k second) }
    ensures some { IfSome result (λ k. Overlaps (lane_of lane) pieces.now k second) }
{
    for first in 0..pieces.len() {
        if overlaps(lane, pieces, first, second) {
            return Some(first);
        }
    }
    None
}

/// Whether the one piece comes before the other, by machine or job and then by what stands ahead.
fn precedes(lane: Lane, pieces: &[Piece], one: usize, other: usize) -> bool
    requires one { one < length pieces.now }
    requires other { other < length pieces.now }
    ensures { IsTrue result ↔ Precedes (lane_of lane) pieces.now one other }
{
    let first = lane_of(lane, &pieces[one]);
    let second = lane_of(lane, &pieces[other]);
    first < second || first == second && stands_ahead(pieces, one, other)
}

/// The pair whose second piece comes first.
fn earlier(
    lane: Lane,
    pieces: &[Piece],
    best: Option<(usize, usize)>,
    first: usize,
    second: usize,
) -> Option<(usize, usize)>
    requires overlap { Overlaps (lane_of lane) pieces.now first second }
    requires best { IsFirstOverlapBelow (lane_of lane) pieces.now second best }
    ensures { IsFirstOverlapBelow (lane_of lane) pieces.now (second + 1) result }
{
    match best {
        Some((_, known)) if !precedes(lane, pieces, second, known) => best,
        _ => Some((first, second)),
    }
}

/// The first two pieces that overlap.
pub(crate) fn first_overlap(lane: Lane, pieces: &[Piece]) -> Option<(u32, u32)>
    requires few { length pieces.now ≤ MOST_PIECES }
    ensures none { IsNone result → AllPairs (λ p q. lane_of lane p ≡ lane_of lane q → IsApart p q) pieces.now }
    ensures some { IfSome result (λ pair. IsFirstOverlap (lane_of lane) pieces.now pair.0 pair.1) }
{
    let mut best = None;
    for second in 0..pieces.len() {
        if let Some(first) = overlapped(lane, pieces, second) {
            best = earlier(lane, pieces, best, first, second);
        }
    }
    match best {
        Some((first, second)) => Some((first as u32, second as u32)),
        None => None,
    }
}
