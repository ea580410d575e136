// Segments: lists of jobs that take both machines one list after another.
ghost use Rattle.std.specs.Prelude.{◌≡◌, ◌≢◌, ◌+◌, ◌-◌, ◌*◌, ◌<◌, ◌≤◌, ℕ, length, nat_abs, slice_index, slice_index_or, All, AllPairs, IfOk};
ghost use Rattle.msp_class.specs.declared.sizes.TheConstants.{MOST_JOBS};
ghost use Rattle.msp_instance.specs.Conditions.{Inner};
ghost use Rattle.msp_pieces.specs.declared.Piece.{Piece as PieceValue};
ghost use Rattle.msp_pieces.specs.Segments.{AreSegments, segments_bound};
ghost use Rattle.msp_pieces.specs.Cost.{IsBest};
ghost use Rattle.msp_route.specs.Bounds.{IsAnswer};
ghost use Rattle.msp_lexical.specs.Lexical.{lexical_class, IsLeastCost};
ghost use Rattle.msp_lexical.specs.Steps.{HasLabels, IsByLabel};
ghost use Rattle.msp_lexical.specs.Slots.{AreTops, IsTopOf, AreCut, IsSeated, IsSeating, place_of, first_in, second_in, segment};

use crate::label::labels_of;
use crate::rule::{pieces_by_label, solution_of};
use msp_class::{List, NoMemory};
use msp_instance::{Instance, MOST_JOBS};
use msp_pieces::{Piece, Solution};
use std::alloc::Global;

/// Two for each moment: the one of the first machine, and that of the second.
const SEATS: usize = 2 * MOST_JOBS;

/// The slots of a schedule, to be cut into segments: the labels of the jobs, the job of each seat, and the least label of the segment that
/// each slot belongs to.
#[derive(Drop)]
struct Slots {
    labels: [u32; MOST_JOBS],
    seats: [u32; SEATS],
    tops: [u32; MOST_JOBS],
    count: usize,
}

/// The place of a piece among the seats.
fn seat_of(piece: &Piece) -> usize
    requires { IsSeated MOST_JOBS piece.now }
    ensures { result ≡ place_of piece.now }
{
    2 * piece.from as usize + piece.machine as usize
}

/// The job of each seat, and the number of jobs where there is none.
fn seats_of(jobs: u32, pieces: &[Piece]) -> [u32; SEATS]
    requires few { jobs ≤ MOST_JOBS }
    requires seated { All (IsSeated jobs) pieces.now }
    requires apart { AllPairs (λ p q. place_of p ≢ place_of q) pieces.now }
    ensures { IsSeating jobs pieces.now result }
{
    let mut seats = [jobs; SEATS];
    for piece in pieces {
        seats[seat_of(piece)] = piece.job;
    }
    seats
}

/// How many slots there are, by the last piece.
fn slots_of(pieces: &[Piece]) -> usize
    requires some { 0 < length pieces.now }
    requires seated { All (IsSeated MOST_JOBS) pieces.now }
    ensures { (d : PieceValue) → result ≡ nat_abs (slice_index_or pieces.now (length pieces.now - 1) d).from + 1 }
{
    pieces[pieces.len() - 1].from as usize + 1
}

/// The least label of the segment of a slot, where that of the next slot is known: the same, if the second job has a greater label, and
/// else that of the first job.
fn top_of(labels: &[u32; MOST_JOBS], jobs: u32, first: u32, second: u32, next: u32) -> u32
    requires few { jobs ≤ MOST_JOBS }
    requires first { first < jobs }
    ensures { IsTopOf jobs (slice_index labels.now) first second next result }
{
    if second < jobs && labels[second as usize] > next {
        next
    } else {
        labels[first as usize]
    }
}

/// The least label of the segment of each slot, from the last slot to the first.
fn tops_of(
    labels: &[u32; MOST_JOBS],
    jobs: u32,
    seats: &[u32; SEATS],
    count: usize,
) -> [u32; MOST_JOBS]
    requires few { jobs ≤ MOST_JOBS }
    requires slots { count ≤ MOST_JOBS }
    requires small { (j : ℕ) → j < jobs → slice_index labels.now j < MOST_JOBS }
    requires first { (x : ℕ) → x < count → first_in seats.now x < jobs }
    ensures { AreTops jobs count (slice_index labels.now) (first_in seats.now) (second_in seats.now) (slice_index result) }
{
    let mut tops = [0; MOST_JOBS];
    let mut next = MOST_JOBS as u32;
    let mut slot = count;
    while slot > 0 {
        slot -= 1;
        next = top_of(labels, jobs, seats[2 * slot], seats[2 * slot + 1], next);
        tops[slot] = next;
    }
    tops
}

/// The slots of the schedule by labels.
fn slots_by_label(inst: &Instance, labels: &[u32; MOST_JOBS], pieces: &[Piece]) -> Slots
    requires inner { Inner inst.now }
    requires class { inst.now.class ≡ lexical_class }
    requires labels { HasLabels inst.now (slice_index labels.now) }
    requires pieces { IsByLabel inst.now (slice_index labels.now) pieces.now }
    ensures slots { AreCut inst.now result.labels result.seats result.tops result.count }
    ensures cost { IsLeastCost inst.now result.count }
{
    let jobs = inst.jobs.len() as u32;
    let seats = seats_of(jobs, pieces);
    let count = slots_of(pieces);
    let tops = tops_of(labels, jobs, &seats, count);
    Slots {
        labels: *labels,
        seats,
        tops,
        count,
    }
}

/// The slot where the segment of a slot ends.
fn last_slot(inst: &Instance, slots: &Slots, from: usize) -> usize
    requires slots { AreCut inst.now slots.now.labels slots.now.seats slots.now.tops slots.now.count }
    requires from { from < slots.now.count }
    ensures after { from ≤ result }
    ensures inside { result < slots.now.count }
    ensures ends { slice_index slots.now.tops result ≡ slice_index slots.now.labels (first_in slots.now.seats result) }
    ensures goes { (x : ℕ) → from ≤ x → x < result → slice_index slots.now.tops x ≢ slice_index slots.now.labels (first_in slots.now.seats x) }
{
    for slot in from..slots.count {
        if slots.tops[slot] == slots.labels[slots.seats[2 * slot] as usize] {
            return slot;
        }
    }
    unreachable!()
}

/// The jobs of the segment from one slot to another: both of each slot, and the first one of the last.
fn segment_of(
    alloc: Global,
    seats: &[u32; SEATS],
    from: usize,
    last: usize,
) -> Result<List<u32>, NoMemory>
    requires order { from ≤ last }
    requires inside { last < MOST_JOBS }
    ensures { IfOk result (λ jobs. jobs ≡ segment (first_in seats.now) (second_in seats.now) from (last - from)) }
{
    let mut jobs = List::new(alloc);
    for slot in from..last {
        jobs.put(seats[2 * slot])?;
        jobs.put(seats[2 * slot + 1])?;
    }
    jobs.put(seats[2 * last])?;
    Ok(jobs)
}

/// The segments of the slots.
fn segments_of(alloc: Global, inst: &Instance, slots: &Slots) -> Result<List<List<u32>>, NoMemory>
    requires slots { AreCut inst.now slots.now.labels slots.now.seats slots.now.tops slots.now.count }
    requires cost { IsLeastCost inst.now slots.now.count }
    ensures segments { IfOk result (AreSegments inst.now) }
    ensures cost { IfOk result (λ all. IsLeastCost inst.now (segments_bound inst.now all)) }
{
    let mut segments = List::new(alloc);
    let mut from = 0;
    while from < slots.count {
        let last = last_slot(inst, slots, from);
        segments.put(segment_of(alloc, &slots.seats, from, last)?)?;
        from = last + 1;
    }
    Ok(segments)
}

/// A schedule of least makespan, and segments that show it.
#[derive(Drop)]
pub struct SegmentSolution {
    pub solution: Solution,
    pub segments: List<List<u32>>,
}

/// A schedule of least makespan, with the segments of `segments`, by one labelling.
pub fn solve_with_segments(alloc: Global, inst: &Instance) -> Result<SegmentSolution, NoMemory>
    requires inner { Inner inst.now }
    requires class { inst.now.class ≡ lexical_class }
    ensures best { IfOk result (λ s. IsBest inst.now s.solution) }
    ensures bounds { IfOk result (λ s. IsAnswer inst.now s.solution.schedule) }
    ensures segments { IfOk result (λ s. AreSegments inst.now s.segments) }
    ensures cost { IfOk result (λ s. IsLeastCost inst.now (segments_bound inst.now s.segments)) }
{
    let labels = labels_of(alloc, inst)?;
    let pieces = pieces_by_label(alloc, inst, &labels)?;
    let slots = slots_by_label(inst, &labels, pieces.as_slice());
    let segments = segments_of(alloc, inst, &slots)?;
    let solution = solution_of(inst, &labels, pieces);
    Ok(SegmentSolution { solution, segments })
}

/// Lists of jobs, from each of which a path leads to each job of the next list. Half of their lengths, rounded up, is the time that the lists
/// take one after another, and that is the least makespan.
pub fn segments(alloc: Global, inst: &Instance) -> Result<List<List<u32>>, NoMemory>
    requires inner { Inner inst.now }
    requires class { inst.now.class ≡ lexical_class }
    ensures segments { IfOk result (AreSegments inst.now) }
    ensures cost { IfOk result (λ all. IsLeastCost inst.now (segments_bound inst.now all)) }
{
    let SegmentSolution { segments, .. } = solve_with_segments(alloc, inst)?;
    Ok(segments)
}
