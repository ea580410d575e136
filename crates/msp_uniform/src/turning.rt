// What the free machines of segments can do, and finer units.
ghost use Rattle.std.specs.Prelude.{◌≡◌, ℕ, ◌+◌, ◌-◌, ◌*◌, ◌<◌, ◌≤◌, true, false, length as len, All, IfOk};
ghost use Rattle.msp_class.specs.declared.sizes.TheConstants.{GREATEST_SPEED};
ghost use Rattle.msp_uniform.specs.Segments.{at, rate_at, gain_at, amount, AreWorks, HasPlaces, StopsAt, IsDifference, AreScaled, greatest_length};

use crate::laying::gain_of;
use crate::segments::{Segment, lasting};
use msp_class::NoMemory;
use std::alloc::Global;
use std::collections::VecDeque;

/// The work that the machines at a place can do.
pub(crate) fn work_of(segments: &[Segment], speeds: &[u64], place: usize) -> u128
    requires places { All (HasPlaces (len speeds.now) false place) segments.now }
    requires speeds { All (λ s. s ≤ GREATEST_SPEED) speeds.now }
    requires short { amount (λ _. 1) segments.now ≤ greatest_length }
    ensures { result ≡ amount (rate_at (at speeds.now) place) segments.now }
{
    let mut work: u128 = 0;
    for segment in segments {
        work += segment.length * gain_of(speeds, segment, place, false);
    }
    work
}

/// The same for segments in a queue.
pub(crate) fn work_in(segments: &VecDeque<Segment>, speeds: &[u64], place: usize) -> u128
    requires places { All (HasPlaces (len speeds.now) false place) segments.now.items }
    requires speeds { All (λ s. s ≤ GREATEST_SPEED) speeds.now }
    requires short { amount (λ _. 1) segments.now.items ≤ greatest_length }
    ensures { result ≡ amount (rate_at (at speeds.now) place) segments.now.items }
{
    let (front, back) = segments.as_slices();
    work_of(front, speeds, place) + work_of(back, speeds, place)
}

/// The works that the machines at each of the first places can do.
pub(crate) fn works_in(
    alloc: Global,
    segments: &VecDeque<Segment>,
    speeds: &[u64],
    places: usize,
) -> Result<Vec<u128>, NoMemory>
    requires each { (p : ℕ) → p < places → All (HasPlaces (len speeds.now) false p) segments.now.items }
    requires speeds { All (λ s. s ≤ GREATEST_SPEED) speeds.now }
    requires short { amount (λ _. 1) segments.now.items ≤ greatest_length }
    ensures { IfOk result (λ works. AreWorks (at speeds.now) places segments.now.items works.items) }
{
    let mut works = Vec::new(alloc);
    for place in 0..places {
        let work = work_in(segments, speeds, place);
        works.push(work)?;
    }
    Ok(works)
}

/// The segments over a finer unit.
pub(crate) fn scaled(
    alloc: Global,
    segments: Vec<Segment>,
    factor: u128,
) -> Result<VecDeque<Segment>, NoMemory>
    requires { All (λ x. x.length * factor ≤ greatest_length) segments.items }
    ensures { IfOk result (λ all. AreScaled factor segments.items all.items) }
{
    let mut ahead = VecDeque::from_vec(segments);
    let mut all = VecDeque::with_capacity(alloc, ahead.len())?;
    'ahead: while let Some(segment) = ahead.pop_front() {
        let length = segment.length * factor;
        all.push_back(lasting(segment, length))?;
    }
    Ok(all)
}

/// How much more is gained in each unit of the segment in which enough is gained at last.
pub(crate) fn last_gain(segments: &[Segment], speeds: &[u64], place: usize, gain: u128) -> u128
    requires places { All (HasPlaces (len speeds.now) true place) segments.now }
    requires speeds { All (λ s. s ≤ GREATEST_SPEED) speeds.now }
    requires short { amount (λ _. 1) segments.now ≤ greatest_length }
    requires enough { gain ≤ amount (gain_at true (at speeds.now) place) segments.now }
    ensures stops { StopsAt (gain_at true (at speeds.now) place) gain segments.now result }
    ensures difference { IsDifference speeds.now result }
{
    let mut left = gain;
    for segment in segments {
        let more = gain_of(speeds, segment, place, true);
        let whole = segment.length * more;
        if left < whole {
            return more;
        }
        left -= whole;
    }
    1
}

/// The last place at which the machines can do so much work.
pub(crate) fn place_for(segments: &[Segment], speeds: &[u64], places: usize, work: u128) -> usize
    requires some { 2 ≤ places }
    requires each { (p : ℕ) → p < places → All (HasPlaces (len speeds.now) false p) segments.now }
    requires speeds { All (λ s. s ≤ GREATEST_SPEED) speeds.now }
    requires short { amount (λ _. 1) segments.now ≤ greatest_length }
    requires first { work ≤ amount (rate_at (at speeds.now) 0) segments.now }
    requires last { amount (rate_at (at speeds.now) (places - 1)) segments.now < work }
    ensures inside { result + 1 < places }
    ensures enough { work ≤ amount (rate_at (at speeds.now) result) segments.now }
    ensures less { amount (rate_at (at speeds.now) (result + 1)) segments.now < work }
{
    let mut place = places - 1;
    'places: loop {
        place -= 1;
        if work_of(segments, speeds, place) >= work {
            return place;
        }
    }
}
