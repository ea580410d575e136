// A job is laid over segments, one after another.
ghost use Rattle.std.specs.Prelude.{◌≡◌, ◌+◌, ◌*◌, ◌<◌, ◌≤◌, ◌⊎◌, [], ◌∷◌, ◌^◌, true, false, min, length as len, All, IfOk, OnOk};
ghost use Rattle.msp_class.specs.declared.sizes.TheConstants.{MOST_MACHINES, GREATEST_SPEED};
ghost use Rattle.std.specs.Int.{◌∣◌};
ghost use Rattle.std.specs.Option.{option_to_list};
ghost use Rattle.msp_uniform.specs.Segments.{at, rate_at, gain_at, CanGain, HasTaken, IsSecond, IsOneLaid, IsFirstLaid, AreLaid, HasPlaces, greatest_length};
ghost use Rattle.msp_uniform.specs.Plans.{CanBeLaid, IsLaidHere};

use crate::segments::{Segment, lasting, taken, taken_of};
use msp_class::NoMemory;
use std::alloc::Global;
use std::collections::VecDeque;

/// A job, the place among the free machines that it gets, and the speeds of all machines.
#[derive(Drop)]
struct Seat<'a> {
    speeds: &'a [u64],
    job: u32,
    place: usize,
    ghost small: { job < 2 ^ 16 },
    ghost slow: { All (λ s. s ≤ GREATEST_SPEED) speeds.now },
}

/// What is left of the job after a segment, and the part of the segment that comes second, if there is one.
#[derive(Drop)]
struct Laid {
    left: u128,
    rest: Option<Segment>,
}

/// The parts that come first and those that come second.
#[derive(Drop)]
pub(crate) struct Parts {
    pub(crate) first: VecDeque<Segment>,
    pub(crate) second: VecDeque<Segment>,
}

/// How much more of the job is done in each unit of the first part.
pub(crate) fn gain_of(speeds: &[u64], segment: &Segment, place: usize, swap: bool) -> u128
    requires places { HasPlaces (len speeds.now) swap place segment.now }
    requires speeds { All (λ s. s ≤ GREATEST_SPEED) speeds.now }
    ensures value { result ≡ gain_at swap (at speeds.now) place segment.now }
    ensures small { result ≤ GREATEST_SPEED }
    ensures inside { place < MOST_MACHINES }
{
    let rate = u128::from(speeds[usize::from(segment.body.free.at(place))]);
    if !swap {
        return rate;
    }
    rate.saturating_sub(u128::from(speeds[usize::from(segment.body.free.at(place + 1))]))
}

/// The second part: the job goes on at the next place, or the segment stays as it is.
fn second_of(segment: Segment, length: u128, job: u32, place: usize, swap: bool) -> Segment
    requires job { job < 2 ^ 16 }
    requires inside { place < MOST_MACHINES }
    requires places { HasPlaces (len segment.body.value.jobs) swap place segment }
    ensures long { result.length ≡ length }
    ensures part { IsSecond swap job place segment result }
{
    if swap {
        taken(segment, length, job, place + 1)
    } else {
        lasting(segment, length)
    }
}

/// Puts the part of the segment at the end in which the job has the place, unless it lasts 0.
fn put_taken(
    alloc: Global,
    first: &mut VecDeque<Segment>,
    segment: &Segment,
    length: u128,
    job: u32,
    place: usize,
) -> Result<(), NoMemory>
    requires place { place < len segment.now.body.value.free }
    requires machine { at segment.now.body.value.free place < len segment.now.body.value.jobs }
    requires job { job < 2 ^ 16 }
    ensures none { OnOk result (length ≡ 0 → first.new.items ≡ first.old.items) }
    ensures some { OnOk result (0 < length → HasTaken job place length segment.now first.old.items first.new.items) }
{
    if length == 0 {
        return Ok(());
    }
    first.push_back(taken_of(alloc, segment, length, job, place)?)?;
    Ok(())
}

/// Lays the job over a segment, and says how much is left to gain: the first part takes the place, where it is needed.
fn lay_one(
    alloc: Global,
    first: &mut VecDeque<Segment>,
    seat: &Seat<'_>,
    segment: Segment,
    swap: bool,
    left: u128,
) -> Result<Laid, NoMemory>
    requires machines { len segment.body.value.jobs ≡ len seat.now.speeds.now }
    requires places { HasPlaces (len seat.now.speeds.now) swap seat.now.place segment }
    requires short { segment.length ≤ greatest_length }
    requires gains { (segment.length * gain_at swap (at seat.now.speeds.now) seat.now.place segment ≤ left)
        ⊎ ((left < segment.length * gain_at swap (at seat.now.speeds.now) seat.now.place segment) × (gain_at swap (at seat.now.speeds.now) seat.now.place segment ∣ left)) }
    ensures laid { IfOk result (λ laid. IsOneLaid swap (at seat.now.speeds.now) seat.now.job seat.now.place left laid.left segment first.old.items [] first.new.items (option_to_list laid.rest)) }
    ensures few { IfOk result (λ laid. len (option_to_list laid.rest) + min 1 laid.left ≤ 1) }
{
    let Seat { speeds, job, place } = *seat;
    let gain = gain_of(speeds, &segment, place, swap);
    let long = segment.length;
    if long * gain <= left {
        first.push_back(taken(segment, long, job, place))?;
        return Ok(Laid {
            left: left - long * gain,
            rest: None,
        });
    }
    let length = left / gain;
    put_taken(alloc, first, &segment, length, job, place)?;
    let rest = second_of(segment, long - length, job, place, swap);
    Ok(Laid {
        left: 0,
        rest: Some(rest),
    })
}

/// Lays the job over the first of late segments, of which the second part stays late. Mostly there is none.
fn lay_first(
    alloc: Global,
    early: &mut VecDeque<Segment>,
    late: &mut VecDeque<Segment>,
    seat: &Seat<'_>,
    segment: Segment,
    left: u128,
) -> Result<u128, NoMemory>
    requires machines { len segment.body.value.jobs ≡ len seat.now.speeds.now }
    requires places { HasPlaces (len seat.now.speeds.now) false seat.now.place segment }
    requires short { segment.length ≤ greatest_length }
    requires gains { CanGain (rate_at (at seat.now.speeds.now) seat.now.place) left (segment ∷ late.old.items) }
    ensures { IfOk result (λ after. IsFirstLaid (at seat.now.speeds.now) seat.now.job seat.now.place left after segment early.old.items late.old.items early.new.items late.new.items) }
{
    let gain = gain_of(seat.speeds, &segment, seat.place, false);
    let whole = segment.length * gain;
    if whole <= left {
        let length = segment.length;
        early.push_back(taken(segment, length, seat.job, seat.place))?;
        return Ok(left - whole);
    }
    let laid = lay_one(alloc, early, seat, segment, false, left)?;
    let Laid { left: after, rest } = laid;
    match rest {
        None => Ok(after),
        Some(rest) => {
            late.push_front(rest)?;
            Ok(after)
        }
    }
}

/// Lays the job over late segments until it has gained so much: the first parts, in which it has the place, become early.
pub(crate) fn lay(
    alloc: Global,
    early: &mut VecDeque<Segment>,
    late: &mut VecDeque<Segment>,
    speeds: &[u64],
    job: u32,
    place: usize,
    gain: u128,
) -> Result<(), NoMemory>
    requires job { job < 2 ^ 16 }
    requires late { CanBeLaid speeds.now place gain late.old.items }
    requires speeds { All (λ s. s ≤ GREATEST_SPEED) speeds.now }
    ensures { OnOk result (IsLaidHere (at speeds.now) job place gain early.old.items late.old.items early.new.items late.new.items) }
{
    let seat = Seat { speeds, job, place };
    let mut left = gain;
    'late: while left > 0 {
        match late.pop_front() {
            None => return Ok(()),
            Some(segment) => {
                left = lay_first(alloc, early, late, &seat, segment, left)?;
            }
        }
    }
    Ok(())
}

/// Lays the job over a segment: the second part takes the next place.
fn lay_both(
    alloc: Global,
    parts: &mut Parts,
    seat: &Seat<'_>,
    segment: Segment,
    left: u128,
) -> Result<u128, NoMemory>
    requires machines { len segment.body.value.jobs ≡ len seat.now.speeds.now }
    requires places { HasPlaces (len seat.now.speeds.now) true seat.now.place segment }
    requires short { segment.length ≤ greatest_length }
    requires gains { (segment.length * gain_at true (at seat.now.speeds.now) seat.now.place segment ≤ left)
        ⊎ ((left < segment.length * gain_at true (at seat.now.speeds.now) seat.now.place segment) × (gain_at true (at seat.now.speeds.now) seat.now.place segment ∣ left)) }
    ensures { IfOk result
        (λ after. IsOneLaid true (at seat.now.speeds.now) seat.now.job seat.now.place left after segment parts.old.first.items parts.old.second.items parts.new.first.items parts.new.second.items) }
{
    let laid = lay_one(alloc, &mut parts.first, seat, segment, true, left)?;
    let Laid { left: after, rest } = laid;
    match rest {
        None => Ok(after),
        Some(rest) => {
            parts.second.push_back(rest)?;
            Ok(after)
        }
    }
}

/// Lays the job over all segments so that it gains so much: in the first parts it takes the place, in the second the next one.
pub(crate) fn lay_over_all(
    alloc: Global,
    mut segments: VecDeque<Segment>,
    speeds: &[u64],
    job: u32,
    place: usize,
    gain: u128,
) -> Result<Parts, NoMemory>
    requires job { job < 2 ^ 16 }
    requires machines { All (λ x. len x.body.value.jobs ≡ len speeds.now) segments.items }
    requires places { All (HasPlaces (len speeds.now) true place) segments.items }
    requires speeds { All (λ s. s ≤ GREATEST_SPEED) speeds.now }
    requires short { All (λ x. x.length ≤ greatest_length) segments.items }
    requires gains { CanGain (gain_at true (at speeds.now) place) gain segments.items }
    ensures { IfOk result (λ p. AreLaid true (at speeds.now) job place gain 0 segments.items p.first.items p.second.items) }
{
    let first = VecDeque::new(alloc);
    let second = VecDeque::new(alloc);
    let mut parts = Parts { first, second };
    let seat = Seat { speeds, job, place };
    let mut left = gain;
    'segments: while let Some(segment) = segments.pop_front() {
        left = lay_both(alloc, &mut parts, &seat, segment, left)?;
    }
    Ok(parts)
}
