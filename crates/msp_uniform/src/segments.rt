// Parts of the time, in each of which every machine has one job or is free.
ghost use Rattle.std.specs.Prelude.{◌≡◌, ◌^◌, ◌<◌, length as len, IfOk};
ghost use Rattle.msp_uniform.specs.Segments.{at, IsTaken, IsPartOf};

use crate::numbers::Numbers;
use msp_class::NoMemory;
use std::alloc::Global;

/// What the machines do.
#[derive(Drop)]
pub(crate) struct Body {
    /// The job of each machine, or the number of jobs for none.
    pub(crate) jobs: Numbers,
    /// The machines that have no job, the fastest first.
    pub(crate) free: Numbers,
}

/// A part of the time. It is small, since segments go from list to list often.
#[derive(Drop)]
pub(crate) struct Segment {
    pub(crate) length: u128,
    pub(crate) body: Box<Body>,
}

/// The same for another length.
pub(crate) fn part_of(alloc: Global, segment: &Segment, length: u128) -> Result<Segment, NoMemory>
    ensures { IfOk result (λ part. IsPartOf length segment.now part) }
{
    let jobs = segment.body.jobs.copied();
    let free = segment.body.free.copied();
    let body = Box::new(alloc, Body { jobs, free })?;
    Ok(Segment { length, body })
}

/// It lasts as long as this.
pub(crate) fn lasting(mut segment: Segment, length: u128) -> Segment
    ensures { IsPartOf length segment result }
{
    segment.length = length;
    segment
}

/// It lasts as long as this, and a free machine has the job.
pub(crate) fn taken(mut segment: Segment, length: u128, job: u32, place: usize) -> Segment
    requires place { place < len segment.body.value.free }
    requires machine { at segment.body.value.free place < len segment.body.value.jobs }
    requires job { job < 2 ^ 16 }
    ensures { IsTaken job place length segment result }
{
    let machine = segment.body.free.remove(place);
    segment.body.jobs.set(usize::from(machine), job as u16);
    segment.length = length;
    segment
}

/// The same for another length, where a free machine has the job.
pub(crate) fn taken_of(
    alloc: Global,
    segment: &Segment,
    length: u128,
    job: u32,
    place: usize,
) -> Result<Segment, NoMemory>
    requires place { place < len segment.now.body.value.free }
    requires machine { at segment.now.body.value.free place < len segment.now.body.value.jobs }
    requires job { job < 2 ^ 16 }
    ensures { IfOk result (λ part. IsTaken job place length segment.now part) }
{
    let part = part_of(alloc, segment, length)?;
    Ok(taken(part, length, job, place))
}
