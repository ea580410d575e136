// Segments one after another, as pieces of a schedule, the latest first: a piece ends where its machine gets another job.
ghost use Rattle.std.specs.Prelude.{◌≡◌, ◌<◌, ◌≤◌, ◌++◌, ◌^◌, length as len, slice_index_or, sum_by, All, IfOk, OnOk, IsPermutation};
ghost use Rattle.msp_class.specs.declared.sizes.TheConstants.{MOST_MACHINES};
ghost use Rattle.msp_uniform.specs.Runs.{part_on, runs, begun, jobs_before as jobs_until, IsNextEnds};

use crate::numbers::Numbers;
use crate::segments::Segment;
use msp_class::{List, NoMemory};
use msp_pieces::Piece;
use std::alloc::Global;

/// Puts the piece of the job at the end, if it is one.
fn put_part(
    pieces: &mut List<Piece>,
    none: u32,
    machine: u32,
    job: u32,
    begin: u128,
    end: u128,
) -> Result<(), NoMemory>
    requires begin { begin < 2 ^ 127 }
    requires end { end < 2 ^ 127 }
    ensures { OnOk result (pieces.new ≡ pieces.old ++ part_on none machine job begin end) }
{
    if job == none {
        return Ok(());
    }
    let piece = Piece {
        job,
        op: 0,
        machine,
        from: begin as i128,
        to: end as i128,
    };
    pieces.put(piece)
}

/// Puts the pieces that begin at the moment, the last machine first. Each machine goes on with its job until its end.
fn put_begun(
    pieces: &mut List<Piece>,
    ends: &mut Vec<u128>,
    none: u32,
    jobs: &[u16],
    before: &[u16],
    moment: u128,
) -> Result<(), NoMemory>
    requires many { len ends.old.items ≡ len jobs.now }
    requires before { len before.now ≡ len jobs.now }
    requires few { len jobs.now ≤ MOST_MACHINES }
    requires moment { moment < 2 ^ 127 }
    requires ends { All (λ e. e < 2 ^ 127) ends.old.items }
    ensures pieces { OnOk result (pieces.new ≡ pieces.old ++ begun none before.now jobs.now moment (λ i. slice_index_or ends.old.items i 0) (len jobs.now)) }
    ensures ends { OnOk result (IsNextEnds before.now jobs.now moment ends.old.items ends.new.items) }
{
    let machines = jobs.len();
    for back in 0..machines {
        let machine = machines - 1 - back;
        let job = jobs[machine];
        if job != before[machine] {
            put_part(
                pieces,
                none,
                machine as u32,
                u32::from(job),
                moment,
                ends[machine],
            )?;
            ends[machine] = moment;
        }
    }
    Ok(())
}

/// The jobs in the segment before a place, or none.
fn jobs_before<'a>(segments: &'a [Segment], place: usize, idle: &'a [u16]) -> &'a [u16]
    requires { place ≤ len segments.now }
    ensures { result.now ≡ jobs_until idle.now segments.now place }
{
    if place == 0 {
        return idle;
    }
    segments[place - 1].body.jobs.as_slice()
}

/// How long the segments last.
fn whole_length(segments: &[Segment]) -> u128
    requires { sum_by (λ x. x.length) segments.now < 2 ^ 127 }
    ensures { result ≡ sum_by (λ x. x.length) segments.now }
{
    let mut length: u128 = 0;
    for segment in segments {
        length += segment.length;
    }
    length
}

/// The pieces of all machines.
pub(crate) fn pieces_of(
    alloc: Global,
    segments: &[Segment],
    none: u32,
    machines: u32,
) -> Result<List<Piece>, NoMemory>
    requires none { none < 2 ^ 16 }
    requires few { machines ≤ MOST_MACHINES }
    requires machines { All (λ x. len x.body.value.jobs ≡ machines) segments.now }
    requires short { sum_by (λ x. x.length) segments.now < 2 ^ 127 }
    ensures { IfOk result (λ pieces. IsPermutation (runs none segments.now machines) pieces) }
{
    let idle = Numbers::same(none as u16, machines as usize);
    let mut moment = whole_length(segments);
    let mut ends = vec![in alloc; moment; machines as usize]?;
    let mut pieces = List::new(alloc);
    for back in 0..segments.len() {
        let place = segments.len() - 1 - back;
        let segment = &segments[place];
        moment -= segment.length;
        let jobs = segment.body.jobs.as_slice();
        let before = jobs_before(segments, place, idle.as_slice());
        put_begun(&mut pieces, &mut ends, none, jobs, before, moment)?;
    }
    Ok(pieces)
}
