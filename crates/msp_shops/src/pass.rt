// Jobs that pass one after another over a first and then over a second machine.
ghost use Rattle.std.specs.Prelude.{◌≡◌, ◌≢◌, ◌*◌, ◌≤◌, ◌++◌, length, All, AllPairs, IfOk, OnOk};
ghost use Rattle.msp_class.specs.declared.sizes.TheConstants.{MOST_JOBS, GREATEST};
ghost use Rattle.msp_shops.specs.Pass.{HasPassed, greatest_begin, part};

use msp_class::{List, NoMemory};
use msp_pieces::Piece;

/// A job's times on the first and on the second machine.
#[derive(Clone, Copy)]
pub struct JobTimes {
    pub job: u32,
    pub first: u64,
    pub second: u64,
}

/// The number of an operation that each of the jobs has, and its machine.
#[derive(Clone, Copy)]
pub struct Stage {
    pub op: u32,
    pub machine: u32,
}

/// A moment on the first, and one on the second machine.
#[derive(Clone, Copy)]
pub struct Moments {
    pub first: u64,
    pub second: u64,
}

/// Puts the operation of a job at the end of the pieces. One that takes no time has no piece.
pub fn put(
    pieces: &mut List<Piece>,
    job: u32,
    stage: Stage,
    begin: u64,
    time: u64,
) -> Result<(), NoMemory>
    requires { (begin ≤ greatest_begin) × (time ≤ greatest_begin) }
    ensures { OnOk result (pieces.new ≡ pieces.old ++ part job stage begin time) }
{
    if time == 0 {
        return Ok(());
    }
    let piece = Piece {
        job,
        op: stage.op,
        machine: stage.machine,
        from: i128::from(begin),
        to: i128::from(begin + time),
    };
    pieces.put(piece)
}

/// Lays the jobs in their order, each as early as it can: on the first machine one after another, and on the second one as soon as the
/// first operation has ended and the machine is free. `from` says from when on the machines are free, and the answer says when they
/// are done.
pub fn pass(
    pieces: &mut List<Piece>,
    jobs: &[JobTimes],
    first: Stage,
    second: Stage,
    from: Moments,
) -> Result<Moments, NoMemory>
    requires machines { first.machine ≢ second.machine }
    requires operations { first.op ≢ second.op }
    requires few { length jobs.now ≤ MOST_JOBS }
    requires once { AllPairs (λ a b. a.job ≢ b.job) jobs.now }
    requires times { All (λ j. (j.first ≤ GREATEST) × (j.second ≤ GREATEST)) jobs.now }
    requires early { (from.first ≤ GREATEST * MOST_JOBS) × (from.second ≤ GREATEST * MOST_JOBS) }
    ensures { IfOk result (λ to. HasPassed first second jobs.now from to pieces.old pieces.new) }
{
    let mut at = from;
    for job in jobs {
        let end = at.first + job.first;
        let begin = end.max(at.second);
        put(pieces, job.job, first, at.first, job.first)?;
        put(pieces, job.job, second, begin, job.second)?;
        at = Moments {
            first: end,
            second: begin + job.second,
        };
    }
    Ok(at)
}
