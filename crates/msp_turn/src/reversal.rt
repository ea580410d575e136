// Schedules that are read from their end.
ghost use Rattle.std.specs.Prelude.{◌≡◌, ◌<◌, ℤ, pos, ◌+ℤ◌, ◌*ℤ◌, ◌≤ℤ◌, length, All, map};
ghost use Rattle.msp_instance.specs.Conditions.{Inner};
ghost use Rattle.msp_pieces.specs.Within.{IsUnit, IsMoment};
ghost use Rattle.msp_pieces.specs.Cost.{IsSolution};
ghost use Rattle.msp_turn.specs.Reversal.{IsReversible, reversed_piece, turning_moment, reversed_for};

use msp_class::List;
use msp_instance::{Instance, Job};
use msp_pieces::{Piece, Schedule, Solution, cost};

/// The moment up to which the piece reaches with the release date of its job after it.
fn reach(job: &Job, s: &Schedule, piece: &Piece) -> i128
    requires unit { IsUnit s.now.unit }
    requires moment { IsMoment piece.now.to }
    ensures { result ≡ piece.now.to +ℤ (s.now.unit *ℤ pos job.now.release) }
{
    piece.to + s.unit * job.release as i128
}

/// The moment from which the schedule is read back.
fn turning_moment(inst: &Instance, s: &Schedule) -> i128
    requires unit { IsUnit s.now.unit }
    requires jobs { All (λ p. p.job < length inst.now.jobs) s.now.pieces }
    requires moments { All (λ p. IsMoment p.from × IsMoment p.to) s.now.pieces }
    ensures { result ≡ turning_moment inst.now s.now }
{
    let jobs = inst.jobs.as_slice();
    let mut last: i128 = 0;
    for piece in s.pieces.as_slice() {
        last = last.max(reach(&jobs[piece.job as usize], s, piece));
    }
    last
}

/// Reads the piece from the moment `last` back.
fn reverse(piece: &mut Piece, last: i128)
    requires last { pos 0 ≤ℤ last }
    requires moments { IsMoment piece.old.from × IsMoment piece.old.to }
    ensures { piece.new ≡ reversed_piece last piece.old }
{
    let from = piece.from;
    piece.from = last - piece.to;
    piece.to = last - from;
}

fn reverse_all(pieces: &mut [Piece], last: i128)
    requires last { pos 0 ≤ℤ last }
    requires moments { All (λ p. IsMoment p.from × IsMoment p.to) pieces.old }
    ensures { pieces.new ≡ map (reversed_piece last) pieces.old }
{
    for piece in pieces.iter_mut() {
        reverse(piece, last);
    }
}

/// The schedule as it is read from its end, with its cost for the instance.
pub(crate) fn reversed(inst: &Instance, solution: Solution) -> Solution
    requires inner { Inner inst.now }
    requires reversible { IsReversible inst.now solution.schedule }
    ensures schedule { result.schedule ≡ reversed_for inst.now solution.schedule }
    ensures solution { IsSolution inst.now result }
{
    let mut schedule = solution.schedule;
    let last = turning_moment(inst, &schedule);
    let mut pieces = schedule.pieces.take_all();
    reverse_all(&mut pieces, last);
    schedule.pieces = List::from_vec(pieces);
    let cost = cost(inst, &schedule);
    Solution { schedule, cost }
}
