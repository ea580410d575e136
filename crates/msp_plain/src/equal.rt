// The row from equal times to unit times, where no release dates and no due dates tie jobs to moments.
ghost use Rattle.std.specs.Prelude.{◌≡◌, pos, ◌+ℤ◌, ◌-ℤ◌, ◌*ℤ◌, ◌≤ℤ◌, ◌<ℤ◌, map, All, AllPairs, refl};
ghost use Rattle.std.specs.Int.{int_max};
ghost use Rattle.msp_instance.specs.Instance.{common_time};
ghost use Rattle.msp_route.specs.Bounds.{EndsBy};
ghost use Rattle.msp_route.specs.Law.{IsReordered};
ghost use Rattle.msp_route.specs.declared.bounds.TheConstants.{GREATEST_CLOSED_UP};
ghost use Rattle.msp_pieces.specs.Settled.{IsReportedFirst};
ghost use Rattle.msp_plain.specs.Equal.{unit_need, unit_job, led_to_unit, over_time, moved, closed, closed_up};
ghost use Rattle.msp_route.specs.Rates.{rate_of};
ghost use Rattle.msp_plain.specs.laws.EqualTimes.{lower_54, positive_54, forth_54, back_54};

use msp_class::{List, NoMemory};
use msp_instance::{Instance, Job, Need, common_time};
use msp_pieces::{Piece, Schedule, Solution, cost, sort_pieces};
use msp_route::{Reduction, led};
use msp_table::Row;
use std::alloc::Global;

fn set_times(needs: &mut [Need])
    ensures { needs.new ≡ map unit_need needs.old }
{
    for need in needs.iter_mut() {
        need.time = 1;
    }
}

/// Sets all times of the job to 1.
fn make_unit(job: &mut Job)
    ensures { job.new ≡ unit_job job.old }
{
    let mut needs = job.needs.take_all();
    set_times(&mut needs);
    job.needs = List::from_vec(needs);
}

fn make_all_unit(jobs: &mut [Job])
    ensures { jobs.new ≡ map unit_job jobs.old }
{
    for job in jobs.iter_mut() {
        make_unit(job);
    }
}

/// A sweep over pieces as they begin: the moment by which those so far end, and how many moments before it are idle.
#[derive(Clone, Copy)]
struct Sweep {
    reach: i128,
    idle: i128,
}

/// How many moments before the piece are idle.
fn idle_before(sweep: &Sweep, piece: &Piece) -> i128
    requires idle { pos 0 ≤ℤ sweep.now.idle }
    requires reach { sweep.now.idle ≤ℤ sweep.now.reach }
    ensures { result ≡ sweep.now.idle +ℤ int_max (pos 0) (piece.now.from -ℤ sweep.now.reach) }
{
    if sweep.reach < piece.from {
        sweep.idle + (piece.from - sweep.reach)
    } else {
        sweep.idle
    }
}

/// The sweep past one more piece.
fn past(sweep: &Sweep, piece: &Piece) -> Sweep
    requires idle { pos 0 ≤ℤ sweep.now.idle }
    requires reach { sweep.now.idle ≤ℤ sweep.now.reach }
    ensures reach { result.reach ≡ int_max sweep.now.reach piece.now.to }
    ensures idle { result.idle ≡ sweep.now.idle +ℤ int_max (pos 0) (piece.now.from -ℤ sweep.now.reach) }
{
    Sweep {
        reach: sweep.reach.max(piece.to),
        idle: idle_before(sweep, piece),
    }
}

/// The moment without the idle ones before it, at which every other one lasts as long as the time.
fn stretched(time: u64, sweep: &Sweep, moment: i128) -> i128
    requires idle { pos 0 ≤ℤ sweep.now.idle }
    requires after { sweep.now.idle ≤ℤ moment }
    requires small { (pos time *ℤ (moment -ℤ sweep.now.idle)) ≤ℤ GREATEST_CLOSED_UP }
    ensures { result ≡ pos time *ℤ (moment -ℤ sweep.now.idle) }
{
    time as i128 * (moment - sweep.idle)
}

/// The piece without the idle moments before it, as many times as long as the time says.
fn closed_piece(time: u64, sweep: &Sweep, piece: &Piece) -> Piece
    requires idle { pos 0 ≤ℤ sweep.now.idle }
    requires begins { sweep.now.idle ≤ℤ piece.now.from }
    requires ends { sweep.now.idle ≤ℤ piece.now.to }
    requires small_from { (pos time *ℤ (piece.now.from -ℤ sweep.now.idle)) ≤ℤ GREATEST_CLOSED_UP }
    requires small_to { (pos time *ℤ (piece.now.to -ℤ sweep.now.idle)) ≤ℤ GREATEST_CLOSED_UP }
    ensures { result ≡ moved (λ x. pos time *ℤ (x -ℤ sweep.now.idle)) piece.now }
{
    Piece {
        from: stretched(time, sweep, piece.from),
        to: stretched(time, sweep, piece.to),
        ..*piece
    }
}

/// Closes the pieces, which stand in the order in which they begin.
fn close(pieces: &mut [Piece], time: u64)
    requires span { All (λ p. (pos 0 ≤ℤ p.from) × (p.from <ℤ p.to)) pieces.old }
    requires sorted { AllPairs IsReportedFirst pieces.old }
    requires small { All (λ p. p.to ≤ℤ GREATEST_CLOSED_UP) (closed time pieces.old) }
    ensures { pieces.new ≡ closed time pieces.old }
{
    let mut sweep = Sweep { reach: 0, idle: 0 };
    for piece in pieces.iter_mut() {
        sweep = past(&sweep, piece);
        *piece = closed_piece(time, &sweep, piece);
    }
}

/// Takes out the stretches of time in which no machine works, and multiplies all lengths by the time.
fn close_up(s: &mut Schedule, time: u64)
    requires span { All (λ p. (pos 0 ≤ℤ p.from) × (p.from <ℤ p.to)) s.old.pieces }
    requires small { EndsBy GREATEST_CLOSED_UP (closed_up time s.old) }
    ensures { IsReordered (closed_up time s.old) s.new }
{
    let mut pieces = s.pieces.take_all();
    sort_pieces(&mut pieces);
    close(&mut pieces, time);
    s.pieces = List::from_vec(pieces);
}

/// Equal times are unit times on another scale, where jobs have no release dates and costs read ends and weights alone. Stretches
/// in which no machine works are taken out on the way back, so that moments stay small.
#[derive(Clone, Copy)]
pub struct Row54;

impl Reduction for Row54 {
    ghost number = { λ self. 54 };

    ghost lower_of = { λ self. led_to_unit };

    ghost rate = { λ self. rate_of 54 };

    ghost forth = { λ self i. over_time (common_time i) };

    ghost upper = { λ self i. closed_up (common_time i) };

    fn row(&self) -> Row {
        Row::new(54).unwrap()
    }

    fn down(&self, alloc: Global, inst: &Instance) -> Result<Instance, NoMemory> {
        let mut lower = led(alloc, inst, self.row())?;
        let mut jobs = lower.jobs.take_all();
        make_all_unit(&mut jobs);
        lower.jobs = List::from_vec(jobs);
        Ok(lower)
    }

    fn back(&self, _alloc: Global, inst: &Instance, lower: Solution) -> Result<Solution, NoMemory> {
        let mut schedule = lower.schedule;
        close_up(&mut schedule, common_time(inst));
        let cost = cost(inst, &schedule);
        Ok(Solution { schedule, cost })
    }

    ghost lower_is = { λ self. lower_54 };

    ghost rate_of_row = { λ self i. refl };

    ghost rate_is = { λ self. positive_54 };

    ghost forth_is = { λ self. forth_54 };

    ghost back_is = { λ self. back_54 };
}
