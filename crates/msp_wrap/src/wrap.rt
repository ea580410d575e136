// McNaughton's rule: the jobs in order fill machine after machine up to the least end.
ghost use Rattle.std.specs.Prelude.{◌≡◌, ◌+◌, ◌*◌, ◌<◌, ◌≤◌, ◌++◌, [], ◌∷◌, max, fold, length, map, sum_by, All, IfOk, OnOk};
ghost use Rattle.msp_class.specs.declared.sizes.TheConstants.{MOST_JOBS, MOST_MACHINES, GREATEST};
ghost use Rattle.msp_instance.specs.Conditions.{Inner};
ghost use Rattle.msp_pieces.specs.Cost.{IsBest};
ghost use Rattle.msp_route.specs.Bounds.{IsAnswer};
ghost use Rattle.msp_wrap.specs.Wrap.{wrap_class, time_of, least_end, IsWrapCost};
ghost use Rattle.msp_wrap.specs.Laying.{part, HasOpened, IsWrapped, IsWhollyWrapped};

use msp_class::{Class, Crit, Env, List, NoMemory, Order, Times};
use msp_instance::{Instance, Job};
use msp_pieces::{Piece, Schedule, Solution};
use msp_route::{Solver, best_solution, first_time};
use std::alloc::Global;

/// The class that the rule solves: `P|pmtn|Cmax`.
const WRAP_CLASS: Class = Class {
    env: Env::P,
    cut: true,
    order: Order::Free,
    heads: false,
    times: Times::General,
    crit: Crit::Cmax,
};

/// Where the next job begins: a machine, and a moment in parts of the unit.
#[derive(Clone, Copy)]
struct Place {
    machine: u32,
    moment: u64,
}

/// The longest time of a job.
fn longest_time(jobs: &[Job]) -> u64
    requires needs { All (λ j. (0 < length j.needs) × (time_of j ≤ GREATEST)) jobs.now }
    ensures value { result ≡ fold max 0 (map time_of jobs.now) }
    ensures size { result ≤ GREATEST }
{
    let mut longest: u64 = 0;
    for k in 0..jobs.len() {
        longest = longest.max(first_time(&jobs[k]));
    }
    longest
}

/// How long the jobs take together.
fn total_time(jobs: &[Job]) -> u64
    requires few { length jobs.now ≤ MOST_JOBS }
    requires needs { All (λ j. (0 < length j.needs) × (time_of j ≤ GREATEST)) jobs.now }
    ensures value { result ≡ sum_by time_of jobs.now }
    ensures size { result ≤ GREATEST * MOST_JOBS }
{
    let mut total: u64 = 0;
    for k in 0..jobs.len() {
        total += first_time(&jobs[k]);
    }
    total
}

/// The end of the last machine, where the unit is the number of machines: no schedule ends before.
fn common_end(inst: &Instance) -> u64
    requires inner { Inner inst.now }
    requires class { inst.now.class ≡ wrap_class }
    ensures value { result ≡ least_end inst.now }
    ensures size { result ≤ GREATEST * MOST_JOBS }
{
    let jobs = inst.jobs.as_slice();
    let longest = u64::from(inst.machines) * longest_time(jobs);
    longest.max(total_time(jobs))
}

/// The place, or the begin of the next machine where this one is full.
fn opened(place: Place, end: u64) -> Place
    requires { place.machine ≤ MOST_MACHINES }
    ensures { HasOpened end place.machine place.moment result.machine result.moment }
{
    if place.moment == end {
        Place {
            machine: place.machine + 1,
            moment: 0,
        }
    } else {
        place
    }
}

/// Puts a piece of the job on the machine.
fn put(pieces: &mut List<Piece>, job: u32, machine: u32, from: u64, to: u64) -> Result<(), NoMemory>
    ensures { OnOk result (pieces.new ≡ pieces.old ++ part job machine from to ∷ []) }
{
    let piece = Piece {
        job,
        op: 0,
        machine,
        from: i128::from(from),
        to: i128::from(to),
    };
    pieces.put(piece)
}

/// Puts the job at the place, what is left over on the next machine from moment 0 on, and says where the next job begins.
fn put_job(
    pieces: &mut List<Piece>,
    inst: &Instance,
    end: u64,
    job: u32,
    place: Place,
) -> Result<Place, NoMemory>
    requires inner { Inner inst.now }
    requires class { inst.now.class ≡ wrap_class }
    requires end { end ≡ least_end inst.now }
    requires inside { job < length inst.now.jobs }
    requires wrapped { IsWrapped inst.now end job place.machine place.moment pieces.old }
    ensures { IfOk result (λ p. IsWrapped inst.now end (job + 1) p.machine p.moment pieces.new) }
{
    let work = u64::from(inst.machines) * first_time(&inst.jobs.as_slice()[job as usize]);
    let at = opened(place, end);
    let done = at.moment + work;
    if done <= end {
        put(pieces, job, at.machine, at.moment, done)?;
        return Ok(Place {
            machine: at.machine,
            moment: done,
        });
    }
    let next = Place {
        machine: at.machine + 1,
        moment: done - end,
    };
    put(pieces, job, at.machine, at.moment, end)?;
    put(pieces, job, next.machine, 0, next.moment)?;
    Ok(next)
}

/// The pieces of all jobs in order, machine after machine up to the end.
fn wrapped_pieces(alloc: Global, inst: &Instance, end: u64) -> Result<List<Piece>, NoMemory>
    requires inner { Inner inst.now }
    requires class { inst.now.class ≡ wrap_class }
    requires end { end ≡ least_end inst.now }
    ensures { IfOk result (λ pieces. IsWhollyWrapped inst.now end pieces) }
{
    let mut pieces = List::new(alloc);
    let mut place = Place {
        machine: 0,
        moment: 0,
    };
    for k in 0..inst.jobs.len() {
        place = put_job(&mut pieces, inst, end, k as u32, place)?;
    }
    Ok(pieces)
}

/// Finds a schedule of least length on identical machines, where jobs may be cut, by the wrap around rule: the jobs in order fill machine
/// after machine up to the least end, and a job that does not fit goes on at moment 0 of the next machine (McNaughton 1959). The unit is
/// the number of machines.
#[derive(Clone, Copy)]
pub struct Wrap;

impl Solver for Wrap {
    ghost solved = { λ _. wrap_class };

    fn target(&self) -> Class {
        WRAP_CLASS
    }

    fn fits(&self, _inst: &Instance) -> bool {
        true
    }

    fn solve(&self, alloc: Global, inst: &Instance) -> Result<Solution, NoMemory>
        requires inner { Inner inst.now }
        requires class { inst.now.class ≡ wrap_class }
        ensures best { IfOk result (λ s. IsBest inst.now s) }
        ensures bounds { IfOk result (λ s. IsAnswer inst.now s.schedule) }
        ensures cost { IfOk result (λ s. IsWrapCost inst.now s.cost) }
    {
        let pieces = wrapped_pieces(alloc, inst, common_end(inst))?;
        let schedule = Schedule {
            unit: i128::from(inst.machines),
            pieces,
        };
        Ok(best_solution(inst, schedule))
    }
}
