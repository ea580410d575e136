// Precedence: the arcs of each order, drawn in turns.
ghost use Rattle.std.specs.Prelude.{◌≡◌, ◌<◌, ◌≤◌, ◌+◌, ◌-◌, ◌^◌, IfOk};
ghost use Rattle.std.specs.List.{list_any};
ghost use Rattle.msp_class.specs.declared.sizes.TheConstants.{MOST_JOBS};
ghost use Rattle.msp_gen.specs.Draws.{draw_turns, listed};
ghost use Rattle.msp_gen.specs.Generated.{draw_mostly, draw_before, draw_behind, draw_arc_to_next, draw_arc_from, draw_arc_into, draw_new_arc_into, draw_arcs, arc_turns, is_same};

use crate::draws::Draws;
use msp_class::{List, NoMemory, Order};
use msp_instance::Arc;
use std::alloc::Global;

/// One of up to five jobs before the job.
fn job_before(draws: &mut Draws, job: u32) -> u32
    requires { 0 < job }
    ensures value { result ≡ (draw_before job draws.old.seed).value }
    ensures seed { draws.new.seed ≡ (draw_before job draws.old.seed).seed }
{
    let steps = draws.draw(u64::from(job.min(5)));
    job - 1 - steps as u32
}

/// One of up to five jobs behind the job, which is not the last.
fn job_behind(draws: &mut Draws, jobs: u32, job: u32) -> u32
    requires { job < jobs - 1 }
    ensures value { result ≡ (draw_behind jobs job draws.old.seed).value }
    ensures seed { draws.new.seed ≡ (draw_behind jobs job draws.old.seed).seed }
{
    let steps = draws.draw(u64::from((jobs - 1 - job).min(5)));
    job + 1 + steps as u32
}

/// Whether the arc is one of those.
fn is_there(arcs: &[Arc], arc: Arc) -> bool
    ensures { result ≡ list_any (is_same arc) arcs.now }
{
    arcs.iter().any(|other| arc.before == other.before && arc.after == other.after)
}

/// Two times out of three an arc from the job to the next one.
fn arc_to_next(draws: &mut Draws, job: u32) -> Option<Arc>
    requires { job + 1 < 2 ^ 32 }
    ensures value { listed result ≡ (draw_mostly (draw_arc_to_next job) draws.old.seed).value }
    ensures seed { draws.new.seed ≡ (draw_mostly (draw_arc_to_next job) draws.old.seed).seed }
{
    if draws.draw(3) == 0 {
        return None;
    }
    Some(Arc {
        before: job,
        after: job + 1,
    })
}

/// Two times out of three an arc from the job, which is not the last, to one behind it.
fn arc_from(draws: &mut Draws, jobs: u32, job: u32) -> Option<Arc>
    requires { job < jobs - 1 }
    ensures value { listed result ≡ (draw_mostly (draw_arc_from jobs job) draws.old.seed).value }
    ensures seed { draws.new.seed ≡ (draw_mostly (draw_arc_from jobs job) draws.old.seed).seed }
{
    if draws.draw(3) == 0 {
        return None;
    }
    Some(Arc {
        before: job,
        after: job_behind(draws, jobs, job),
    })
}

/// Two times out of three an arc to the job from one before it.
fn arc_into(draws: &mut Draws, job: u32) -> Option<Arc>
    requires { 0 < job }
    ensures value { listed result ≡ (draw_mostly (draw_arc_into job) draws.old.seed).value }
    ensures seed { draws.new.seed ≡ (draw_mostly (draw_arc_into job) draws.old.seed).seed }
{
    if draws.draw(3) == 0 {
        return None;
    }
    Some(Arc {
        before: job_before(draws, job),
        after: job,
    })
}

/// An arc to the job from one before it, if it is a new one.
fn new_arc_into(draws: &mut Draws, job: u32, before: &[Arc]) -> Option<Arc>
    requires { 0 < job }
    ensures value { listed result ≡ (draw_new_arc_into job before.now draws.old.seed).value }
    ensures seed { draws.new.seed ≡ (draw_new_arc_into job before.now draws.old.seed).seed }
{
    let arc = Arc {
        before: job_before(draws, job),
        after: job,
    };
    if is_there(before, arc) {
        return None;
    }
    Some(arc)
}

/// The arc of a turn, if it has one.
fn arc_of_turn(draws: &mut Draws, order: Order, jobs: u32, turn: u32, before: &[Arc]) -> Option<Arc>
    requires { turn < arc_turns order jobs }
    ensures value { listed result ≡ (draw_arcs order jobs turn before.now draws.old.seed).value }
    ensures seed { draws.new.seed ≡ (draw_arcs order jobs turn before.now draws.old.seed).seed }
{
    match order {
        Order::Free => None,
        Order::Chains => arc_to_next(draws, turn),
        Order::Intree => arc_from(draws, jobs, turn),
        Order::Outtree => arc_into(draws, turn + 1),
        Order::Prec => new_arc_into(draws, turn / 2 + 1, before),
    }
}

/// How many turns the arcs take.
fn turns(order: Order, jobs: u32) -> u32
    requires { jobs ≤ MOST_JOBS }
    ensures { result ≡ arc_turns order jobs }
{
    let behind = jobs.saturating_sub(1);
    match order {
        Order::Free => 0,
        Order::Chains | Order::Intree | Order::Outtree => behind,
        Order::Prec => 2 * behind,
    }
}

/// The arcs between so many jobs.
pub fn arcs(
    alloc: Global,
    draws: &mut Draws,
    order: Order,
    jobs: u32,
) -> Result<List<Arc>, NoMemory>
    requires { jobs ≤ MOST_JOBS }
    ensures { IfOk result (λ arcs. draw_turns (draw_arcs order jobs) (arc_turns order jobs) draws.old.seed ≡ record { value = arcs; seed = draws.new.seed }) }
{
    let mut arcs = List::new(alloc);
    for turn in 0..turns(order, jobs) {
        if let Some(arc) = arc_of_turn(draws, order, jobs, turn, arcs.as_slice()) {
            arcs.put(arc)?;
        }
    }
    Ok(arcs)
}
