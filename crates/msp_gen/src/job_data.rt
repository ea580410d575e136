// Jobs: their needs, and what their class uses of release date, due date, weight and cost curve.
ghost use Rattle.std.specs.Prelude.{◌≡◌, ◌<◌, IfOk};
ghost use Rattle.msp_class.specs.Crit.{uses_due, uses_weight, uses_curve};
ghost use Rattle.msp_instance.specs.Instance.{no_curve};
ghost use Rattle.msp_gen.specs.Draws.{draw, draw_from_one, draw_where, draw_turns, draw_one};
ghost use Rattle.msp_gen.specs.Generated.{machines_of, draw_step, draw_curve, draw_job};

use crate::draws::Draws;
use crate::routes::needs;
use msp_class::{Class, List, NoMemory, uses_curve, uses_due, uses_weight};
use msp_instance::{Curve, Job, Step};
use std::alloc::Global;

/// A number below `below` where the class has one, and else 0.
fn date(draws: &mut Draws, has: bool, below: u64) -> u64
    requires some { 0 < below }
    ensures value { result ≡ (draw_where has (draw below) 0 draws.old.seed).value }
    ensures seed { draws.new.seed ≡ (draw_where has (draw below) 0 draws.old.seed).seed }
    ensures size { result < below }
{
    if has { draws.draw(below) } else { 0 }
}

/// A weight where the class has one, and else 1.
fn weight(draws: &mut Draws, has: bool) -> u64
    ensures value { result ≡ (draw_where has (draw_from_one 100) 1 draws.old.seed).value }
    ensures seed { draws.new.seed ≡ (draw_where has (draw_from_one 100) 1 draws.old.seed).seed }
{
    if has { draws.draw_from_one(100) } else { 1 }
}

/// The steps of a cost curve.
fn steps(alloc: Global, draws: &mut Draws, count: u64) -> Result<List<Step>, NoMemory>
    ensures { IfOk result (λ steps. draw_turns (λ _ _. draw_one draw_step) count draws.old.seed ≡ record { value = steps; seed = draws.new.seed }) }
{
    let mut steps = List::new(alloc);
    for _turn in 0..count {
        let above = draws.draw(2000);
        let add = draws.draw(100);
        steps.put(Step { above, add })?;
    }
    Ok(steps)
}

/// A cost curve.
fn some_curve(alloc: Global, draws: &mut Draws) -> Result<Curve, NoMemory>
    ensures { IfOk result (λ curve. draw_curve draws.old.seed ≡ record { value = curve; seed = draws.new.seed }) }
{
    let slope = draws.draw(10);
    let base = draws.draw(1000) as i64 - 500;
    let count = draws.draw(3);
    let steps = steps(alloc, draws, count)?;
    Ok(Curve { slope, base, steps })
}

/// A cost curve where the class has one, and else none.
fn curve(alloc: Global, draws: &mut Draws, has: bool) -> Result<Curve, NoMemory>
    ensures { IfOk result (λ curve. draw_where has draw_curve no_curve draws.old.seed ≡ record { value = curve; seed = draws.new.seed }) }
{
    if has {
        return some_curve(alloc, draws);
    }
    Ok(Curve {
        slope: 0,
        base: 0,
        steps: List::new(alloc),
    })
}

/// A job of the class, on so many machines, with the time that all share where times are not general.
fn job(
    alloc: Global,
    draws: &mut Draws,
    class: Class,
    machines: u32,
    shared: u64,
) -> Result<Job, NoMemory>
    requires { machines ≡ machines_of class.env }
    ensures { IfOk result (λ job. draw_job class machines shared draws.old.seed ≡ record { value = job; seed = draws.new.seed }) }
{
    let needs = needs(alloc, draws, class, machines, shared)?;
    let release = date(draws, class.heads, 1000);
    let due = date(draws, uses_due(class.crit), 1000) as i64;
    let weight = weight(draws, uses_weight(class.crit));
    let curve = curve(alloc, draws, uses_curve(class.crit))?;
    Ok(Job {
        release,
        due,
        weight,
        needs,
        curve,
    })
}

/// So many jobs of the class.
pub fn jobs(
    alloc: Global,
    draws: &mut Draws,
    class: Class,
    machines: u32,
    shared: u64,
    count: u32,
) -> Result<List<Job>, NoMemory>
    requires { machines ≡ machines_of class.env }
    ensures { IfOk result (λ jobs. draw_turns (λ _ _. draw_one (draw_job class machines shared)) count draws.old.seed ≡ record { value = jobs; seed = draws.new.seed }) }
{
    let mut jobs = List::new(alloc);
    for _turn in 0..count {
        let next = job(alloc, draws, class, machines, shared)?;
        jobs.put(next)?;
    }
    Ok(jobs)
}
