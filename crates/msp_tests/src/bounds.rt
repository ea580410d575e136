// Bounds on the greatest lateness and on the greatest cost, tried from both sides.
ghost use Rattle.std.specs.Prelude.{◌≡◌, pos, ◌+ℤ◌, IfSome, IsTrue, All};
ghost use Rattle.msp_class.specs.declared.class.Env.TheVariants.{One};
ghost use Rattle.msp_class.specs.declared.class.Crit.TheVariants.{Lmax};
ghost use Rattle.msp_instance.specs.Conditions.{Inner, LiesWithin};
ghost use Rattle.msp_pieces.specs.Within.{Within};

use msp_class::{Crit, Env, Order};
use msp_due::{TreeDue, can_meet};
use msp_instance::{Instance, Job, Need};
use msp_plain::{meets, shifted};
use msp_route::Solver;
use msp_samples::{JobData, class, instance, instance_by_needs, list_of, need, piece, timed};
use msp_schedule::{Schedule, first_break};
use std::alloc::Global;

/// Jobs of times 2 and 3 with due dates 4 and -2.
fn pair(alloc: Global) -> Option<Instance>
    ensures inner { IfSome result Inner }
    ensures one { IfSome result (λ i. i.class.env ≡ One) }
    ensures lateness { IfSome result (λ i. i.class.crit ≡ Lmax) }
{
    let first = JobData { due: 4, ..timed(2) };
    let second = JobData {
        due: -2,
        ..timed(3)
    };
    instance(
        alloc,
        class(Env::One, Order::Free, Crit::Lmax),
        1,
        &[first, second],
        &[],
    )
}

/// Whether no due date is raised by 5 beyond what an instance may hold.
fn may_be_raised(jobs: &[Job]) -> bool
    ensures { IsTrue result → All (λ j. LiesWithin 2000000000 (j.due +ℤ pos 5)) jobs.now }
{
    jobs.iter()
        .all(|j| -2_000_000_005 <= j.due && j.due <= 1_999_999_995)
}

/// Whether the schedule is small enough to be looked at.
#[tactic(auto, using(crate::proofs::Small::small_within))]
fn is_small(inst: &Instance, s: &Schedule) -> bool
    ensures { IsTrue result → Within inst.now s.now }
{
    s.unit == 1
        && s.pieces.len() <= 2
        && s.pieces
            .as_slice()
            .iter()
            .all(|p| 0 <= p.from && p.from <= 9 && 0 <= p.to && p.to <= 9)
}

/// Whether the schedule meets the bound, or None where it is not feasible.
fn is_met(inst: &Instance, s: &Schedule, bound: i64) -> Option<bool>
    requires inner { Inner inst.now }
    requires one { inst.now.class.env ≡ One }
    requires lateness { inst.now.class.crit ≡ Lmax }
    requires bound { LiesWithin 1000 bound }
{
    if !is_small(inst, s) || first_break(inst, s).is_some() {
        return None;
    }
    Some(meets(inst, s, bound))
}

/// Whether the bound is met where the second job is done before the first.
fn is_met_in_turn(alloc: Global, bound: i64) -> Option<bool>
    requires { LiesWithin 1000 bound }
{
    let inst = pair(alloc)?;
    let pieces = list_of(alloc, &[piece(1, 0, 3), piece(0, 3, 5)]).ok()?;
    is_met(&inst, &Schedule { unit: 1, pieces }, bound)
}

#[test]
fn a_bound_is_met_at_its_end(rt: HostRuntime) {
    // the jobs end at 3 and 5, and are late by 5 and 1
    assert!(rt; is_met_in_turn(rt.alloc(), 5) == Some(true));
    assert!(rt; is_met_in_turn(rt.alloc(), 4) == Some(false));
}

/// The instance with its due dates raised by 5.
fn raised(alloc: Global) -> Option<Instance> {
    let inst = pair(alloc)?;
    if !may_be_raised(inst.jobs.as_slice()) {
        return None;
    }
    shifted(alloc, &inst, 5, Crit::SumU).ok()
}

/// Whether the job has this due date.
fn has_due(inst: &Instance, job: usize, due: i64) -> bool {
    match inst.jobs.get(job) {
        Some(job) => job.due == due,
        None => false,
    }
}

#[test]
fn due_dates_are_raised(rt: HostRuntime) {
    let raised = raised(rt.alloc()).expect(&rt, "an instance");
    assert!(rt; raised.jobs.len() == 2 && raised.class.crit == Crit::SumU);
    assert!(rt; has_due(&raised, 0, 9) && has_due(&raised, 1, 3));
}

/// Whether two jobs of cost 0 can cost at most a bound.
fn can_cost(alloc: Global, bound: i128) -> Option<bool> {
    let needs: [&[Need]; 2] = [&[need(0, 3), need(1, 3)], &[need(0, 3), need(1, 3)]];
    let inst = instance_by_needs(alloc, TreeDue.target(), 2, &[], &needs)?;
    can_meet(alloc, &inst, &bound).ok()
}

#[test]
fn a_cost_can_be_met(rt: HostRuntime) {
    assert!(rt; can_cost(rt.alloc(), 0) == Some(true));
    assert!(rt; can_cost(rt.alloc(), -1) == Some(false));
}
