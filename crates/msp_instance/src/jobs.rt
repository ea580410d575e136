// The conditions of a class on one job.
ghost use Rattle.std.specs.Prelude.{◌≡◌, ◌≢◌, ◌<◌, ◌≤◌, ◌↔◌, length, IsTrue, All, Any};
ghost use Rattle.std.specs.List.{AllAdjacentBelow};
ghost use Rattle.msp_class.specs.Env.{kind_of};
ghost use Rattle.msp_instance.specs.Instance.{no_curve};
ghost use Rattle.msp_class.specs.Env.{most_operations};
ghost use Rattle.msp_class.specs.Crit.{uses_due, uses_weight, uses_curve};
ghost use Rattle.msp_instance.specs.Conditions.{text_limits, LiesWithin, IsSingleNeed, IsNeedPerMachine, IsRoute, HasShape, least_time, greatest_time, HasTimes, HasNeeds};
ghost use Rattle.msp_instance.specs.Conditions.{HasSameTimes, HasRelease, HasDue, HasWeight, IsCurve, HasCurve};

use crate::{Curve, Instance, Need, Step};
use msp_class::{
    Crit, Env, EnvKind, GREATEST, GREATEST_EQUAL_TIME, MOST_STEPS, Times, env_kind,
    most_operations, uses_curve, uses_due, uses_weight,
};

fn is_single_need(needs: &[Need]) -> bool
    ensures { IsTrue result ↔ IsSingleNeed needs.now }
{
    needs.len() == 1 && needs.iter().all(|n| n.machine == 0)
}

fn is_need_per_machine(machines: u32, needs: &[Need]) -> bool
    ensures { IsTrue result ↔ IsNeedPerMachine machines needs.now }
{
    if needs.len() != machines as usize {
        return false;
    }
    for (k, need) in needs.iter().enumerate() {
        if need.machine as usize != k {
            return false;
        }
    }
    true
}

/// Whether neighbours are on different machines.
fn moves_on(needs: &[Need]) -> bool
    ensures { IsTrue result
        ↔ AllAdjacentBelow (λ a b. a.machine ≢ b.machine) needs.now (length needs.now) }
{
    for k in 1..needs.len() {
        if needs[k - 1].machine == needs[k].machine {
            return false;
        }
    }
    true
}

fn is_route(most: usize, machines: u32, needs: &[Need]) -> bool
    ensures { IsTrue result ↔ IsRoute most machines needs.now }
{
    !needs.is_empty()
        && needs.len() <= most
        && needs.iter().all(|n| n.machine < machines)
        && moves_on(needs)
}

/// The least time of an operation.
pub fn least_time(kind: EnvKind, times: Times) -> u64
    ensures { result ≡ least_time kind times }
{
    match (kind, times) {
        (EnvKind::OpenShop | EnvKind::FlowShop, Times::General | Times::Unit) => 0,
        _ => 1,
    }
}

/// The greatest time of an operation in instance texts.
fn greatest_time(times: Times) -> u64
    ensures { result ≡ greatest_time text_limits times }
{
    match times {
        Times::General | Times::Unit => GREATEST,
        Times::Equal => GREATEST_EQUAL_TIME,
    }
}

fn has_times(least: u64, greatest: u64, needs: &[Need]) -> bool
    ensures { IsTrue result ↔ HasTimes least greatest needs.now }
{
    needs.iter().all(|n| least <= n.time && n.time <= greatest)
}

fn takes_time(needs: &[Need]) -> bool
    ensures { IsTrue result ↔ Any (λ n. 1 ≤ n.time) needs.now }
{
    needs.iter().any(|n| 1 <= n.time)
}

/// Whether the machines of the needs are those of the environment.
fn has_shape(env: Env, machines: u32, needs: &[Need]) -> bool
    ensures { IsTrue result ↔ HasShape (kind_of env) env machines needs.now }
{
    match env_kind(env) {
        EnvKind::Identical | EnvKind::Uniform => is_single_need(needs),
        EnvKind::Unrelated | EnvKind::OpenShop | EnvKind::FlowShop => {
            is_need_per_machine(machines, needs)
        }
        EnvKind::JobShop => is_route(most_operations(env), machines, needs),
    }
}

/// Whether the needs are those of the environment, with times in range.
pub(crate) fn has_needs(inst: &Instance, needs: &[Need]) -> bool
    ensures { IsTrue result ↔ HasNeeds text_limits inst.now needs.now }
{
    let class = inst.class;
    let least = least_time(env_kind(class.env), class.times);
    has_shape(class.env, inst.machines, needs)
        && has_times(least, greatest_time(class.times), needs)
        && takes_time(needs)
}

/// Whether every time is the one that the class asks for: 1, or the one that all operations share.
pub(crate) fn has_same_times(times: Times, shared: u64, needs: &[Need]) -> bool
    ensures { IsTrue result ↔ HasSameTimes times shared needs.now }
{
    match times {
        Times::General => true,
        Times::Unit => needs.iter().all(|n| n.time == 1),
        Times::Equal => needs.iter().all(|n| n.time == shared),
    }
}

pub(crate) fn has_release(heads: bool, release: u64) -> bool
    ensures { IsTrue result ↔ HasRelease text_limits heads release }
{
    if heads {
        release <= GREATEST
    } else {
        release == 0
    }
}

fn lies_within(x: i64) -> bool
    ensures { IsTrue result ↔ LiesWithin GREATEST x }
{
    -(GREATEST as i64) <= x && x <= GREATEST as i64
}

pub(crate) fn has_due(crit: Crit, due: i64) -> bool
    ensures { IsTrue result ↔ HasDue text_limits (uses_due crit) due }
{
    if uses_due(crit) {
        lies_within(due)
    } else {
        due == 0
    }
}

pub(crate) fn has_weight(crit: Crit, weight: u64) -> bool
    ensures { IsTrue result ↔ HasWeight (uses_weight crit) weight }
{
    if uses_weight(crit) {
        1 <= weight && weight <= GREATEST
    } else {
        weight == 1
    }
}

fn has_steps(steps: &[Step]) -> bool
    ensures { IsTrue result
        ↔ All (λ s. (s.above ≤ GREATEST) × (s.add ≤ GREATEST)) steps.now }
{
    steps
        .iter()
        .all(|s| s.above <= GREATEST && s.add <= GREATEST)
}

fn is_curve(curve: &Curve) -> bool
    ensures { IsTrue result ↔ IsCurve text_limits curve.now }
{
    curve.slope <= GREATEST
        && lies_within(curve.base)
        && curve.steps.len() <= MOST_STEPS
        && has_steps(curve.steps.as_slice())
}

fn is_no_curve(curve: &Curve) -> bool
    ensures { IsTrue result ↔ (curve.now ≡ no_curve) }
{
    curve.slope == 0 && curve.base == 0 && curve.steps.len() == 0
}

pub(crate) fn has_curve(crit: Crit, curve: &Curve) -> bool
    ensures { IsTrue result ↔ HasCurve text_limits (uses_curve crit) curve.now }
{
    if uses_curve(crit) {
        is_curve(curve)
    } else {
        is_no_curve(curve)
    }
}
