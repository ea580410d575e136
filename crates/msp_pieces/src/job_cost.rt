// The cost of one job.
ghost use Rattle.std.specs.Prelude.{◌≡◌, ℕ, ◌*◌, ◌<◌, ◌≤◌, pos, ◌+ℤ◌, ◌-ℤ◌, ◌*ℤ◌, unsigned_abs, sum_by, length, All, int_lt, if◌then◌else◌};
ghost use Rattle.std.specs.Int.{int_max};
ghost use Rattle.msp_class.specs.declared.sizes.TheConstants.{MOST_STEPS, GREATEST};
ghost use Rattle.msp_instance.specs.Conditions.{LiesWithin};
ghost use Rattle.msp_pieces.specs.Cost.{jump, jumps, job_cost};
ghost use Rattle.msp_pieces.specs.Within.{i128_limit, IsMoment, IsUnit, HasSmallCost, greatest_cost, greatest_scaled, greatest_lateness, greatest_level, greatest_adds, greatest_slope_cost};

use msp_class::Crit;
use msp_instance::{Curve, Job, Step};

/// The product of two numbers, where it fits.
pub fn product(a: i128, b: i128) -> i128
    requires { unsigned_abs a * unsigned_abs b < i128_limit }
    ensures { result ≡ a *ℤ b }
{
    a * b
}

/// How far the moment is after the due date.
fn lateness_at(unit: i128, due: i64, end: i128) -> i128
    requires moment { IsMoment end }
    requires small { LiesWithin greatest_scaled (unit *ℤ due) }
    ensures value { result ≡ end -ℤ (unit *ℤ due) }
    ensures size { LiesWithin greatest_lateness result }
{
    end - product(unit, i128::from(due))
}

fn weighted(weight: u64, x: i128) -> i128
    requires weight { weight ≤ GREATEST }
    requires small { LiesWithin greatest_lateness x }
    ensures value { result ≡ pos weight *ℤ x }
    ensures size { LiesWithin greatest_cost result }
{
    product(i128::from(weight), x)
}

/// What a step adds at the moment.
fn jump_at(unit: i128, step: Step, end: i128) -> u64
    requires { LiesWithin greatest_scaled (unit *ℤ pos step.above) }
    ensures { result ≡ jump unit step end }
{
    if product(unit, i128::from(step.above)) < end {
        step.add
    } else {
        0
    }
}

/// What a curve adds in steps whose threshold is before the moment.
fn jumps_at(unit: i128, curve: &Curve, end: i128) -> u128
    requires few { length curve.now.steps ≤ MOST_STEPS }
    requires small { All (λ s. LiesWithin greatest_scaled (unit *ℤ pos s.above)) curve.now.steps }
    ensures value { result ≡ jumps unit curve.now end }
    ensures size { result ≤ greatest_adds }
{
    let mut total: u128 = 0;
    for step in curve.steps.as_slice() {
        total += u128::from(jump_at(unit, *step, end));
    }
    total
}

fn tardiness_at(unit: i128, due: i64, end: i128) -> i128
    requires moment { IsMoment end }
    requires small { LiesWithin greatest_scaled (unit *ℤ due) }
    ensures value { result ≡ int_max (pos 0) (end -ℤ (unit *ℤ due)) }
    ensures size { LiesWithin greatest_lateness result }
{
    let late = lateness_at(unit, due, end);
    if late < 0 { 0 } else { late }
}

/// The unit where the job is late, and else 0.
fn late_at(unit: i128, due: i64, end: i128) -> i128
    requires unit { IsUnit unit }
    requires moment { IsMoment end }
    requires small { LiesWithin greatest_scaled (unit *ℤ due) }
    ensures value { result ≡ (if int_lt (unit *ℤ due) end then unit else pos 0) }
    ensures size { LiesWithin greatest_lateness result }
{
    if product(unit, i128::from(due)) < end {
        unit
    } else {
        0
    }
}

/// `unit * (base + adds)`.
fn level_at(unit: i128, base: i64, adds: u128) -> i128
    requires small { adds ≤ greatest_adds }
    requires level { LiesWithin greatest_level (unit *ℤ (base +ℤ pos adds)) }
    ensures value { result ≡ unit *ℤ (base +ℤ pos adds) }
    ensures size { LiesWithin greatest_level result }
{
    product(unit, i128::from(base) + adds as i128)
}

fn slope_cost(slope: u64, end: i128) -> i128
    requires slope { slope ≤ GREATEST }
    requires moment { IsMoment end }
    ensures value { result ≡ pos slope *ℤ end }
    ensures size { LiesWithin greatest_slope_cost result }
{
    product(i128::from(slope), end)
}

fn curve_cost(unit: i128, curve: &Curve, end: i128) -> i128
    requires moment { IsMoment end }
    requires few { length curve.now.steps ≤ MOST_STEPS }
    requires small { All (λ s. LiesWithin greatest_scaled (unit *ℤ pos s.above)) curve.now.steps }
    requires slope { curve.now.slope ≤ GREATEST }
    requires base { (adds : ℕ) → adds ≤ sum_by (λ s. s.add) curve.now.steps → LiesWithin greatest_level (unit *ℤ (curve.now.base +ℤ pos adds)) }
    ensures value { result ≡ (pos curve.now.slope *ℤ end) +ℤ (unit *ℤ (curve.now.base +ℤ pos (jumps unit curve.now end))) }
    ensures size { LiesWithin greatest_cost result }
{
    let adds = jumps_at(unit, curve, end);
    let level = level_at(unit, curve.base, adds);
    slope_cost(curve.slope, end) + level
}

/// What a job costs that ends at the moment, over the unit.
pub fn job_cost_at(crit: Crit, unit: i128, job: &Job, end: i128) -> i128
    requires unit { IsUnit unit }
    requires moment { IsMoment end }
    requires small { HasSmallCost unit job.now }
    ensures value { result ≡ job_cost crit unit job.now end }
    ensures size { LiesWithin greatest_cost result }
{
    match crit {
        Crit::Cmax | Crit::SumC => end,
        Crit::Lmax => lateness_at(unit, job.due, end),
        Crit::Fmax => curve_cost(unit, &job.curve, end),
        Crit::SumWC => weighted(job.weight, end),
        Crit::SumU => late_at(unit, job.due, end),
        Crit::SumWU => weighted(job.weight, late_at(unit, job.due, end)),
        Crit::SumT => tardiness_at(unit, job.due, end),
        Crit::SumWT => weighted(job.weight, tardiness_at(unit, job.due, end)),
    }
}
