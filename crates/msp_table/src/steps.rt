// What each group of rows does to a class.
ghost use Rattle.std.specs.Prelude.{◌≡◌, [], ◌∷◌, true, false, not};
ghost use Rattle.msp_table.specs.Parts.{EnvIs, CutIs, OrderIs, HeadsIs, TimesIs, CritIs};
ghost use Rattle.msp_table.specs.Rows.{goes_by, rule, turning_rule, no_condition, general_times, mirror, mirror_no_r_cmax, one_machine_no_r, exchangeable, no_r_cmax_sumc_sumwc};

use msp_class::{Class, Crit, Env, Order, Times, is_mirror, turned};

/// The class with another environment, where it has the first.
pub(crate) fn env_step(c: Class, from: Env, to: Env) -> Option<Class>
    ensures { result ≡ goes_by (rule 0 [] (EnvIs from) no_condition (EnvIs to)) c }
{
    if c.env == from {
        Some(Class { env: to, ..c })
    } else {
        None
    }
}

/// The same, for general times alone.
pub(crate) fn general_env_step(c: Class, from: Env, to: Env) -> Option<Class>
    ensures { result ≡ goes_by (rule 0 [] (EnvIs from) general_times (EnvIs to)) c }
{
    match c.times {
        Times::General => env_step(c, from, to),
        Times::Unit | Times::Equal => None,
    }
}

/// The class with another order, where it has the first.
pub(crate) fn order_step(c: Class, from: Order, to: Order) -> Option<Class>
    ensures { result ≡ goes_by (rule 0 [] (OrderIs from) no_condition (OrderIs to)) c }
{
    if c.order == from {
        Some(Class { order: to, ..c })
    } else {
        None
    }
}

/// The class with another criterion, where it has the first.
pub(crate) fn crit_step(c: Class, from: Crit, to: Crit) -> Option<Class>
    ensures { result ≡ goes_by (rule 0 [] (CritIs from) no_condition (CritIs to)) c }
{
    if c.crit == from {
        Some(Class { crit: to, ..c })
    } else {
        None
    }
}

/// Release dates of 0 where there are none.
pub(crate) fn heads_step(c: Class) -> Option<Class>
    ensures { result ≡ goes_by (rule 0 [] (HeadsIs false) no_condition (HeadsIs true)) c }
{
    if c.heads {
        None
    } else {
        Some(Class { heads: true, ..c })
    }
}

/// The class with other times, where it has the first.
pub(crate) fn times_step(c: Class, from: Times, to: Times) -> Option<Class>
    ensures { result ≡ goes_by (rule 0 [] (TimesIs from) no_condition (TimesIs to)) c }
{
    if c.times == from {
        Some(Class { times: to, ..c })
    } else {
        None
    }
}

/// Equal times counted as 1, where the cost is measured from time 0 alone.
pub(crate) fn unit_step(c: Class) -> Option<Class>
    ensures { result ≡ goes_by (rule 0 [] (TimesIs Times.Equal) no_r_cmax_sumc_sumwc (TimesIs Times.Unit)) c }
{
    match c.crit {
        Crit::Cmax | Crit::SumC | Crit::SumWC if !c.heads => {
            times_step(c, Times::Equal, Times::Unit)
        }
        _ => None,
    }
}

/// Preemption given up or won on one machine without release dates.
pub(crate) fn cut_step(c: Class, to: bool) -> Option<Class>
    ensures { result ≡ goes_by (rule 0 [] (CutIs (not to)) one_machine_no_r (CutIs to)) c }
{
    if c.env == Env::One && !c.heads && c.cut != to {
        Some(Class { cut: to, ..c })
    } else {
        None
    }
}

/// The reversal of a schedule for the makespan without release dates.
pub(crate) fn reversal_step(c: Class, from: Order, to: Order) -> Option<Class>
    ensures { result ≡ goes_by (rule 0 [] (OrderIs from) mirror_no_r_cmax (OrderIs to)) c }
{
    if is_mirror(c.env) && !c.heads && c.crit == Crit::Cmax {
        order_step(c, from, to)
    } else {
        None
    }
}

/// The exchange of times and weights on one machine.
pub(crate) fn exchange_step(c: Class, from: Order, to: Order) -> Option<Class>
    ensures { result ≡ goes_by (rule 0 [] (OrderIs from) exchangeable (OrderIs to)) c }
{
    if c.env == Env::One
        && !c.cut
        && !c.heads
        && c.times == Times::General
        && c.crit == Crit::SumWC
    {
        order_step(c, from, to)
    } else {
        None
    }
}

/// Release dates turned into due dates by the reversal of a schedule.
pub(crate) fn dates_step(c: Class, heads: bool, from: Crit, to: Crit) -> Option<Class>
    ensures { result ≡ goes_by (turning_rule 0 [] (HeadsIs heads ∷ CritIs from ∷ []) mirror (HeadsIs (not heads) ∷ CritIs to ∷ [])) c }
{
    if is_mirror(c.env) && c.heads == heads && c.crit == from {
        Some(Class {
            order: turned(c.order),
            heads: !heads,
            crit: to,
            ..c
        })
    } else {
        None
    }
}
