// What the optimality criterion reads of a job, and how it joins the jobs.
ghost use Rattle.std.specs.Prelude.{◌≡◌};
ghost use Rattle.msp_class.specs.Crit.{uses_due, uses_weight, uses_curve, is_greatest};

use crate::class::Crit;

/// Whether the criterion uses due dates.
pub fn uses_due(k: Crit) -> bool
    ensures { result ≡ uses_due k }
{
    match k {
        Crit::Lmax | Crit::SumU | Crit::SumWU | Crit::SumT | Crit::SumWT => true,
        Crit::Cmax | Crit::Fmax | Crit::SumC | Crit::SumWC => false,
    }
}

/// Whether the criterion uses weights.
pub fn uses_weight(k: Crit) -> bool
    ensures { result ≡ uses_weight k }
{
    match k {
        Crit::SumWC | Crit::SumWU | Crit::SumWT => true,
        Crit::Cmax | Crit::Lmax | Crit::Fmax | Crit::SumC | Crit::SumU | Crit::SumT => false,
    }
}

/// Whether the criterion uses cost curves.
pub fn uses_curve(k: Crit) -> bool
    ensures { result ≡ uses_curve k }
{
    matches!(k, Crit::Fmax)
}

/// Whether the criterion is the greatest cost of a job. Else it is the sum of the jobs' costs.
pub fn is_greatest(k: Crit) -> bool
    ensures { result ≡ is_greatest k }
{
    match k {
        Crit::Cmax | Crit::Lmax | Crit::Fmax => true,
        Crit::SumC | Crit::SumWC | Crit::SumU | Crit::SumWU | Crit::SumT | Crit::SumWT => false,
    }
}
