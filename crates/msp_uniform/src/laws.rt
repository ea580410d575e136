// The law of the least end, and the limit of the solver.
ghost use Rattle.msp_uniform.specs.Limits.{AreLimits};
ghost use Rattle.msp_uniform.specs.Uniform.{LawOfLeastEnd};

/// The limit by its number.
pub fn law_of_limits()
    ensures { AreLimits }
{}

/// On uniform machines no feasible schedule ends before the total work over the total speed, nor before the k longest works over the k
/// greatest speeds.
pub fn law_of_least_end()
    ensures { LawOfLeastEnd }
{}
