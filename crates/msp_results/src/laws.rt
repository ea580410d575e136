// What is fixed by number, and that files are read in one way.
ghost use Rattle.msp_results.specs.Laws.{LawOfResults};
ghost use Rattle.msp_results.specs.Limits.{AreLimits};

/// The limits by their numbers.
pub fn law_of_limits()
    ensures { AreLimits }
{}

/// Bytes list entries exactly where they have no first fault, and each list and each first fault is the only one.
pub fn law_of_results()
    ensures { LawOfResults }
{}
