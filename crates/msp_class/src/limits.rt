// The limits of classes, lists, instances and schedules.
ghost use Rattle.msp_class.specs.Limits.{AreLimits};

/// The number of classes, how many places are told apart, and the sizes that bound instances and schedules, by their numbers.
pub fn law_of_limits()
    ensures { AreLimits }
{}
