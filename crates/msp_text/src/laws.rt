// What is fixed by number.
ghost use Rattle.msp_text.specs.Limits.{AreLimits};

/// The limits by their numbers.
pub fn law_of_limits()
    ensures { AreLimits }
{}
