// The law of the first break.
ghost use Rattle.msp_schedule.specs.Breaks.{LawOfFirstBreak};

/// The first break of a schedule is determined.
pub fn law_of_first_break()
    ensures { LawOfFirstBreak }
{}
