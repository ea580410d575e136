// A law of feasible schedules of jobs that all take one time on uniform machines.
ghost use Rattle.msp_places.specs.Places.{LawOfEarliestPlaces};

/// Jobs of one time on uniform machines that may not be cut have places of their own among the earliest ones, and end no earlier than
/// these.
pub fn law_of_earliest_places()
    ensures { LawOfEarliestPlaces }
{}
