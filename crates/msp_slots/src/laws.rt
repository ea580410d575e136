// A law of feasible schedules whose jobs all take one time.
ghost use Rattle.msp_slots.specs.Places.{LawOfPlaces};

/// Jobs of one time that may not be cut have whole places in any feasible schedule, and end no earlier than these.
pub fn law_of_places()
    ensures { LawOfPlaces }
{}
