// A law of instances.
ghost use Rattle.msp_instance.specs.Laws.{LawOfInner};

/// An instance that belongs to its class within the limits of texts keeps the wider limits of carried instances.
pub fn law_of_inner()
    ensures { LawOfInner }
{}
