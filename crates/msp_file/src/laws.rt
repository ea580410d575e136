// That texts are read in one way.
ghost use Rattle.msp_file.specs.Laws.{LawOfFrontTexts, LawOfInstanceTexts, LawOfScheduleTexts};

/// Bytes are an instance text exactly where they have no first fault, and each instance and each first fault is the only one.
pub fn law_of_instance_texts()
    ensures { LawOfInstanceTexts }
{}

/// The same of an instance text at the front of the bytes, whatever follows it.
pub fn law_of_front_texts()
    ensures { LawOfFrontTexts }
{}

/// The same of schedule texts, for jobs of given names.
pub fn law_of_schedule_texts()
    ensures { LawOfScheduleTexts }
{}
