// An instance, and a schedule, as texts have them.
use msp_instance::Instance;
use msp_pieces::{Frac, Schedule};
use msp_text::Names;

/// An instance with the names of its jobs.
#[derive(Drop)]
pub struct Filed {
    pub instance: Instance,
    pub names: Names,
}

/// A schedule and its cost, as a text states them.
#[derive(Drop)]
pub struct Stated {
    pub schedule: Schedule,
    pub cost: Frac,
}
