// What is asked, and how far jobs are laid.
use crate::segments::Segment;

/// The times of the jobs, the speeds of the machines, the least end, and a common multiple of all speeds.
#[derive(Drop)]
pub(crate) struct Task {
    pub(crate) times: Vec<u64>,
    pub(crate) speeds: Vec<u64>,
    /// The least end is this work over this speed.
    pub(crate) work: u64,
    pub(crate) speed: u64,
    pub(crate) multiple: u64,
}

/// Segments over a unit, in each of which so many machines are free.
#[derive(Drop)]
pub(crate) struct Plan {
    pub(crate) unit: u128,
    pub(crate) places: usize,
    pub(crate) segments: Vec<Segment>,
}

/// Segments in which all jobs are laid.
#[derive(Drop)]
pub(crate) struct Filled {
    pub(crate) unit: u128,
    pub(crate) segments: Vec<Segment>,
}
