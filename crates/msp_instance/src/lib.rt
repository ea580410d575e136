//! Instances of scheduling problems, and what it means that an instance belongs to its class.
//!
//! It stands on `msp_class`. The layers above use the definitions `InClass` and `Inner`: an instance meets the conditions of its
//! class within the limits of texts, or within the wider limits that carried instances keep. `check` tests the conditions but for
//! cycles, and `forward` is the rest: it puts the jobs into an order in which every arc goes forward. `entering_of` gives the arcs that
//! enter a job. `law_of_inner` says that an instance within the limits of texts keeps the wider ones.
#![tactic(auto)]

mod arcs;
mod jobs;
mod laws;
mod membership;
mod path_bits;
mod sequence;
mod speeds;

pub use arcs::{arcs_by_after, entering_of};
pub use jobs::least_time;
pub use laws::law_of_inner;
pub use membership::{ClassFault, check, check_distinct_arcs, common_time, first_time};
pub use msp_class::{
    GREATEST, GREATEST_EQUAL_TIME, GREATEST_MULTIPLE, GREATEST_SPEED, MOST_ARCS, MOST_JOBS,
    MOST_MACHINES, MOST_STEPS,
};
use msp_class::{Class, List};
pub use path_bits::Paths;
pub use sequence::{OrderFault, forward};
pub use speeds::{gcd, has_small_multiple, multiple_of_all};

/// An operation that a job needs: its machine, from 0, and its processing time.
///
/// On parallel machines a job has one need. On unrelated machines it has one for each machine, with the time there. In shops the
/// needs are the job's operations.
#[derive(Clone, Copy, PartialEq, Eq)]
pub struct Need {
    pub machine: u32,
    pub time: u64,
}

/// A jump of a cost curve: `add` is owed from any moment after `above` on.
#[derive(Clone, Copy, PartialEq, Eq)]
pub struct Step {
    pub above: u64,
    pub add: u64,
}

/// A job's cost as a function of its completion time `t`: `slope·t + base` and the `add` of each step whose `above` is less than `t`.
#[derive(Drop)]
pub struct Curve {
    pub slope: u64,
    pub base: i64,
    pub steps: List<Step>,
}

/// A job: its release date, due date and weight, the operations that it needs, and its cost curve.
#[derive(Drop)]
pub struct Job {
    pub release: u64,
    pub due: i64,
    pub weight: u64,
    pub needs: List<Need>,
    pub curve: Curve,
}

/// A precedence constraint between two jobs, from 0: `before` is complete when `after` begins.
#[derive(Clone, Copy, PartialEq, Eq, Hash)]
pub struct Arc {
    pub before: u32,
    pub after: u32,
}

/// An instance of a class. A field that the class does not use holds its neutral value: release and due dates 0, weights 1, no
/// curve, no speeds, no arcs.
#[derive(Drop)]
pub struct Instance {
    pub class: Class,
    pub machines: u32,
    pub speeds: List<u64>,
    pub jobs: List<Job>,
    pub arcs: List<Arc>,
}
